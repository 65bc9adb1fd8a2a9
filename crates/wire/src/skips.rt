//! The ends of records and questions, found without reading them (RFC 1035, section 4): it takes no memory.
ghost use Rattle.std.specs.Prelude.{◌≡◌, ℕ, ◌≤◌, ◌<◌, ◌+◌, List, length, IfOk};
ghost use Rattle.wire.specs.Chains.{AreChainEnds};
ghost use Rattle.wire.specs.Entries.{entry_at, section_from, question_at, questions_from};
ghost use Rattle.wire.specs.Results.{end_of};
ghost use Rattle.wire.specs.Values.{bytes_within, string_at, form_at};

use crate::error::WireError;
use crate::names::{full_name_end, name_end, name_end_within};
use crate::records::body_at;
use rdata::RType;

// The end of this many bytes.
fn bytes_end(count: usize, at: usize, end: usize) -> Result<usize, WireError>
    requires { at ≤ end }
    ensures { (bytes : List ℕ) → result ≡ end_of (bytes_within count bytes at end) }
{
    if end - at < count {
        return Err(WireError::BadRdataLength);
    }
    Ok(at + count)
}

// The end of a character-string.
fn string_end(bytes: &[u8], at: usize, end: usize) -> Result<usize, WireError>
    requires { end ≤ length bytes.now }
    ensures is { result ≡ end_of (string_at bytes.now at end) }
    ensures within { IfOk result (λ past. (at < past) × (past ≤ end)) }
{
    if end <= at {
        return Err(WireError::BadRdataLength);
    }
    let size = usize::from(bytes[at]);
    if end - at - 1 < size {
        return Err(WireError::BadRdataLength);
    }
    Ok(at + 1 + size)
}

// The end of one or more character-strings up to the end.
pub(crate) fn texts_end(bytes: &[u8], at: usize, end: usize) -> Result<usize, WireError>
    requires { end ≤ length bytes.now }
    ensures { result ≡ end_of (form_at RType.Txt bytes.now at end) }
{
    let mut place = string_end(bytes, at, end)?;
    while place < end {
        place = string_end(bytes, place, end)?;
    }
    Ok(end)
}

#[tactic(auto, using(crate::proofs::Skipping::handed))]
fn soa_end(bytes: &[u8], ends: &[u16], at: usize, end: usize) -> Result<usize, WireError>
    requires fits { end ≤ length bytes.now }
    requires known { AreChainEnds bytes.now ends.now }
    ensures { result ≡ end_of (form_at RType.Soa bytes.now at end) }
{
    let at = name_end_within(bytes, ends, at, end)?;
    let at = name_end_within(bytes, ends, at, end)?;
    if end - at < 20 {
        return Err(WireError::BadRdataLength);
    }
    Ok(at + 20)
}

#[tactic(auto, using(crate::proofs::Skipping::handed))]
fn mx_end(bytes: &[u8], ends: &[u16], at: usize, end: usize) -> Result<usize, WireError>
    requires fits { end ≤ length bytes.now }
    requires starts { at ≤ end }
    requires known { AreChainEnds bytes.now ends.now }
    ensures { result ≡ end_of (form_at RType.Mx bytes.now at end) }
{
    if end - at < 2 {
        return Err(WireError::BadRdataLength);
    }
    name_end_within(bytes, ends, at + 2, end)
}

#[tactic(auto, using(crate::proofs::Skipping::handed))]
fn srv_end(bytes: &[u8], at: usize, end: usize) -> Result<usize, WireError>
    requires fits { end ≤ length bytes.now }
    requires starts { at ≤ end }
    ensures { result ≡ end_of (form_at RType.Srv bytes.now at end) }
{
    if end - at < 6 {
        return Err(WireError::BadRdataLength);
    }
    full_name_end(bytes, at + 6, end)
}

// The end of RDATA in the form of a type.
#[tactic(auto, using(crate::proofs::Skipping::handed))]
fn form_end(
    kind: RType,
    bytes: &[u8],
    ends: &[u16],
    at: usize,
    end: usize,
) -> Result<usize, WireError>
    requires fits { end ≤ length bytes.now }
    requires starts { at ≤ end }
    requires known { AreChainEnds bytes.now ends.now }
    ensures { result ≡ end_of (form_at kind bytes.now at end) }
{
    match kind {
        RType::A => bytes_end(4, at, end),
        RType::Aaaa => bytes_end(16, at, end),
        RType::Ns | RType::Cname | RType::Ptr => name_end_within(bytes, ends, at, end),
        RType::Soa => soa_end(bytes, ends, at, end),
        RType::Mx => mx_end(bytes, ends, at, end),
        RType::Txt => texts_end(bytes, at, end),
        RType::Srv => srv_end(bytes, at, end),
    }
}

// The end of the record at a place, skipped or not.
fn entry_end(bytes: &[u8], ends: &[u16], at: usize) -> Result<usize, WireError>
    requires { AreChainEnds bytes.now ends.now }
    ensures { result ≡ end_of (entry_at bytes.now at) }
{
    let past = name_end(bytes, ends, at)?;
    let (kind, size) = body_at(bytes, past)?;
    let end = past + 10 + size;
    match kind {
        None => Ok(end),
        Some(kind) => {
            if form_end(kind, bytes, ends, past + 10, end)? != end {
                return Err(WireError::BadRdataLength);
            }
            Ok(end)
        }
    }
}

// The end of this many records from a place on: of two of 16 bytes at 19, 51.
pub fn section_end(bytes: &[u8], ends: &[u16], count: u16, at: usize) -> Result<usize, WireError>
    requires { AreChainEnds bytes.now ends.now }
    ensures { result ≡ end_of (section_from count bytes.now at) }
{
    let mut place = at;
    for _ in 0..count {
        place = entry_end(bytes, ends, place)?;
    }
    Ok(place)
}

// The end of the question at a place.
#[tactic(auto, using(crate::proofs::Skipping::handed), unfolding(crate::specs::Entries::question_at))]
fn question_end(bytes: &[u8], ends: &[u16], at: usize) -> Result<usize, WireError>
    requires { AreChainEnds bytes.now ends.now }
    ensures { result ≡ end_of (question_at bytes.now at) }
{
    let past = name_end(bytes, ends, at)?;
    if bytes.len() - past < 4 {
        return Err(WireError::Short);
    }
    Ok(past + 4)
}

// The end of this many questions from a place on: of one for `a.` at 12, 19.
pub fn questions_end(bytes: &[u8], ends: &[u16], count: u16, at: usize) -> Result<usize, WireError>
    requires { AreChainEnds bytes.now ends.now }
    ensures { result ≡ end_of (questions_from count bytes.now at) }
{
    let mut place = at;
    for _ in 0..count {
        place = question_end(bytes, ends, place)?;
    }
    Ok(place)
}
