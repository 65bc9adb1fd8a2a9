//! Records and questions, read; records that are not served are skipped.
ghost use Rattle.std.specs.Prelude.{◌≡◌, ℕ, ◌≤◌, ◌+◌, List, Option, option_to_list, ◌++◌, length, OnOk, IfOk, IsOk, IsTrue, Ok, None};
ghost use Rattle.rdata.specs.Records as plain;
ghost use Rattle.message_grammar.specs.Messages as layouts;
ghost use Rattle.message_grammar.specs.Messages.{ttl_of};
ghost use Rattle.wire.specs.Chains.{AreChainEnds};
ghost use Rattle.wire.specs.Entries.{entry_behind, entry_kept, entry_at, section_from, question_at, questions_from};
ghost use Rattle.wire.specs.Numbers.{four_at};
ghost use Rattle.wire.specs.Results.{Gives, and_then};
ghost use Rattle.wire.specs.Skips.{IsSkipping};

use crate::error::WireError;
use crate::fields::{four_at, two_at};
use crate::message::{Question, Questions};
use crate::names::{name_at, name_end};
use crate::parts::Faults;
use crate::served::served_type;
use crate::values::value_at;
use memory::{Heap, Starved};
use rdata::{GREATEST_TTL, RType, Record, Records};

// The TTL of a record: one with its top bit set is 0 (RFC 2181, section 8). So 300 is 300, and 2,147,483,648 is 0.
pub fn ttl_of(ttl: u32) -> u32
    ensures is { result ≡ ttl_of ttl }
    ensures within { result ≤ GREATEST_TTL }
{
    if ttl > GREATEST_TTL { 0 } else { ttl }
}

// Whether bytes begin as most records do: a pointer, and behind it a served type and class IN. What begins so is not
// skipped, if it is a record.
fn begins_usual(bytes: &[u8], at: usize) -> bool
    ensures { IsTrue result → (end : ℕ) → entry_at bytes.now at ≡ Ok (None, end) → ⊥ }
{
    if bytes.len() < 12 || at > bytes.len() - 12 || bytes[at] < 192 {
        return false;
    }
    served_type(two_at(bytes, at + 2), two_at(bytes, at + 4)).is_some()
}

// What stands between the owner of a record and its RDATA, which are to end within the bytes: its type, none where type
// or class is not served, and RDLENGTH.
pub fn body_at(bytes: &[u8], at: usize) -> Result<(Option<RType>, usize), WireError>
    requires { at ≤ length bytes.now }
    ensures is { (owner : List (List ℕ)) → entry_behind bytes.now (owner, at) ≡ and_then result (λ b. entry_kept b.0 bytes.now owner (four_at bytes.now (at + 4)) (at + 10) (at + 10 + b.1)) }
    ensures within { IfOk result (λ b. at + 10 + b.1 ≤ length bytes.now) }
{
    if bytes.len() - at < 10 {
        return Err(WireError::Short);
    }
    let size = usize::from(two_at(bytes, at + 8));
    if bytes.len() - at - 10 < size {
        return Err(WireError::Short);
    }
    Ok((served_type(two_at(bytes, at), two_at(bytes, at + 2)), size))
}

// The end of the record at a place, if that is skipped: its owner is walked, and takes no memory.
fn skipped_end(bytes: &[u8], ends: &[u16], at: usize) -> Result<Option<usize>, WireError>
    requires { AreChainEnds bytes.now ends.now }
    ensures { IsSkipping result (entry_at bytes.now at) }
{
    if begins_usual(bytes, at) {
        return Ok(None);
    }
    let past = name_end(bytes, ends, at)?;
    let (kind, size) = body_at(bytes, past)?;
    match kind {
        None => Ok(Some(past + 10 + size)),
        Some(_) => Ok(None),
    }
}

// The record at a place, if it is served, and its end.
fn record_at<A: Heap>(
    alloc: A,
    bytes: &[u8],
    ends: &[u16],
    at: usize,
) -> Result<(Option<Record<A>>, usize), WireError>
    requires { AreChainEnds bytes.now ends.now }
    ensures { Gives {Y = Option plain.Record × ℕ} (λ x. (x.0, x.1)) result (entry_at bytes.now at) }
{
    let (owner, at) = name_at(alloc, bytes, ends, Faults::in_message(), bytes.len(), at)?;
    let (kind, size) = body_at(bytes, at)?;
    let start = at + 10;
    match kind {
        None => Ok((None, start + size)),
        Some(kind) => {
            let value = value_at(alloc, kind, bytes, ends, start, start + size)?;
            let ttl = ttl_of(four_at(bytes, at + 4));
            Ok((Some(Record { owner, ttl, value }), start + size))
        }
    }
}

// The record at a place, unless it is skipped, and its end. A skipped one takes no memory.
fn entry_at<A: Heap>(
    alloc: A,
    bytes: &[u8],
    ends: &[u16],
    at: usize,
) -> Result<(Option<Record<A>>, usize), WireError>
    requires { AreChainEnds bytes.now ends.now }
    ensures is { Gives {Y = Option plain.Record × ℕ} (λ x. (x.0, x.1)) result (entry_at bytes.now at) }
    ensures skipped { (end : ℕ) → entry_at bytes.now at ≡ Ok (None, end) → IsOk result }
{
    match skipped_end(bytes, ends, at)? {
        Some(end) => Ok((None, end)),
        None => record_at(alloc, bytes, ends, at),
    }
}

// Adds a record where there is one.
fn keep<A: Heap>(records: &mut Records<A>, found: Option<Record<A>>) -> Result<(), Starved>
    ensures { OnOk result (records.new ≡ records.old ++ option_to_list found) }
{
    match found {
        None => Ok(()),
        Some(record) => records.push(record),
    }
}

// The records among this many from a place on, without skipped ones, and the end of all: of an A and an HTTPS record,
// the A, and the end of the HTTPS.
pub fn section_at<A: Heap>(
    alloc: A,
    bytes: &[u8],
    ends: &[u16],
    count: u16,
    at: usize,
) -> Result<(Records<A>, usize), WireError>
    requires { AreChainEnds bytes.now ends.now }
    ensures { Gives {Y = List plain.Record × ℕ} (λ x. (x.0, x.1)) result (section_from count bytes.now at) }
{
    let mut records = Records::new(alloc);
    let mut place = at;
    for _ in 0..count {
        let (found, next) = entry_at(alloc, bytes, ends, place)?;
        keep(&mut records, found)?;
        place = next;
    }
    Ok((records, place))
}

// The question at a place, and its end.
#[tactic(auto, using(crate::proofs::Walks::fails_with), unfolding(crate::specs::Entries::question_at))]
fn question_at<A: Heap>(
    alloc: A,
    bytes: &[u8],
    ends: &[u16],
    at: usize,
) -> Result<(Question<A>, usize), WireError>
    requires { AreChainEnds bytes.now ends.now }
    ensures { Gives {Y = layouts.Question × ℕ} (λ x. (x.0, x.1)) result (question_at bytes.now at) }
{
    let (name, at) = name_at(alloc, bytes, ends, Faults::in_message(), bytes.len(), at)?;
    if bytes.len() - at < 4 {
        return Err(WireError::Short);
    }
    let qtype = two_at(bytes, at);
    let qclass = two_at(bytes, at + 2);
    Ok((
        Question {
            name,
            qtype,
            qclass,
        },
        at + 4,
    ))
}

// This many questions from a place on, and their end: of one for `a.` at 12, it and 19.
pub fn questions_at<A: Heap>(
    alloc: A,
    bytes: &[u8],
    ends: &[u16],
    count: u16,
    at: usize,
) -> Result<(Questions<A>, usize), WireError>
    requires { AreChainEnds bytes.now ends.now }
    ensures { Gives {Y = List layouts.Question × ℕ} (λ x. (x.0, x.1)) result (questions_from count bytes.now at) }
{
    let mut questions = Questions::new(alloc);
    let mut place = at;
    for _ in 0..count {
        let (question, next) = question_at(alloc, bytes, ends, place)?;
        questions.push(question)?;
        place = next;
    }
    Ok((questions, place))
}
