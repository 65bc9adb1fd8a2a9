//! RDATA read, within the length that RDLENGTH gives.
ghost use Rattle.std.specs.Prelude.{◌≡◌, ℕ, ◌+◌, ◌≤◌, List, length, IfOk};
ghost use Rattle.rdata.specs.Data.{Datum};
ghost use Rattle.rdata.specs.Kept.{datum};
ghost use Rattle.wire.specs.Values.{texts_at, form_at, value_at, name_within};
ghost use Rattle.wire.specs.Chains.{AreChainEnds};
ghost use Rattle.wire.specs.Numbers.{four_at};
ghost use Rattle.wire.specs.Results.{Gives};

use crate::error::WireError;
use crate::fields::{four_at, two_at};
use crate::names::{full_name_at, name_at};
use crate::parts::Faults;
use crate::skips::texts_end;
use dname::Name;
use memory::Heap;
use rdata::{Addr, RData, RType, Soa, Srv, Texts};

// A name in RDATA that end at `end`.
fn name_within<A: Heap>(
    alloc: A,
    bytes: &[u8],
    ends: &[u16],
    at: usize,
    end: usize,
) -> Result<(Name<A>, usize), WireError>
    requires fits { end ≤ length bytes.now }
    requires known { AreChainEnds bytes.now ends.now }
    ensures is { Gives {Y = List (List ℕ) × ℕ} (λ x. (x.0, x.1)) result (name_within bytes.now at end) }
    ensures within { IfOk result (λ x. x.1 ≤ end) }
{
    name_at(alloc, bytes, ends, Faults::in_rdata(), end, at)
}

// One or more strings up to the end: their bytes as they stand, once it is known that they end there.
fn texts_at<A: Heap>(alloc: A, bytes: &[u8], at: usize, end: usize) -> Result<Texts<A>, WireError>
    requires { end ≤ length bytes.now }
    ensures { Gives {Y = List (List ℕ)} (λ x. x) result (texts_at bytes.now at end) }
{
    texts_end(bytes, at, end)?;
    let wire = Vec::from_slice(alloc, &bytes[at..end])?;
    Ok(Texts::of_wire(wire))
}

// An SOA of two names and of the five numbers at a place.
fn soa_of<A: Heap>(primary: Name<A>, mailbox: Name<A>, bytes: &[u8], at: usize) -> Soa<A>
    requires { at + 20 ≤ length bytes.now }
    ensures { result ≡ record { primary = primary; mailbox = mailbox; serial = four_at bytes.now at; refresh = four_at bytes.now (at + 4); retry = four_at bytes.now (at + 8); expire = four_at bytes.now (at + 12); minimum = four_at bytes.now (at + 16) } }
{
    Soa {
        primary,
        mailbox,
        serial: four_at(bytes, at),
        refresh: four_at(bytes, at + 4),
        retry: four_at(bytes, at + 8),
        expire: four_at(bytes, at + 12),
        minimum: four_at(bytes, at + 16),
    }
}

fn soa_at<A: Heap>(
    alloc: A,
    bytes: &[u8],
    ends: &[u16],
    at: usize,
    end: usize,
) -> Result<(RData<A>, usize), WireError>
    requires fits { end ≤ length bytes.now }
    requires known { AreChainEnds bytes.now ends.now }
    ensures { Gives {Y = Datum × ℕ} (λ x. (datum x.0, x.1)) result (form_at RType.Soa bytes.now at end) }
{
    let (primary, at) = name_within(alloc, bytes, ends, at, end)?;
    let (mailbox, at) = name_within(alloc, bytes, ends, at, end)?;
    if end - at < 20 {
        return Err(WireError::BadRdataLength);
    }
    let soa = Box::new(alloc, soa_of(primary, mailbox, bytes, at))?;
    Ok((RData::Soa(soa), at + 20))
}

fn mx_at<A: Heap>(
    alloc: A,
    bytes: &[u8],
    ends: &[u16],
    at: usize,
    end: usize,
) -> Result<(RData<A>, usize), WireError>
    requires fits { end ≤ length bytes.now }
    requires starts { at ≤ end }
    requires known { AreChainEnds bytes.now ends.now }
    ensures { Gives {Y = Datum × ℕ} (λ x. (datum x.0, x.1)) result (form_at RType.Mx bytes.now at end) }
{
    if end - at < 2 {
        return Err(WireError::BadRdataLength);
    }
    let preference = two_at(bytes, at);
    let (exchange, at) = name_within(alloc, bytes, ends, at + 2, end)?;
    Ok((RData::Mx(preference, exchange), at))
}

fn srv_at<A: Heap>(
    alloc: A,
    bytes: &[u8],
    at: usize,
    end: usize,
) -> Result<(RData<A>, usize), WireError>
    requires fits { end ≤ length bytes.now }
    requires starts { at ≤ end }
    ensures { Gives {Y = Datum × ℕ} (λ x. (datum x.0, x.1)) result (form_at RType.Srv bytes.now at end) }
{
    if end - at < 6 {
        return Err(WireError::BadRdataLength);
    }
    let priority = two_at(bytes, at);
    let weight = two_at(bytes, at + 2);
    let port = two_at(bytes, at + 4);
    let (target, past) = full_name_at(alloc, bytes, Faults::in_rdata(), end, at + 6)?;
    let srv = Srv {
        priority,
        weight,
        port,
        target,
    };
    Ok((RData::Srv(Box::new(alloc, srv)?), past))
}

fn ipv4_at<A: Heap>(bytes: &[u8], at: usize, end: usize) -> Result<(RData<A>, usize), WireError>
    requires fits { end ≤ length bytes.now }
    requires starts { at ≤ end }
    ensures { Gives {Y = Datum × ℕ} (λ x. (datum x.0, x.1)) result (form_at RType.A bytes.now at end) }
{
    if end - at < 4 {
        return Err(WireError::BadRdataLength);
    }
    let mut address = [0; 4];
    address.copy_from_slice(&bytes[at..at + 4]);
    Ok((RData::A(Addr(address)), at + 4))
}

fn ipv6_at<A: Heap>(bytes: &[u8], at: usize, end: usize) -> Result<(RData<A>, usize), WireError>
    requires fits { end ≤ length bytes.now }
    requires starts { at ≤ end }
    ensures { Gives {Y = Datum × ℕ} (λ x. (datum x.0, x.1)) result (form_at RType.Aaaa bytes.now at end) }
{
    if end - at < 16 {
        return Err(WireError::BadRdataLength);
    }
    let mut address = [0; 16];
    address.copy_from_slice(&bytes[at..at + 16]);
    Ok((RData::Aaaa(address), at + 16))
}

// RDATA of a type at a place, and where they end.
fn form_at<A: Heap>(
    alloc: A,
    kind: RType,
    bytes: &[u8],
    ends: &[u16],
    at: usize,
    end: usize,
) -> Result<(RData<A>, usize), WireError>
    requires fits { end ≤ length bytes.now }
    requires starts { at ≤ end }
    requires known { AreChainEnds bytes.now ends.now }
    ensures { Gives {Y = Datum × ℕ} (λ x. (datum x.0, x.1)) result (form_at kind bytes.now at end) }
{
    match kind {
        RType::A => ipv4_at(bytes, at, end),
        RType::Ns => {
            let (name, past) = name_within(alloc, bytes, ends, at, end)?;
            Ok((RData::Ns(name), past))
        }
        RType::Cname => {
            let (name, past) = name_within(alloc, bytes, ends, at, end)?;
            Ok((RData::Cname(name), past))
        }
        RType::Soa => soa_at(alloc, bytes, ends, at, end),
        RType::Ptr => {
            let (name, past) = name_within(alloc, bytes, ends, at, end)?;
            Ok((RData::Ptr(name), past))
        }
        RType::Mx => mx_at(alloc, bytes, ends, at, end),
        RType::Txt => {
            let texts = texts_at(alloc, bytes, at, end)?;
            Ok((RData::Txt(texts), end))
        }
        RType::Aaaa => ipv6_at(bytes, at, end),
        RType::Srv => srv_at(alloc, bytes, at, end),
    }
}

// RDATA of a type that fill the bytes from `at` to `end`: of type A, the four bytes 192, 0, 2, 1 are that address.
#[tactic(auto, using(crate::proofs::Walks::fails_with), unfolding(crate::specs::Values::value_at))]
pub fn value_at<A: Heap>(
    alloc: A,
    kind: RType,
    bytes: &[u8],
    ends: &[u16],
    at: usize,
    end: usize,
) -> Result<RData<A>, WireError>
    requires fits { end ≤ length bytes.now }
    requires starts { at ≤ end }
    requires known { AreChainEnds bytes.now ends.now }
    ensures { Gives {Y = Datum} datum result (value_at kind bytes.now at end) }
{
    let (value, past) = form_at(alloc, kind, bytes, ends, at, end)?;
    if past == end {
        Ok(value)
    } else {
        Err(WireError::BadRdataLength)
    }
}
