//! Right replies, told from wrong ones.
ghost use Rattle.std.specs.Prelude.{◌≡◌, ◌↔◌, ◌&&◌, nat_eq, ℕ, List, IfOk, IsTrue, MatchOption};
ghost use Rattle.rdata.specs.Data.{Cname};
ghost use Rattle.zone.specs.Links.{Alias};
ghost use Rattle.rdata.specs.Types.{type_number};
ghost use Rattle.world_truth.specs.Truths.{IsTrueLink};
ghost use Rattle.world_truth.specs.Replies.{IsRight};
ghost use Rattle.worlds.specs.Judging.{IsRest, IsRightMessage, is_reply_to, is_empty, has, lacks_some, once, is_set, is_only, is_none};

use crate::world::World;
use dname::Name;
use limits::MAX_ALIASES;
use memory::{Heap, Starved};
use rdata::{INTERNET, RData, RType, Record, RecordSet};
use std::alloc::Allocator;
use wire::rcode::{NO_ERROR, NX_DOMAIN};
use wire::{Message, WireError, decode};
use zone::Link;

// Whether the records have that one.
fn has<A: Allocator>(records: &[Record<A>], wanted: &Record<A>) -> bool
    ensures { result ≡ has records.now wanted.now }
{
    records.iter().any(|record| wanted.repeats(record))
}

// Whether the records lack one of those wanted.
fn lacks_some<A: Allocator>(records: &[Record<A>], wanted: &[Record<A>]) -> bool
    ensures { result ≡ lacks_some records.now wanted.now }
{
    wanted.iter().any(|record| !has(records, record))
}

// Whether no record stands twice.
fn is_once<A: Allocator>(records: &[Record<A>]) -> bool
    ensures { result ≡ once records.now }
{
    for (place, record) in records.iter().enumerate() {
        if has(&records[place + 1..], record) {
            return false;
        }
    }
    true
}

// Whether the records are the set, in any order, each once.
fn is_set<A: Allocator>(records: &[Record<A>], set: &[Record<A>]) -> bool
    ensures { result ≡ is_set records.now set.now }
{
    !lacks_some(set, records) && !lacks_some(records, set) && is_once(records)
}

// Whether the records are that one alone.
fn is_only<A: Allocator>(records: &[Record<A>], soa: &Record<A>) -> bool
    ensures { result ≡ is_only soa.now records.now }
{
    match records {
        [only] => only.repeats(soa),
        _ => false,
    }
}

// Whether a reply ends with that set.
fn is_found<A: Heap>(
    set: &RecordSet<A>,
    answer: &[Record<A>],
    rcode: u8,
    authority: &[Record<A>],
) -> Result<bool, Starved>
    ensures { IfOk result (λ b. b ≡ (is_set answer.now set.now && nat_eq rcode 0 && is_none authority.now)) }
{
    let records = set.to_records(set.owner.allocator())?;
    Ok(are_found(records.as_slice(), answer, rcode, authority))
}

fn are_found<A: Allocator>(
    set: &[Record<A>],
    answer: &[Record<A>],
    rcode: u8,
    authority: &[Record<A>],
) -> bool
    ensures { result ≡ (is_set answer.now set.now && nat_eq rcode 0 && is_none authority.now) }
{
    is_set(answer, set) && rcode == NO_ERROR && authority.is_empty()
}

// Whether a reply ends with that negative answer and RCODE.
fn is_denied<A: Allocator>(
    soa: &Record<A>,
    denial: u8,
    answer: &[Record<A>],
    rcode: u8,
    authority: &[Record<A>],
) -> bool
    ensures { result ≡ (is_none answer.now && nat_eq rcode denial && is_only soa.now authority.now) }
{
    answer.is_empty() && rcode == denial && is_only(authority, soa)
}

// The name that a record is an alias of.
fn target<A: Allocator>(rr: &Record<A>) -> Option<&Name<A>>
    ensures { MatchOption result ((n : List (List ℕ)) → rr.now.value ≡ Cname n → ⊥) (λ n. rr.now.value ≡ Cname n.now) }
{
    match &rr.value {
        RData::Cname(name) => Some(name),
        _ => None,
    }
}

// Whether the records go on with that alias, and then as the world does from its target on.
#[cycle(judged)]
fn goes_on<A: Heap>(
    world: &World<A>,
    alias: &Record<A>,
    kind: RType,
    answer: &[Record<A>],
    left: usize,
    rcode: u8,
    authority: &[Record<A>],
) -> Result<bool, Starved>
    ensures { (q : List (List ℕ)) → IsTrueLink world.now q (type_number kind) (Alias alias.now) → IfOk result (λ b. IsTrue b ↔ IsRest world.now (type_number kind) q left answer.now rcode authority.now) }
{
    world.well_formed_law();
    let [first, others @ ..] = answer else {
        return Ok(false);
    };
    if left == 0 {
        return Ok(false);
    }
    if !first.repeats(alias) {
        return Ok(false);
    }
    let Some(next) = target(first) else {
        return Ok(false);
    };
    Ok(is_rest(world, next, kind, others, left - 1, rcode, authority)?)
}

// Whether the records are a whole reply from the name on: at most so many aliases more, and then the end.
#[cycle(judged)]
fn is_rest<A: Heap>(
    world: &World<A>,
    name: &Name<A>,
    kind: RType,
    answer: &[Record<A>],
    left: usize,
    rcode: u8,
    authority: &[Record<A>],
) -> Result<bool, Starved>
    ensures { IfOk result (λ b. IsTrue b ↔ IsRest world.now (type_number kind) name.now left answer.now rcode authority.now) }
{
    world.well_formed_law();
    match world.link(name, kind)? {
        Link::Alias(alias) => {
            let right = goes_on(world, &alias, kind, answer, left, rcode, authority);
            drop(alias);
            right
        }
        Link::Found(set) => {
            let right = is_found(&set, answer, rcode, authority);
            drop(set);
            right
        }
        Link::NoData(soa) => Ok(is_denied(&soa, NO_ERROR, answer, rcode, authority)),
        Link::NxDomain(soa) => Ok(is_denied(&soa, NX_DOMAIN, answer, rcode, authority)),
    }
}

// Whether the message is a reply to that question, in class IN.
fn is_reply_to<A: Allocator>(reply: &Message<A>, name: &Name<A>, kind: RType) -> bool
    ensures { result ≡ is_reply_to name.now (type_number kind) reply.now }
{
    let [only] = reply.questions.as_slice() else {
        return false;
    };
    reply.header.qr && only.name == *name && only.qtype == kind.number() && only.qclass == INTERNET
}

// Whether the message has no records.
fn is_empty<A: Allocator>(reply: &Message<A>) -> bool
    ensures { result ≡ is_empty reply.now }
{
    reply.answer.is_empty() && reply.authority.is_empty() && reply.additional.is_empty()
}

// Whether the message is the right reply to the question: truncated and without records, or with all of the
// answer and nothing in additional.
fn is_right<A: Heap>(
    world: &World<A>,
    name: &Name<A>,
    kind: RType,
    reply: &Message<A>,
) -> Result<bool, Starved>
    ensures { IfOk result (λ b. IsTrue b ↔ IsRightMessage world.now name.now (type_number kind) reply.now) }
{
    if !is_reply_to(reply, name, kind) {
        return Ok(false);
    }
    if reply.header.tc {
        return Ok(is_empty(reply));
    }
    if !reply.additional.is_empty() {
        return Ok(false);
    }
    let (answer, authority) = (reply.answer.as_slice(), reply.authority.as_slice());
    let rcode = reply.header.rcode;
    Ok(is_rest(world, name, kind, answer, MAX_ALIASES, rcode, authority)?)
}

/// Whether the bytes are the right reply to the question, TTLs aside: a reply to it in class IN that is
/// truncated and has no records, or has exactly the world's CNAME chain and then its end: the RRset in any
/// order, or the SOA of a negative answer, with RCODE 3 for NXDOMAIN (RFC 1034, sections 3.6.2 and 4.3.2; RFC
/// 2308, section 2).
pub fn judge<A: Heap>(
    world: &World<A>,
    name: &Name<A>,
    kind: RType,
    bytes: &[u8],
) -> Result<bool, Starved>
    ensures { IfOk result (λ b. IsTrue b ↔ IsRight world.now name.now (type_number kind) bytes.now) }
{
    match decode(name.allocator(), bytes) {
        Ok(reply) => {
            let right = is_right(world, name, kind, &reply);
            drop(reply);
            right
        }
        Err(WireError::Memory) => Err(Starved),
        Err(_) => Ok(false),
    }
}
