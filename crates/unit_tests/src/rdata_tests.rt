//! The tests of `rdata`, from outside: by what it makes public.
mod dedup_tests;
mod long_tests;

use memory::{Heap, Starved};
use rdata::{Addr, RData, RType, Record, RecordSet, Records, set_at};
use record_fixtures::name;

// The set of that type at a.example., of these records.
fn set_of<A: Heap>(
    alloc: A,
    records: &[Record<A>],
    kind: RType,
) -> Result<Option<RecordSet<A>>, Starved> {
    let owner = name(alloc, "a.example")?;
    set_at(alloc, records, &owner, kind)
}

// The records of a set, by a copy of it.
fn copies<A: Heap>(alloc: A, set: &RecordSet<A>) -> Result<Records<A>, Starved> {
    set.clone()?.to_records(alloc)
}

// Whether a record has this TTL and the address of this number.
fn is_address<A: Heap>(record: &Record<A>, ttl: u32, number: u32) -> bool {
    let address = RData::A(Addr(number.to_be_bytes()));
    record.ttl == ttl && record.value.is_same(&address) && record.value == address
}

// The first record that has another TTL, or another address: the first one has this number, each other the next one.
fn first_other<A: Heap>(records: &[Record<A>], ttl: u32, first: u32) -> Option<usize> {
    let mut number = first;
    for (place, record) in records.iter().enumerate() {
        if !is_address(record, ttl, number) {
            return Some(place);
        }
        number = number.saturating_add(1);
    }
    None
}

// Whether the first record of a set has this TTL and the address of this number.
fn is_first<A: Heap>(set: &RecordSet<A>, ttl: u32, first: u32) -> Result<bool, Starved> {
    let head = set.first()?;
    Ok(head.is(RType::A) && is_address(&head, ttl, first))
}

// How many records a copy of a set has, and the first of them that is not so.
fn copied<A: Heap>(
    alloc: A,
    set: &RecordSet<A>,
    ttl: u32,
    first: u32,
) -> Result<(usize, Option<usize>), Starved> {
    let records = copies(alloc, set)?;
    Ok((records.len(), first_other(records.as_slice(), ttl, first)))
}

// How many addresses the set at a.example. has, how many its copy, and the first record that has not this TTL and the
// next address, from the one of this number on.
fn addresses_at<A: Heap>(
    alloc: A,
    records: &[Record<A>],
    ttl: u32,
    first: u32,
) -> Result<(usize, usize, Option<usize>), Starved> {
    let Some(set) = set_of(alloc, records, RType::A)? else {
        return Ok((0, 0, None));
    };
    let is_first = is_first(&set, ttl, first)?;
    let (copied, other) = copied(alloc, &set, ttl, first)?;
    Ok((set.len(), copied, if is_first { other } else { Some(0) }))
}
