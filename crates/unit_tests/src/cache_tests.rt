//! A text that is longer than any other test of a row can hold.
use crate::shared::set_of;
use cache::{Cache, Hit};
use dname::Name;
use lru::DefaultHasher;
use masterfile::put_record;
use memory::Starved;
use rdata::{RType, Record, RecordSet};
use record_fixtures::name;
use std::alloc::Global;
use std::hash::BuildHasherDefault;
use std::num::NonZeroUsize;
use std::test::Fail;
use wire::{Message, decode};
use zone::Link;

// A TXT record of 32,000 empty strings.
fn put_long_record(bytes: &mut Vec<u8>) -> Result<(), Starved> {
    bytes.extend_from_slice(b"\x01x\0\0\x10\0\x01\0\0\x01\x2c\x7d\0")?;
    for _ in 0..32_000u16 {
        bytes.push(0)?;
    }
    Ok(())
}

fn put_long_reply(bytes: &mut Vec<u8>) -> Result<(), Starved> {
    bytes.extend_from_slice(b"\0\0\x84\0\0\0\0\x02\0\0\0\0")?;
    put_long_record(bytes)?;
    put_long_record(bytes)
}

// A reply with two TXT records of 32,000 empty strings each: 64,038 bytes, as TCP may bring them.
fn long_reply(alloc: Global) -> Result<Vec<u8>, Starved> {
    let mut bytes = Vec::new(alloc);
    put_long_reply(&mut bytes)?;
    Ok(bytes)
}

fn long_message(alloc: Global) -> Result<Message<Global>, Starved> {
    let bytes = long_reply(alloc)?;
    match decode(alloc, &bytes) {
        Ok(message) => Ok(message),
        Err(_) => Err(Starved),
    }
}

// Both records are the same, so that one is left of them.
fn long_set(alloc: Global) -> Result<RecordSet<Global>, Starved> {
    let message = long_message(alloc)?;
    let set = set_of(alloc, message.answer.as_slice());
    drop(message);
    set
}

fn long_link(alloc: Global) -> Result<Link<Global>, Starved> {
    Ok(Link::Found(long_set(alloc)?))
}

fn kept_and_seen(
    cache: &mut Cache<DefaultHasher, Global>,
    owner: &Name<Global>,
    link: &Link<Global>,
) -> Result<Option<Hit<Global>>, Starved> {
    cache.keep(owner, RType::Txt, link, 300, 0)?;
    cache.look(owner, RType::Txt, owner, 1_000)
}

// A cache with room for one link.
fn small_cache(alloc: Global) -> Result<Cache<DefaultHasher, Global>, Starved> {
    Cache::new(alloc, NonZeroUsize::MIN, BuildHasherDefault::new())
}

// The link as a cache gives it back.
fn cached(alloc: Global, link: &Link<Global>) -> Result<Option<Hit<Global>>, Starved> {
    let owner = name(alloc, "x")?;
    let mut cache = small_cache(alloc)?;
    let hit = kept_and_seen(&mut cache, &owner, link);
    drop(cache);
    hit
}

// How many bytes they are in a master file.
fn printed_len(alloc: Global, records: &[Record<Global>]) -> Result<usize, Starved> {
    let mut out = String::new(alloc);
    for record in records {
        put_record(&mut out, record)?;
    }
    Ok(out.len())
}

// How many records they are, and how many bytes in a master file.
fn sizes_of_set(alloc: Global, set: &RecordSet<Global>) -> Result<(usize, usize), Starved> {
    let records = set.to_records(alloc)?;
    let count = records.len();
    let len = printed_len(alloc, records.as_slice());
    drop(records);
    Ok((count, len?))
}

// The same of the set that comes back.
fn sizes_of(alloc: Global, hit: &Option<Hit<Global>>) -> Result<(usize, usize), Starved> {
    match hit {
        Some(
            Hit {
                link: Link::Found(set),
                ..
            },
        ) => sizes_of_set(alloc, set),
        _ => Err(Starved),
    }
}

fn kept_sizes(alloc: Global, link: &Link<Global>) -> Result<(usize, usize), Starved> {
    let hit = cached(alloc, link)?;
    let sizes = sizes_of(alloc, &hit);
    drop(hit);
    sizes
}

fn sizes(alloc: Global) -> Result<(usize, usize), Starved> {
    let link = long_link(alloc)?;
    let sizes = kept_sizes(alloc, &link);
    drop(link);
    sizes
}

// None of these calls takes stack for each string. One record is left, of 13 bytes and three for each string.
#[test]
fn texts_of_32_000_strings_go_through(rt: HostRuntime) -> Result<(), Fail> {
    assert_eq!(rt; sizes(rt.alloc())?, (1, 96_013));
    Ok(())
}
