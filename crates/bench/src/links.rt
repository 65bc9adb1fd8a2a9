//! Work on a cache of links.
use crate::done::{Counted, Done, finish};
use crate::names::{addresses, name};
use crate::resident::resident;
use anyhow::Result;
use cache::Cache;
use dname::Name;
use lru::DefaultHasher;
use memory::Starved;
use rdata::{RData, RType, Record, Soa, set_at};
use std::alloc::Global;
use std::hash::BuildHasherDefault;
use std::num::NonZeroUsize;
use std::rt::Runtime;
use std::time::Instant;
use zone::Link;

/// What a link says of its name.
#[derive(Clone, Copy)]
pub enum Says {
    /// It has so many addresses.
    Addresses(u8),
    /// It is not there.
    NxDomain,
}

fn hosts(alloc: Global, count: u64) -> Result<Vec<Name>, Starved> {
    let mut names = Vec::new(alloc);
    for number in 0..count {
        let text = format!(in alloc; "www{number}.sub.example.com.")?;
        names.push(name(alloc, text.as_str())?)?;
    }
    Ok(names)
}

fn found(alloc: Global, owner: &Name, count: u8) -> Result<Link, Starved> {
    let records = addresses(alloc, owner, count)?;
    let set = set_at(alloc, records.as_slice(), owner, RType::A)?;
    Ok(Link::Found(set.ok_or(Starved)?))
}

fn denial(alloc: Global) -> Result<Link, Starved> {
    let soa = Soa {
        primary: name(alloc, "ns.example.com.")?,
        mailbox: name(alloc, "hostmaster.example.com.")?,
        serial: 1,
        refresh: 7_200,
        retry: 3_600,
        expire: 1_209_600,
        minimum: 300,
    };
    Ok(Link::NxDomain(Record {
        owner: name(alloc, "example.com.")?,
        ttl: 300,
        value: RData::Soa(Box::new(alloc, soa)?),
    }))
}

fn links(alloc: Global, says: Says, names: &[Name]) -> Result<Vec<Link>, Starved> {
    let mut links = Vec::new(alloc);
    for name in names {
        links.push(match says {
            Says::Addresses(count) => found(alloc, name, count)?,
            Says::NxDomain => denial(alloc)?,
        })?;
    }
    Ok(links)
}

// Room for a million links.
fn empty(alloc: Global) -> Result<Cache<DefaultHasher>, Starved> {
    let room = NonZeroUsize::new(1_000_000).ok_or(Starved)?;
    Cache::new(alloc, room, BuildHasherDefault::new())
}

fn fill(cache: &mut Cache<DefaultHasher>, names: &[Name], links: &[Link]) -> Result<u64, Starved> {
    let mut sum = 0u64;
    for (name, link) in names.iter().zip(links) {
        cache.keep(name, RType::A, link, 300, 0)?;
        sum = sum.wrapping_add(1);
    }
    Ok(sum)
}

/// Links of so many names, kept.
pub fn keep<R: Runtime + AllocGlobal>(rt: &R, says: Says, rounds: u64) -> Result<Done> {
    let names = hosts(rt.alloc(), rounds)?;
    let done = keep_links(rt, says, &names);
    drop(names);
    done
}

// The links of these names, kept.
fn keep_links<R: Runtime + AllocGlobal>(rt: &R, says: Says, names: &[Name]) -> Result<Done> {
    let links = links(rt.alloc(), says, names)?;
    let done = kept(rt, names, &links);
    drop(links);
    done
}

fn kept<R: Runtime + AllocGlobal>(rt: &R, names: &[Name], links: &[Link]) -> Result<Done> {
    let before = resident(rt);
    let mut cache = empty(rt.alloc())?;
    let start = Instant::now(rt);
    let sum = fill(&mut cache, names, links);
    let done = finish(rt, start, sum);
    let grown = resident(rt).saturating_sub(before);
    drop(cache);
    Ok(Done {
        counted: Counted::Resident(grown),
        ..done?
    })
}

// A cache of these names' links, each of so many addresses.
fn filled(alloc: Global, names: &[Name], count: u8) -> Result<Cache<DefaultHasher>, Starved> {
    let links = links(alloc, Says::Addresses(count), names)?;
    let mut cache = empty(alloc)?;
    fill(&mut cache, names, &links)?;
    Ok(cache)
}

fn is_found(cache: &mut Cache<DefaultHasher>, name: &Name, top: &Name) -> Result<bool, Starved> {
    Ok(cache.look(name, RType::A, top, 1_000)?.is_some())
}

// How often the links of these names, so often each, are found in the cache.
fn find_all(
    alloc: Global,
    cache: &mut Cache<DefaultHasher>,
    names: &[Name],
    times: u64,
) -> Result<u64, Starved> {
    let top = Name::root(alloc)?;
    let mut sum = 0u64;
    for _ in 0..times {
        for name in names {
            sum = sum.wrapping_add(u64::from(is_found(cache, name, &top)?));
        }
    }
    Ok(sum)
}

/// Links of so many names, each of so many addresses, found so often in a cache that has nothing else.
pub fn find<R: Runtime + AllocGlobal>(rt: &R, names: u64, count: u8, times: u64) -> Result<Done> {
    let names = hosts(rt.alloc(), names)?;
    let done = found_again(rt, &names, count, times);
    drop(names);
    done
}

fn found_again<R: Runtime + AllocGlobal>(
    rt: &R,
    names: &[Name],
    count: u8,
    times: u64,
) -> Result<Done> {
    let mut cache = filled(rt.alloc(), names, count)?;
    let start = Instant::now(rt);
    let sum = find_all(rt.alloc(), &mut cache, names, times);
    let done = finish(rt, start, sum);
    drop(cache);
    done
}
