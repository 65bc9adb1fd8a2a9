//! Zone files read, zones built, and names looked up in them.
use crate::done::{Counted, Done, finish, low};
use crate::names::name;
use crate::resident::resident;
use crate::work::Asked;
use anyhow::Result;
use authority::{Catalog, Local};
use dname::Name;
use memory::Starved;
use rdata::{RType, Records};
use std::alloc::Global;
use std::rt::Runtime;
use std::time::Instant;
use zone::Zone;

// A zone file of so many hosts, each with an address, a wildcard and a delegation.
fn text(alloc: Global, count: u64) -> Result<String, Starved> {
    let mut text = String::new(alloc);
    put_hosts(&mut text, count)?;
    Ok(text)
}

fn put_hosts(text: &mut String, count: u64) -> Result<(), Starved> {
    text.push_str("$TTL 300\n@ SOA ns h 1 2 3 4 60\n@ NS ns\n")?;
    text.push_str("*.wild A 192.0.2.1\ncut NS ns.cut\nns.cut A 192.0.2.2\n")?;
    for host in 0..count {
        write!(text, "host{host} A 192.0.2.{}\n", host % 256)?;
    }
    Ok(())
}

// The records of a zone file.
fn records(alloc: Global, text: &str) -> Result<Records, Starved> {
    masterfile::read(alloc, &name(alloc, "lab.example.")?, text).map_err(|_| Starved)
}

fn zone(alloc: Global, records: Records) -> Result<Zone, Starved> {
    Zone::build(name(alloc, "lab.example.")?, records).map_err(|_| Starved)
}

pub fn read<R: Runtime + AllocGlobal>(rt: &R, rounds: u64) -> Result<Done> {
    let text = text(rt.alloc(), rounds)?;
    let start = Instant::now(rt);
    let count = count(rt.alloc(), text.as_str());
    let done = finish(rt, start, count);
    let counted = Counted::Text(text.len() as u64);
    drop(text);
    Ok(Done { counted, ..done? })
}

// How many records a zone file has.
fn count(alloc: Global, text: &str) -> Result<u64, Starved> {
    Ok(low(records(alloc, text)?.len()))
}

pub fn build<R: Runtime + AllocGlobal>(rt: &R, rounds: u64) -> Result<Done> {
    let text = text(rt.alloc(), rounds)?;
    let done = built(rt, text.as_str());
    drop(text);
    done
}

// The zone of that text, built.
fn built<R: Runtime + AllocGlobal>(rt: &R, text: &str) -> Result<Done> {
    let before = resident(rt);
    let records = records(rt.alloc(), text)?;
    let list = resident(rt).saturating_sub(before);
    let start = Instant::now(rt);
    let zone = zone(rt.alloc(), records)?;
    let done = finish(rt, start, Ok(low(zone.records().len())));
    let grown = resident(rt).saturating_sub(before);
    drop(zone);
    Ok(Done {
        counted: Counted::Grown { list, zone: grown },
        ..done?
    })
}

// A zone of so many hosts, and nothing else.
fn catalog(alloc: Global, hosts: u64) -> Result<Catalog, Starved> {
    let records = records(alloc, text(alloc, hosts)?.as_str())?;
    let mut zones = Vec::new(alloc);
    zones.push(zone(alloc, records)?)?;
    Catalog::new(zones).map_err(|_| Starved)
}

// Whether the catalog says anything of the name.
fn is_here(alloc: Global, catalog: &Catalog, asked: &Name) -> Result<bool, Starved> {
    let local = catalog.look(alloc, asked, RType::A)?;
    Ok(!matches!(&local, Local::NotHere))
}

fn look_all(alloc: Global, catalog: &Catalog, asked: &Name, rounds: u64) -> Result<u64, Starved> {
    let mut sum = 0u64;
    for _ in 0..rounds {
        sum = sum.wrapping_add(u64::from(is_here(alloc, catalog, asked)?));
    }
    Ok(sum)
}

/// A name that stands so in a zone of so many hosts, looked up so often.
pub fn look<R: Runtime + AllocGlobal>(
    rt: &R,
    asked: Asked,
    hosts: u64,
    rounds: u64,
) -> Result<Done> {
    let text = match asked {
        Asked::Owner => "host5.lab.example.",
        Asked::Wildcard => "x.wild.lab.example.",
        Asked::Nowhere => "none.lab.example.",
        Asked::UnderCut => "x.cut.lab.example.",
    };
    let catalog = catalog(rt.alloc(), hosts)?;
    let done = looked(rt, &catalog, text, rounds);
    drop(catalog);
    done
}

// The name of that text, looked up so often.
fn looked<R: Runtime + AllocGlobal>(
    rt: &R,
    catalog: &Catalog,
    text: &str,
    rounds: u64,
) -> Result<Done> {
    let asked = name(rt.alloc(), text)?;
    let start = Instant::now(rt);
    let sum = look_all(rt.alloc(), catalog, &asked, rounds);
    let done = finish(rt, start, sum);
    drop(asked);
    done
}
