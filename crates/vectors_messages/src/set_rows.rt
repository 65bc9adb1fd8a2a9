//! Rows of record sets (RFC 2181, section 5).
use crate::fault::{Answer, Fault};
use crate::record_texts::{before_records, put_record, read_records, read_type};
use dname::Name;
use memory::Starved;
use rdata::{GREATEST_TTL, Record, RecordSet, Records, lowest_ttl, same_set, set_at};
use std::alloc::Global;
use vectors::{first_word, number};

/// Answers a command of record sets.
pub fn answer(alloc: Global, command: &str, rest: &str, out: &mut String) -> Answer {
    match command {
        "set" => put_set_of(alloc, rest, out),
        "same-set" => put_same_set(&read_records(alloc, rest)?, out),
        "ttl" => put_ttl(alloc, rest, out),
        "lowest" => put_lowest(&read_records(alloc, rest)?, out),
        "cap" => put_capped(alloc, rest, out),
        _ => Err(Fault::NotUnderstood),
    }
}

// `set OWNER TYPE | RECORD | ..`: the set, by a copy of it.
fn put_set_of(alloc: Global, rest: &str, out: &mut String) -> Answer {
    let (asked, records) = before_records(alloc, rest)?;
    let (owner, kind) = first_word(asked);
    let kind = read_type(kind)?;
    let owner = Name::from_text(alloc, owner)?;
    match set_at(alloc, records.as_slice(), &owner, kind)? {
        Some(set) => put_set(alloc, &set, out),
        None => Ok(out.push_str("none\n")?),
    }
}

fn put_set(alloc: Global, set: &RecordSet, out: &mut String) -> Answer {
    writeln!(
        out,
        "{} records of TTL {}, the first of them",
        set.len(),
        set.ttl()
    )?;
    put_record(out, &set.first()?)?;
    out.push_str("all\n")?;
    put_records(&copied(alloc, set)?, out)
}

// The records of a copy of the set.
fn copied(alloc: Global, set: &RecordSet) -> Result<Records, Starved> {
    set.clone()?.to_records(alloc)
}

fn put_records(records: &Records, out: &mut String) -> Answer {
    for record in records.as_slice() {
        put_record(out, record)?;
    }
    Ok(())
}

// `same-set RECORD | RECORD`: whether both are of one set.
fn put_same_set(records: &Records, out: &mut String) -> Answer {
    match records.as_slice() {
        [one, other] => Ok(writeln!(out, "one set {}", same_set(one, other))?),
        _ => Err(Fault::NotUnderstood),
    }
}

// `ttl RECORD | cap TTL | set TTL ..`: the TTL of the set of the record alone, and of its first record.
fn put_ttl(alloc: Global, rest: &str, out: &mut String) -> Answer {
    let (line, changes) = rest.split_once(" | ").ok_or(Fault::NotUnderstood)?;
    let mut set = RecordSet::alone(alloc, only(&read_records(alloc, line)?)?)?;
    for change in changes.split(" | ") {
        change_ttl(&mut set, change)?;
    }
    Ok(writeln!(out, "set {}, record {}", set.ttl(), set.first()?.ttl)?)
}

fn only(records: &Records) -> Result<Record, Fault> {
    match records.as_slice() {
        [only] => Ok(only.clone()?),
        _ => Err(Fault::NotUnderstood),
    }
}

fn change_ttl(set: &mut RecordSet, change: &str) -> Answer {
    let (word, ttl) = first_word(change);
    let ttl = ttl_of(ttl)?;
    match word {
        "cap" => set.cap_ttl(ttl),
        "set" => set.set_ttl(ttl.min(GREATEST_TTL)),
        _ => return Err(Fault::NotUnderstood),
    }
    Ok(())
}

fn ttl_of(word: &str) -> Result<u32, Fault> {
    let number = number(word).ok_or(Fault::NotUnderstood)?;
    u32::try_from(number).map_err(|_| Fault::NotUnderstood)
}

// `lowest RECORD | ..`: the lowest TTL.
fn put_lowest(records: &Records, out: &mut String) -> Answer {
    Ok(writeln!(out, "{}", lowest_ttl(records.as_slice()))?)
}

// `cap TTL | RECORD | ..`: the records with no TTL over this one.
fn put_capped(alloc: Global, rest: &str, out: &mut String) -> Answer {
    let (ttl, mut records) = before_records(alloc, rest)?;
    records.cap_ttl(ttl_of(ttl)?);
    put_records(&records, out)
}
