//! Rows that stand for many records or strings.
use crate::fault::{Answer, Fault};
use dname::Name;
use memory::Starved;
use rdata::{Addr, CharacterString, RData, Record, Records, Texts, lowest_ttl};
use std::alloc::Global;
use vectors::{first_word, number};

/// Answers a command of many records or strings.
pub fn answer(alloc: Global, command: &str, rest: &str, out: &mut String) -> Answer {
    match command {
        "many-lowest" => put_lowest(alloc, rest, out),
        "many-strings" => put_strings(alloc, rest, out),
        _ => Err(Fault::NotUnderstood),
    }
}

fn count(word: &str) -> Result<u32, Fault> {
    let number = number(word).ok_or(Fault::NotUnderstood)?;
    u32::try_from(number).map_err(|_| Fault::NotUnderstood)
}

// An address for each number at a.example., with TTLs from 300 to 306 seconds.
fn put_addresses(owner: &Name, count: u32, records: &mut Records) -> Result<(), Starved> {
    for number in 0..count {
        records.push(Record {
            owner: owner.clone()?,
            ttl: 300 + number % 7,
            value: RData::A(Addr(number.to_be_bytes())),
        })?;
    }
    Ok(())
}

// `many-lowest COUNT`: the lowest TTL of so many addresses.
fn put_lowest(alloc: Global, rest: &str, out: &mut String) -> Answer {
    let owner = Name::from_text(alloc, "a.example")?;
    let mut records = Records::new(alloc);
    put_addresses(&owner, count(rest)?, &mut records)?;
    Ok(writeln!(out, "{}", lowest_ttl(records.as_slice()))?)
}

// `many-strings COUNT OTHER`: whether texts of so many empty strings are the same.
fn put_strings(alloc: Global, rest: &str, out: &mut String) -> Answer {
    let (one, other) = first_word(rest);
    let one = empty_strings(alloc, count(one)?)?;
    let other = empty_strings(alloc, count(other)?)?;
    let is_copied = one.is_same(&one.clone()?);
    Ok(writeln!(out, "same {}, its copy {is_copied}", one.is_same(&other))?)
}

fn empty_strings(alloc: Global, count: u32) -> Result<Texts, Starved> {
    let mut texts = Texts::new(alloc, CharacterString::new(Vec::new(alloc)))?;
    for _ in 1..count {
        texts.push(CharacterString::new(Vec::new(alloc)))?;
    }
    Ok(texts)
}
