//! Rows of messages (RFC 1035, section 4).
use crate::both::{Outcome, outcome_of};
use crate::fault::{Answer, Fault};
use dname::Name;
use memory::Starved;
use rdata::Record;
use std::alloc::Global;
use vectors::{first_word, number, put_bytes};
use wire::{Echo, Message, TCP_LIMIT, View, WireError, decode, decode_question, encode};

/// Answers a command of messages.
pub fn answer(alloc: Global, command: &str, rest: &str, out: &mut String) -> Answer {
    match command {
        "decode" => put_decoded(alloc, &bytes_of(alloc, rest)?, out),
        "encode" => put_encoded(alloc, rest, out),
        "question" => put_question(alloc, &bytes_of(alloc, rest)?, out),
        "fronts" => put_fronts(alloc, &bytes_of(alloc, rest)?, out),
        "changes" => put_all_changes(alloc, &mut bytes_of(alloc, rest)?, out),
        "flips" => put_flips(alloc, &mut bytes_of(alloc, rest)?, out),
        "chain" => put_chain(alloc, rest, out),
        _ => Err(Fault::NotUnderstood),
    }
}

/// The bytes of the words of a row, one behind the other.
pub fn bytes_of(alloc: Global, rest: &str) -> Result<Vec<u8>, Fault> {
    let mut all = Vec::new(alloc);
    for word in rest.split(' ') {
        match vectors::bytes(alloc, word)? {
            Some(bytes) => all.extend_from_slice(&bytes)?,
            None => return Err(Fault::NotUnderstood),
        }
    }
    Ok(all)
}

fn put_refusal(out: &mut String, error: WireError) -> Answer {
    let number = error.number();
    match error {
        WireError::Memory => Err(Fault::Memory),
        _ => Ok(writeln!(out, "refused {number}: {error}")?),
    }
}

// `decode HEX`: the message, or why the bytes are none.
fn put_decoded(alloc: Global, bytes: &[u8], out: &mut String) -> Answer {
    match outcome_of(alloc, bytes)? {
        Outcome::Read => put_message(alloc, bytes, out),
        Outcome::Refused(error) => put_refusal(out, error),
        Outcome::Differ => Ok(out.push_str("differ\n")?),
    }
}

fn put_message(alloc: Global, bytes: &[u8], out: &mut String) -> Answer {
    let message = decode(alloc, bytes)?;
    Ok(writeln!(out, "{message}")?)
}

// `encode LIMIT HEX`: the message written anew, names compressed.
fn put_encoded(alloc: Global, rest: &str, out: &mut String) -> Answer {
    let (limit, rest) = first_word(rest);
    let limit = size(limit)?.min(TCP_LIMIT);
    let bytes = bytes_of(alloc, rest)?;
    match encode(alloc, &decode(alloc, &bytes)?, limit) {
        Ok(written) => put_written(&bytes, &written, out),
        Err(error) => put_refusal(out, error),
    }
}

fn put_written(bytes: &[u8], written: &[u8], out: &mut String) -> Answer {
    let size = written.len();
    if written == bytes {
        return Ok(writeln!(out, "{size} bytes as they stood")?);
    }
    write!(out, "{size} bytes ")?;
    put_bytes(out, written)?;
    Ok(out.push('\n')?)
}

/// The size that a word says.
pub fn size(word: &str) -> Result<usize, Fault> {
    let number = number(word).ok_or(Fault::NotUnderstood)?;
    usize::try_from(number).map_err(|_| Fault::NotUnderstood)
}

// `question HEX`: the one question, and its letters.
fn put_question(alloc: Global, bytes: &[u8], out: &mut String) -> Answer {
    match decode_question(alloc, bytes) {
        Ok(Some((name, echo))) => put_echo(&name, &echo, out),
        Ok(None) => Ok(out.push_str("not one question\n")?),
        Err(error) => put_refusal(out, error),
    }
}

fn put_echo(name: &Name, echo: &Echo, out: &mut String) -> Answer {
    write!(
        out,
        "{name} type {} class {}, spelt ",
        echo.qtype, echo.qclass
    )?;
    put_bytes(out, echo.spelling.wire())?;
    Ok(out.push('\n')?)
}

// How many messages were read, refused under each number, and read or refused in one way alone.
#[derive(Clone, Copy)]
struct Tally {
    outcomes: [u32; 9],
    differ: u32,
}

impl Tally {
    fn new() -> Tally {
        Tally {
            outcomes: [0; 9],
            differ: 0,
        }
    }

    fn add(&mut self, outcome: Outcome) {
        let place = match outcome {
            Outcome::Read => 0,
            Outcome::Refused(error) => usize::from(error.number()),
            Outcome::Differ => {
                self.differ = self.differ.saturating_add(1);
                return;
            }
        };
        if let Some(count) = self.outcomes.get_mut(place) {
            *count = count.saturating_add(1);
        }
    }

    fn put(&self, out: &mut String) -> Answer {
        for (number, count) in self.outcomes.iter().enumerate() {
            put_count(out, number, *count)?;
        }
        Ok(writeln!(out, "differ {}", self.differ)?)
    }
}

fn put_count(out: &mut String, number: usize, count: u32) -> Answer {
    match (number, count) {
        (_, 0) => Ok(()),
        (0, _) => Ok(writeln!(out, "read {count}")?),
        _ => Ok(writeln!(out, "refused {number}: {count}")?),
    }
}

// `fronts HEX`: each front of the bytes but the whole.
fn put_fronts(alloc: Global, bytes: &[u8], out: &mut String) -> Answer {
    let mut tally = Tally::new();
    for size in 0..bytes.len() {
        tally.add(outcome_of(alloc, &bytes[..size])?);
    }
    tally.put(out)
}

// `changes HEX`: each change of one byte.
fn put_all_changes(alloc: Global, bytes: &mut Vec<u8>, out: &mut String) -> Answer {
    let mut tally = Tally::new();
    for place in 0..bytes.len() {
        for bits in 1..=255u8 {
            tally.add(outcome_with(alloc, bytes, place, bits)?);
        }
    }
    tally.put(out)
}

// `flips HEX`: each change of one bit.
fn put_flips(alloc: Global, bytes: &mut Vec<u8>, out: &mut String) -> Answer {
    let mut tally = Tally::new();
    for place in 0..bytes.len() {
        for bits in [1, 2, 4, 8, 16, 32, 64, 128] {
            tally.add(outcome_with(alloc, bytes, place, bits)?);
        }
    }
    tally.put(out)
}

// What comes of the bytes with these bits of one of them turned. The bytes are as they were then.
fn outcome_with(
    alloc: Global,
    bytes: &mut Vec<u8>,
    place: usize,
    bits: u8,
) -> Result<Outcome, Fault> {
    turn(bytes, place, bits);
    let outcome = outcome_of(alloc, bytes);
    turn(bytes, place, bits);
    outcome
}

fn turn(bytes: &mut Vec<u8>, place: usize, bits: u8) {
    if let Some(byte) = bytes.get_mut(place) {
        *byte ^= bits;
    }
}

// `chain POINTERS RECORDS`: a record that is skipped has in its RDATA the name `a.`, at 23, and from 26 on so many
// pointers, the first to that name and each further one to the one before it. Then come so many records, whose owner
// is a pointer to the last.
fn put_chain(alloc: Global, rest: &str, out: &mut String) -> Answer {
    let (pointers, records) = first_word(rest);
    let bytes = chained(alloc, short(pointers)?, short(records)?)?;
    let owner = Name::from_text(alloc, "a")?;
    writeln!(out, "{} bytes", bytes.len())?;
    put_decoded_owners(alloc, &bytes, &owner, out)?;
    put_seen_owners(alloc, &bytes, &owner, out)
}

// A number that a pointer, or a count of the header, can hold twice.
fn short(word: &str) -> Result<u16, Fault> {
    match u16::try_from(size(word)?) {
        Ok(number) if number < 8_192 => Ok(number),
        _ => Err(Fault::NotUnderstood),
    }
}

fn chained(alloc: Global, pointers: u16, records: u16) -> Result<Vec<u8>, Starved> {
    let mut bytes = Vec::from_slice(alloc, b"\0\x01\x80\0\0\0")?;
    bytes.extend_from_slice(&records.saturating_add(1).to_be_bytes())?;
    bytes.extend_from_slice(b"\0\0\0\0\0\0\x63\0\x01\0\0\0\0")?;
    bytes.extend_from_slice(&pointers.saturating_mul(2).saturating_add(3).to_be_bytes())?;
    bytes.extend_from_slice(b"\x01a\0")?;
    let last = put_pointers(&mut bytes, pointers)?;
    for _ in 0..records {
        bytes.extend_from_slice(&(0xc000 | last).to_be_bytes())?;
        bytes.extend_from_slice(b"\0\x01\0\x01\0\0\0\x3c\0\x04\xc0\0\x02\x01")?;
    }
    Ok(bytes)
}

// The pointers, and the place of the last.
fn put_pointers(bytes: &mut Vec<u8>, pointers: u16) -> Result<u16, Starved> {
    let mut target: u16 = 23;
    for pointer in 0..pointers {
        bytes.extend_from_slice(&(0xc000 | target).to_be_bytes())?;
        target = 26_u16.saturating_add(pointer.saturating_mul(2));
    }
    Ok(target)
}

fn put_decoded_owners(alloc: Global, bytes: &[u8], owner: &Name, out: &mut String) -> Answer {
    match decode(alloc, bytes) {
        Ok(message) => {
            let (records, owned) = owned_by(&message, owner);
            Ok(writeln!(out, "decoded {records} records, {owned} of {owner}")?)
        }
        Err(error) => put_refusal(out, error),
    }
}

// How many records there are in the answer section, and how many are of the owner.
fn owned_by(message: &Message, owner: &Name) -> (usize, usize) {
    let is_owned = |record: &&Record| record.owner == *owner;
    let records = message.answer.as_slice();
    (records.len(), records.iter().filter(is_owned).count())
}

fn put_seen_owners(alloc: Global, bytes: &[u8], owner: &Name, out: &mut String) -> Answer {
    match View::new(alloc, bytes) {
        Ok(view) => {
            let (records, owned) = seen_of(&view, owner);
            Ok(writeln!(out, "seen {records} records, {owned} of {owner}")?)
        }
        Err(error) => put_refusal(out, error),
    }
}

// The same of the records that are lent.
fn seen_of(view: &View<'_>, owner: &Name) -> (u32, u32) {
    let mut section = view.answer();
    let (mut records, mut owned) = (0_u32, 0_u32);
    for _ in 0..u16::MAX {
        if let Some(lent) = section.next() {
            records = records.saturating_add(1);
            owned = owned.saturating_add(u32::from(lent.owner_is(owner)));
        }
    }
    (records, owned)
}
