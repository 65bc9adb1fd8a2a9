//! Rows of queries and of replies, bytes to bytes.
use crate::fault::{Answer, Fault};
use crate::message_rows::{bytes_of, size};
use crate::record_texts::{before_records, read_type};
use authority::Catalog;
use causes::Cause;
use dname::Name;
use front::{
    End, Outcome, Query, Refusal, Request, SharedQuery, Start, answer_local, lent_echo, read_query,
    refusal_bytes, reply_bytes,
};
use memory::Starved;
use rdata::{CharacterString, RData, RType, Record, RecordSet, Records, Texts, set_at};
use reply_lines::put_reply_bytes;
use std::alloc::Global;
use vectors::{first_word, number, put_bytes, words};
use wire::{Echo, Via, Writer};
use zone::Zone;

/// Answers a command of queries or replies.
pub fn answer(alloc: Global, command: &str, rest: &str, out: &mut String) -> Answer {
    match command {
        "query" => put_request(alloc, &bytes_of(alloc, rest)?, out),
        "local" => put_local(alloc, rest, out),
        "looks" => put_looks(alloc, rest, out),
        "texts" => put_texts_reply(alloc, rest, out),
        "reply" => put_reply_lines(alloc, rest, out),
        _ => Err(Fault::NotUnderstood),
    }
}

// `query HEX`: what a client's bytes ask, or the reply that refuses them.
fn put_request(alloc: Global, bytes: &[u8], out: &mut String) -> Answer {
    match read_query(alloc, bytes)? {
        Request::Drop => Ok(out.push_str("dropped\n")?),
        Request::Refuse(refusal, start, echo) => {
            put_refused(alloc, refusal, start, lent_echo(&echo), out)
        }
        Request::Query(query) => put_query(&query, out),
    }
}

fn put_refused(
    alloc: Global,
    refusal: Refusal,
    start: Start,
    echo: Option<&Echo>,
    out: &mut String,
) -> Answer {
    let mut writer = Writer::new(alloc)?;
    let bytes = refusal_bytes(&mut writer, refusal, start, echo)?;
    out.push_str("refused ")?;
    put_bytes(out, &bytes)?;
    Ok(out.push('\n')?)
}

fn put_query(query: &Query, out: &mut String) -> Answer {
    let (id, wants) = (query.start.id(), query.start.wants_recursion());
    let (name, kind) = (&query.name, query.kind);
    Ok(writeln!(out, "id {id} rd {wants} asks for {name} {kind}")?)
}

// The query that these bytes are.
fn query_of(alloc: Global, bytes: &[u8]) -> Result<SharedQuery, Fault> {
    match read_query(alloc, bytes)? {
        Request::Query(query) => Ok(query),
        _ => Err(Fault::NotUnderstood),
    }
}

// The catalog of the zone of these records alone, whose origin owns the first.
fn catalog_of(alloc: Global, records: Records) -> Result<Catalog, Fault> {
    let origin = match records.as_slice().first() {
        Some(first) => first.owner.clone()?,
        None => return Err(Fault::NotUnderstood),
    };
    let zone = Zone::build(origin, records).map_err(|_| Fault::NotUnderstood)?;
    let mut zones = Vec::new(alloc);
    zones.push(zone)?;
    Catalog::new(zones).map_err(|_| Fault::NotUnderstood)
}

// `local HEX | RECORD | ..`: the reply over UDP from the zone of these records.
fn put_local(alloc: Global, rest: &str, out: &mut String) -> Answer {
    let (hex, records) = before_records(alloc, rest)?;
    let catalog = catalog_of(alloc, records)?;
    let query = query_of(alloc, &bytes_of(alloc, hex)?)?;
    let outcome = answer_local(alloc, &query, &catalog)?;
    let (bytes, _) = told(alloc, &query, &outcome, Via::Udp)?;
    write!(out, "{} bytes ", bytes.len())?;
    put_bytes(out, &bytes)?;
    Ok(out.push('\n')?)
}

fn told(
    alloc: Global,
    query: &Query,
    outcome: &Outcome,
    via: Via,
) -> Result<(Vec<u8>, Option<Cause>), Starved> {
    let mut writer = Writer::new(alloc)?;
    reply_bytes(&mut writer, query, outcome, via)
}

// `looks MOST NAME TYPE | RECORD | ..`: whether names are looked up in the tree of the zone, and at most so many.
fn put_looks(alloc: Global, rest: &str, out: &mut String) -> Answer {
    let (asked, records) = before_records(alloc, rest)?;
    let catalog = catalog_of(alloc, records)?;
    match words(alloc, asked)?.as_slice() {
        [most, name, kind] => {
            let looks = looks(alloc, &catalog, *name, read_type(*kind)?)?;
            let within = 1 <= looks && looks <= size(*most)?;
            Ok(writeln!(out, "within {within}")?)
        }
        _ => Err(Fault::NotUnderstood),
    }
}

fn looks(alloc: Global, catalog: &Catalog, name: &str, kind: RType) -> Result<usize, Fault> {
    let name = Name::from_text(alloc, name)?;
    let (_, looks) = catalog.look_counted(alloc, &name, kind)?;
    Ok(looks)
}

// So many bytes of one letter.
fn string(alloc: Global, letter: u8, size: usize) -> Result<CharacterString, Starved> {
    let letters = [letter; 255];
    let bytes = Vec::from_slice(alloc, &letters[..size.min(255)])?;
    Ok(CharacterString::new(bytes))
}

// So many strings of 255 bytes, behind one of `last` bytes, all of one letter.
fn texts(alloc: Global, letter: u8, strings: usize, last: usize) -> Result<RData, Starved> {
    let mut texts = Texts::new(alloc, string(alloc, letter, last)?)?;
    for _ in 0..strings {
        texts.push(string(alloc, letter, 255)?)?;
    }
    Ok(RData::Txt(texts))
}

// The set of such records at the owner, one for each letter, each with 300 seconds to live.
fn set_of_texts(
    alloc: Global,
    owner: &Name,
    letters: &[u8],
    strings: usize,
    last: usize,
) -> Result<RecordSet, Fault> {
    let mut records = Records::new(alloc);
    for letter in letters {
        let value = texts(alloc, *letter, strings, last)?;
        let owner = owner.clone()?;
        records.push(Record {
            owner,
            ttl: 300,
            value,
        })?;
    }
    set_at(alloc, records.as_slice(), owner, RType::Txt)?.ok_or(Fault::NotUnderstood)
}

// `texts VIA STRINGS LAST LETTERS HEX`: the reply to a query, where its name has such records.
fn put_texts_reply(alloc: Global, rest: &str, out: &mut String) -> Answer {
    match words(alloc, rest)?.as_slice() {
        [via, strings, last, letters, hex] => {
            let query = query_of(alloc, &bytes_of(alloc, *hex)?)?;
            let (strings, last) = (size(*strings)?, size(*last)?);
            let set = set_of_texts(alloc, &query.name, letters.as_bytes(), strings, last)?;
            put_found(alloc, &query, set, via_of(*via)?, out)
        }
        _ => Err(Fault::NotUnderstood),
    }
}

fn via_of(word: &str) -> Result<Via, Fault> {
    match word {
        "udp" => Ok(Via::Udp),
        "tcp" => Ok(Via::Tcp),
        _ => Err(Fault::NotUnderstood),
    }
}

// The length of the reply, its header and question, and the cause of a SERVFAIL.
fn put_found(alloc: Global, query: &Query, set: RecordSet, via: Via, out: &mut String) -> Answer {
    let outcome = Outcome::Answer(true, Records::new(alloc), End::Found(set));
    let (bytes, cause) = told(alloc, query, &outcome, via)?;
    let head = 16 + query.name.size();
    write!(out, "{} bytes ", bytes.len())?;
    put_bytes(out, bytes.get(..head).unwrap_or(&bytes))?;
    match cause {
        Some(cause) => Ok(writeln!(out, " cause {}", cause.number())?),
        None => Ok(out.push('\n')?),
    }
}

const CAUSES: [Cause; 8] = [
    Cause::TooManyOpen,
    Cause::DeadlineOver,
    Cause::ChainTooLong,
    Cause::TooManyAsks,
    Cause::NoServerLeft,
    Cause::ReplyTooLarge,
    Cause::KnownFailure,
    Cause::TooManyLookUps,
];

// The cause of that number, and none for 0.
fn cause_of(word: &str) -> Result<Option<Cause>, Fault> {
    let number = size(word)?;
    if number == 0 {
        return Ok(None);
    }
    match CAUSES.get(number - 1) {
        Some(cause) if usize::from(cause.number()) == number => Ok(Some(*cause)),
        _ => Err(Fault::NotUnderstood),
    }
}

// `reply CLIENT CAUSE HEX`: the lines of a reply to a client.
fn put_reply_lines(alloc: Global, rest: &str, out: &mut String) -> Answer {
    let (client, rest) = first_word(rest);
    let (cause, hex) = first_word(rest);
    let client = number(client).ok_or(Fault::NotUnderstood)?;
    let bytes = bytes_of(alloc, hex)?;
    Ok(put_reply_bytes(alloc, out, client, &bytes, cause_of(cause)?)?)
}
