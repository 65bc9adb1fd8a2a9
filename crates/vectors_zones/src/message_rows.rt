//! Rows of the servers of a world, `ask SERVER NAME TYPE` and `hear SERVER BYTES`, and of its judge,
//! `judge NAME TYPE RCODE; SECTION RECORDS ..`.
ghost use Rattle.std.specs.Prelude.{◌<◌, IfOk};

use crate::file_rows::put_records;
use crate::notation;
use crate::unanswered::{Unanswered, put_fault};
use dname::{Name, put_name};
use rdata::{INTERNET, RType, Records};
use std::alloc::Global;
use text_lines::{LineWords, name};
use vectors::{bytes, put_bytes};
use wire::{Header, Message, Question, Questions, decode, encode};
use worlds::{World, host_reply, judge};

// A query's header: ID 4711, RD, one question (RFC 1035, section 4.1.1).
const QUERY: [u8; 12] = [0x12, 0x67, 1, 0, 0, 1, 0, 0, 0, 0, 0, 0];

/// `SERVER NAME TYPE`: what the server at that address replies to this query.
pub fn put_ask(
    world: &World,
    alloc: Global,
    said: &str,
    out: &mut String,
) -> Result<(), Unanswered> {
    let mut words = LineWords::new(said);
    let server = words.address()?;
    let query = query(alloc, words)?;
    match host_reply(alloc, world, server, &query)? {
        Some(reply) => put_reply(alloc, &reply, out),
        None => put_silence(out),
    }
}

fn query(alloc: Global, mut words: LineWords<'_>) -> Result<Vec<u8>, Unanswered> {
    let asked = words.name(alloc)?;
    let kind = words.rtype()?;
    let mut bytes = Vec::from_slice(alloc, &QUERY)?;
    bytes.extend_from_slice(asked.wire())?;
    bytes.extend_from_slice(&kind.number().to_be_bytes())?;
    bytes.extend_from_slice(&INTERNET.to_be_bytes())?;
    Ok(bytes)
}

/// `SERVER BYTES`: what the server at that address replies to these bytes, as bytes.
pub fn put_hear(
    world: &World,
    alloc: Global,
    said: &str,
    out: &mut String,
) -> Result<(), Unanswered> {
    let mut words = LineWords::new(said);
    let server = words.address()?;
    let heard = bytes(alloc, words.word()?)?.ok_or(Unanswered::NotUnderstood)?;
    match host_reply(alloc, world, server, &heard)? {
        Some(reply) => {
            put_bytes(out, &reply)?;
            Ok(out.push('\n')?)
        }
        None => put_silence(out),
    }
}

fn put_silence(out: &mut String) -> Result<(), Unanswered> {
    Ok(out.push_str("no reply\n")?)
}

fn put_reply(alloc: Global, reply: &[u8], out: &mut String) -> Result<(), Unanswered> {
    match decode(alloc, reply) {
        Ok(message) => {
            put_message(out, &message)?;
            put_spelling(alloc, reply, &message, out)
        }
        Err(fault) => put_fault(out, "message", fault.number(), &fault),
    }
}

// A message has one encoding; bytes that spell it in another way are told.
fn put_spelling(
    alloc: Global,
    reply: &[u8],
    message: &Message,
    out: &mut String,
) -> Result<(), Unanswered> {
    match encode(alloc, message, 65_535) {
        Ok(bytes) if bytes.as_slice() == reply => Ok(()),
        _ => Ok(out.push_str("not spelt as it is encoded\n")?),
    }
}

fn put_message(out: &mut String, message: &Message) -> Result<(), Unanswered> {
    put_header(out, &message.header)?;
    for question in message.questions.as_slice() {
        put_question(out, question)?;
    }
    put_records(out, "an ", message.answer.as_slice())?;
    put_records(out, "ns ", message.authority.as_slice())?;
    put_records(out, "ar ", message.additional.as_slice())
}

fn put_header(out: &mut String, header: &Header) -> Result<(), Unanswered> {
    let id = header.id;
    let opcode = header.opcode;
    let rcode = header.rcode;
    let z = header.z;
    write!(out, "id {id} opcode {opcode} rcode {rcode} z {z}")?;
    let flags = [
        (header.qr, " qr"),
        (header.aa, " aa"),
        (header.tc, " tc"),
        (header.rd, " rd"),
        (header.ra, " ra"),
    ];
    for (set, word) in flags {
        out.push_str(if set { word } else { "" })?;
    }
    Ok(out.push('\n')?)
}

fn put_question(out: &mut String, question: &Question) -> Result<(), Unanswered> {
    out.push_str("qd ")?;
    put_name(out, &question.name)?;
    let kind = question.qtype;
    let class = question.qclass;
    Ok(write!(out, " type {kind} class {class}\n")?)
}

/// `NAME TYPE RCODE; SECTION RECORDS ..`, a whole reply with AA and RA, or `NAME TYPE RCODE tc; ..`, a truncated one:
/// whether it is right.
pub fn put_judge(
    world: &World,
    alloc: Global,
    said: &str,
    out: &mut String,
) -> Result<(), Unanswered> {
    let (head, sections) = said.split_once("; ").unwrap_or((said, ""));
    let mut words = LineWords::new(head);
    let asked = words.name(alloc)?;
    let kind = words.rtype()?;
    let header = header(words)?;
    let bytes = reply(alloc, header, question(alloc, &asked, kind)?, sections)?;
    let right = judge(world, &asked, kind, &bytes)?;
    Ok(out.push_str(if right { "right\n" } else { "wrong\n" })?)
}

fn header(mut words: LineWords<'_>) -> Result<Header, Unanswered> {
    let rcode = rcode(words.word()?)?;
    Ok(Header {
        id: 7,
        qr: true,
        opcode: 0,
        aa: true,
        tc: words.next().is_some_and(|word| word == "tc"),
        rd: false,
        ra: true,
        z: 0,
        rcode,
    })
}

// The RCODE of a word (RFC 1035, section 4.1.1).
fn rcode(word: &str) -> Result<u8, Unanswered>
    ensures { IfOk result (λ code. code < 16) }
{
    match word {
        "NOERROR" => Ok(0),
        "NXDOMAIN" => Ok(3),
        _ => Err(Unanswered::NotUnderstood),
    }
}

fn question(alloc: Global, asked: &Name, kind: RType) -> Result<Questions, Unanswered> {
    let mut questions = Questions::new(alloc);
    questions.push(Question {
        name: asked.copied(alloc)?,
        qtype: kind.number(),
        qclass: INTERNET,
    })?;
    Ok(questions)
}

fn reply(
    alloc: Global,
    header: Header,
    questions: Questions,
    sections: &str,
) -> Result<Vec<u8>, Unanswered> {
    let message = Message {
        header,
        questions,
        answer: section(alloc, sections, "an ")?,
        authority: section(alloc, sections, "ns ")?,
        additional: section(alloc, sections, "ar ")?,
    };
    match encode(alloc, &message, 65_535) {
        Ok(bytes) => Ok(bytes),
        Err(_) => Err(Unanswered::NotUnderstood),
    }
}

// The records of the section of this word; none where it is not stated.
fn section(alloc: Global, sections: &str, word: &str) -> Result<Records, Unanswered> {
    let mut parts = sections.split("; ");
    let stated = parts.find_map(|part| part.strip_prefix(word)).unwrap_or("");
    let text = notation::text(alloc, stated)?;
    match masterfile::read(alloc, &name(alloc, ".")?, text.as_str()) {
        Ok(records) => Ok(records),
        Err(_) => Err(Unanswered::NotUnderstood),
    }
}
