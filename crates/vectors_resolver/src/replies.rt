//! Rows about one reply. `classify ZONE NAME TYPE WAY FLAG .. : SECTION RECORD ; ..` says what it is used for where a
//! server of that zone was asked, and `received KIND : RECORDS` for how long a link is kept that a server said.
//! Flags are `aa`, `tc`, `name-error`, `refused` and `failure`; sections `answer`, `authority` and `additional`.
use crate::row::Row;
use crate::shown::{put_link, put_number, put_records};
use classify::{Class, Referral, classify, lifetime, received};
use rdata::RType;
use std::alloc::Global;
use text_lines::LineKind;
use wire::{Header, Message, Questions, TCP_LIMIT, Via, View, encode, rcode};

/// How a message came, as the next word says.
pub fn way(row: &mut Row<'_>) -> Result<Via, LineKind> {
    match row.word()? {
        "udp" => Ok(Via::Udp),
        "tcp" => Ok(Via::Tcp),
        _ => Err(LineKind::UnknownWord),
    }
}

// What a flag makes of a header.
fn flagged(header: Header, flag: &str) -> Option<Header> {
    match flag {
        "aa" => Some(Header { aa: true, ..header }),
        "tc" => Some(Header { tc: true, ..header }),
        "failure" => Some(Header {
            rcode: rcode::SERV_FAIL,
            ..header
        }),
        "name-error" => Some(Header {
            rcode: rcode::NX_DOMAIN,
            ..header
        }),
        "refused" => Some(Header {
            rcode: rcode::REFUSED,
            ..header
        }),
        _ => None,
    }
}

// The header with the flags that are left.
fn header(row: &mut Row<'_>) -> Result<Header, LineKind> {
    let mut header = Header::reply(1, 0, false);
    for flag in row.rest() {
        header = flagged(header, flag).ok_or(LineKind::UnknownWord)?;
    }
    Ok(header)
}

fn message(row: &Row<'_>, header: Header, questions: Questions) -> Result<Message, LineKind> {
    let answer = row.section("answer ")?;
    let authority = row.section("authority ")?;
    let additional = row.section("additional ")?;
    Ok(Message {
        header,
        questions,
        answer,
        authority,
        additional,
    })
}

fn encoded(row: &Row<'_>, message: &Message) -> Result<Vec<u8>, LineKind> {
    match encode(row.alloc, message, TCP_LIMIT) {
        Ok(bytes) => Ok(bytes),
        Err(_) => Err(LineKind::Memory),
    }
}

/// The bytes of a reply to these questions with the flags that are left and the records of the row.
pub fn reply(row: &mut Row<'_>, questions: Questions) -> Result<Vec<u8>, LineKind> {
    let header = header(row)?;
    let message = message(row, header, questions)?;
    let bytes = encoded(row, &message);
    drop(message);
    bytes
}

fn put_referral(out: &mut String, referral: &Referral) -> Result<(), LineKind> {
    let owner = &referral.owner;
    let ttl = referral.ttl;
    let kept = referral.lifetime();
    writeln!(out, "referral to {owner} for {ttl} s, kept for {kept} s")?;
    put_records(out, referral.servers.as_slice())?;
    writeln!(out, "with")?;
    put_records(out, referral.addresses.as_slice())
}

fn put_class(row: &Row<'_>, out: &mut String, class: &Class) -> Result<(), LineKind> {
    match class {
        Class::Answer(link) => put_link(out, row.alloc, link),
        Class::Referral(referral) => put_referral(out, referral),
        Class::Truncated => Ok(out.push_str("truncated\n")?),
        Class::Failed(failure) => put_number(out, "failed ", u64::from(failure.number())),
    }
}

// What a reply of these bytes is used for.
fn class(
    alloc: Global,
    (zone, name): (&str, &str),
    kind: RType,
    via: Via,
    bytes: &[u8],
) -> Result<Class, LineKind> {
    let zone = text_lines::name(alloc, zone)?;
    let name = text_lines::name(alloc, name)?;
    match View::new(alloc, bytes) {
        Ok(reply) => Ok(classify(alloc, &zone, &name, kind, via, &reply)?),
        Err(_) => Err(LineKind::BadHex),
    }
}

fn put_made(row: &Row<'_>, out: &mut String, class: Class) -> Result<(), LineKind> {
    let put = put_class(row, out, &class);
    drop(class);
    put
}

/// What comes of a row of `classify`.
pub fn show_class(row: &mut Row<'_>, out: &mut String) -> Result<(), LineKind> {
    let names = (row.word()?, row.word()?);
    let kind = row.rtype()?;
    let via = way(row)?;
    let bytes = reply(row, Questions::new(row.alloc))?;
    let class = class(row.alloc, names, kind, via, &bytes);
    drop(bytes);
    put_made(row, out, class?)
}

/// What comes of a row of `received`.
pub fn show_received(row: &mut Row<'_>, out: &mut String) -> Result<(), LineKind> {
    let link = received(row.link()?);
    let seconds = lifetime(&link);
    let put = put_link(out, row.alloc, &link);
    drop(link);
    put?;
    writeln!(out, "kept for {seconds} s")?;
    Ok(())
}
