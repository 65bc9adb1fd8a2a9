//! A reply as the program prints it: a line for its head, and one for each record.
ghost use Rattle.std.specs.Prelude.{◌≡◌, ◌⊎◌, ◌++◌, OnOk, OnErr, string_bytes};
ghost use Rattle.std.specs.List.{flat_map};
ghost use Rattle.reply_lines.specs.Lines.{AreNone, ArePrinted, cause_words, flag_word, head_line, rcode_word, record_line, reply_text};

use causes::Cause;
use dname::put_name;
use memory::{Heap, Starved};
use rdata::{Record, put_data};
use std::alloc::Allocator;
use wire::{Header, Message, WireError, decode};

/// Appends the lines of a reply: `reply CLIENT RCODE`, with ` aa`, ` tc` and ` cause N` where they hold, then a
/// line for each record of the sections in order. Where memory is refused, nothing is appended: the lines are written
/// apart first.
pub fn put_reply<A: Allocator, B: Heap>(
    out: &mut String<B>,
    client: u64,
    message: &Message<A>,
    cause: Option<Cause>,
) -> Result<(), Starved>
    ensures ok { OnOk result (string_bytes out.new ≡ string_bytes out.old ++ reply_text client message.now cause) }
    ensures err { OnErr result (string_bytes out.new ≡ string_bytes out.old) }
{
    let mut text = String::new(*out.allocator());
    put_lines(&mut text, client, message, cause)?;
    Ok(out.push_str(&text)?)
}

// The lines of a reply.
#[tactic(auto, unfolding(crate::specs::Lines::reply_text))]
fn put_lines<A: Allocator, B: Heap>(
    out: &mut String<B>,
    client: u64,
    message: &Message<A>,
    cause: Option<Cause>,
) -> Result<(), Starved>
    ensures { OnOk result (string_bytes out.new ≡ string_bytes out.old ++ reply_text client message.now cause) }
{
    put_head(out, client, &message.header, cause)?;
    put_records(out, "an", message.answer.as_slice())?;
    put_records(out, "ns", message.authority.as_slice())?;
    put_records(out, "ar", message.additional.as_slice())
}

/// The same from the reply's bytes. Nothing is appended where they are no message, and where memory is refused.
pub fn put_reply_bytes<A: Heap, B: Heap>(
    alloc: A,
    out: &mut String<B>,
    client: u64,
    bytes: &[u8],
    cause: Option<Cause>,
) -> Result<(), Starved>
    ensures ok { OnOk result (ArePrinted bytes.now client cause (string_bytes out.old) (string_bytes out.new) ⊎ AreNone bytes.now (string_bytes out.old) (string_bytes out.new)) }
    ensures err { OnErr result (string_bytes out.new ≡ string_bytes out.old) }
{
    match decode(alloc, bytes) {
        Ok(message) => put_reply(out, client, &message, cause),
        Err(WireError::Memory) => Err(Starved),
        Err(_) => Ok(()),
    }
}

// The first line of a reply.
#[tactic(auto, unfolding(crate::specs::Lines::head_line))]
fn put_head<B: Heap>(
    out: &mut String<B>,
    client: u64,
    header: &Header,
    cause: Option<Cause>,
) -> Result<(), Starved>
    ensures { OnOk result (string_bytes out.new ≡ string_bytes out.old ++ head_line client header.now cause) }
{
    write!(out, "reply {client} ")?;
    put_rcode(out, header.rcode)?;
    put_flag(out, header.aa, " aa")?;
    put_flag(out, header.tc, " tc")?;
    put_cause(out, cause)?;
    out.push('\n')?;
    Ok(())
}

// The word of an RCODE (RFC 1035, section 4.1.1); the number of one without a word.
fn put_rcode<B: Heap>(out: &mut String<B>, rcode: u8) -> Result<(), Starved>
    ensures { OnOk result (string_bytes out.new ≡ string_bytes out.old ++ rcode_word rcode) }
{
    match rcode {
        0 => out.push_str("NOERROR")?,
        1 => out.push_str("FORMERR")?,
        2 => out.push_str("SERVFAIL")?,
        3 => out.push_str("NXDOMAIN")?,
        4 => out.push_str("NOTIMP")?,
        5 => out.push_str("REFUSED")?,
        _ => write!(out, "{rcode}")?,
    }
    Ok(())
}

fn put_flag<B: Heap>(out: &mut String<B>, set: bool, word: &str) -> Result<(), Starved>
    ensures { OnOk result (string_bytes out.new ≡ string_bytes out.old ++ flag_word set word.now) }
{
    if set {
        out.push_str(word)?;
    }
    Ok(())
}

fn put_cause<B: Heap>(out: &mut String<B>, cause: Option<Cause>) -> Result<(), Starved>
    ensures { OnOk result (string_bytes out.new ≡ string_bytes out.old ++ cause_words cause) }
{
    if let Some(cause) = cause {
        let number = cause.number();
        write!(out, " cause {number}")?;
    }
    Ok(())
}

// The lines of a section.
fn put_records<A: Allocator, B: Heap>(
    out: &mut String<B>,
    section: &str,
    records: &[Record<A>],
) -> Result<(), Starved>
    ensures { OnOk result (string_bytes out.new ≡ string_bytes out.old ++ flat_map (record_line section.now) records.now) }
{
    for rr in records {
        put_record(out, section, rr)?;
    }
    Ok(())
}

#[tactic(auto, unfolding(crate::specs::Lines::record_line))]
fn put_record<A: Allocator, B: Heap>(
    out: &mut String<B>,
    section: &str,
    rr: &Record<A>,
) -> Result<(), Starved>
    ensures { OnOk result (string_bytes out.new ≡ string_bytes out.old ++ record_line section.now rr.now) }
{
    write!(out, "  {section} ")?;
    put_name(out, &rr.owner)?;
    let ttl = rr.ttl;
    write!(out, " {ttl} ")?;
    put_data(out, &rr.value)?;
    out.push('\n')?;
    Ok(())
}
