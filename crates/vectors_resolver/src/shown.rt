//! Links, cuts and actions as they are printed.
use causes::Cause;
use events::{Action, Bytes, Endpoint};
use rdata::{Addr, Record, RecordSet};
use referral::{Cut, ServerAddress};
use std::alloc::Global;
use text_lines::LineKind;
use wire::Via;
use zone::Link;

/// A line of these words and that number.
pub fn put_number(out: &mut String, words: &str, number: u64) -> Result<(), LineKind> {
    writeln!(out, "{words}{number}")?;
    Ok(())
}

/// A line for each record.
pub fn put_records(out: &mut String, records: &[Record]) -> Result<(), LineKind> {
    for record in records {
        writeln!(out, "{record}")?;
    }
    Ok(())
}

fn put_record(out: &mut String, word: &str, record: &Record) -> Result<(), LineKind> {
    writeln!(out, "{word}")?;
    writeln!(out, "{record}")?;
    Ok(())
}

fn put_set(out: &mut String, alloc: Global, set: &RecordSet) -> Result<(), LineKind> {
    let records = set.to_records(alloc)?;
    writeln!(out, "set")?;
    put_records(out, records.as_slice())
}

/// What a link is, and its records.
pub fn put_link(out: &mut String, alloc: Global, link: &Link) -> Result<(), LineKind> {
    match link {
        Link::Found(set) => put_set(out, alloc, set),
        Link::Alias(record) => put_record(out, "alias", record),
        Link::NoData(soa) => put_record(out, "no data", soa),
        Link::NxDomain(soa) => put_record(out, "name error", soa),
    }
}

fn put_server(out: &mut String, server: &ServerAddress) -> Result<(), LineKind> {
    let ServerAddress { name, address } = server;
    writeln!(out, "address {address} of {name}")?;
    Ok(())
}

/// Where a cut is, its servers' names, and their addresses.
pub fn put_cut(out: &mut String, cut: &Cut) -> Result<(), LineKind> {
    let owner = &cut.owner;
    writeln!(out, "cut {owner}")?;
    for name in cut.names.as_slice() {
        writeln!(out, "server {name}")?;
    }
    for server in cut.addresses.as_slice() {
        put_server(out, server)?;
    }
    Ok(())
}

/// An address that is asked and how long it is waited for, or that nobody is.
pub fn put_asked(out: &mut String, asked: Option<Addr>, wait: u32) -> Result<(), LineKind> {
    match asked {
        Some(address) => writeln!(out, "{address} for {wait} ms")?,
        None => writeln!(out, "nobody")?,
    }
    Ok(())
}

/// A line for each address.
pub fn put_addresses(out: &mut String, addresses: &[Addr]) -> Result<(), LineKind> {
    for address in addresses {
        writeln!(out, "{address}")?;
    }
    Ok(())
}

/// Bytes, and the end of the line.
pub fn put_hex(out: &mut String, bytes: &[u8]) -> Result<(), LineKind> {
    vectors::put_bytes(out, bytes)?;
    out.push('\n')?;
    Ok(())
}

fn put_ask(
    out: &mut String,
    path: &str,
    number: u64,
    to: Endpoint,
    bytes: &Bytes,
) -> Result<(), LineKind> {
    let Endpoint { address, port } = to;
    write!(out, "{path} {number} to {address} port {port}: ")?;
    put_hex(out, bytes.as_slice())
}

fn put_cause(out: &mut String, cause: Option<Cause>) -> Result<(), LineKind> {
    if let Some(cause) = cause {
        let number = cause.number();
        write!(out, ", cause {number}")?;
    }
    Ok(())
}

fn way_word(way: Via) -> &'static str {
    match way {
        Via::Udp => "udp",
        Via::Tcp => "tcp",
    }
}

/// A reply to a client.
pub fn put_reply(
    out: &mut String,
    client: u64,
    way: Via,
    bytes: &Bytes,
    cause: Option<Cause>,
) -> Result<(), LineKind> {
    let word = way_word(way);
    write!(out, "reply to {client} over {word}")?;
    put_cause(out, cause)?;
    out.push_str(": ")?;
    put_hex(out, bytes.as_slice())
}

/// What goes out, with all its numbers.
pub fn put_action(out: &mut String, action: &Action) -> Result<(), LineKind> {
    match action {
        Action::Reply {
            client,
            way,
            bytes,
            cause,
        } => put_reply(out, *client, *way, bytes, *cause),
        Action::Send { socket, to, bytes } => {
            put_ask(out, "socket", u64::from(*socket), *to, bytes)
        }
        Action::TcpAsk { number, to, bytes } => put_ask(out, "stream", *number, *to, bytes),
    }
}
