//! Records written as rows, for tests: an owner, a TTL in seconds, and data in short.
//!
//! `record` makes the record of a `Row`, `records` those of a table of rows, in order; `Value` says the data by what
//! differs between tests alone: the last byte of an address, the MINIMUM of an SOA record, one name. `name`, `address`
//! and `data` make one part. Addresses are of the blocks for documentation (RFC 5737, RFC 3849). All are generic over
//! the allocator, so that a test refuses each growth in turn.
//!
//! Promised: nothing; a row that is no record, such as one whose text is no name, is refused as running out of memory is, so
//! that the test fails which made it.
//! Not here: zones and messages, which the tests of each crate make of them; an allocator that refuses (`refusing_alloc`).
//!
//! ```text
//! let rows = [("example", 60, Value::Soa(60)), ("example", 60, Value::Ns("ns.example"))];
//! let zone = Zone::build(name(alloc, "example")?, records(alloc, &rows)?)?;
//! ```
#![tactic(auto)]

use dname::Name;
use memory::{Heap, Starved};
use rdata::{Addr, CharacterString, GREATEST_TTL, RData, Record, Records, Soa, Srv, Texts};

const DOCUMENTED: [u8; 16] = [0x20, 1, 0xd, 0xb8, 0, 0, 0, 0, 0, 0, 0, 0, 0, 0, 0, 1];

/// Data of a record.
#[derive(Clone, Copy)]
pub enum Value<'a> {
    /// An address of 192.0.2.0/24 (RFC 5737), by its last byte.
    A(u8),
    /// 2001:db8::1 (RFC 3849).
    Aaaa,
    /// A server's name.
    Ns(&'a str),
    /// Where an alias leads.
    Cname(&'a str),
    /// A mail exchange, of preference 10.
    Mx(&'a str),
    /// A service on port 5060 of a host, of priority 10 and weight 60 (RFC 2782).
    Srv(&'a str),
    /// The start of a zone of authority, by its MINIMUM in seconds (RFC 1035, section 3.3.13).
    Soa(u32),
    /// A text of one character-string, of at most 255 bytes.
    Txt(&'a str),
}

/// Owner, TTL in seconds (at most 2,147,483,647) and data.
pub type Row<'a> = (&'a str, u32, Value<'a>);

/// The name of that text. A text that is no name is refused as running out of memory is: what it stands in fails.
pub fn name<A: Heap>(alloc: A, text: &str) -> Result<Name<A>, Starved> {
    match Name::from_text(alloc, text) {
        Ok(name) => Ok(name),
        Err(_) => Err(Starved),
    }
}

/// The address of 192.0.2.0/24 with that last byte.
pub fn address(last: u8) -> Addr {
    Addr([192, 0, 2, last])
}

fn soa<A: Heap>(alloc: A, minimum: u32) -> Result<RData<A>, Starved> {
    let primary = name(alloc, "ns.")?;
    let mailbox = name(alloc, "h.")?;
    Ok(RData::Soa(Box::new(
        alloc,
        Soa {
            primary,
            mailbox,
            serial: 1,
            refresh: 2,
            retry: 3,
            expire: 4,
            minimum,
        },
    )?))
}

fn srv<A: Heap>(alloc: A, target: &str) -> Result<RData<A>, Starved> {
    let target = name(alloc, target)?;
    Ok(RData::Srv(Box::new(
        alloc,
        Srv {
            priority: 10,
            weight: 60,
            port: 5060,
            target,
        },
    )?))
}

fn text<A: Heap>(alloc: A, text: &str) -> Result<RData<A>, Starved> {
    let bytes = Vec::from_slice(alloc, text.as_bytes())?;
    if bytes.len() > 255 {
        return Err(Starved);
    }
    let string = CharacterString::new(bytes);
    Ok(RData::Txt(Texts::new(alloc, string)?))
}

/// The data.
pub fn data<A: Heap>(alloc: A, value: Value<'_>) -> Result<RData<A>, Starved> {
    match value {
        Value::A(last) => Ok(RData::A(address(last))),
        Value::Aaaa => Ok(RData::Aaaa(DOCUMENTED)),
        Value::Ns(target) => Ok(RData::Ns(name(alloc, target)?)),
        Value::Cname(target) => Ok(RData::Cname(name(alloc, target)?)),
        Value::Mx(target) => Ok(RData::Mx(10, name(alloc, target)?)),
        Value::Srv(target) => Ok(srv(alloc, target)?),
        Value::Soa(minimum) => Ok(soa(alloc, minimum)?),
        Value::Txt(said) => Ok(text(alloc, said)?),
    }
}

/// The record of a row.
pub fn record<A: Heap>(alloc: A, row: Row<'_>) -> Result<Record<A>, Starved> {
    let (owner, ttl, value) = row;
    let value = data(alloc, value)?;
    Ok(Record {
        owner: name(alloc, owner)?,
        ttl: ttl.min(GREATEST_TTL),
        value,
    })
}

/// The records of these rows, in order.
pub fn records<A: Heap>(alloc: A, rows: &[Row<'_>]) -> Result<Records<A>, Starved> {
    let mut records = Records::new(alloc);
    for row in rows {
        records.push(record(alloc, *row)?)?;
    }
    Ok(records)
}
