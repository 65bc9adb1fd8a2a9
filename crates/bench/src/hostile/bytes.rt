//! Bytes of messages, written out: names of any text, and records with them.
use events::Bytes;
use memory::{Heap, Starved};
use wire::TCP_LIMIT;

/// Types of records, by number (RFC 1035, section 3.2.2).
pub const A_TYPE: u16 = 1;

pub const NS_TYPE: u16 = 2;

pub const SOA_TYPE: u16 = 6;

pub const TXT_TYPE: u16 = 16;

/// The question's name, which stands behind the header of 12 bytes: a pointer to it (RFC 1035, section 4.1.4).
pub const QUESTION: [u8; 2] = [0xc0, 12];

/// A pointer to a place.
pub fn pointer(place: usize) -> [u8; 2] {
    let place = u16::try_from(place).unwrap_or(12);
    (0xc000 | place).to_be_bytes()
}

/// A label.
pub fn put_label<A: Heap>(out: &mut Vec<u8, A>, label: &[u8]) -> Result<(), Starved> {
    out.push(u8::try_from(label.len()).unwrap_or(0))?;
    out.extend_from_slice(label)?;
    Ok(())
}

/// A name of labels between dots; the empty text is the root's.
pub fn put_name<A: Heap>(out: &mut Vec<u8, A>, text: &str) -> Result<(), Starved> {
    for label in text.split('.') {
        if !label.is_empty() {
            put_label(out, label.as_bytes())?;
        }
    }
    out.push(0)?;
    Ok(())
}

/// What stands in a record between its owner and its data: type, class IN, a TTL of an hour, how long the data are.
pub fn put_middle<A: Heap>(out: &mut Vec<u8, A>, kind: u16, length: u16) -> Result<(), Starved> {
    let [high, low] = kind.to_be_bytes();
    let [long, rest] = length.to_be_bytes();
    out.extend_from_slice(&[high, low, 0, 1, 0, 0, 0x0e, 0x10, long, rest])?;
    Ok(())
}

/// A zone's server.
pub fn put_ns<A: Heap>(out: &mut Vec<u8, A>, zone: &str, server: &str) -> Result<(), Starved> {
    put_name(out, zone)?;
    let length = u16::try_from(server.len()).unwrap_or(0).saturating_add(2);
    put_middle(out, NS_TYPE, length)?;
    put_name(out, server)
}

/// The start of the root's authority, which stands beside a name error.
pub fn put_root_soa<A: Heap>(out: &mut Vec<u8, A>) -> Result<(), Starved> {
    put_name(out, "")?;
    put_middle(out, SOA_TYPE, 22)?;
    out.extend_from_slice(&[0, 0])?;
    for _ in 0..5 {
        out.extend_from_slice(&[0, 0, 0x0e, 0x10])?;
    }
    Ok(())
}

/// A client's query with RD: for that name and type, and so many records in its last section.
pub fn query<A: Heap>(
    alloc: A,
    name: &str,
    kind: u16,
    records: (u16, &[u8]),
) -> Result<Bytes<A>, Starved> {
    let mut bytes = Vec::new(alloc);
    put_query(&mut bytes, name, kind, records)?;
    bounded(bytes)
}

// Appends the bytes of that query.
fn put_query<A: Heap>(
    out: &mut Vec<u8, A>,
    name: &str,
    kind: u16,
    (count, records): (u16, &[u8]),
) -> Result<(), Starved> {
    let [many, few] = count.to_be_bytes();
    let [high, low] = kind.to_be_bytes();
    out.extend_from_slice(&[0, 5, 1, 0, 0, 1, 0, 0, 0, 0, many, few])?;
    put_name(out, name)?;
    out.extend_from_slice(&[high, low, 0, 1])?;
    out.extend_from_slice(records)?;
    Ok(())
}

/// These bytes as those of a message; more than 65,535 are refused.
pub fn bounded<A: Heap>(bytes: Vec<u8, A>) -> Result<Bytes<A>, Starved> {
    if bytes.len() > TCP_LIMIT {
        return Err(Starved);
    }
    Ok(Bytes::new(bytes))
}
