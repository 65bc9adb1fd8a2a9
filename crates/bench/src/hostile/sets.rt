//! Large sets in the cache, and large queries.
use crate::hostile::bytes::{
    A_TYPE, NS_TYPE, QUESTION, TXT_TYPE, pointer, put_label, put_middle, query,
};
use crate::hostile::talk::{Says, Talk};
use crate::hostile::trees::long_name;
use events::Bytes;
use memory::{Heap, Starved};

/// How many servers of the root are cached, where they are many.
pub const ROOT_SERVERS: u16 = 4_300;

// The lengths of their names differ: so many of each have one more label before an end of the first one's.
const OF_ONE_LENGTH: u16 = 230;

// Data of the root's servers. The first name has 250 bytes in labels of one byte, and stands in the 28th byte of the
// message, behind header, question and the record's start; the others have a label more than an end of it.
fn root_servers<A: Heap>(alloc: A) -> Result<Vec<u8, A>, Starved> {
    let mut records = Vec::new(alloc);
    put_first_server(&mut records)?;
    for n in 1..ROOT_SERVERS {
        put_server(&mut records, n)?;
    }
    Ok(records)
}

fn put_first_server<A: Heap>(out: &mut Vec<u8, A>) -> Result<(), Starved> {
    out.push(0)?;
    put_middle(out, NS_TYPE, 251)?;
    put_label(out, b"y")?;
    for _ in 0..124 {
        put_label(out, b"z")?;
    }
    out.push(0)?;
    Ok(())
}

fn put_server<A: Heap>(out: &mut Vec<u8, A>, number: u16) -> Result<(), Starved> {
    let end = usize::from(number / OF_ONE_LENGTH)
        .saturating_mul(2)
        .saturating_add(28);
    out.push(0)?;
    put_middle(out, NS_TYPE, 4)?;
    put_label(out, &[lower(number % OF_ONE_LENGTH)])?;
    out.extend_from_slice(&pointer(end))?;
    Ok(())
}

// One of 230 bytes none of which is an upper case letter.
fn lower(number: u16) -> u8 {
    let byte = u8::try_from(number % OF_ONE_LENGTH).unwrap_or(0);
    if byte < b'A' {
        byte
    } else {
        byte.saturating_add(26)
    }
}

/// 4,300 servers of the root are in the cache, with names of over 200 bytes.
pub fn learn_root_servers<A: Heap>(talk: &mut Talk<A>) -> Result<(), Starved> {
    talk.ask("", NS_TYPE)?;
    let records = root_servers(talk.heap())?;
    talk.tell_by_tcp(Says::answer(ROOT_SERVERS, &records))
}

// How many servers of the root are cached whose names are of one size.
const TWINS: u16 = 3_200;

// Data of servers whose names have 192 bytes each, and differ in their first label alone. The first name stands in the
// 28th byte of the message, and the end that all have behind its first label.
fn twins<A: Heap>(alloc: A) -> Result<Vec<u8, A>, Starved> {
    let mut records = Vec::new(alloc);
    records.push(0)?;
    put_middle(&mut records, NS_TYPE, 192)?;
    put_twin(alloc, &mut records, 0)?;
    put_label(&mut records, b"y")?;
    for _ in 0..91 {
        put_label(&mut records, b"z")?;
    }
    records.push(0)?;
    for n in 1..TWINS {
        records.push(0)?;
        put_middle(&mut records, NS_TYPE, 9)?;
        put_twin(alloc, &mut records, n)?;
        records.extend_from_slice(&pointer(35))?;
    }
    Ok(records)
}

// The first label of a server's name: six digits, the last of which count.
fn put_twin<A: Heap>(alloc: A, out: &mut Vec<u8, A>, number: u16) -> Result<(), Starved> {
    let mut label = String::new(alloc);
    write!(label, "{number:06}")?;
    put_label(out, label.as_bytes())
}

/// 3,200 servers of the root are in the cache, with names of one size that have one end.
pub fn learn_twins<A: Heap>(talk: &mut Talk<A>) -> Result<(), Starved> {
    talk.ask("", NS_TYPE)?;
    let records = twins(talk.heap())?;
    talk.tell_by_tcp(Says::answer(TWINS, &records))
}

/// A TXT record of 32,000 strings of a byte is in the cache.
pub fn learn_strings<A: Heap>(talk: &mut Talk<A>) -> Result<(), Starved> {
    talk.ask("t", TXT_TYPE)?;
    let mut records = Vec::new(talk.heap());
    put_strings(&mut records)?;
    talk.tell_by_tcp(Says::answer(1, &records))
}

fn put_strings<A: Heap>(out: &mut Vec<u8, A>) -> Result<(), Starved> {
    out.extend_from_slice(&QUESTION)?;
    put_middle(out, TXT_TYPE, 64_000)?;
    for _ in 0..32_000 {
        put_label(out, b"t")?;
    }
    Ok(())
}

/// A client's query of 65 kB for a name of 127 labels: 4,800 records, each with that name as its owner.
pub fn large_query<A: Heap>(alloc: A) -> Result<Bytes<A>, Starved> {
    let mut records = Vec::new(alloc);
    put_many(&mut records)?;
    query_with(alloc, &records)
}

fn put_many<A: Heap>(out: &mut Vec<u8, A>) -> Result<(), Starved> {
    for _ in 0..4_800 {
        out.extend_from_slice(&QUESTION)?;
        put_middle(out, 65_280, 1)?;
        out.push(7)?;
    }
    Ok(())
}

// The query with these records.
fn query_with<A: Heap>(alloc: A, records: &[u8]) -> Result<Bytes<A>, Starved> {
    let name = long_name(alloc, 0)?;
    query(alloc, name.as_str(), A_TYPE, (4_800, records))
}
