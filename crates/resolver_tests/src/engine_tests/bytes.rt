//! Bytes of messages, put together or changed.
use engine_fixture::{Out, TestResolver, bounded, under};
use events::{Bytes, Event};
use memory::{Heap, Starved};

// What becomes of a message on its way.
#[derive(Clone, Copy)]
pub enum Change {
    Nothing,
    // Some bits of the byte at a place are turned.
    Turned(usize, u8),
}

// Bytes of a message, from one place on and before another.
pub type Places = (usize, usize);

fn put_all<A: Heap>(bytes: &mut Vec<u8, A>, parts: &[&[u8]]) -> Result<(), Starved> {
    for part in parts {
        bytes.extend_from_slice(*part)?;
    }
    Ok(())
}

// These, one behind the other.
pub fn joined<A: Heap>(alloc: A, parts: &[&[u8]]) -> Result<Vec<u8, A>, Starved> {
    let mut bytes = Vec::new(alloc);
    put_all(&mut bytes, parts)?;
    Ok(bytes)
}

fn turn<A: Heap>(bytes: &mut Vec<u8, A>, place: usize, bits: u8) {
    if let Some(byte) = bytes.get_mut(place) {
        *byte ^= bits;
    }
}

fn make<A: Heap>(bytes: &mut Vec<u8, A>, change: Change) {
    match change {
        Change::Nothing => {}
        Change::Turned(place, bits) => turn(bytes, place, bits),
    }
}

pub fn changed<A: Heap>(alloc: A, bytes: &[u8], change: Change) -> Result<Vec<u8, A>, Starved> {
    let mut copy = Vec::from_slice(alloc, bytes)?;
    make(&mut copy, change);
    Ok(copy)
}

// A message with these bytes behind its ID, as it comes.
fn message<A: Heap>(
    alloc: A,
    id: [u8; 2],
    rest: &[u8],
    change: Change,
) -> Result<Bytes<A>, Starved> {
    let whole = under(alloc, id, rest)?;
    let bytes = changed(alloc, whole.as_slice(), change)?;
    bounded(bytes)
}

fn event<A: Heap>(
    resolver: &TestResolver<A>,
    rest: &[u8],
    change: Change,
) -> Result<Event<A>, Starved> {
    let ask = resolver.ask();
    let bytes = message(resolver.heap(), ask.id, rest, change)?;
    Ok(ask.told(0, bytes))
}

// The server of the last ask says this behind the ask's ID, and it comes so changed.
pub fn told<A: Heap>(resolver: &mut TestResolver<A>, rest: &[u8], change: Change) -> Out {
    let event = event(resolver, rest, change);
    resolver.take(event)
}
