//! A resolver with one server of the root, and messages about www.example, for tests.
use crate::engine_tests::bytes::joined;
use engine_fixture::{Ask, Out, TestResolver, bounded};
use events::{Bytes, Event};
use memory::{Heap, Starved};
use rdata::Addr;
use refusing_alloc::Refusing;

// The server of the root: 192.0.2.1.
pub const ROOT: u8 = 1;

// The question that each message repeats: www.example. A.
const QUESTION: &[u8] = b"\x03www\x07example\0\0\x01\0\x01";

// A client's query for it, under ID 5 with RD set.
pub const QUERY: &[u8] = b"\0\x05\x01\0\0\x01\0\0\0\0\0\0\x03www\x07example\0\0\x01\0\x01";

// Where the question's name stands in a message, and where its last label does.
pub const WWW_EXAMPLE: u8 = 12;

pub const EXAMPLE: u8 = 16;

// The address 192.0.2.`last`, of the name at a place of the message.
#[derive(Clone, Copy)]
pub struct Line {
    pub owner: u8,
    pub ttl: u32,
    pub last: u8,
}

impl Line {
    // Its bytes, the owner's name being a pointer.
    fn bytes(self) -> [u8; 16] {
        let [a, b, c, d] = self.ttl.to_be_bytes();
        [
            0xc0, self.owner, 0, 1, 0, 1, a, b, c, d, 0, 4, 192, 0, 2, self.last,
        ]
    }
}

fn put_lines<A: Heap>(bytes: &mut Vec<u8, A>, lines: &[Line]) -> Result<(), Starved> {
    for line in lines {
        bytes.extend_from_slice(&line.bytes())?;
    }
    Ok(())
}

// A message: its ID, the rest of its header, the question, and records.
fn message<A: Heap>(
    alloc: A,
    id: [u8; 2],
    rest: &[u8],
    lines: &[Line],
) -> Result<Bytes<A>, Starved> {
    let mut bytes = joined(alloc, &[&id, rest, QUESTION])?;
    put_lines(&mut bytes, lines)?;
    bounded(bytes)
}

// A resolver that knows a server of the root.
pub fn resolver<A: Heap>(alloc: A) -> Result<TestResolver<A>, Starved> {
    TestResolver::new(alloc, Addr([192, 0, 2, ROOT]))
}

// Ends a resolver. All its parts are dropped here alone: each exit of a function that drops one spells them out.
pub fn end<A: Heap>(resolver: TestResolver<A>) {
    drop(resolver);
}

// What comes to a resolver.
#[derive(Clone, Copy)]
pub enum Act {
    // Client 3 asks, at that moment.
    Asks(u64, &'static [u8]),
    // 192.0.2.N says this, at the socket of the last ask and under its ID.
    Told(u8, &'static [u8], &'static [Line]),
    // Time has come to that moment.
    Tick(u64),
}

// A message from 192.0.2.`from` at the socket of the last ask and under its ID.
fn reply<A: Heap>(
    resolver: &TestResolver<A>,
    from: u8,
    rest: &[u8],
    lines: &[Line],
) -> Result<Event<A>, Starved> {
    let ask = Ask {
        server: Addr([192, 0, 2, from]),
        ..resolver.ask()
    };
    let bytes = message(resolver.heap(), ask.id, rest, lines)?;
    Ok(ask.told(0, bytes))
}

// What the resolver is told by an act.
fn event<A: Heap>(resolver: &TestResolver<A>, act: Act) -> Result<Event<A>, Starved> {
    match act {
        Act::Asks(moment, bytes) => resolver.query(3, moment, bytes),
        Act::Told(from, rest, lines) => reply(resolver, from, rest, lines),
        Act::Tick(moment) => Ok(Event::Tick { moment }),
    }
}

fn perform<A: Heap>(resolver: &mut TestResolver<A>, act: Act) -> Out {
    let event = event(resolver, act);
    resolver.take(event)
}

// The place of the first of these acts of which something else comes.
fn first_other<A: Heap>(resolver: &mut TestResolver<A>, acts: &[(Act, Out)]) -> Option<usize> {
    for (place, (act, out)) in acts.iter().enumerate() {
        if perform(resolver, *act) != *out {
            return Some(place);
        }
    }
    None
}

fn perform_all<A: Heap>(resolver: &mut TestResolver<A>, acts: &[(Act, Out)]) {
    for (act, _) in acts {
        perform(resolver, *act);
    }
}

// At a new resolver these acts happen, and then a last one, whose step takes more than four growths or none. Where one
// of them is refused nothing goes out, and then something else happens.
#[derive(Clone, Copy)]
pub struct Starving {
    pub what: &'static str,
    pub acts: &'static [(Act, Out)],
    pub last: (Act, Out),
    pub takes_memory: bool,
    pub after: &'static [(Act, Out)],
}

// The row that goes wrong, how many growths its last step takes or which of them was refused, and what came of it.
pub type Wrong = (&'static str, u64, Out);

impl Starving {
    // The resolver before the last act. What comes of the acts before it is seen by other rows.
    fn begin<A: Heap>(self, alloc: A) -> Result<TestResolver<A>, Starved> {
        let mut resolver = resolver(alloc)?;
        perform_all(&mut resolver, self.acts);
        Ok(resolver)
    }

    // How many growths the last step takes where none is refused, and what comes of it.
    pub fn last_step<A: Heap>(self, alloc: A) -> Result<(u64, Out), Starved> {
        let heap = Refusing::new(alloc);
        let mut resolver = self.begin(&heap)?;
        let event = event(&resolver, self.last.0);
        let before = heap.growths();
        let out = resolver.take(event);
        let growths = heap.growths().saturating_sub(before);
        end(resolver);
        Ok((growths, out))
    }

    // What comes of the last step where that growth is refused, and whether all comes then as it has to.
    fn without<A: Heap>(self, alloc: A, growth: u64) -> Result<(Out, bool), Starved> {
        let heap = Refusing::new(alloc);
        let mut resolver = self.begin(&heap)?;
        let event = event(&resolver, self.last.0);
        heap.refuse_after(growth);
        let out = resolver.take(event);
        let goes_on = first_other(&mut resolver, self.after).is_none();
        end(resolver);
        Ok((out, goes_on))
    }

    // The first of so many growths without which something goes out, or not all comes then as it has to.
    fn wrong_without<A: Heap>(self, alloc: A, growths: u64) -> Result<Option<Wrong>, Starved> {
        for growth in 0..growths {
            let (out, goes_on) = self.without(alloc, growth)?;
            if (out, goes_on) != (Out::Starved, true) {
                return Ok(Some((self.what, growth, out)));
            }
        }
        Ok(None)
    }

    fn takes(self, growths: u64) -> bool {
        if self.takes_memory {
            growths > 4
        } else {
            growths == 0
        }
    }

    // What goes wrong where the last step is to take memory or none, and to do what was worked with it.
    fn wrong<A: Heap>(self, alloc: A) -> Result<Option<Wrong>, Starved> {
        let (growths, out) = self.last_step(alloc)?;
        if out != self.last.1 || !self.takes(growths) {
            return Ok(Some((self.what, growths, out)));
        }
        self.wrong_without(alloc, growths)
    }
}

// The first of these that does not go so.
pub fn first_wrong<A: Heap>(alloc: A, rows: &[Starving]) -> Result<Option<Wrong>, Starved> {
    for row in rows {
        let wrong = row.wrong(alloc)?;
        if wrong.is_some() {
            return Ok(wrong);
        }
    }
    Ok(None)
}
