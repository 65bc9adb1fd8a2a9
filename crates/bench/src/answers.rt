//! Answers that a resolver gives without asking anybody.
use crate::names::name;
use crate::steps::{ask, core, query, read_and_step_all, step_all, tell, weight};
use anyhow::Result;
use engine::Core;
use events::Event;
use memory::{Heap, Starved};
use refusing_alloc::Refusing;
use std::fmt;
use std::rt::Runtime;
use zone::Zone;

/// Where the answer is known from.
#[derive(Clone, Copy)]
pub enum Known {
    /// A local zone: so many addresses.
    Zone(u8),
    /// The cache: so many addresses.
    Cache(u8),
}

/// The answers that are measured.
pub const EACH: [Known; 5] = [
    Known::Zone(1),
    Known::Zone(20),
    Known::Cache(1),
    Known::Cache(3),
    Known::Cache(20),
];

impl fmt::Display for Known {
    fn fmt<W: fmt::Write>(&self, f: &mut fmt::Formatter<W>) -> fmt::Result {
        match self {
            Known::Zone(count) => write!(f, "answer of {count} by a local zone"),
            Known::Cache(count) => write!(f, "cached answer of {count}"),
        }
    }
}

// The text of a zone in which the name has so many addresses.
fn text<A: Heap>(alloc: A, count: u8) -> Result<String<A>, Starved> {
    let mut text = String::new(alloc);
    text.push_str("$TTL 300\n@ SOA ns h 1 2 3 4 60\n@ NS ns\n")?;
    for last in 0..count {
        write!(text, "www A 192.0.2.{last}\n")?;
    }
    Ok(text)
}

// A local zone that has so many addresses of the name, and no other.
fn example<A: Heap>(alloc: A, count: u8) -> Result<Vec<Zone<A>, A>, Starved> {
    let text = text(alloc, count)?;
    let origin = name(alloc, "example.")?;
    let records = masterfile::read(alloc, &origin, text.as_str()).map_err(|_| Starved)?;
    let mut zones = Vec::new(alloc);
    zones.push(Zone::build(origin, records).map_err(|_| Starved)?)?;
    Ok(zones)
}

// A server's reply with so many addresses of www.example., each with a TTL of 300 seconds, behind its ID.
fn reply<A: Heap>(alloc: A, count: u8) -> Result<Vec<u8, A>, Starved> {
    let mut rest = Vec::from_slice(alloc, &[0x84, 0, 0, 1, 0, count, 0, 0, 0, 0])?;
    rest.extend_from_slice(b"\x03www\x07example\0\0\x01\0\x01")?;
    for last in 0..count {
        rest.extend_from_slice(&[0xc0, 0x0c, 0, 1, 0, 1, 0, 0, 1, 0x2c, 0, 4, 192, 0, 2, last])?;
    }
    Ok(rest)
}

// The query is answered with so many addresses, which the cache has from then on.
fn learn<A: Heap>(
    alloc: A,
    core: &mut Core<A>,
    query: &Event<A>,
    count: u8,
) -> Result<u64, Starved> {
    let asked = ask(core, query)?;
    let reply = reply(alloc, count)?;
    Ok(weight(&tell(alloc, core, asked, &reply)?))
}

impl Known {
    /// The local zones of a resolver that knows the answer.
    pub fn zones<A: Heap>(self, alloc: A) -> Result<Vec<Zone<A>, A>, Starved> {
        match self {
            Known::Zone(count) => example(alloc, count),
            Known::Cache(_) => Ok(Vec::new(alloc)),
        }
    }

    /// The resolver knows the answer from then on.
    pub fn learn<A: Heap>(
        self,
        alloc: A,
        core: &mut Core<A>,
        query: &Event<A>,
    ) -> Result<u64, Starved> {
        match self {
            Known::Zone(_) => Ok(0),
            Known::Cache(count) => learn(alloc, core, query, count),
        }
    }

    // A resolver that knows the answer is asked so often, by a query whose bytes are read once where that is asked for.
    fn times<A: Heap>(self, alloc: A, locked: bool, rounds: u64) -> Result<u64, Starved> {
        let query = query(alloc)?;
        let sum = self.ask(alloc, &query, locked, rounds);
        drop(query);
        sum
    }

    fn ask<A: Heap>(
        self,
        alloc: A,
        query: &Event<A>,
        locked: bool,
        rounds: u64,
    ) -> Result<u64, Starved> {
        let mut core = core(alloc, self.zones(alloc)?)?;
        let sum = self.learn_and_step(alloc, &mut core, query, locked, rounds);
        drop(core);
        sum
    }

    fn learn_and_step<A: Heap>(
        self,
        alloc: A,
        core: &mut Core<A>,
        query: &Event<A>,
        locked: bool,
        rounds: u64,
    ) -> Result<u64, Starved> {
        self.learn(alloc, core, query)?;
        if locked {
            read_and_step_all(alloc, core, query, rounds)
        } else {
            step_all(core, query, rounds)
        }
    }

    // How often memory is asked for by so many answers.
    fn grown<R: AllocGlobal>(self, rt: &R, locked: bool, rounds: u64) -> Result<u64, Starved> {
        let alloc = Refusing::new(rt.alloc());
        self.times(&alloc, locked, rounds)?;
        Ok(alloc.growths())
    }

    /// How often memory is asked for by the second of two such answers.
    pub fn growths<R: Runtime + AllocGlobal>(self, rt: &R) -> Result<u64, Starved> {
        let one = self.grown(rt, false, 1)?;
        Ok(self.grown(rt, false, 2)?.saturating_sub(one))
    }

    /// How often memory is asked for by the step alone of the second of two such answers, which were read before and
    /// are written after: while the lock of a server is held.
    pub fn growths_locked<R: Runtime + AllocGlobal>(self, rt: &R) -> Result<u64, Starved> {
        let one = self.grown(rt, true, 1)?;
        Ok(self.grown(rt, true, 2)?.saturating_sub(one))
    }
}
