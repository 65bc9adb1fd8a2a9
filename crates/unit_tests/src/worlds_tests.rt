//! Worlds and replies that are too large for a row.

use memory::{Heap, Starved};
use rdata::RType;
use record_fixtures::name;
use std::test::Fail;
use world_text::{WorldFault, world_in};
use worlds::{World, WorldError, judge};

// The world of a text. A text of no world is `Starved` too.
fn world_of<A: Heap>(alloc: A, text: &str) -> Result<World<A>, Starved> {
    match world_in(alloc, text) {
        Ok(world) => Ok(world),
        Err(_) => Err(Starved),
    }
}

// Whether a reply about the address of a name is judged right.
fn is_right<A: Heap>(
    alloc: A,
    world: &World<A>,
    asked: &str,
    reply: &[u8],
) -> Result<bool, Starved> {
    let asked = name(alloc, asked)?;
    judge(world, &asked, RType::A, reply)
}

// A root zone with an address.
const ROOT: &str = "zone .\n. 60 SOA r. h. 1 2 3 4 60\n. 60 NS ns.\nns. 60 A 198.51.100.1\n";

// Its end, and its server.
const SERVED: &str = "end\nhost 198.51.100.1 .\nhint 198.51.100.1\n";

// Why a world of a hundred thousand hints and this line is refused, if it is. A text of no zones and servers is
// `Starved` too.
fn fault_of_many<A: Heap>(alloc: A, more: &str) -> Result<Option<WorldError>, Starved> {
    let mut text = String::from_str(alloc, ROOT)?;
    text.push_str(SERVED)?;
    for _ in 0..100_000 {
        text.push_str("hint 198.51.100.1\n")?;
    }
    text.push_str(more)?;
    match world_in(alloc, text.as_str()) {
        Ok(_) => Ok(None),
        Err(WorldFault::World(fault)) => Ok(Some(fault)),
        Err(_) => Err(Starved),
    }
}

#[test]
fn a_hundred_thousand_hints_are_tested(rt: HostRuntime) -> Result<(), Fail> {
    for (more, wanted) in [
        ("", None),
        ("hint 198.51.100.2\n", Some(WorldError::NoStart)),
    ] {
        assert_eq!(rt;
            fault_of_many(rt.alloc(), more)?,
            wanted,
            "behind them {more:?}"
        );
    }
    Ok(())
}

// Of this owner's addresses a message over TCP holds 4,094: header and question take 19 bytes, each record 16. The
// world has one fewer.
const COUNT: u16 = 4_093;

// A world in which w. has these addresses, numbered from 10.0.0.0 on.
fn world_of_many<A: Heap>(alloc: A) -> Result<World<A>, Starved> {
    let mut text = String::from_str(alloc, ROOT)?;
    for number in 0..COUNT {
        let [high, low] = number.to_be_bytes();
        write!(text, "w. 60 A 10.0.{high}.{low}\n")?;
    }
    text.push_str(SERVED)?;
    world_of(alloc, text.as_str())
}

// A reply with so many addresses: those of the world, and then the last one again.
fn reply_of_many<A: Heap>(alloc: A, count: u16) -> Result<Vec<u8, A>, Starved> {
    let mut bytes = Vec::from_slice(alloc, b"\0\x07\x84\x80\0\x01")?;
    bytes.extend_from_slice(&count.to_be_bytes())?;
    bytes.extend_from_slice(b"\0\0\0\0\x01w\0\0\x01\0\x01")?;
    for number in 0..count {
        bytes.extend_from_slice(b"\xc0\x0c\0\x01\0\x01\0\0\0\x3c\0\x04\x0a\0")?;
        bytes.extend_from_slice(&number.min(COUNT - 1).to_be_bytes())?;
    }
    Ok(bytes)
}

fn judged_many<A: Heap>(alloc: A, world: &World<A>, count: u16) -> Result<bool, Starved> {
    let reply = reply_of_many(alloc, count)?;
    is_right(alloc, world, "w.", &reply)
}

// Each once, and the last one twice.
fn judged_longest<A: Heap>(alloc: A) -> Result<(bool, bool), Starved> {
    let world = world_of_many(alloc)?;
    let whole = judged_many(alloc, &world, COUNT)?;
    let doubled = judged_many(alloc, &world, COUNT + 1)?;
    Ok((whole, doubled))
}

#[test]
fn the_longest_replies_are_judged(rt: HostRuntime) -> Result<(), Fail> {
    assert_eq!(rt; judged_longest(rt.alloc())?, (true, false));
    Ok(())
}
