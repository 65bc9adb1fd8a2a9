//! Worked scripts while memory is refused somewhere.

use crate::done::Done;
use crate::plays::{
    ALIAS, ALIASES, DARK, DENIED, FOLLOWED, Held, KEPT, LOOKED_UP, NESTED, RUN_OUT, SILENT, SMALL,
    STRANGE, TRUNCATED, play,
};
use refusing_alloc::Refusing;
use std::alloc::AllocError;
use std::process::Abort;
use std::str::from_utf8;
use std::sync::Wait;
use std::test::Fail;
use std::thread::Threads;

// What a play comes to while memory is refused.
#[derive(Clone, Copy)]
enum Lot {
    // It ended when out of memory alone.
    CutOff,
    // A step starved, and the rest was done.
    Starved,
    // All was done.
    Whole,
    Other,
}

impl Lot {
    // What came of a play. Where it was done, each reply that counts is right.
    fn of(done: &Done) -> Lot {
        if done.is((3, "", "error: memory\n")) {
            return Lot::CutOff;
        }
        let Ok(text) = from_utf8(done.out.bytes.as_slice()) else {
            return Lot::Other;
        };
        let is_right = ["right 0 of 0\n", "right 1 of 1\n", "right 2 of 2\n"]
            .iter()
            .any(|line| text.ends_with(*line));
        if done.status != 0 || !done.err.holds("") || !is_right {
            Lot::Other
        } else if text.contains("starved\n") {
            Lot::Starved
        } else {
            Lot::Whole
        }
    }
}

// The first growth of a play whose refusal neither cuts it off nor lets a step starve, or else the number of growths
// where nothing is cut off, or nothing starves, or the play goes wrong with all its memory. What each prints with all its
// memory stands in examples/plays and tests/commands.
fn wrong_growth<R: Threads + Wait + AllocGlobal + Sync>(
    rt: &R,
    world: &str,
    script: &str,
) -> Result<Option<u64>, AllocError> {
    let heap = Refusing::new(rt.alloc());
    let held = Held { world, script };
    let is_whole = matches!(Lot::of(&play(rt, &heap, held)?), Lot::Whole);
    let growths = heap.growths();
    let (mut cuts_off, mut starves) = (false, false);
    for growth in 0..growths {
        heap.refuse_after(growth);
        match Lot::of(&play(rt, &heap, held)?) {
            Lot::CutOff => cuts_off = true,
            Lot::Starved => starves = true,
            Lot::Whole | Lot::Other => return Ok(Some(growth)),
        }
    }
    let is_well = is_whole && cuts_off && starves;
    Ok(if is_well { None } else { Some(growths) })
}

// Each growth of a play is refused in turn.
fn see<R: Abort + Threads + Wait + AllocGlobal + Sync>(
    rt: &R,
    world: &str,
    script: &str,
) -> Result<(), Fail> {
    assert_eq!(rt; wrong_growth(rt, world, script)?, None);
    Ok(())
}

#[test]
fn links_that_are_kept(rt: HostRuntime) -> Result<(), Fail> {
    see(&rt, SMALL, KEPT)
}

#[test]
fn a_name_error(rt: HostRuntime) -> Result<(), Fail> {
    see(&rt, SMALL, DENIED)
}

#[test]
fn an_alias(rt: HostRuntime) -> Result<(), Fail> {
    see(&rt, SMALL, ALIAS)
}

#[test]
fn an_alias_that_ran_out(rt: HostRuntime) -> Result<(), Fail> {
    see(&rt, SMALL, RUN_OUT)
}

#[test]
fn a_truncated_reply(rt: HostRuntime) -> Result<(), Fail> {
    see(&rt, SMALL, TRUNCATED)
}

#[test]
fn a_server_whose_address_is_looked_up(rt: HostRuntime) -> Result<(), Fail> {
    see(&rt, NESTED, LOOKED_UP)
}

#[test]
fn a_server_without_an_address(rt: HostRuntime) -> Result<(), Fail> {
    see(&rt, SMALL, DARK)
}

#[test]
fn a_silent_server(rt: HostRuntime) -> Result<(), Fail> {
    see(&rt, SMALL, SILENT)
}

#[test]
fn queries_that_are_refused(rt: HostRuntime) -> Result<(), Fail> {
    see(&rt, SMALL, STRANGE)
}

#[test]
fn aliases_of_a_local_zone(rt: HostRuntime) -> Result<(), Fail> {
    see(&rt, ALIASES, FOLLOWED)
}
