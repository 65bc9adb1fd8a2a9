//! Histories of a small network, entry by entry.
ghost use Rattle.std.specs.Prelude.{◌≡◌};
ghost use Rattle.network.specs.Networks.{Network};
ghost use Rattle.simnet.specs.Beginnings.{Begins};

use crate::threads_tests::storm_tests::small::{network, orders_of};
use book::Entry;
use memory::Starved;
use pool::PoolError;
use score::Clients;
use simnet::{Sim, SimAction, SimActions, SimEvent};
use std::alloc::Global;
use std::marker::Brand;
use std::sync::Wait;
use std::sync::ledger::{Blank, Ledger};
use std::test::Fail;
use std::thread::Threads;
use std::time::Clock;
use storm::{Beginning, StormQuery, Within, lists_of, run_shared};
use workers::{Meeting, Open};

// What so many workers ask, each by this script.
fn lists(alloc: Global, workers: usize, script: &str) -> Result<Vec<Vec<StormQuery>>, Starved> {
    let mut scripts = Vec::new(alloc);
    for _ in 0..workers {
        scripts.push(orders_of(alloc, script)?)?;
    }
    let mut clients = Clients::new(alloc);
    lists_of(alloc, scripts, &mut clients)?.ok_or(Starved)
}

// Five queries.
const ROUND: &str =
    "ask www.example. A\nask also.example. A\nask none.example. A\nask www.example. TXT\nask also.example. TXT\n";

// Ten rounds of them.
fn rounds(alloc: Global) -> Result<String, Starved> {
    let mut script = String::new(alloc);
    for _ in 0..10 {
        script.push_str(ROUND)?;
    }
    Ok(script)
}

// What four workers ask who meet, fifty queries each.
fn lists_of_four(alloc: Global) -> Result<Vec<Vec<StormQuery>>, Starved> {
    let script = rounds(alloc)?;
    lists(alloc, 4, script.as_str())
}

// Two queries, and what they come to: a line for each entry.
const TWO: &str = "ask www.example. A\nask also.example. A\n";

const LINES: &str =
    "client 1: ask 1\ncarry 1: ask 2\ncarry 2: reply to 1\nclient 2: ask 3\ncarry 3: reply to 2\n";

// Whether the run of one worker comes to that.
fn goes_on<P: Beginning + Send + Sync, L: Ledger + Send + Sync, R: Threads + Wait + Sync>(
    rt: &R,
    alloc: Global,
    blank: Blank,
    start: Sim,
) -> Result<bool, PoolError>
    requires name { blank.name ≡ L.name }
    requires parts { (blank.parts ≡ L.parts) × (blank.parts ≡ 1) }
    requires begins { P.begins start × ((s : Network) → P.begins s → s ≡ start) }
    requires fresh { Begins start }
{
    let lists = lists(alloc, 1, TWO)?;
    if lists.len() != 1 {
        return Err(PoolError::Stranger);
    }
    let closed = run_shared::<P, L, Open, R>(rt, alloc, blank, start, &lists, 65_536, &Open)?;
    Ok(lines_of(alloc, &closed.history)?.as_str() == LINES)
}

// A line for each entry.
fn lines_of<P: Beginning>(alloc: Global, history: &[Entry<Within<P>>]) -> Result<String, Starved> {
    let mut text = String::new(alloc);
    for entry in history {
        put_event(&mut text, entry.event())?;
        put_out(&mut text, entry.out())?;
    }
    Ok(text)
}

fn put_event(text: &mut String, event: &SimEvent) -> Result<(), Starved> {
    match event {
        SimEvent::Client { client, .. } => write!(text, "client {client}: ")?,
        SimEvent::Carry { number, .. } => write!(text, "carry {number}: ")?,
        SimEvent::CarryTcp { number, .. } => write!(text, "carry {number} over TCP: ")?,
        _ => text.push_str("another event: ")?,
    }
    Ok(())
}

fn put_out(text: &mut String, out: &Result<SimActions, Starved>) -> Result<(), Starved> {
    let Ok(actions) = out else {
        text.push_str("starved\n")?;
        return Ok(());
    };
    match &actions.first {
        Some(SimAction::Reply { client, .. }) => write!(text, "reply to {client}\n")?,
        Some(SimAction::Sent { number }) => write!(text, "ask {number}\n")?,
        Some(SimAction::Asked { number }) => write!(text, "ask {number} over TCP\n")?,
        None => text.push_str("nothing\n")?,
    }
    Ok(())
}

#[test]
fn each_ask_is_carried_before_the_next_query(rt: HostRuntime) -> Result<(), Fail> {
    let start = network(rt.alloc())?;
    assert!(rt; goes_on::<Brand, Brand, _>(&rt, rt.alloc(), Blank::new(1), start)?);
    Ok(())
}

// What came of four workers at one gate: how many queries were put, how often one went on alone, and whether they kept
// step.
struct Outcome {
    queries: usize,
    late: u64,
    in_step: bool,
}

fn met<P: Beginning + Send + Sync, L: Ledger + Send + Sync, R: Threads + Wait + Clock + Sync>(
    rt: &R,
    alloc: Global,
    blank: Blank,
    start: Sim,
) -> Result<Outcome, PoolError>
    requires name { blank.name ≡ L.name }
    requires parts { (blank.parts ≡ L.parts) × (blank.parts ≡ 4) }
    requires begins { P.begins start × ((s : Network) → P.begins s → s ≡ start) }
    requires fresh { Begins start }
{
    let lists = lists_of_four(alloc)?;
    if lists.len() != 4 {
        return Err(PoolError::Stranger);
    }
    let gate = Meeting::new(rt, 4);
    let closed = run_shared::<P, L, Meeting<'_, R>, R>(
        rt, alloc, blank, start, &lists, 65_536, &gate,
    )?;
    Ok(Outcome {
        queries: closed
            .history
            .iter()
            .filter(|entry| is_query(entry.event()))
            .count(),
        late: gate.late(),
        in_step: are_in_step(&closed.history),
    })
}

fn is_query(event: &SimEvent) -> bool {
    matches!(event, SimEvent::Client { .. })
}

// Whether each worker's query stands behind as many queries of every other worker as it has itself before.
fn are_in_step<P: Beginning>(history: &[Entry<Within<P>>]) -> bool {
    let mut asked = [0_u64; 4];
    for entry in history {
        if !is_query(entry.event()) {
            continue;
        }
        let Some(before) = asked.get(entry.worker()).copied() else {
            return false;
        };
        if asked.iter().any(|count| *count < before) {
            return false;
        }
        if let Some(count) = asked.get_mut(entry.worker()) {
            *count = before.wrapping_add(1);
        }
    }
    true
}

#[test]
fn workers_meet_before_each_query(rt: HostRuntime) -> Result<(), Fail> {
    let start = network(rt.alloc())?;
    let Outcome {
        queries,
        late,
        in_step,
    } = met::<Brand, Brand, _>(&rt, rt.alloc(), Blank::new(4), start)?;
    assert_eq!(rt; (queries, late, in_step), (200, 0, true));
    Ok(())
}
