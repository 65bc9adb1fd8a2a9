//! A machine that counts its steps, worked by one worker and by four.
ghost use Rattle.std.specs.Prelude.{◌≡◌, ◌<◌, IfOk, length};

use book::{Entry, Machine};
use memory::Starved;
use pool::{Closed, PoolError};
use std::alloc::Global;
use std::collections::VecDeque;
use std::marker::Brand;
use std::sync::Wait;
use std::sync::ledger::{Blank, Ledger};
use std::test::Fail;
use std::thread::Threads;
use std::time::Clock;
use workers::{FollowUps, Meeting, Open, run_all};

// Counts its steps. Each event but 0 calls for one follow-up event: the event that is less by one.
struct Falling;

impl Machine for Falling {
    type State = u64;

    type Event = u64;

    type Out = u64;

    ghost use Rattle.std.specs.Prelude.{◌≡◌, ◌+◌, MatchResult};

    ghost moves = { λ s _ r t. MatchResult r (λ o. (o ≡ s + 1) × (t ≡ o)) (λ _. t ≡ s) };

    ghost begins = { λ s. s ≡ 0 };

    fn step(state: &mut u64, _event: &u64) -> Result<u64, Starved> {
        let steps = state.checked_add(1).ok_or(Starved)?;
        *state = steps;
        Ok(steps)
    }

    fn copy_event(event: &u64) -> Result<u64, Starved> {
        Ok(*event)
    }

    fn copy_out(out: &u64) -> Result<u64, Starved> {
        Ok(*out)
    }

    fn same_event(a: &u64, b: &u64) -> bool {
        a == b
    }

    fn same_out(a: &u64, b: &u64) -> bool {
        a == b
    }
}

impl FollowUps for Falling {
    type Query = u64;

    ghost use Rattle.std.specs.Prelude.{◌-◌, cond, nat_eq, [], ◌∷◌};

    ghost event_of = { λ q. q };

    ghost follow_ups = { λ e _. cond (nat_eq e 0) [] ((e - 1) ∷ []) };

    fn event(query: &u64) -> Result<u64, Starved> {
        Ok(*query)
    }

    fn add_follow_ups(
        event: &u64,
        _out: &Result<u64, Starved>,
        waiting: &mut VecDeque<u64>,
    ) -> Result<(), Starved> {
        if *event > 0 {
            waiting.push_back(*event - 1)?;
        }
        Ok(())
    }
}

// Worker, event, and the number of the step.
type Row = (usize, u64, Option<u64>);

fn row(entry: &Entry<Falling>) -> Row {
    let out = match entry.out() {
        Ok(out) => Some(*out),
        Err(_) => None,
    };
    (entry.worker(), *entry.event(), out)
}

// What a run of one worker with the queries 2 and 1 comes to.
const ROWS: [Row; 5] = [
    (0, 2, Some(1)),
    (0, 1, Some(2)),
    (0, 0, Some(3)),
    (0, 1, Some(4)),
    (0, 0, Some(5)),
];

fn are_rows(history: &[Entry<Falling>]) -> bool {
    for (place, entry) in history.iter().enumerate() {
        if ROWS.get(place).copied() != Some(row(entry)) {
            return false;
        }
    }
    history.len() == ROWS.len()
}

fn has_rows(closed: Result<Closed<Falling>, PoolError>) -> Result<bool, PoolError> {
    match closed {
        Ok(closed) => Ok(are_rows(&closed.history)),
        Err(error) => Err(error),
    }
}

fn one_list(alloc: Global) -> Result<Vec<Vec<u64>>, Starved>
    ensures { IfOk result (λ lists. length lists.items ≡ 1) }
{
    let list = Vec::from_slice(alloc, &[2, 1])?;
    let mut lists = Vec::new(alloc);
    lists.push(list)?;
    Ok(lists)
}

// Whether the history of such a run is ROWS, where the book keeps so many.
fn run_of_one<L: Ledger + Send + Sync, R: Threads + Wait + Sync>(
    rt: &R,
    alloc: Global,
    blank: Blank,
    keep: usize,
) -> Result<bool, PoolError>
    requires name { blank.name ≡ L.name }
    requires parts { (blank.parts ≡ L.parts) × (blank.parts ≡ 1) }
{
    let lists = one_list(alloc)?;
    has_rows(run_all::<Falling, L, Open, R>(rt, alloc, blank, 0, &lists, keep, &Open))
}

#[test]
fn follow_ups_come_before_the_next_query(rt: HostRuntime) -> Result<(), Fail> {
    assert!(rt; run_of_one::<Brand, _>(&rt, rt.alloc(), Blank::new(1), 5)?);
    Ok(())
}

#[test]
fn a_short_book_forgets(rt: HostRuntime) -> Result<(), Fail> {
    let run = run_of_one::<Brand, _>(&rt, rt.alloc(), Blank::new(1), 4);
    assert!(rt; run.err() == Some(PoolError::Forgot));
    Ok(())
}

const QUERIES: usize = 50;

// What came of four workers at one gate: how many entries, how often one went on alone, and whether they kept step.
struct Outcome {
    entries: usize,
    late: u64,
    in_step: bool,
}

// Four workers of 50 queries each, all of which call for one follow-up event.
fn met<L: Ledger + Send + Sync, R: Threads + Wait + Clock + Sync>(
    rt: &R,
    alloc: Global,
    blank: Blank,
) -> Result<Outcome, PoolError>
    requires name { blank.name ≡ L.name }
    requires parts { (blank.parts ≡ L.parts) × (blank.parts ≡ 4) }
{
    let lists = four_lists(alloc)?;
    if lists.len() != 4 {
        return Err(PoolError::Memory);
    }
    let gate = Meeting::new(rt, 4);
    let closed = run_all::<Falling, L, Meeting<'_, R>, R>(rt, alloc, blank, 0, &lists, 400, &gate);
    outcome_of(closed, gate.late())
}

fn outcome_of(closed: Result<Closed<Falling>, PoolError>, late: u64) -> Result<Outcome, PoolError> {
    match closed {
        Ok(closed) => Ok(Outcome {
            entries: closed.history.len(),
            late,
            in_step: are_in_step(&closed.history),
        }),
        Err(error) => Err(error),
    }
}

fn four_lists(alloc: Global) -> Result<Vec<Vec<u64>>, Starved> {
    let mut lists = Vec::new(alloc);
    for _ in 0..4 {
        let mut list = Vec::new(alloc);
        for _ in 0..QUERIES {
            list.push(1)?;
        }
        lists.push(list)?;
    }
    Ok(lists)
}

// Whether each worker's query stands behind as many queries of every other worker as it has itself before.
fn are_in_step(history: &[Entry<Falling>]) -> bool {
    let mut asked = [0_u64; 4];
    for entry in history {
        if *entry.event() == 0 {
            continue;
        }
        let Some(before) = asked.get(entry.worker()).copied() else {
            return false;
        };
        if asked.iter().any(|count| *count < before) {
            return false;
        }
        if let Some(count) = asked.get_mut(entry.worker()) {
            *count = before.wrapping_add(1);
        }
    }
    true
}

#[test]
fn workers_meet_before_each_query(rt: HostRuntime) -> Result<(), Fail> {
    let Outcome {
        entries,
        late,
        in_step,
    } = met::<Brand, _>(&rt, rt.alloc(), Blank::new(4))?;
    assert_eq!(rt; (entries, late, in_step), (400, 0, true));
    Ok(())
}
