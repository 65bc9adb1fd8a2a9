//! A run of many workers from beginning to end.
ghost use Rattle.std.specs.Prelude.{◌≡◌, ◌<◌, IfOk, length, map};
ghost use Rattle.workers.specs.Runs.{HaveRun};

use crate::follow_ups::FollowUps;
use crate::gate::Gate;
use crate::together::work_all;
use book::Book;
use pool::{Closed, PoolError, Shared, gather};
use std::alloc::Global;
use std::sync::Wait;
use std::sync::ledger::{Blank, Ledger};
use std::thread::Threads;

/// A worker for each list of queries works it off, all at once, each in a thread of its own where one can be made.
/// Before each query a worker comes to the gate. Refused with `Forgot` where the history has more than `keep` lines,
/// with `Memory` where a growth is refused.
pub fn run_all<
    M: FollowUps + Send + Sync,
    L: Ledger + Send + Sync,
    G: Gate + Sync,
    R: Threads + Wait + Sync,
>(
    rt: &R,
    alloc: Global,
    blank: Blank,
    start: M::State,
    queries: &[Vec<M::Query>],
    keep: usize,
    gate: &G,
) -> Result<Closed<M>, PoolError>
    requires name { blank.name ≡ L.name }
    requires parts { (blank.parts ≡ L.parts) × (blank.parts ≡ length queries.now) }
    requires some { 0 < length queries.now }
    requires begins { M.begins start }
    ensures { IfOk result (λ c. HaveRun M.moves M.begins M.event_of M.follow_ups (map (λ q. q.items) queries.now) c.history.items (map (λ v. v.items) c.lists.items)) }
{
    let (book, tickets) = Book::<M, L>::new(alloc, blank, start, queries.len(), keep)?;
    let shared = Shared::new(book);
    let kept = work_all(rt, alloc, &shared, gate, tickets, queries)?;
    gather(alloc, shared.into_book(), kept)
}
