//! One move of a query at work. `make_move` does one task by the rule that fits it (RFC 1034, section 5.3.3).
//! `due_after` is the task after a look-up, for a query at work and for a new one.
ghost use Rattle.std.specs.Prelude.{◌≡◌, ℕ, IfOk, OnOk, OnErr};
ghost use Rattle.frames.specs.Frames.{opened};
ghost use Rattle.resolution.specs.Jobs.{Home as HomeSpec, Stores as StoresSpec, Seek, point, search_at, level_of, IsFreshTask};
ghost use Rattle.resolution.specs.Rules.{Rule};
ghost use Rattle.resolution.specs.Stops.{IsPart};
ghost use Rattle.lookup.specs.Found.{IsFound};
ghost use Rattle.iterate.specs.Moves.{IsMove, begun};
ghost use Rattle.iterate.specs.Views.{task_view, move_view};

use crate::asking::again;
use crate::chaining::use_link;
use crate::job::Job;
use crate::search::Search;
use crate::serving::go;
use crate::task::{Move, Task};
use dname::Name;
use lookup::{Found, Home, Stores, find};
use memory::{Heap, Starved};
use referral::Cut;
use std::alloc::AllocError;
use std::hash::BuildHasher;

// Opens the search for the query's own name at this cut.
fn open_search<S: BuildHasher + Drop, A: Heap>(
    alloc: A,
    job: &mut Job<A>,
    cut: &Cut<A>,
    stores: &Stores<S, A>,
) -> Result<(), Starved>
    ensures { OnOk result (job.new ≡ begun job.old (search_at (job.old).name (job.old).kind (opened (level_of stores.now) 0 cut.now))) }
{
    let name: Result<Name<A>, AllocError> = job.name().clone();
    let frame = stores.open(alloc, cut, 0)?;
    job.begin_search(Search::new(name?, job.kind(), frame))?;
    Ok(())
}

/// The task after the look-up of the query's name: to use the link, or to ask servers.
pub(crate) fn due_after<S: BuildHasher + Drop, A: Heap>(
    alloc: A,
    job: &mut Job<A>,
    found: Found<A>,
    stores: &Stores<S, A>,
) -> Result<Task<A>, Starved>
    ensures { (home : HomeSpec) (now : ℕ) (before : StoresSpec) → IsFound home now (job.old).name (job.old).kind before found stores.now → IfOk result (λ t. Rule home now (point Seek job.old before) (point (task_view t) job.new stores.now)) }
{
    match found {
        Found::Known(link) => Ok(Task::Take(link)),
        Found::Start(cut) => {
            let begun = open_search(alloc, job, &cut, stores);
            drop(cut);
            begun?;
            Ok(Task::Go)
        }
    }
}

// Looks for the query's name in local zones and cache, and else opens a search for it.
fn seek<S: BuildHasher + Drop, A: Heap>(
    alloc: A,
    job: &mut Job<A>,
    home: &Home<A>,
    stores: &mut Stores<S, A>,
    now: u64,
) -> Result<Move<A>, Starved>
    ensures is { IfOk result (λ t. IsMove home.now now (point Seek job.old stores.old) (move_view t) job.new stores.new) }
    ensures part { OnErr result (IsPart home.now now (point Seek job.old stores.old) stores.new) }
{
    let found = find(alloc, home, job.name(), job.kind(), stores, now)?;
    Ok(Move::Onward(due_after(alloc, job, found, stores)?))
}

/// One move: the task is done by one rule, or something goes out. Where memory runs out, the state of the job is
/// undefined, and it is to be dropped.
pub(crate) fn make_move<S: BuildHasher + Drop, A: Heap>(
    alloc: A,
    job: &mut Job<A>,
    task: Task<A>,
    home: &Home<A>,
    stores: &mut Stores<S, A>,
    now: u64,
) -> Result<Move<A>, Starved>
    requires fresh { IsFreshTask now (task_view task) }
    ensures is { IfOk result (λ t. IsMove home.now now (point (task_view task) job.old stores.old) (move_view t) job.new stores.new) }
    ensures part { OnErr result (IsPart home.now now (point (task_view task) job.old stores.old) stores.new) }
{
    match task {
        Task::Seek => seek(alloc, job, home, stores, now),
        Task::Take(link) => use_link(job, link, now),
        Task::Go => go(alloc, job, home, stores, now),
        Task::Again(server) => again(job, server, now),
    }
}
