//! One call for one input: task after task, until an ask goes out or the query is over.
ghost use Rattle.std.specs.Prelude.{ℕ, IfOk, OnErr};
ghost use Rattle.message_grammar.specs.Messages.{Message};
ghost use Rattle.wire.specs.declared.via.Via.{Via};
ghost use Rattle.classify.specs.Read.{IsReadingOf};
ghost use Rattle.classify.specs.Views.{reading_view};
ghost use Rattle.resolution.specs.Jobs.{Told, Point, point, IsFreshTask};
ghost use Rattle.resolution.specs.Rules.{Rules, Leaves, Advances};
ghost use Rattle.resolution.specs.Stops.{IsPart, Stops};
ghost use Rattle.iterate.specs.Inputs.{IsSoughtIn};
ghost use Rattle.iterate.specs.Views.{input_view, next_view, task_view};

use crate::calls::{Input, Next};
use crate::entering::{enter, enter_by_reply};
use crate::job::Job;
use crate::moves::make_move;
use crate::task::{Move, Task};
use classify::Reading;
use lookup::{Home, Stores};
use memory::{Heap, Starved};
use rdata::Addr;
use std::hash::BuildHasher;

/// Does task after task, until something goes out.
pub(crate) fn run<S: BuildHasher + Drop, A: Heap>(
    alloc: A,
    job: &mut Job<A>,
    first: Task<A>,
    home: &Home<A>,
    stores: &mut Stores<S, A>,
    now: u64,
) -> Result<Next<A>, Starved>
    requires { IsFreshTask now (task_view first) }
    ensures rules { IfOk result (λ next. (count : ℕ) × (last : Point) × Rules home.now now count (point (task_view first) job.old stores.old) last × Leaves home.now now last (next_view next) job.new stores.new) }
    ensures part { OnErr result ((count : ℕ) × (last : Point) × Rules home.now now count (point (task_view first) job.old stores.old) last × IsPart home.now now last stores.new) }
{
    let mut task = first;
    'turns: loop {
        match make_move(alloc, job, task, home, stores, now)? {
            Move::Onward(onward) => task = onward,
            Move::Out(next) => return Ok(next),
        }
    }
}

/// The work on one input of a query, and what goes out. The input is used, and the rules of RFC 1034, section 5.3.3,
/// are applied until a server is to be asked or the query is over. `now` is the moment of the call, in milliseconds.
/// Where memory runs out, the stores are as the input, or part of it, and the rules on the way left them. The job is to
/// be dropped then.
pub fn advance<S: BuildHasher + Drop, A: Heap>(
    alloc: A,
    job: &mut Job<A>,
    input: Input,
    home: &Home<A>,
    stores: &mut Stores<S, A>,
    now: u64,
) -> Result<Next<A>, Starved>
    ensures advances { IfOk result (λ next. Advances home.now now (input_view input) job.old stores.old (next_view next) job.new stores.new) }
    ensures stops { OnErr result (Stops home.now now (input_view input) job.old stores.old stores.new) }
{
    let first = enter(job, input, stores, now)?;
    Ok(run(alloc, job, first, home, stores, now)?)
}

/// The work on a message of this server that was accepted for a query's ask, and what goes out, as `advance` does it.
/// The contract holds for each message that has the reading, of which there is one; its question is that of the
/// innermost search.
pub fn advance_by_reply<S: BuildHasher + Drop, A: Heap>(
    alloc: A,
    job: &mut Job<A>,
    server: Addr,
    reading: &Reading<A>,
    home: &Home<A>,
    stores: &mut Stores<S, A>,
    now: u64,
) -> Result<Next<A>, Starved>
    requires read { (way : Via) × (m : Message) × IsReadingOf way m (reading_view reading.now) × IsSoughtIn job.old (reading_view reading.now) }
    ensures advances { (way : Via) (m : Message) → IsReadingOf way m (reading_view reading.now) → IsSoughtIn job.old (reading_view reading.now) → IfOk result (λ next. Advances home.now now (Told way server m) job.old stores.old (next_view next) job.new stores.new) }
    ensures stops { (way : Via) (m : Message) → IsReadingOf way m (reading_view reading.now) → IsSoughtIn job.old (reading_view reading.now) → OnErr result (Stops home.now now (Told way server m) job.old stores.old stores.new) }
{
    let first = enter_by_reply(alloc, job, server, reading, stores, now)?;
    Ok(run(alloc, job, first, home, stores, now)?)
}
