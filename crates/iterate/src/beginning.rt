//! The beginning of a query: its answer where that is known, or else the work on it.
ghost use Rattle.std.specs.Prelude.{◌≡◌, ◌↔◌, min, MatchOption, IsTrue, IfOk, OnErr};
ghost use Rattle.limits.specs.Limits.{latest_moment};
ghost use Rattle.rdata.specs.Types.{type_number};
ghost use Rattle.resolution.specs.Jobs.{Stores as StoresSpec, Start, job_at, IsEnding};
ghost use Rattle.resolution.specs.Stops.{Stops};
ghost use Rattle.lookup.specs.Ends.{IfGiven};
ghost use Rattle.lookup.specs.Found.{IsFound};
ghost use Rattle.iterate.specs.Beginnings.{StartsWith, AnswersWith};

use crate::advancing::run;
use crate::calls::Next;
use crate::job::Job;
use crate::moves::due_after;
use dname::Name;
use lookup::{Found, Home, Stores, Taken, find, find_end};
use memory::{Heap, Starved};
use rdata::RType;
use std::alloc::{Allocator, Global};
use std::hash::BuildHasher;

/// The result of starting a query: its answer, or a job that waits.
#[derive(Drop)]
pub enum Started<A: Allocator = Global> {
    /// The answer, without an alias before it: no work is left.
    Answered(Taken<A>),
    /// The work on the query, and what goes out for it.
    Working(Job<A>, Next<A>),
}

// Whether the link ends a chain.
fn is_end<A: Allocator>(link: &Taken<A>) -> bool
    ensures { IsTrue result ↔ IsEnding link.now.link }
{
    match link.alias_target() {
        Some(_) => false,
        None => true,
    }
}

// Starts the work with what was found for the query's name.
fn set_out<S: BuildHasher + Drop, A: Heap>(
    alloc: A,
    mut job: Job<A>,
    found: Found<A>,
    home: &Home<A>,
    stores: &mut Stores<S, A>,
    now: u64,
) -> Result<Started<A>, Starved>
    requires { (before : StoresSpec) × IsFound home.now now job.name job.kind before found stores.old }
    ensures begins { (before : StoresSpec) → IsFound home.now now job.name job.kind before found stores.old → IfOk result (λ b. StartsWith home.now now job before b stores.new) }
    ensures stops { (before : StoresSpec) → IsFound home.now now job.name job.kind before found stores.old → OnErr result (Stops home.now now Start job before stores.new) }
{
    match due_after(alloc, &mut job, found, stores) {
        Err(starved) => {
            drop(job);
            Err(starved)
        }
        Ok(first) => match run(alloc, &mut job, first, home, stores, now) {
            Err(starved) => {
                drop(job);
                Err(starved)
            }
            Ok(next) => Ok(Started::Working(job, next)),
        },
    }
}

// The work on a query, from what was found for its name on.
fn work<S: BuildHasher + Drop, A: Heap>(
    alloc: A,
    name: &Name<A>,
    kind: RType,
    found: Found<A>,
    home: &Home<A>,
    stores: &mut Stores<S, A>,
    now: u64,
) -> Result<Started<A>, Starved>
    requires { (before : StoresSpec) × IsFound home.now now name.now (type_number kind) before found stores.old }
    ensures begins { (before : StoresSpec) → IsFound home.now now name.now (type_number kind) before found stores.old → IfOk result (λ b. StartsWith home.now now (job_at name.now (type_number kind) (min now latest_moment)) before b stores.new) }
    ensures stops { (before : StoresSpec) → IsFound home.now now name.now (type_number kind) before found stores.old → OnErr result (Stops home.now now Start (job_at name.now (type_number kind) (min now latest_moment)) before stores.new) }
{
    match name.copied(alloc) {
        Err(starved) => {
            drop(found);
            Err(starved)
        }
        Ok(own) => set_out(alloc, Job::new(own, kind, now), found, home, stores, now),
    }
}

/// The result of a query for a name and a type at the moment `now`, in milliseconds; its ten seconds count from 2^62
/// where `now` is later. A link that is found for the name and is no alias is the answer: neither is a job made, nor the
/// name copied for it. Else the work begins, as by `advance` with `Input::Start`. Where memory runs out, the stores are
/// as the rules on the way left them.
pub fn begin_query<S: BuildHasher + Drop, A: Heap>(
    alloc: A,
    name: &Name<A>,
    kind: RType,
    home: &Home<A>,
    stores: &mut Stores<S, A>,
    now: u64,
) -> Result<Started<A>, Starved>
    ensures begins { IfOk result (λ b. StartsWith home.now now (job_at name.now (type_number kind) (min now latest_moment)) stores.old b stores.new) }
    ensures stops { OnErr result (Stops home.now now Start (job_at name.now (type_number kind) (min now latest_moment)) stores.old stores.new) }
{
    match find(alloc, home, name, kind, stores, now)? {
        Found::Known(last) => {
            if is_end(&last) {
                return Ok(Started::Answered(last));
            }
            work(alloc, name, kind, Found::Known(last), home, stores, now)
        }
        Found::Start(cut) => work(alloc, name, kind, Found::Start(cut), home, stores, now),
    }
}

/// The answer of a query for a name and a type at the moment `now`, in milliseconds, where that shows at once: the link
/// that `begin_query` would give, where it is no alias and stands in a local zone, or in the cache under the name itself.
/// None, and no change in the stores, where not, or where no memory is left to see it. It is out of memory where the link
/// was used, and could not be given.
pub fn answer_query<S: BuildHasher + Drop, A: Heap>(
    alloc: A,
    name: &Name<A>,
    kind: RType,
    home: &Home<A>,
    stores: &mut Stores<S, A>,
    now: u64,
) -> Option<Result<Taken<A>, Starved>>
    ensures { MatchOption result (stores.new ≡ stores.old) (IfGiven (λ last. AnswersWith home.now now (job_at name.now (type_number kind) (min now latest_moment)) stores.old last stores.new)) }
{
    find_end(alloc, home, name, kind, stores, now)
}
