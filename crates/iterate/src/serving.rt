//! Servers of the innermost search: the next of its plan, and where all were asked, addresses of those of which only
//! the name is known (RFC 1034, section 5.3.3, steps 2 and 3).
ghost use Rattle.std.specs.Prelude.{◌≡◌, ◌+◌, ◌<◌, ℕ, Some, None, ◌∷◌, IfOk, OnOk, OnErr};
ghost use Rattle.retry.specs.Plans.{upcoming};
ghost use Rattle.zone.specs.Zones.{a_type};
ghost use Rattle.frames.specs.Frames.{Failed as FailedSpec, next_name, opened};
ghost use Rattle.resolution.specs.Jobs.{Home as HomeSpec, Stores as StoresSpec, Search as SearchSpec, Go, point, level_of, search_at, MayLookUp};
ghost use Rattle.resolution.specs.Rules.{Rule, UsesServerAddress, IsFree, turned};
ghost use Rattle.resolution.specs.Stops.{LooksInPart, IsPart};
ghost use Rattle.iterate.specs.Moves.{IsMove, IsAdded, IsNextFailed, ArePassed, ArePassedInPart, with_search};
ghost use Rattle.iterate.specs.Views.{move_view};

use crate::asking::ask;
use crate::calls::Next;
use crate::job::Job;
use crate::search::Search;
use crate::task::{Move, Task};
use causes::Cause;
use dname::Name;
use lookup::{Found, Home, Stores, Taken, find, found_addresses};
use memory::{Heap, Starved};
use rdata::{RType, RecordSet};
use referral::Cut;
use std::hash::BuildHasher;
use zone::Link;

// Adds the addresses of a set, found for a server's name, to the search; those that are not known yet are asked next.
fn add_set<S: BuildHasher + Drop, A: Heap>(
    search: &mut Search<A>,
    set: &RecordSet<A>,
    stores: &Stores<S, A>,
) -> Result<(), Starved>
    ensures { OnOk result (IsAdded stores.now set.now search.old search.new) }
{
    let found = found_addresses(search.name().allocator(), set)?;
    search.add(&found, stores)?;
    Ok(())
}

// Goes on with a search that has the addresses of a set.
fn go_on_with<S: BuildHasher + Drop, A: Heap>(
    job: &mut Job<A>,
    mut search: Search<A>,
    set: &RecordSet<A>,
    stores: &Stores<S, A>,
) -> Result<(), Starved>
    ensures { OnOk result ((after : SearchSpec) × IsAdded stores.now set.now search after × (job.new ≡ with_search job.old after)) }
{
    match add_set(&mut search, set, stores) {
        Err(starved) => {
            drop(search);
            Err(starved)
        }
        Ok(()) => {
            job.push(search)?;
            Ok(())
        }
    }
}

/// Uses the result for a server's name: its addresses, or that it has none, which is noted for this query.
pub(crate) fn use_server_address<S: BuildHasher + Drop, A: Heap>(
    job: &mut Job<A>,
    search: Search<A>,
    link: &Taken<A>,
    stores: &Stores<S, A>,
) -> Result<(), Starved>
    ensures { OnOk result ((after : SearchSpec) × (marks : FailedSpec) × UsesServerAddress stores.now link.now.name link.now.link search (job.old).failed after marks × (job.new ≡ record job.old { searches = after ∷ (job.old).searches; failed = marks })) }
{
    match link.link() {
        Link::Found(set) => {
            go_on_with(job, search, set, stores)?;
            Ok(())
        }
        Link::Alias(_) | Link::NoData(_) | Link::NxDomain(_) => {
            let marked = job.mark(link.name(), 0);
            job.push(search)?;
            marked?;
            Ok(())
        }
    }
}

// Opens the search for the address of a server's name, one nesting deeper.
fn descend<S: BuildHasher + Drop, A: Heap>(
    alloc: A,
    job: &mut Job<A>,
    search: Search<A>,
    name: Name<A>,
    cut: &Cut<A>,
    stores: &Stores<S, A>,
) -> Result<(), Starved>
    requires { (search.frame).nesting < 3 }
    ensures { OnOk result (job.new ≡ with_search (with_search job.old search) (search_at name a_type (opened (level_of stores.now) ((search.frame).nesting + 1) cut.now))) }
{
    let frame = stores.open(alloc, cut, search.frame().nesting() + 1);
    job.push(search)?;
    job.push(Search::new(name, RType::A, frame?))?;
    Ok(())
}

// Looks up the address of a server's name: in local zones and cache, and else by a search. Its turn is counted.
fn look_for<S: BuildHasher + Drop, A: Heap>(
    alloc: A,
    job: &mut Job<A>,
    search: Search<A>,
    name: Name<A>,
    home: &Home<A>,
    stores: &mut Stores<S, A>,
    now: u64,
) -> Result<(), Starved>
    requires shallow { (search.frame).nesting < 3 }
    requires few { MayLookUp job.old }
    ensures rule { (before : SearchSpec) → upcoming (before.frame).plan ≡ None → next_name (job.old).failed before.frame ≡ Some name → search ≡ turned (job.old).failed before
        → OnOk result (Rule home.now now (point Go (with_search job.old before) stores.old) (point Go job.new stores.new)) }
    ensures part { OnErr result (LooksInPart home.now now name a_type stores.old stores.new) }
{
    match find(alloc, home, &name, RType::A, stores, now) {
        Err(starved) => {
            drop(search);
            drop(name);
            Err(starved)
        }
        Ok(Found::Known(link)) => {
            drop(name);
            let heard = use_server_address(job, search, &link, stores);
            drop(link);
            heard?;
            job.count_look_up();
            Ok(())
        }
        Ok(Found::Start(cut)) => {
            let sought = descend(alloc, job, search, name, &cut, stores);
            drop(cut);
            sought?;
            job.count_look_up();
            Ok(())
        }
    }
}

// Ends the innermost search, which has no server left: the one around it goes on, or the query has no server left.
fn give_up<A: Heap>(job: &mut Job<A>, search: Search<A>) -> Result<Move<A>, Starved>
    ensures { (home : HomeSpec) (now : ℕ) (stores : StoresSpec) (before : SearchSpec) → upcoming (before.frame).plan ≡ None → next_name (job.old).failed before.frame ≡ None → search ≡ turned (job.old).failed before
        → IfOk result (λ t. IsMove home now (point Go (with_search job.old before) stores) (move_view t) job.new stores) }
{
    match job.pop() {
        None => {
            drop(search);
            Ok(Move::Out(Next::Fail(job.spent())))
        }
        Some(around) => {
            let marked = job.mark(search.name(), search.frame().nesting());
            drop(search);
            job.push(around)?;
            marked?;
            Ok(Move::Onward(Task::Go))
        }
    }
}

// Goes on with a search of which all known addresses were asked.
fn go_further<S: BuildHasher + Drop, A: Heap>(
    alloc: A,
    job: &mut Job<A>,
    mut search: Search<A>,
    home: &Home<A>,
    stores: &mut Stores<S, A>,
    now: u64,
) -> Result<Move<A>, Starved>
    requires { upcoming (search.frame).plan ≡ None }
    ensures is { IfOk result (λ t. IsMove home.now now (point Go (with_search job.old search) stores.old) (move_view t) job.new stores.new) }
    ensures part { OnErr result (IsPart home.now now (point Go (with_search job.old search) stores.old) stores.new) }
{
    match job.next_name(&mut search) {
        Err(starved) => {
            drop(search);
            Err(starved)
        }
        Ok(Some(name)) => {
            if !job.may_look_up() {
                drop(search);
                drop(name);
                return Ok(Move::Out(Next::Fail(Cause::TooManyLookUps)));
            }
            look_for(alloc, job, search, name, home, stores, now)?;
            Ok(Move::Onward(Task::Go))
        }
        Ok(None) => Ok(give_up(job, search)?),
    }
}

// Whether the address that comes next lately failed to answer the question of the search.
fn is_next_failed<S: BuildHasher + Drop, A: Heap>(
    search: &Search<A>,
    stores: &mut Stores<S, A>,
    now: u64,
) -> Result<bool, Starved>
    ensures is { IfOk result (IsNextFailed now search.now stores.old stores.new) }
    ensures part { OnErr result (stores.new ≡ stores.old) }
{
    match search.upcoming() {
        Some(server) => Ok(stores.is_failed(search.name(), search.kind(), server, now)?),
        None => Ok(false),
    }
}

// Passes over the addresses that come next and lately failed to answer the question of the search (RFC 2308, section
// 7.1); true where there was one.
fn pass_over<S: BuildHasher + Drop, A: Heap>(
    search: &mut Search<A>,
    stores: &mut Stores<S, A>,
    now: u64,
) -> Result<bool, Starved>
    ensures is { IfOk result (ArePassed now search.old stores.old search.new stores.new) }
    ensures part { OnErr result (ArePassedInPart now search.old stores.old stores.new) }
{
    let mut passed = false;
    while is_next_failed(search, stores, now)? {
        search.next_address();
        passed = true;
    }
    Ok(passed)
}

// Asks the next server, or goes further where all known addresses were asked.
fn ask_on<S: BuildHasher + Drop, A: Heap>(
    alloc: A,
    job: &mut Job<A>,
    mut search: Search<A>,
    home: &Home<A>,
    stores: &mut Stores<S, A>,
    now: u64,
) -> Result<Move<A>, Starved>
    requires { IsFree now search stores.old.failures }
    ensures is { IfOk result (λ t. IsMove home.now now (point Go (with_search job.old search) stores.old) (move_view t) job.new stores.new) }
    ensures part { OnErr result (IsPart home.now now (point Go (with_search job.old search) stores.old) stores.new) }
{
    match search.next_address() {
        Some(server) => ask(job, search, server, now),
        None => go_further(alloc, job, search, home, stores, now),
    }
}

// Goes on with the innermost search.
fn go_on<S: BuildHasher + Drop, A: Heap>(
    alloc: A,
    job: &mut Job<A>,
    mut search: Search<A>,
    home: &Home<A>,
    stores: &mut Stores<S, A>,
    now: u64,
) -> Result<Move<A>, Starved>
    ensures is { IfOk result (λ t. IsMove home.now now (point Go (with_search job.old search) stores.old) (move_view t) job.new stores.new) }
    ensures part { OnErr result (IsPart home.now now (point Go (with_search job.old search) stores.old) stores.new) }
{
    match pass_over(&mut search, stores, now) {
        Err(starved) => {
            drop(search);
            Err(starved)
        }
        Ok(true) => {
            job.skip(search)?;
            Ok(Move::Onward(Task::Go))
        }
        Ok(false) => Ok(ask_on(alloc, job, search, home, stores, now)?),
    }
}

/// Asks servers: the next one of the innermost search.
pub(crate) fn go<S: BuildHasher + Drop, A: Heap>(
    alloc: A,
    job: &mut Job<A>,
    home: &Home<A>,
    stores: &mut Stores<S, A>,
    now: u64,
) -> Result<Move<A>, Starved>
    ensures is { IfOk result (λ t. IsMove home.now now (point Go job.old stores.old) (move_view t) job.new stores.new) }
    ensures part { OnErr result (IsPart home.now now (point Go job.old stores.old) stores.new) }
{
    match job.pop() {
        Some(search) => Ok(go_on(alloc, job, search, home, stores, now)?),
        None => Ok(Move::Out(Next::Fail(Cause::NoServerLeft))),
    }
}
