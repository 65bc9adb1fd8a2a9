//! Asks that go out (RFC 1034, section 5.3.3, step 3), each counted: none from the deadline on, and no more than
//! 40.
ghost use Rattle.std.specs.Prelude.{◌≡◌, false, Some, IfOk, Contains};
ghost use Rattle.retry.specs.Plans.{upcoming};
ghost use Rattle.resolution.specs.Jobs.{Home, Stores, Search as SearchSpec, Go, Again, point, given, fails_now};
ghost use Rattle.iterate.specs.Moves.{IsMove, with_search};
ghost use Rattle.iterate.specs.Views.{move_view};

use crate::calls::Next;
use crate::job::Job;
use crate::search::Search;
use crate::task::Move;
use causes::Cause;
use dname::Name;
use memory::{Heap, Starved};
use rdata::Addr;
use std::alloc::AllocError;

/// Asks this server, the next one of the search's plan, unless nothing more may be sent.
pub(crate) fn ask<A: Heap>(
    job: &mut Job<A>,
    search: Search<A>,
    server: Addr,
    now: u64,
) -> Result<Move<A>, Starved>
    ensures { (home : Home) (stores : Stores) (before : SearchSpec) → upcoming (before.frame).plan ≡ Some server → Contains (before.frame).addresses server → fails_now now stores.failures before server ≡ false → search ≡ given before
        → IfOk result (λ t. IsMove home now (point Go (with_search job.old before) stores) (move_view t) job.new stores) }
{
    if let Some(cause) = job.refusal(now) {
        drop(search);
        return Ok(Move::Out(Next::Fail(cause)));
    }
    let name: Result<Name<A>, AllocError> = search.name().clone();
    let kind = search.kind();
    job.count();
    job.push(search)?;
    Ok(Move::Out(Next::AskUdp(server, name?, kind)))
}

// Asks the search's server again, over TCP, unless nothing more may be sent.
fn ask_again<A: Heap>(
    job: &mut Job<A>,
    search: Search<A>,
    server: Addr,
    now: u64,
) -> Result<Move<A>, Starved>
    ensures { IfOk result (λ t. (home : Home) (stores : Stores) → IsMove home now (point (Again server) (with_search job.old search) stores) (move_view t) job.new stores) }
{
    if let Some(cause) = job.refusal(now) {
        drop(search);
        return Ok(Move::Out(Next::Fail(cause)));
    }
    let name: Result<Name<A>, AllocError> = search.name().clone();
    let kind = search.kind();
    job.count();
    job.push(search)?;
    Ok(Move::Out(Next::AskTcp(server, name?, kind)))
}

/// Asks this server, whose reply was truncated, again over TCP (RFC 2181, section 9).
pub(crate) fn again<A: Heap>(job: &mut Job<A>, server: Addr, now: u64) -> Result<Move<A>, Starved>
    ensures { IfOk result (λ t. (home : Home) (stores : Stores) → IsMove home now (point (Again server) job.old stores) (move_view t) job.new stores) }
{
    match job.pop() {
        Some(search) => Ok(ask_again(job, search, server, now)?),
        None => Ok(Move::Out(Next::Fail(Cause::NoServerLeft))),
    }
}
