//! The work of all workers at once.
ghost use Rattle.std.specs.Prelude.{◌≡◌, ◌<◌, ℕ, length, map, slice_index_or, IfOk, Ok};
ghost use Rattle.book.specs.Books.{TicketView};
ghost use Rattle.workers.specs.Working.{Did};

use crate::follow_ups::FollowUps;
use crate::gate::Gate;
use crate::working::work;
use book::Ticket;
use pool::{Kept, PoolError, Shared};
use std::alloc::Global;
use std::sync::Wait;
use std::sync::ledger::Ledger;
use std::thread;
use std::thread::Threads;

/// Works every list at once, each in a thread of its own where one can be made: that of each ticket's worker. Answers
/// what the workers handed back, in the order of the tickets. Refused with `Stranger` where a ticket's worker has no
/// list, with `Memory` where a growth is refused.
pub fn work_all<
    M: FollowUps + Send + Sync,
    L: Ledger + Send + Sync,
    G: Gate + Sync,
    R: Threads + Wait + Sync,
>(
    rt: &R,
    alloc: Global,
    shared: &Shared<M, L>,
    gate: &G,
    tickets: Vec<Ticket<L>>,
    queries: &[Vec<M::Query>],
) -> Result<Vec<Kept<M, L>>, PoolError>
    ensures many { IfOk result (λ v. length v.items ≡ length tickets.items) }
    ensures each { IfOk result (λ v. (i : ℕ) (t : TicketView) (q : _) (k : _) → i < length tickets.items → Did M.event_of M.follow_ups (slice_index_or tickets.items i t).worker (slice_index_or queries.now (slice_index_or tickets.items i t).worker q).items (slice_index_or v.items i k)) }
{
    let done = thread::map_vec(
        rt,
        tickets,
        &move |ticket: Ticket<L>| -> Result<Kept<M, L>, PoolError>
            ensures { IfOk result (λ k. (q : _) → Did M.event_of M.follow_ups ticket.worker (slice_index_or queries.entry.now ticket.worker q).items k) }
        {
            let Some(list) = queries.get(ticket.worker()) else {
                return Err(PoolError::Stranger);
            };
            work(rt, alloc, shared, gate, ticket, list)
        },
    );
    let Ok(done) = done else {
        return Err(PoolError::Memory);
    };
    all_ok(alloc, done)
}

// What each handed back, or the first refusal.
fn all_ok<M: FollowUps, L: Ledger>(
    alloc: Global,
    done: Vec<Result<Kept<M, L>, PoolError>>,
) -> Result<Vec<Kept<M, L>>, PoolError>
    ensures { IfOk result (λ v. map Ok v.items ≡ done.items) }
{
    let mut kept = Vec::with_capacity(alloc, done.len())?;
    for result in done {
        kept.push(result?)?;
    }
    Ok(kept)
}
