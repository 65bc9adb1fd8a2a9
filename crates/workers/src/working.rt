//! The work of one worker.
ghost use Rattle.std.specs.Prelude.{◌≡◌, List, [], ◌∷◌, IfOk, OnOk};
ghost use Rattle.workers.specs.Working.{Goes, Entered, Did};

use crate::follow_ups::FollowUps;
use crate::gate::Gate;
use book::{Entry, Ticket};
use pool::{Kept, PoolError, Shared, submit};
use std::alloc::Global;
use std::collections::VecDeque;
use std::sync::Wait;
use std::sync::ledger::Ledger;

/// One worker's work: it puts its queries in their order, and before the next one it runs every follow-up event that
/// came of the last, the oldest first. Before each query it meets the others at the gate.
pub fn work<M: FollowUps, L: Ledger, G: Gate, R: Wait>(
    rt: &R,
    alloc: Global,
    shared: &Shared<M, L>,
    gate: &G,
    ticket: Ticket<L>,
    queries: &[M::Query],
) -> Result<Kept<M, L>, PoolError>
    ensures { IfOk result (λ k. Did M.event_of M.follow_ups ticket.worker queries.now k) }
{
    let mut ticket = ticket;
    let mut entries = Vec::new(alloc);
    for query in queries {
        gate.meet(rt, ticket.worker());
        put_query(rt, alloc, shared, &mut ticket, query, &mut entries)?;
    }
    Ok(Kept::new(ticket, entries))
}

// One query, and every follow-up event that comes of it.
fn put_query<M: FollowUps, L: Ledger, R: Wait>(
    rt: &R,
    alloc: Global,
    shared: &Shared<M, L>,
    ticket: &mut Ticket<L>,
    query: &M::Query,
    entries: &mut Vec<Entry<M>>,
) -> Result<(), PoolError>
    ensures worker { OnOk result (ticket.new.worker ≡ ticket.old.worker) }
    ensures goes { OnOk result ((all left : List M.Query) → Goes M.event_of M.follow_ups all entries.old.items (query.now ∷ left) [] → Goes M.event_of M.follow_ups all entries.new.items left []) }
{
    let event = M::event(query)?;
    let mut waiting = VecDeque::new(alloc);
    enter(rt, shared, ticket, event, entries, &mut waiting)?;
    run_follow_ups(rt, shared, ticket, waiting, entries)?;
    Ok(())
}

// Every follow-up event that waits, and every one that comes of those.
fn run_follow_ups<M: FollowUps, L: Ledger, R: Wait>(
    rt: &R,
    shared: &Shared<M, L>,
    ticket: &mut Ticket<L>,
    waiting: VecDeque<M::Event>,
    entries: &mut Vec<Entry<M>>,
) -> Result<(), PoolError>
    ensures worker { OnOk result (ticket.new.worker ≡ ticket.old.worker) }
    ensures goes { OnOk result ((all left : List M.Query) → Goes M.event_of M.follow_ups all entries.old.items left waiting.items → Goes M.event_of M.follow_ups all entries.new.items left []) }
{
    let mut waiting = waiting;
    for _round in rt.forever() {
        let Some(event) = waiting.pop_front() else {
            return Ok(());
        };
        enter(rt, shared, ticket, event, entries, &mut waiting)?;
    }
    unreachable!()
}

// Puts one event and keeps its entry; what the entry calls for waits behind the rest.
fn enter<M: FollowUps, L: Ledger, R: Wait>(
    rt: &R,
    shared: &Shared<M, L>,
    ticket: &mut Ticket<L>,
    event: M::Event,
    entries: &mut Vec<Entry<M>>,
    waiting: &mut VecDeque<M::Event>,
) -> Result<(), PoolError>
    ensures worker { OnOk result (ticket.new.worker ≡ ticket.old.worker) }
    ensures entered { OnOk result (Entered M.follow_ups event entries.old.items entries.new.items waiting.old.items waiting.new.items) }
{
    entries.reserve(1)?;
    let entry = submit(rt, shared, ticket, event)?;
    M::add_follow_ups(entry.event(), entry.out(), waiting)?;
    entries.push_reserved(entry);
    Ok(())
}
