//! What a loop has of its own.
ghost use Rattle.std.specs.Prelude.{◌≡◌, IfOk};

use crate::passage::Passage;
use crate::query::Query;
use book::{Machine, Ticket};
use events::{Action, Actions};
use memory::Starved;
use std::alloc::Global;
use std::sync::ledger::Ledger;
use typed::{TypedActions, TypedEvent};
use wire::Writer;

/// How many messages of clients step under one lock at most.
pub(crate) const MOST_AT_ONCE: usize = 8;

// Bytes of memory that is kept for a message at most.
const MOST_ROOM_BYTES: usize = 1_024;

/// What a loop has of its own: its ticket, and memory that it keeps from one message to the next.
#[derive(Drop)]
pub(crate) struct Worker<M: Machine<Event = TypedEvent, Out = TypedActions>, L: Ledger> {
    pub ticket: Ticket<L>,
    /// The writer of its messages.
    pub writer: Writer,
    /// The messages that step next.
    pub batch: Vec<Passage<M>>,
    // Where clients' datagrams are put.
    rooms: Vec<Vec<u8>>,
}

impl<M: Machine<Event = TypedEvent, Out = TypedActions>, L: Ledger> Worker<M, L> {
    // With this ticket.
    fn new(alloc: Global, ticket: Ticket<L>) -> Result<Worker<M, L>, Starved> {
        Ok(Worker {
            ticket,
            writer: Writer::new(alloc)?,
            batch: Vec::with_capacity(alloc, MOST_AT_ONCE)?,
            rooms: Vec::with_capacity(alloc, MOST_AT_ONCE)?,
        })
    }

    /// These bytes, in memory of a message before or in more.
    pub fn in_room(&mut self, bytes: &[u8]) -> Result<Vec<u8>, Starved>
        ensures { IfOk result (λ v. v.items ≡ bytes.now) }
    {
        let mut room = match self.rooms.pop() {
            Some(room) => room,
            None => Vec::new(*self.rooms.allocator()),
        };
        room.clear();
        room.extend_from_slice(bytes)?;
        Ok(room)
    }

    /// Keeps the memory of a client's message for the next ones, unless it is much: a short message may wait in it.
    pub fn keep_room(&mut self, query: Query) {
        let room = query.bytes.into_items();
        if self.rooms.len() < MOST_AT_ONCE && room.capacity() <= MOST_ROOM_BYTES {
            let _ = self.rooms.push(room);
        } else {
            drop(room);
        }
    }

    /// Keeps the memory of a reply that was sent for the next one, unless it is much.
    pub fn keep_sent(&mut self, actions: Actions) {
        match actions.first {
            Some(Action::Reply { bytes, .. }) => {
                let room = bytes.into_items();
                if room.capacity() <= MOST_ROOM_BYTES {
                    self.writer.reuse(room);
                } else {
                    drop(room);
                }
            }
            other => drop(other),
        }
    }
}

/// A worker for each ticket, in their order.
pub(crate) fn workers_of<M: Machine<Event = TypedEvent, Out = TypedActions>, L: Ledger>(
    alloc: Global,
    tickets: Vec<Ticket<L>>,
) -> Result<Vec<Worker<M, L>>, Starved> {
    let mut workers = Vec::with_capacity(alloc, tickets.len())?;
    for ticket in tickets {
        workers.push(Worker::new(alloc, ticket)?)?;
    }
    Ok(workers)
}
