//! The right to put events as one worker.
ghost use Rattle.std.specs.Prelude.{◌≡◌, IfOk};
ghost use Rattle.book.specs.Books.{ticket_view, first_tickets};

use memory::{Heap, Starved};
use std::marker::Model;
use std::sync::ledger::{Ledger, Share};

/// The right to put events as one worker. It cannot be copied, and its count is its share of the book's
/// entries, which the book alone raises.
#[derive(Drop)]
pub struct Ticket<L: Ledger> {
    // The worker whose ticket it is, counted from 0.
    pub(crate) worker: usize,
    // How many of the book's entries are its own.
    pub(crate) count: u64,
    // One part of the ledger, with `count` on it, so that the parts of all tickets add up to the book's length.
    pub(crate) share: Share<L>,
}

impl<L: Ledger> Model for Ticket<L> {
    ghost use Rattle.std.specs.Prelude.{◌≡◌};
    ghost use Rattle.book.specs.Books.{TicketView, ticket_view};

    ghost Value = { TicketView };

    ghost view = { λ t. ticket_view t.worker t.count };

    ghost invariant = { λ t. (t.share.parts ≡ 1) × (t.share.amount ≡ t.count) };
}

impl<L: Ledger> Ticket<L> {
    fn fresh(worker: usize, share: Share<L>) -> Ticket<L>
        requires { (share.parts ≡ 1) × (share.amount ≡ 0) }
        ensures { result ≡ ticket_view worker 0 }
    {
        Ticket {
            worker,
            count: 0,
            share,
        }
    }

    /// The worker, counted from 0.
    pub fn worker(&self) -> usize
        ensures { result ≡ self.now.worker }
    {
        self.worker
    }

    /// How many entries this worker has.
    pub fn count(&self) -> u64
        ensures { result ≡ self.now.count }
    {
        self.count
    }

    /// The ticket's share of the ledger: one part, with the worker's count.
    pub fn into_share(self) -> Share<L>
        ensures parts { result.parts ≡ 1 }
        ensures amount { result.amount ≡ self.count }
    {
        let Ticket {
            worker: _,
            count: _,
            share,
        } = self;
        share
    }
}

/// A ticket for each worker, cut from a share with a part for each.
pub(crate) fn issue<L: Ledger, A: Heap>(
    alloc: A,
    all: Share<L>,
    workers: usize,
) -> Result<Vec<Ticket<L>, A>, Starved>
    requires parts { all.parts ≡ workers }
    requires amount { all.amount ≡ 0 }
    ensures { IfOk result (λ v. v.items ≡ first_tickets workers) }
{
    let mut all = all;
    let mut tickets = Vec::with_capacity(alloc, workers)?;
    for worker in 0..workers {
        tickets.push(Ticket::fresh(worker, all.split_off(1, 0)))?;
    }
    Ok(tickets)
}
