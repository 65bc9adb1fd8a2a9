//! What the workers kept, held against the history of the machine that they shared.
ghost use Rattle.std.specs.Prelude.{◌≡◌, ◌↔◌, IsTrue, IfOk, IfErr, All, Any, map};
ghost use Rattle.book.specs.Histories.{lines_of};
ghost use Rattle.book.specs.Books.{ticket_view};
ghost use Rattle.pool.specs.Closings.{part, OneEach, Closes, IsOpen};

use crate::fault::PoolError;
use book::{Book, Entry, Machine, Ticket};
use memory::{Heap, Starved};
use std::alloc::{Allocator, Global};
use std::marker::Model;
use std::sync::ledger::Ledger;

/// What a worker hands back: its ticket, and the entries that it was given for it, in their order.
#[derive(Drop)]
pub struct Kept<M: Machine, L: Ledger, A: Allocator = Global> {
    ticket: Ticket<L>,
    entries: Vec<Entry<M>, A>,
}

impl<M: Machine, L: Ledger, A: Allocator> Model for Kept<M, L, A> {
    ghost use Rattle.pool.specs.Closings.{Part, part};

    ghost Value = { Part M.Event M.Out };

    ghost view = { λ k. part k.ticket k.entries.items };
}

impl<M: Machine, L: Ledger, A: Allocator> Kept<M, L, A> {
    /// These two.
    pub fn new(ticket: Ticket<L>, entries: Vec<Entry<M>, A>) -> Kept<M, L, A>
        ensures { result ≡ part ticket entries.items }
    {
        Kept { ticket, entries }
    }

    /// The worker's ticket.
    pub fn ticket(&self) -> &Ticket<L>
        ensures { result.now ≡ self.now.ticket }
    {
        &self.ticket
    }

    /// The worker's entries, in their order.
    pub fn entries(&self) -> &[Entry<M>]
        ensures { result.now ≡ self.now.lines }
    {
        &self.entries
    }

    /// The worker's entries alone.
    pub fn into_entries(self) -> Vec<Entry<M>, A>
        ensures { result.items ≡ self.lines }
    {
        let Kept { ticket: _, entries } = self;
        entries
    }
}

/// A history that is a shuffle of its workers' lists.
#[derive(Drop)]
pub struct Closed<M: Machine, A: Allocator = Global> {
    /// Every entry, the oldest first.
    pub history: Vec<Entry<M>, A>,
    /// The list of each worker, in the order in which they were handed in.
    pub lists: Vec<Vec<Entry<M>, A>, A>,
}

/// The whole history of a book whose workers are done, and what each of them kept. Refused with `Forgot` where the book
/// has more entries than it keeps; else with `Differs` where the tickets are not one for each worker of the book, with
/// its count, or where the history is not a shuffle of the kept lists; with `Memory` where a growth is refused.
pub fn gather<M: Machine, L: Ledger, A: Heap>(
    alloc: A,
    book: Book<M, L, A>,
    kept: Vec<Kept<M, L, A>, A>,
) -> Result<Closed<M, A>, PoolError>
    ensures closes { IfOk result (λ c. Closes M.moves M.begins book kept.items c.history.items) }
    ensures lists { IfOk result (λ c. map (λ v. v.items) c.lists.items ≡ map (λ k. k.lines) kept.items) }
    ensures err { IfErr result (IsOpen book kept.items) }
{
    if !book.is_whole() {
        return Err(PoolError::Forgot);
    }
    if !is_one_each(book.counts(), &kept) {
        return Err(PoolError::Differs);
    }
    let history = book.into_history(alloc)?;
    if !are_parts(&history, &kept) {
        return Err(PoolError::Differs);
    }
    let lists = lists_of(alloc, kept)?;
    Ok(Closed { history, lists })
}

// Whether the tickets are one for each worker, with its count.
fn is_one_each<M: Machine, L: Ledger, A: Allocator>(counts: &[u64], kept: &[Kept<M, L, A>]) -> bool
    ensures { IsTrue result ↔ OneEach counts.now kept.now }
{
    if kept.len() != counts.len() {
        return false;
    }
    for (worker, count) in counts.iter().enumerate() {
        if !has_ticket(kept, worker, *count) {
            return false;
        }
    }
    true
}

// Whether one of the tickets is for this worker and has this count.
fn has_ticket<M: Machine, L: Ledger, A: Allocator>(
    kept: &[Kept<M, L, A>],
    worker: usize,
    count: u64,
) -> bool
    ensures { IsTrue result ↔ Any (λ p. p.ticket ≡ ticket_view worker count) kept.now }
{
    kept.iter().any(|k| k.ticket().worker() == worker && k.ticket().count() == count)
}

// Whether each list is what the history has of its worker.
fn are_parts<M: Machine, L: Ledger, A: Allocator>(
    history: &[Entry<M>],
    kept: &[Kept<M, L, A>],
) -> bool
    ensures { IsTrue result ↔ All (λ p. lines_of p.ticket.worker history.now ≡ p.lines) kept.now }
{
    kept.iter()
        .all(|k| is_part(k.ticket().worker(), history, k.entries()))
}

// Whether the list is what the history has of the worker.
fn is_part<M: Machine>(worker: usize, history: &[Entry<M>], list: &[Entry<M>]) -> bool
    ensures { IsTrue result ↔ (lines_of worker history.now ≡ list.now) }
{
    let mut rest = list;
    for entry in history {
        if entry.worker() == worker {
            let Some((first, later)) = rest.split_first() else {
                return false;
            };
            if !first.same(entry) {
                return false;
            }
            rest = later;
        }
    }
    rest.is_empty()
}

// The lists alone, in their order.
fn lists_of<M: Machine, L: Ledger, A: Heap>(
    alloc: A,
    kept: Vec<Kept<M, L, A>, A>,
) -> Result<Vec<Vec<Entry<M>, A>, A>, Starved>
    ensures { IfOk result (λ v. map (λ l. l.items) v.items ≡ map (λ k. k.lines) kept.items) }
{
    let mut lists = Vec::with_capacity(alloc, kept.len())?;
    for part in kept {
        lists.push(part.into_entries())?;
    }
    Ok(lists)
}
