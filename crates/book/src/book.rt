//! The book: a machine's state, its counts and its last entries, which one history led to.
ghost use Rattle.std.specs.Prelude.{◌≡◌, ◌+◌, ◌^◌, ◌<◌, ◌≤◌, ◌↔◌, ◌⊎◌, [], ◌∷◌, length, reverse, replicate, take, IfOk, IfSome, IfNone, OnErr, MatchOption, IsTrue, option_copied, slice_get, slice_set};
ghost use Rattle.circular_buffer.specs.Buffer.{buffer};
ghost use Rattle.book.specs.Books.{book_view, ticket_view, first_tickets, Owns, Reached, IsHistory, Takes, Stands, Gives};

use crate::entry::Entry;
use crate::machine::{Answering, Machine};
use crate::ticket::{Ticket, issue};
use circular_buffer::HeapCircularBuffer;
use memory::{Heap, Starved};
use std::alloc::{Allocator, Global};
use std::marker::Model;
use std::sync::ledger;
use std::sync::ledger::{Blank, Ledger, Share};

/// The state of a machine that several workers drive, how many entries each has, and the last entries. One
/// history of the machine led to all of it, whoever looks and whenever. `L` names the ledger, by which the
/// book's tickets are its own.
#[derive(Drop)]
pub struct Book<M: Machine, L: Ledger, A: Allocator = Global> {
    state: M::State,
    entries: u64,
    counts: Vec<u64, A>,
    tail: HeapCircularBuffer<Entry<M>, A>,
    shares: ledger::Book<L>,
}

impl<M: Machine, L: Ledger, A: Allocator> Model for Book<M, L, A> {
    ghost use Rattle.std.specs.Prelude.{◌≡◌};
    ghost use Rattle.book.specs.Books.{BookView, book_view, Reached};

    ghost Value = { BookView M.State M.Event M.Out };

    ghost view = { λ b. book_view b.state b.entries b.counts.items b.tail.items b.tail.capacity };

    ghost invariant = { λ b. (b.shares.total ≡ b.entries) × Reached M.moves M.begins (book_view b.state b.entries b.counts.items b.tail.items b.tail.capacity) };
}

// A copy of the event, where entries are kept.
fn copy_to_keep<M: Machine>(room: usize, event: &M::Event) -> Result<Option<M::Event>, Starved>
    ensures { IfOk result (λ kept. MatchOption kept (room ≡ 0) (λ e. e ≡ event.now)) }
{
    if room == 0 {
        return Ok(None);
    }
    Ok(Some(M::copy_event(event)?))
}

// Puts the entry before the kept ones, and gives it back or a copy of it; `spare` is a copy of its event, where
// any entries are kept.
fn shelve<M: Machine, A: Allocator>(
    tail: &mut HeapCircularBuffer<Entry<M>, A>,
    entry: Entry<M>,
    spare: Option<M::Event>,
) -> Result<Entry<M>, Starved>
    requires { MatchOption spare (tail.old.capacity ≡ 0) (λ e. e ≡ entry.event) }
    ensures kept { tail.new ≡ buffer (take tail.old.capacity (entry ∷ tail.old.items)) tail.old.capacity }
    ensures answer { IfOk result (λ e. e ≡ entry) }
{
    let Some(event) = spare else {
        tail.capacity();
        return Ok(entry);
    };
    let answer = entry.copy_around(event);
    tail.push_front(entry);
    answer
}

// Counts one entry more, which is of the ticket's worker.
fn count_up<L: Ledger, A: Allocator>(
    counts: &mut Vec<u64, A>,
    entries: &mut u64,
    shares: &mut ledger::Book<L>,
    ticket: &mut Ticket<L>,
)
    requires inside { ticket.old.worker < length counts.old.items }
    requires room { (ticket.old.count + 1 < 2 ^ 64) × (entries.old + 1 < 2 ^ 64) }
    ensures counts { counts.new.items ≡ slice_set counts.old.items ticket.old.worker (ticket.old.count + 1) }
    ensures entries { entries.new ≡ entries.old + 1 }
    ensures shares { shares.new.total ≡ shares.old.total + 1 }
    ensures ticket { ticket.new ≡ ticket_view ticket.old.worker (ticket.old.count + 1) }
{
    counts[ticket.worker] = ticket.count + 1;
    *entries += 1;
    shares.add(&mut ticket.share, 1);
    ticket.count += 1;
}

impl<M: Machine, L: Ledger, A: Heap> Book<M, L, A> {
    /// A book without entries, and a ticket for each worker in order. It keeps at most `keep` entries, for
    /// which it takes the room at once; one that keeps none copies nothing. `blank` is the new ledger that `L`
    /// names, with a part for each worker.
    pub fn new(
        alloc: A,
        blank: Blank,
        start: M::State,
        workers: usize,
        keep: usize,
    ) -> Result<(Book<M, L, A>, Vec<Ticket<L>, A>), Starved>
        requires name { blank.name ≡ L.name }
        requires parts { (blank.parts ≡ L.parts) × (blank.parts ≡ workers) }
        requires begins { M.begins start }
        requires some { 0 < workers }
        ensures book { IfOk result (λ r. r.0 ≡ book_view start 0 (replicate workers 0) [] keep) }
        ensures tickets { IfOk result (λ r. r.1.items ≡ first_tickets workers) }
    {
        let counts = vec![in alloc; 0; workers]?;
        let tail = HeapCircularBuffer::with_capacity(alloc, keep)?;
        let (shares, all) = blank.open::<L>();
        let tickets = issue(alloc, all, workers)?;
        let book = Book {
            state: start,
            entries: 0,
            counts,
            tail,
            shares,
        };
        Ok((book, tickets))
    }
}

impl<M: Machine, L: Ledger, A: Allocator> Book<M, L, A> {
    /// The machine takes one step on `event`, as the worker of `ticket`, and the entry is written; the answer
    /// is a copy of it, or, where the book keeps no entries, the entry itself. Where the copy of the event that
    /// the book keeps is refused, or a count is at its end (18,446,744,073,709,551,615), nothing changes. Where
    /// the caller's copy of what came out is refused, the entry stands; the ticket's count has risen then, and
    /// in no other refusal.
    pub fn put(&mut self, ticket: &mut Ticket<L>, event: M::Event) -> Result<Entry<M>, Starved>
        requires { Owns self.old ticket.old }
        ensures ok { IfOk result (λ e. Takes M.moves self.old ticket.old event e self.new ticket.new) }
        ensures err { OnErr result (((self.new ≡ self.old) × (ticket.new ≡ ticket.old)) ⊎ Stands M.moves self.old ticket.old event self.new ticket.new) }
    {
        let spare = copy_to_keep::<M>(self.tail.capacity(), &event)?;
        let worker = ticket.worker;
        let number = ticket.count;
        if number == u64::MAX || self.entries == u64::MAX {
            return Err(Starved);
        }
        let out = M::step(&mut self.state, &event);
        let entry = Entry::new(worker, number, event, out);
        let answer = shelve(&mut self.tail, entry, spare);
        count_up(
            &mut self.counts,
            &mut self.entries,
            &mut self.shares,
            ticket,
        );
        answer
    }

    /// The machine takes one step on `event`, as the worker of `ticket`; the answer is what came out. Where the book
    /// keeps entries, one of a copy of the event is kept. Refused where the step wants memory, and where `put` is
    /// refused: the ticket's count has risen where the step was taken, and else nothing has changed.
    pub fn step(&mut self, ticket: &mut Ticket<L>, event: &M::Event) -> Result<M::Out, Starved>
        requires { Owns self.old ticket.old }
        ensures ok { IfOk result (λ out. Gives M.moves M.begins self.old ticket.old event.now out self.new ticket.new) }
        ensures err { OnErr result (((self.new ≡ self.old) × (ticket.new ≡ ticket.old)) ⊎ Stands M.moves self.old ticket.old event.now self.new ticket.new) }
    {
        if self.tail.capacity() == 0 {
            self.step_unkept(ticket, event)
        } else {
            self.step_kept(ticket, event)
        }
    }

    // The same, where the entry is written. Kept apart from `step`, which would make the room for an entry each time.
    #[inline(never)]
    fn step_kept(&mut self, ticket: &mut Ticket<L>, event: &M::Event) -> Result<M::Out, Starved>
        requires { Owns self.old ticket.old }
        ensures ok { IfOk result (λ out. Gives M.moves M.begins self.old ticket.old event.now out self.new ticket.new) }
        ensures err { OnErr result (((self.new ≡ self.old) × (ticket.new ≡ ticket.old)) ⊎ Stands M.moves self.old ticket.old event.now self.new ticket.new) }
    {
        let copy = M::copy_event(event)?;
        let entry = self.put(ticket, copy)?;
        entry.last_law();
        entry.into_out()
    }

    // The same, where no entry is kept: neither is one made, nor the event copied.
    fn step_unkept(&mut self, ticket: &mut Ticket<L>, event: &M::Event) -> Result<M::Out, Starved>
        requires owns { Owns self.old ticket.old }
        requires unkept { self.old.keep ≡ 0 }
        ensures ok { IfOk result (λ out. Gives M.moves M.begins self.old ticket.old event.now out self.new ticket.new) }
        ensures err { OnErr result (((self.new ≡ self.old) × (ticket.new ≡ ticket.old)) ⊎ Stands M.moves self.old ticket.old event.now self.new ticket.new) }
    {
        if ticket.count == u64::MAX || self.entries == u64::MAX {
            return Err(Starved);
        }
        let out = M::step(&mut self.state, event);
        count_up(
            &mut self.counts,
            &mut self.entries,
            &mut self.shares,
            ticket,
        );
        out
    }

    /// Whether the ticket is for one of the book's workers and has its count.
    pub fn owns(&self, ticket: &Ticket<L>) -> bool
        ensures { IsTrue result ↔ Owns self.now ticket.now }
    {
        self.counts
            .get(ticket.worker)
            .is_some_and(|count| *count == ticket.count)
    }

    /// The machine's state.
    pub fn state(&self) -> &M::State
        ensures { result.now ≡ self.now.state }
    {
        &self.state
    }

    /// How many entries there are in all, also those that are no longer kept.
    pub fn entries(&self) -> u64
        ensures { result ≡ self.now.entries }
    {
        self.entries
    }

    /// How many entries each worker has.
    pub fn counts(&self) -> &[u64]
        ensures { result.now ≡ self.now.counts }
    {
        &self.counts
    }

    /// The entry after which `back` more were written; `None` where there is none or it is no longer kept.
    pub fn recent(&self, back: usize) -> Option<&Entry<M>>
        ensures { option_copied result ≡ slice_get self.now.tail back }
    {
        self.tail.get(back)
    }

    /// Whether every entry is still kept.
    pub fn is_whole(&self) -> bool
        ensures { IsTrue result ↔ (self.now.entries ≤ self.now.keep) }
    {
        self.entries <= self.tail.capacity() as u64
    }

    /// One history of the machine led to this book.
    pub fn reached_law(&self)
        ensures { Reached M.moves M.begins self.now }
    {
        let _ = &self.entries;
    }

    /// A share with every part of the ledger, as the shares of all tickets together make one, has the number
    /// of entries.
    pub fn audit(&mut self, all: &mut Share<L>) -> u64
        requires { all.old.parts ≡ L.parts }
        ensures entries { result ≡ self.old.entries }
        ensures amount { result ≡ all.old.amount }
        ensures unchanged { self.new ≡ self.old }
        ensures kept { (all.new.parts ≡ all.old.parts) × (all.new.amount ≡ all.old.amount) }
    {
        let entries = self.entries;
        self.shares.audit(all);
        entries
    }

    /// The whole history, the oldest entry first.
    pub fn into_history<B: Heap>(self, alloc: B) -> Result<Vec<Entry<M>, B>, Starved>
        requires { self.entries ≤ self.keep }
        ensures whole { IfOk result (λ v. IsHistory M.moves M.begins self v.items) }
        ensures tail { IfOk result (λ v. v.items ≡ reverse self.tail) }
    {
        let mut history = Vec::with_capacity(alloc, self.tail.len())?;
        for entry in self.tail {
            history.push(entry)?;
        }
        history.reverse();
        Ok(history)
    }
}

impl<M: Answering, L: Ledger, A: Allocator> Book<M, L, A> {
    /// The machine takes one step on `event`, as `step` does, where its answer is there and that shows at once. None,
    /// and nothing changes, where it is not, where a count is at its end, and where the book keeps entries.
    pub fn answer(
        &mut self,
        ticket: &mut Ticket<L>,
        event: &M::Event,
    ) -> Option<Result<M::Out, Starved>>
        requires { Owns self.old ticket.old }
        ensures none { IfNone result ((self.new ≡ self.old) × (ticket.new ≡ ticket.old)) }
        ensures there { IfSome result (λ r. M.has_answer self.old.state event.now) }
        ensures ok { IfSome result (λ r. IfOk r (λ out. Gives M.moves M.begins self.old ticket.old event.now out self.new ticket.new)) }
        ensures err { IfSome result (λ r. OnErr r (Stands M.moves self.old ticket.old event.now self.new ticket.new)) }
    {
        if self.tail.capacity() != 0 || ticket.count == u64::MAX || self.entries == u64::MAX {
            return None;
        }
        let out = M::answer(&mut self.state, event)?;
        count_up(
            &mut self.counts,
            &mut self.entries,
            &mut self.shares,
            ticket,
        );
        Some(out)
    }
}
