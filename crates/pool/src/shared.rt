//! A book behind a lock.
ghost use Rattle.std.specs.Prelude.{◌≡◌, ◌+◌, IfOk, IfErr, OnErr, IfSome, IfNone};
ghost use Rattle.book.specs.Books.{Owns, ticket_view};
ghost use Rattle.pool.specs.declared.fault.PoolError.TheVariants.{Memory};
ghost use Rattle.pool.specs.Closings.{Enters, EntersAndGives, IsEventRefused, AreSizes};

use crate::fault::PoolError;
use book::{Answering, Book, Entry, Machine, Measured, Ticket};
use memory::{Heap, Starved};
use std::alloc::{Allocator, Global};
use std::sync::ledger::Ledger;
use std::sync::{Mutex, MutexGuard, Wait};

/// A machine that many threads share: its book behind a lock. Whenever the lock is free, one history of the machine
/// led to what the book shows.
#[derive(Drop)]
pub struct Shared<M: Machine, L: Ledger, A: Allocator = Global> {
    book: Mutex<Book<M, L, A>>,
}

impl<M: Machine, L: Ledger, A: Allocator> Shared<M, L, A> {
    /// The book, behind a lock that is free.
    pub fn new(book: Book<M, L, A>) -> Shared<M, L, A> {
        Shared {
            book: Mutex::new(book),
        }
    }

    /// The book, for several steps in a row: its lock is taken, which waits until it is free, and held until the guard
    /// is dropped.
    pub fn lock<R: Wait>(&self, rt: &R) -> MutexGuard<'_, Book<M, L, A>> {
        self.book.lock(rt)
    }

    /// The book, once no thread uses it any more.
    pub fn into_book(self) -> Book<M, L, A> {
        self.book.into_inner()
    }
}

/// The machine takes one step on `event`, as the worker of `ticket`, and the answer is a copy of the entry. The lock is
/// held for this one step. Refused with `Memory` as `Book::put` refuses: the ticket's count has risen where the entry
/// stands; with `Stranger` where the ticket's worker or count is not the book's, and then nothing changes.
pub fn submit<M: Machine, L: Ledger, A: Heap, R: Wait>(
    rt: &R,
    shared: &Shared<M, L, A>,
    ticket: &mut Ticket<L>,
    event: M::Event,
) -> Result<Entry<M>, PoolError>
    ensures ok { IfOk result (λ e. Enters ticket.old event e ticket.new) }
    ensures err { IfErr result (IsEventRefused ticket.old ticket.new) }
{
    let mut book = shared.book.lock(rt);
    if !book.owns(ticket) {
        return Err(PoolError::Stranger);
    }
    match book.put(ticket, event) {
        Ok(entry) => Ok(entry),
        Err(_starved) => Err(PoolError::Memory),
    }
}

/// The machine takes one step on `event`, as the worker of `ticket`, and the answer is what came out. The lock is held
/// for this one step. Refused with `Memory` as `Book::step` refuses: the ticket's count has risen where the step was
/// taken; with `Stranger` where the ticket's worker or count is not the book's, and then nothing changes.
pub fn take_step<M: Machine, L: Ledger, A: Heap, R: Wait>(
    rt: &R,
    shared: &Shared<M, L, A>,
    ticket: &mut Ticket<L>,
    event: &M::Event,
) -> Result<M::Out, PoolError>
    ensures ok { IfOk result (λ out. EntersAndGives M.moves M.begins ticket.old event.now out ticket.new) }
    ensures err { IfErr result (IsEventRefused ticket.old ticket.new) }
{
    step_locked(&mut shared.lock(rt), ticket, event)
}

/// The same, by a book whose lock is held. A ticket of the book's, with its count, is no stranger.
pub fn step_locked<M: Machine, L: Ledger, A: Heap>(
    book: &mut Book<M, L, A>,
    ticket: &mut Ticket<L>,
    event: &M::Event,
) -> Result<M::Out, PoolError>
    ensures ok { IfOk result (λ out. EntersAndGives M.moves M.begins ticket.old event.now out ticket.new) }
    ensures err { IfErr result (IsEventRefused ticket.old ticket.new) }
    ensures owned { Owns book.old ticket.old → IfErr result (λ e. e ≡ Memory) }
{
    if !book.owns(ticket) {
        return Err(PoolError::Stranger);
    }
    match book.step(ticket, event) {
        Ok(out) => Ok(out),
        Err(Starved) => Err(PoolError::Memory),
    }
}

/// The same, where the machine's answer is there and that shows at once, as `Book::answer` says. None, and nothing
/// changes, where it is not, and for a stranger's ticket. Out of memory, the step was taken.
pub fn answer_locked<M: Answering, L: Ledger, A: Heap>(
    book: &mut Book<M, L, A>,
    ticket: &mut Ticket<L>,
    event: &M::Event,
) -> Option<Result<M::Out, Starved>>
    ensures none { IfNone result ((book.new ≡ book.old) × (ticket.new ≡ ticket.old)) }
    ensures there { IfSome result (λ r. M.has_answer book.old.state event.now) }
    ensures ok { IfSome result (λ r. IfOk r (λ out. EntersAndGives M.moves M.begins ticket.old event.now out ticket.new)) }
    ensures err { IfSome result (λ r. OnErr r (ticket.new ≡ ticket_view ticket.old.worker (ticket.old.count + 1))) }
{
    if book.owns(ticket) {
        book.answer(ticket, event)
    } else {
        None
    }
}

/// The sizes of the machine's state, as one history led to it. The lock is held for this alone.
pub fn sizes<M: Measured, L: Ledger, A: Allocator, R: Wait>(
    rt: &R,
    shared: &Shared<M, L, A>,
) -> M::Sizes
    ensures { AreSizes M.moves M.begins M.sizes_of result }
{
    let book = shared.book.lock(rt);
    book.reached_law();
    M::sizes(book.state())
}
