//! One history that many threads share: a machine's state, a count for each worker, and the last entries. Whenever
//! one looks at a book, a single history of the machine, as one thread would run it, led to what it shows.
//!
//! A `Machine` has a state and steps by events; `Measured` and `Answering` are such of which more can be told.
//! `Book::new` gives a book and a `Ticket` for each worker; `put` takes one step as a ticket's worker and answers with
//! its `Entry`, `step` with what came out alone; `answer` is a step that is taken only where its answer is at hand.
//! `recent` and `into_history` read the entries, `state` and `counts` the rest. A ticket's count is its share of a
//! ledger, so that nobody can make an entry of another's.
//!
//! Promised: one history led to the book (`reached_law`, `Reached`); a step is one the machine may take, and its entry
//! the newest (`Takes`, `Gives`); the whole history, while it is kept (`IsHistory`); the shares of all tickets are all
//! entries (`audit`).
//! Not here: the lock (`pool`); threads (`workers`).
//!
//! ```text
//! let (mut book, mut tickets) = Book::<Adding, L, A>::new(alloc, blank, 0, 2, 100)?;
//! let entry = book.put(&mut tickets[0], 5)?;
//! assert_eq!((entry.worker(), entry.number(), *entry.event()), (0, 0, 5));
//! assert!(book.entries() == 1 && book.is_whole());
//! ```
#![tactic(auto)]

mod book;
mod entry;
mod machine;
mod ticket;

pub use book::Book;
pub use entry::Entry;
pub use machine::{Answering, Machine, Measured};
pub use ticket::Ticket;
