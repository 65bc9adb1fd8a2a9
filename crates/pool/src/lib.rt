//! One machine that many workers share: its book stands behind a lock, each worker puts its events by a ticket of
//! its own and keeps the entries, and in the end what they kept is held against the book's history.
//!
//! `Shared::new` puts a book behind a lock. `submit` takes one step of its machine as the worker of a ticket, on any
//! thread, and answers with its entry, `take_step` with what came out alone. `Shared::lock` holds the lock for several
//! steps in a row, each of which `step_locked` takes, or `answer_locked` where the answer is at hand. `sizes` tells the
//! sizes of its state. When all are done, `gather` takes the book (`into_book`) and what each worker `Kept`.
//!
//! Promised: a step is that worker's, on that event and with its next number (`Enters`, `EntersAndGives`), and a
//! refusal leaves the ticket as `IsEventRefused` says. The sizes that are told are those of a state to which one
//! history led (`AreSizes`). A history that closes is legal, and a shuffle of the lists that the workers kept
//! (`Closes`). Of another it is said why it does not close (`IsOpen`).
//! Not here: making threads (`workers`, `server`); what the machine does (`engine`, `simnet`).
//!
//! ```text
//! let shared = Shared::new(book);
//! let entry = submit(&rt, &shared, &mut ticket, event)?;          // on any thread
//! let closed = gather(alloc, shared.into_book(), kept)?;          // closed.history, closed.lists
//! ```
#![tactic(auto)]

mod closing;
mod fault;
mod shared;

pub use closing::{Closed, Kept, gather};
pub use fault::PoolError;
pub use shared::{Shared, answer_locked, sizes, step_locked, submit, take_step};
