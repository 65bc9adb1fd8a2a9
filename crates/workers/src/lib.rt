//! Workers that share one machine: each puts its queries in their order, and before the next one it runs every
//! follow-up event that came of the last, as a datagram that was sent is to be carried. In the end what they kept is
//! held against the machine's one history.
//!
//! `FollowUps` is a machine that has queries and calls for follow-up events. `run_all` works off a list of queries a
//! worker, each in a thread of its own where one can be made, and gives the closed history; a `Gate` is where workers
//! wait for one another before each query, `Open` one at which nobody waits, `Meeting` one that all pass together.
//!
//! Promised: one legal history, in which the lines of each worker are those that it kept, and work off its own
//! queries and their follow-up events (`HaveRun`).
//! Not here: how fairly threads run; the network (`storm`).
//!
//! ```text
//! let closed = run_all::<Within<P>, L, Open, R>(&rt, alloc, blank, start, &queries, 100_000, &Open)?;
//! assert_eq!(closed.lists.len(), queries.len());
//! ```
#![tactic(auto)]

mod follow_ups;
mod gate;
mod run;
mod together;
mod working;

pub use follow_ups::FollowUps;
pub use gate::{Gate, Meeting, Open};
pub use run::run_all;
