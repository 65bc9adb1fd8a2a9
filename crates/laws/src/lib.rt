//! The laws of every run of the resolver: definitions, in `specs`, and laws, a module each. Nothing here runs.
//!
//! Promised: let the world be well formed, and each accepted message be one that its server may send. Then each reply
//! to a recursive query is a SERVFAIL, or exactly the answer that RFC 1034, section 4.3.2, finds in the zones, or
//! truncated over UDP (`headline_law`; `truth_law`). With no premise on anyone, no link is sent beyond its TTL, and
//! every failure has its cause (`timely_law`). A query has one reply and one open ask, in due order (`discipline_law`,
//! and the other laws of module `orderly`). An accepted message is used in its own step (`calls_law`, `runs_law`).
//! Local and cached links are answered (`held_law`, `kept_law`, `failures_law`). `engine::Core::step` keeps each of
//! them.
//! Not here: which definitions a reader has to believe (docs/DEFINITIONS.md); that the premises can be met
//! (`witness`); the same without a premise on servers, in a network in memory (`network`).
//!
//! ```text
//! pub fn headline_law()
//!     ensures { Headline }
//! {}
//! // A call of a law does nothing; the proof of the function that calls it has its clause from there on.
//! ```
#![tactic(auto)]

mod followed;
mod kept;
mod orderly;
mod right;
mod timely;

pub use followed::{calls_law, runs_law};
pub use kept::{failures_law, held_law, kept_law};
pub use orderly::{
    determined_law, discipline_law, due_law, isolation_law, meant_law, room_law, starved_law,
    words_law,
};
pub use right::{headline_and_timely_law, headline_law, truth_law};
pub use timely::{every_failure_is_spent, failed_is_asked_twice, timely_law};
