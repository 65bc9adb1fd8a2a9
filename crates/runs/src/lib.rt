//! Runs of the resolver, step by step (RFC 1035, section 7): definitions, in `specs`, and laws. Nothing here runs.
//!
//! An `Event` comes in (a client's bytes, a datagram, a reply over TCP or its failure, a tick), an `Action` goes out (a
//! reply, an ask), and a `State` is the resolver's between two steps. `Step` is one step, `Run` a list of them from a
//! new resolver on. `Brings` and `AnswersAsk` say which message is accepted for an ask (RFC 1035, section 7.3; RFC
//! 5452, section 9.1): the one definition by which the resolver believes a server.
//!
//! Promised: the clock of a run is the greatest moment of its events (`clock_law`); a message that is accepted for the
//! open ask of a query serves that query, and no other (`heard_law`).
//! Not here: the laws of every run (`laws`); the code (`events`, `engine`).
//!
//! ```text
//! Run site run s          -- these steps lead from a new resolver of this site to the state s
//! Step old event None new -- on this event memory ran out, and this is what stands
//! ```
#![tactic(auto)]

mod laws;

pub use laws::{clock_law, heard_law};
