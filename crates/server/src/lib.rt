//! A resolver at its sockets: loops that take what comes, put it as events to the machine that they share, and send
//! what goes out. They end once a flag is up.
//!
//! `Ends::open` binds the sockets for clients, UDP and TCP at one address and port. `serve_until` runs a loop a ticket,
//! by the roles of `dispatch`: clients' datagrams (`loops` of them, at one socket), clients' streams, the clock, other
//! servers' datagrams, asks over TCP. Each loop steps the machine by `pool::take_step`, `pool::answer_locked` and
//! `pool::step_locked` alone, and the counters read its sizes (`pool::sizes`). Clients' datagrams that came together step
//! under one lock. Each ask in a datagram has a socket of its own, at a port that the system picks, and only what repeats
//! the ask is put as an event (RFC 5452, section 9.2). One loop holds all streams of clients, and one all streams to
//! servers, and neither waits for any of them.
//!
//! Where its file asks for it (`Ends::showing`) it counts, by the crate `counters`, and serves what it counts
//! over HTTP, in a loop of its own.
//!
//! A client's question whose answer is at hand is answered at once. The others pass the crate `admission` first, those
//! in datagrams and those on streams alike.
//!
//! Promised: the loops are safe, with a ticket for each (`IsStaffed`). An event's actions are those of one step of the
//! machine on what was read of it, written (`IsPut`; `IsServed` of a client's message). Where replies and asks go, and
//! which messages repeat an ask, is proved in `dispatch`, frames in `sockets`, the history in `book`, which questions
//! wait in `admission`. Each query is answered at once (`AnswersAtOnce`) or asks for admission (`StandsAs`), under a
//! hash of it (`query_key`). It is passed, held, dropped, or let by where the machine holds its answer (`Enters`); over
//! 512 bytes it never waits. Whether an ask over TCP begins, waits or fails is `turn_by`. The first that waits with a
//! place is next.
//! Not here: what the machine is (`engine`); lists of who may ask, and limits of how often.
//!
//! ```text
//! let ends = Ends::open(&rt, alloc, listen)?;
//! serve_until(&rt, alloc, &Shared::new(book), tickets, &ends, bounds, &stop)?;
//! ```
#![tactic(auto)]

mod answered;
mod batch;
mod client_stream;
mod clock;
mod context;
mod crowd;
mod datagrams;
mod domain;
mod ends;
mod fault;
mod framed_stream;
mod log;
mod metrics;
mod moments;
mod notices;
mod open_asks;
mod outbox;
mod passage;
mod places;
mod poller;
mod query;
mod serve;
mod server_streams;
mod shared_admission;
mod streams;
mod tally;
mod upstream;
mod worker;

pub use context::Bounds;
pub use ends::Ends;
pub use fault::ServeError;
pub use log::{Shown, Verbosity};
pub use serve::serve_until;
