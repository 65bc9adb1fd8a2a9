//! The work on one query (RFC 1034, section 5.3.3): its tasks, the servers that are asked, and the use of their
//! replies.
//!
//! `begin_query` starts a query: a link that is found for its name and is no alias is the answer, without a job; else a
//! `Job` is made, with ten seconds for it. `answer_query` gives such a link alone, where that shows at once. `advance_by_reply` takes what was read of a message that was accepted for its
//! ask, and `advance` another `Input`: a time-out, or an ask over TCP that failed. All three answer with the `Next` thing
//! that goes out: an ask of a server in a datagram or over TCP, the CNAME chain and its end, or the cause of a failure.
//!
//! Promised: each call is one by the rules of `resolution` (`Advances`); where memory runs out, the stores are as its
//! input, or part of it, and the rules on the way left them (`Stops`). At most 40 asks, 64 look-ups of servers' names,
//! which are three deep, and eight aliases. Not here: which message is a reply (`events`), identifiers, sockets and
//! many queries at once (`engine`).
//!
//! ```text
//! match begin_query(alloc, name, RType::A, home, stores, 0)? {
//!     Started::Answered(last) => { /* the answer */ }
//!     Started::Working(job, next) => match next {
//!         // Later: `advance_by_reply(.., server, &reading, ..)`, or `advance` with Input::TimedOut(server).
//!         Next::AskUdp(server, asked, kind) => {}
//!         // Later: the same, or Input::TcpFailed(server).
//!         Next::AskTcp(server, asked, kind) => {}
//!         Next::Done(chain, last) => { /* the aliases, and the link that ends them */ }
//!         Next::Fail(cause) => { /* SERVFAIL */ }
//!     },
//! }
//! ```
#![tactic(auto)]

mod advancing;
mod asking;
mod beginning;
mod calls;
mod chain;
mod chaining;
mod entering;
mod job;
mod moves;
mod replies;
mod search;
mod serving;
mod task;

pub use advancing::{advance, advance_by_reply};
pub use beginning::{Started, answer_query, begin_query};
pub use calls::{Input, Next};
pub use chain::Chain;
pub use job::Job;
// A crate can name a job in a contract only if the types of its fields are exported.
#[doc(hidden)]
pub use search::{Search, Searches};
#[doc(hidden)]
pub use task::{Move, Task};
