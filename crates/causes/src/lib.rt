//! Why a query fails: the causes of a SERVFAIL (RFC 1035, section 4.1.1).
//!
//! A query that can't be answered ends with a `Cause`: too many queries are open, its time is over, its CNAME chain
//! is too long, its asks or its look-ups of servers' addresses are used up, no server is left to ask (one may have
//! been passed over since it had lately failed to answer), or the reply is too large for TCP. Output lines print
//! `Cause::number`.
//!
//! Promised: the number of each. That a cause that is given stands in the run is a law of its own
//! (`laws::timely_law`, `IsCaused`).
//! Not here: FORMERR and NOTIMP (`front::Refusal`); a reply of another server's that is of no use
//! (`classify::Failure`).
//!
//! ```text
//! let cause = Cause::DeadlineOver;
//! assert_eq!(rt; cause.number(), 2);          // printed: reply 1 SERVFAIL cause 2
//! ```
#![tactic(auto)]

mod cause;

pub use cause::Cause;
