//! Admission: equal queries of clients that come while one like them is being answered wait for its reply, and neither
//! a client's address nor a domain takes all places. A machine over keys, clients, domains and moments; it knows no
//! sockets and no bytes.
//!
//! A key stands for a question (a hash of it), so that queries with one key are equal. A client is a number whose low
//! sixteen bits are the port and whose others are the address. A domain is a number too, that of many names which the
//! same servers may be asked for. A moment is in milliseconds. A payload, of any type, is what the caller needs to put
//! a query in that is held.
//!
//! A query that comes (`admit`) is admitted, waits, or is refused, and then it is given back. It enters while its step
//! runs; then either it has its answer (`settled`), or it is open from a moment on (`opened`) until a reply to it has
//! gone out (`closed`). One that leaves makes room for the first that waits for its key, which is called in: `next`
//! hands it out, and it enters. Where a query fails, `fail` hands out those that wait with its key, one at a time.
//! `expire` and `drop_late` say that time has passed.
//!
//! A query is refused where its address has as many as places are free, unless one address may have all. So it is where
//! its domain has three times as many as places are left for it; the last `answered` of them are for domains of which a
//! name was answered.
//!
//! Promised: of equal queries at most `equal` are inside. Of one address at most `each` are inside or wait. At most
//! `places` are inside, the last `reserve` of them from addresses that have no other query here. At most `waiting`
//! wait, and only while `equal` like them are inside (`kept_law`). Neither an address nor a domain takes what is left to
//! others (`is_shut`). Those that wait for a key come in in their order (`fair_law`). Each that waits comes in once,
//! fails once, or is dropped once (`once_law`). `new` takes all memory that is ever wanted. What each call does its
//! contract says (`specs/Moves.antt`).
//! Not here: that a reply comes, or that the caller says so. So a query that is open for 12,000 ms leaves with
//! `expire`; and one that waited for 5,000 ms is dropped with `drop_late`.
//!
//! ```text
//! match admission.admit(key, client, domain, was_answered, moment, datagram) {
//!     Decision::In(datagram) => match step(datagram) {
//!         Some(_reply) => admission.settled(key, client),
//!         None => admission.opened(key, client, moment),
//!     },
//!     Decision::Waits => {}
//!     Decision::Refused(_datagram) => dropped += 1,
//! }
//! while let Some(query) = admission.next() { .. }      // each enters, as `In` does
//! ```
#![tactic(auto)]

mod admission;
mod laws;
mod limits;
mod places;
mod queries;
mod queue;

pub use admission::Admission;
pub use laws::{fair_law, kept_law, once_law};
pub use limits::{
    ANSWERED, DOMAIN_SHARE, EQUAL, Limits, OPEN_MS, PLACES, RESERVE, WAIT_MS, WAITING,
};
pub use queries::{Decision, Held};
