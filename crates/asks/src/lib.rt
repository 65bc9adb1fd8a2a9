//! What open queries wait for, by index: which query a datagram answers (RFC 1035, section 7.3; RFC 5452, section
//! 4) and which query is due first, without a walk over all of them.
//!
//! `AskIndex` has for each query, by its number, its open ask over UDP and when it is due. `set` and `clear` change one
//! query's; `find` gives the query by socket, server and ID, `earliest` the one that is due first.
//!
//! Promised: a change is one query's alone (`IsChanged`), and a refused one changes nothing; `find` and `earliest`
//! are right over all that is open (`IsFound`, `IsEarliest`). Two queries never have one ask.
//! Not here: asks over TCP and the queries themselves (`open_queries`).
//!
//! ```text
//! let mut asks = AskIndex::new(alloc);
//! let server = Addr([192, 0, 2, 1]);
//! asks.set(1, Some(AskKey { socket: 7, server, id: 4660 }), 1_000)?;
//! assert_eq!(rt; asks.find(7, server, 4660), Some(1));
//! assert_eq!(rt; asks.earliest(), Some((1_000, 1)));
//! ```
#![tactic(auto)]

mod ask;
mod asks;
mod indexes;

pub use ask::{AskKey, Waiting};
pub use asks::AskIndex;
