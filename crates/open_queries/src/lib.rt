//! The open queries of a resolver: each waits for the answer to its one open ask. A query is known by its number,
//! and found by its ask or by when it is due.
//!
//! `put` opens a query, an `Open` with who asks, its work and its ask; `take` takes it out to be served. `find`
//! gives the query whose ask left a socket for a server under an ID, `find_tcp` that of a number over TCP,
//! `earliest` the one that is due first. `free_id` is the first ID that no open ask of a socket and server has (RFC
//! 5452, section 4).
//!
//! Promised: each call over the list of all open queries, exactly (`IsTheOne`, `IsTaken`, `AreWith`, `IsFound`,
//! `IsEarliest`); no two have one number (`apart_law`); a refused call changes nothing.
//! Not here: serving a query (`engine`, `iterate`).
//!
//! ```text
//! // None that is open has this number or this ask.
//! queries.put(Open { number: 1, client_query, job, ask, due: 1_000 })?;
//! if let Some(number) = queries.find(7, server, 4660) {
//!     if let Some(open) = queries.take_out(number) { let (client_query, job) = open.into_work(); }
//! }
//! ```
#![tactic(auto)]

mod indexes;
mod open;
mod queries;

pub use open::Open;
pub use queries::Queries;
