//! What a running server counts, and its text for Prometheus.
//!
//! An `Outcome` is what comes of an event, as far as it is counted: a query, a reply, an ask, an ask that failed.
//! `count` adds it to what counts, a `Counting`: the `Cells` of a server, which many threads raise without a lock, or a
//! list in a test. `put_metrics` appends the text of Prometheus' exposition format (version 0.0.4) to a string.
//!
//! Promised: which counters an outcome is added to, exactly (`counted`). A reply is added to one RCODE, and to at most
//! one source, one cause and one time (`reply_law`). No two counters share a cell (`places_law`). The text, exactly
//! (`exposition`), and the response to a request over HTTP (`response`).
//! Not here: what a cell holds once many threads have raised it, which is tried and not proved; the sockets at which
//! the text is served (`server`).
//!
//! ```text
//! let cells = Cells::new(alloc)?;
//! count(&mut cells.adder(), Outcome::Asked(Way::Udp));
//! put_metrics(&mut text, &cells.values(), 0, stores)?;
//! ```
#![tactic(auto)]

mod cells;
mod counter;
mod exposition;
mod http;
mod labels;
mod laws;
mod outcome;
mod stores;

pub use cells::{Adder, Cells};
pub use counter::{COUNTERS, Counter};
pub use exposition::put_metrics;
pub use http::{Answer, MOST_REQUEST, is_request, put_response};
pub use labels::{AskFault, Bucket, QueryType, Rcode, SocketFault, Source, Way};
pub use laws::{places_law, reply_law};
pub use outcome::{Counting, Outcome, Reply, count};
pub use stores::StoreSizes;
