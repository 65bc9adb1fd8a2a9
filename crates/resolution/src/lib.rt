//! How one query is resolved (RFC 1034, section 5.3.3): definitions, in `specs`, and laws. Nothing here runs.
//!
//! `Home` is the local zones and the hints, `Stores` the cache and its like, `Job` the work on one query: its CNAME
//! chain, and the searches for servers that are under way. `Rule` has the eight small steps of that work, from the look
//! in zones and cache to the look-up of a server's address; `Advances` is one call: an input is used, and rules are
//! applied until an ask goes out or the query is over. `iterate` is the code of these definitions, `runs` and `laws`
//! build on them.
//!
//! Promised: the rules end (`end_law`). A link that was accepted for a query serves that query, whatever its TTL
//! (`received_law`). Where memory ran out, part of an input was used; or the input was, some rules, and part of one
//! more (`Stops`). Nothing is new in the stores then beside what was accepted, and nothing is gone from them beside
//! what one `keep` of that pushes out (`stores_law`). Not here: clients, sockets and identifiers (`runs`).
//!
//! ```text
//! ghost use Rattle.resolution.specs.Rules.{Advances};
//!
//! pub fn advance<..>(.., job: &mut Job<A>, input: Input<A>, ..) -> Result<Next<A>, Starved>
//!     ensures advances { IfOk result (λ next. Advances home.now now (input_view input)
//!         job.old stores.old (next_view next) job.new stores.new) }
//! ```
#![tactic(auto)]

mod laws;

pub use laws::{end_law, received_law, stores_law};
