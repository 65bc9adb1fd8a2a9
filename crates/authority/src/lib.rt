//! Authoritative look-up: the result of local zones for a name and a type (RFC 1034, section 4.3.2; RFC 4592).
//!
//! A `Catalog` holds zones of different origins. `look` takes the zone with the longest origin over the name and
//! answers by one walk up from it. The answer is a `Link` (the RRset, a CNAME, NODATA or NXDOMAIN, wildcards included),
//! a zone cut with its NS records and glue, or that no zone is over the name. `look_among` looks in some of the zones
//! alone, as one server of a world does; `look_in` is the same by a walk over all records, to compare with.
//!
//! Promised: the result is that of this zone, by the RFC's relations (clause `relation`, `IsLooked`) and by the
//! function that computes it (clause `value`, `looked`). It is one (`one_answer_law`), and there is one for every name
//! that a zone is over (`some_answer_law`). At most two nodes of the tree more than the name has labels are met
//! (`look_counted`).
//! Not here: following a CNAME chain (`front`, `iterate`).
//!
//! ```text
//! let mut zones = Vec::new(alloc);
//! zones.push(zone)?;
//! let catalog = Catalog::new(zones)?;
//! match catalog.look(alloc, name, RType::A)? {
//!     Local::Link(link) => { /* the RRset, a CNAME, NODATA or NXDOMAIN */ }
//!     Local::Cut(at, servers, glue) => { /* a referral to `at` */ }
//!     Local::NotHere => { /* not in bailiwick of any local zone */ }
//! }
//! ```
#![tactic(auto)]

mod answer;
mod catalog;
mod gather;
mod held;
mod laws;
mod origins;
mod plain;
mod refer;
mod walk;

pub use answer::Local;
pub use catalog::{Catalog, CatalogError};
pub use laws::{one_answer_law, some_answer_law};
pub use plain::look_in;
