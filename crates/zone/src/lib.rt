//! Zones (RFC 1034, section 4.2): an origin and records that meet the rules of a zone; the tree of their names; and the
//! laws of look-up (RFC 1034, section 4.3.2; RFC 4592).
//!
//! `Zone::build` takes records and answers the lowest rule that they break (`ZoneError`). The rules are: one SOA and an
//! NS record at the origin, no owner out of the zone, a CNAME alone at its name, one TTL for an RRset, only glue
//! beneath a zone cut, wildcards in their place. `Zone::stand` gives the records of a name and of its wildcard, at a
//! cost that does not grow with the zone; `denial` is the SOA of a negative answer, with the lesser of its TTL and
//! MINIMUM (RFC 2308, section 3).
//!
//! Promised: a zone meets every rule (`zone_keeps_rules`, `IsZone`), and a rule is named exactly where it is broken
//! (`zone_law`). The functions by which a name is looked up are the RFC's relations (`cut_law`, `existence_law`,
//! `encloser_law`, `link_law`, `local_law`), so that a question has one answer (`one_link_law`).
//! Not here: the look-up itself (`authority`).
//!
//! ```text
//! let zone = Zone::build(origin, records)?;
//! if let Some(stand) = zone.stand(name) {
//!     if stand.own.len() > 0 { let record = stand.own.get(0); }
//! }
//! ```
#![tactic(auto)]

mod aliases;
mod cuts;
mod denial;
mod fault;
mod held;
mod laws;
mod link;
mod nodes;
mod rules;
mod scan;
mod sets;
mod tree;
mod ttls;
mod zone;

pub use denial::denial_ttl;
pub use fault::ZoneError;
pub use held::Held;
pub use laws::{
    cut_law, delegated_name_law, encloser_law, existence_law, link_law, local_law, name_error_law,
    one_link_law, own_records_law, zone_keeps_rules, zone_law,
};
pub use link::Link;
pub use tree::Stand;
pub use zone::Zone;
