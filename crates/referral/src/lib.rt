//! Cached delegations (RFC 1034, sections 4.2.1 and 5.3.3): a zone cut, the names of its servers and their glue, until
//! the TTL expires.
//!
//! `Cut::of_records` makes a cut of NS records and A records, `Cut::of_hints` the root's of hints. `Delegations::keep`
//! caches one under its own name; `Delegations::best` gives the deepest live one that a name is at or under, where the
//! search for its servers starts.
//!
//! Promised: the result of each call, and the entries afterwards, exactly and in words (`IsBest`, `members_law`). The
//! cut of a result is over the name, and cached under its own (`named_law`). A cut has the targets of its NS records,
//! the addresses of its A records, and no others (`made_law`).
//! Not here: which glue is in bailiwick (`classify`); the order of asking (`frames`, `retry`).
//!
//! ```text
//! let mut delegations = Delegations::new(alloc, room, hasher)?;
//! let cut = Cut::of_records(alloc, owner, servers.as_slice(), glue.as_slice())?;
//! delegations.keep(cut, 3_600, 0)?;
//! let best = delegations.best(name, 1_000)?;
//! ```
#![tactic(auto)]

mod cut;
mod delegations;
mod laws;
mod lists;
mod made;

pub use cut::Cut;
pub use delegations::Delegations;
pub use laws::{made_law, members_law, named_law};
pub use lists::{Addresses, Names, ServerAddress};
// A crate can name a store in a contract only if the types of its fields are exported.
#[doc(hidden)]
pub use cut::Servers;
