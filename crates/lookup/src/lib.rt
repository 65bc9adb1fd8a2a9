//! The look-up without a query to a server (RFC 1034, section 5.3.3, steps 1 and 2): in the local zones, in the cache,
//! and else the cut where servers are sought.
//!
//! `Home` holds the local zones and the root's cut, made of the hints (SBELT). `Stores` holds the cache, the
//! delegations, the penalties of servers, and which of them failed lately. `find` looks in the zones first and in the
//! cache next; where neither has a link, it gives the cut at which servers are sought: the one that the zones name, or
//! a deeper one that is cached. `find_end` gives a link alone, and only one that is no alias. `holds` tells beforehand
//! whether the answer is at hand: at most eight aliases and the end behind them, all of which `find` would give. `Taken`
//! is a link with its source, and `into_sent` the link as it is sent.
//!
//! Promised: the link that is found, or that there is none and where the search starts (`IsFound`; `IsFoundEnd`). Where
//! memory runs out, the look-up was made in the stores, or it was not (`LooksInPart`). Whether the answer is at hand
//! (`IsAtHand`).
//! Each call of the stores is one equation over `resolution`'s definitions.
//! Not here: asking servers (`iterate`).
//!
//! ```text
//! match find(alloc, home, name, RType::A, stores, now)? {
//!     Found::Known(taken) => { let link = taken.into_sent(now); }
//!     Found::Start(cut) => { let frame = stores.open(alloc, &cut, 0)?; }
//! }
//! ```
#![tactic(auto)]

mod ends;
mod held;
mod home;
mod lookup;
mod made;
mod stores;
mod taken;

pub use ends::find_end;
pub use held::holds;
pub use home::Home;
pub use lookup::{Found, find};
pub use made::found_addresses;
pub use stores::{Capacities, Hashers, Stores};
pub use taken::Taken;
// A crate can name a link that was taken in a contract only if the types of its fields are exported.
#[doc(hidden)]
pub use taken::Source;
