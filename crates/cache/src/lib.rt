//! The cache: RRsets, CNAMEs and negative answers of servers, each until its TTL expires (RFC 1034, section 5.3.1; RFC
//! 2308, section 5).
//!
//! `keep` caches a link under its name and type, NXDOMAIN under the name alone; a link with TTL 0 is not cached, and
//! its old entry goes. `look` gives the first of these that lives: NXDOMAIN of the name, the link of the type, a CNAME
//! for other types, or NXDOMAIN of a name above, which denies all names beneath (RFC 8020). `look_end` gives the first
//! two alone, and `peek` what `look` would give, with no entry used. `Hit::into_link` is the link as it is sent, its TTLs
//! less its age. Beyond the capacity the least recently used entry goes. `Failures` caches for 30 seconds which server
//! failed to answer which question (RFC 2308, section 7.1).
//!
//! Promised: the answer of each call, and the entries afterwards, exactly (`lent`, `after_keep`, `after_look`) and in
//! words. An answer was cached and lives (`IsHeld`); there is none only where no entry answers (`IsMiss`; `given_law`).
//! Each entry that comes or goes is named (`members_law`), and age changes TTLs alone (`aging_law`). A failure that is
//! cached lives for 30 seconds, and no other does (`failures_law`).
//! Not here: whether a reply may be believed (`classify`, `events`); bounds on TTLs (`classify::received`);
//! prefetch, serve-stale.
//!
//! ```text
//! let mut cache = Cache::new(alloc, room, hasher)?;
//! cache.keep(name, RType::A, link, 300, 0)?;
//! if let Some(hit) = cache.look(name, RType::A, root, 10_000)? {
//!     assert_eq!(rt; hit.left(10_000), 290);
//!     let link = hit.into_link(10_000);
//! }
//! ```
#![tactic(auto)]

mod cache;
mod denial;
mod entries;
mod failures;
mod finding;
mod hit;
mod key;
mod laws;
mod packed;

pub use cache::Cache;
pub use failures::Failures;
pub use hit::{Hit, retimed};
pub use laws::{aging_law, failures_law, given_law, members_law};
// A crate can name a cache in a contract only if the types of its fields are exported.
#[doc(hidden)]
pub use denial::Denial;
#[doc(hidden)]
pub use entries::Entries;
#[doc(hidden)]
pub use failures::FailedAsk;
#[doc(hidden)]
pub use key::{Key, Slot};
pub use packed::{Form, Packed};
