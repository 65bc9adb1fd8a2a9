//! Many clients at once in a network in memory: a worker for each script asks its queries and has the replies to
//! the asks that come of them carried, all workers over one network, and every reply is judged.
//!
//! `storm` runs scripts on a new network and gives the `Totals`: replies, those that count, and those that are
//! right. Beneath it, `lists_of` makes lists of queries of scripts, and `run_shared` works them off by
//! `workers::run_all`.
//!
//! Promised: one legal history of all workers, in which every reply is right (`IsRunOf`, `AreRight`); the totals
//! are those of such a history, and as many are right as are counted (`IsStorm`).
//! Not here: scripts that carry or lose asks by number (`play`).
//!
//! ```text
//! let scripts = /* one Vec<Order> a worker, by script::read_asks */;
//! if let Some(totals) = storm(&rt, alloc, sim, &world, scripts, 100_000)? {
//!     assert_eq!(totals.count.right, totals.count.replies);
//! }
//! ```
#![tactic(auto)]

mod count;
mod lists;
mod query;
mod run;
mod storming;
mod within;

pub use count::Totals;
pub use lists::lists_of;
pub use query::StormQuery;
pub use run::run_shared;
pub use storming::storm;
pub use within::{Beginning, Within};
