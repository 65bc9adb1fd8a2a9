//! The servers of a zone as they are asked for one name (RFC 1034, section 5.3.3, SLIST; RFC 1035, section 7.2): which
//! servers, in which order, and which names of servers are looked up.
//!
//! A `Frame` starts at a cut, with at most 16 of its addresses and 16 of its names. `next_address` gives the address to
//! ask, by penalties, each twice; once all were asked, `next_name` gives the name of a server without glue, whose
//! address is to be looked up, and `add` takes the addresses that were found. `Failed` marks names whose look-up
//! failed. `trimmed` is the part of a cut that a frame can use.
//!
//! Promised: each step, exactly, and its meaning. Each address in use is asked twice (`opened_law`, `order_law`). A
//! name is looked up unless it is in the zone itself, failed before, or would nest more than three deep
//! (`next_name_law`). Addresses that were found are asked (`added_law`), and a trimmed cut gives the same frame
//! (`trimmed_law`).
//! Not here: time and messages (`iterate`).
//!
//! ```text
//! let mut frame = Frame::start(alloc, cut, 0, penalties)?;
//! if let Some(server) = frame.next_address() { let milliseconds = frame.wait_ms(); /* ask it, and wait so long */ }
//! if let Some(name) = frame.next_name(failed)? { let more = frame.add(found, penalties)?; /* its addresses */ }
//! ```
#![tactic(auto)]

mod failed;
mod frame;
mod laws;
mod taken;
mod trimming;

pub use failed::Failed;
pub use frame::Frame;
pub use laws::{added_law, next_name_law, opened_law, order_law, trimmed_law};
pub use trimming::trimmed;
