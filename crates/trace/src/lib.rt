//! One recursive query, followed from ask to ask: what each server was asked, what came of it, and the reply.
//!
//! `trace` steps a resolver directly, through `Peers`, a network that is waited for. Its text has a line for each ask,
//! and behind it a line for what came: an answer, an alias, a referral, a denial, why a reply is of no use, or that
//! nothing came. Look-ups of servers' addresses are indented under a line of their own. At the end stand the lines of
//! the reply and, of a SERVFAIL, its cause in words.
//!
//! Promised: the text of each line exactly (`class_line`, `loss_line`, `cause_line`). What came is classed by the zone
//! of the server as far as the asks before show it.
//! Not here: sockets and the resolver's file (`commands`); which line stands when (`tools/operator` tries it).
//!
//! ```text
//! let text = trace(alloc, core, reach, name, RType::A, &mut peers)?;
//! // send 1 198.51.100.1 www.example. A
//! //   12 ms: answer, 1 records
//! // reply 1 NOERROR
//! //   an www.example. 300 A 192.0.2.1
//! ```
#![tactic(auto)]

mod lines;
mod peers;
mod query;
mod searches;

pub use peers::Peers;
pub use query::trace;
