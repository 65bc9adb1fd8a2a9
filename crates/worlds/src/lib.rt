//! Worlds of zones, servers and hints that stand in for the network (RFC 1034, sections 2.4, 4.2 and 5.3.2), what
//! their servers reply, and the judge of replies.
//!
//! `World::check` takes zones, servers (`Host`), hints and the origins of local zones, and answers the first rule
//! that they break (`WorldError`). `host_reply` is what the server at an address replies to a query's bytes: a
//! referral at a zone cut, else with AA the CNAME chain through its zones and its end. `World::link` is what the
//! zone in charge of a name says, and `judge` tells whether bytes are the right reply to a question.
//!
//! Promised: a world is well formed (`well_formed_law`, `IsWorld`), and refused exactly where it is not
//! (`IsRefused`); what a server replies may honestly be served (clause `honest`); `judge` says yes exactly of right
//! replies (`IsRight`).
//! Not here: asks, loss and time (`network`, `simnet`).
//!
//! ```text
//! let world = World::check(zones, hosts, hints, locals)?;
//! if let Some(reply) = host_reply(alloc, &world, Addr([198, 51, 100, 1]), query)? {
//!     let is_right = judge(&world, name, RType::A, &reply)?;      // a referral is not, an answer is
//! }
//! ```
#![tactic(auto)]

mod fault;
mod hosting;
mod judging;
mod rules;
mod servers;
mod world;

pub use fault::WorldError;
pub use hosting::host_reply;
pub use judging::judge;
pub use world::{Host, World};
