//! A network in memory: a resolver, and the servers of a world, whose replies to its asks come whole, truncated or
//! late, come twice, or are lost.
//!
//! `Sim::new` makes one of a `World` and the `Settings` of a resolver. `Sim::step` takes a `SimEvent`: bytes of a
//! client, the reply to a numbered ask that is carried or lost, or time that passes; it gives what the resolver
//! does. `whole_over_udp`, `truncated_over_udp`, `over_tcp` and `lost` are what one ask brings. `Sim` is a
//! `book::Machine` too.
//!
//! Promised: each step is one of `network` (`NetworkStep`), and every reply so far is right (`StaysRight`, by
//! `network::network_law`).
//! Not here: scripts (`play`, `storm`); which reply comes when, which the caller says.
//!
//! ```text
//! let mut sim = Sim::new(alloc, world, settings)?;
//! // This step gives SimAction::Sent { number: 1 }, and the next one SimAction::Asked { number: 2 }.
//! let asked = sim.step(SimEvent::Client { moment: 0, client: 1, way: Via::Udp, bytes })?;
//! let again = sim.step(SimEvent::CarryTruncated { moment: 10, number: 1 })?;
//! let reply = sim.step(SimEvent::CarryTcp { moment: 20, number: 2 })?;
//! ```
#![tactic(auto)]

mod action;
mod begin;
mod come;
mod event;
mod fault;
mod machine;
mod reach;
mod sent;
mod show;
mod sim;

pub use action::{SimAction, SimActions};
pub use event::SimEvent;
pub use fault::SimError;
pub use reach::{lost, over_tcp, truncated_over_udp, whole_over_udp};
pub use sent::Sent;
pub use sim::Sim;
// What a network is begun with: those that drive one need nothing else of the engine.
