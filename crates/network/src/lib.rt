//! A network in memory, of a resolver and the servers of a world: definitions, in `specs`, and the law that each
//! reply in it is right. Nothing here runs.
//!
//! `Network` is a world, a resolver's state and all asks that went out. `NetworkStep` is one step: a client's bytes
//! come, the reply of an ask's server is carried, whole or truncated or over TCP, an ask is lost, or time passes.
//! Any ask may be carried at any time and any number of times.
//!
//! Promised: in every such network of a well formed world each reply to a recursive query is a SERVFAIL, or right,
//! or truncated over UDP, and nothing is assumed of any message (`network_law`, `NetworkHeadline`).
//! Not here: the code of a network (`simnet`); forged messages, which `laws::headline_law` speaks of.
//!
//! ```text
//! pub fn play<A: Heap>(alloc: A, world: World<A>, orders: Vec<Order<A>, A>) -> Result<String<A>, Starved> {
//!     network_law();          // does nothing; the proof of `play` has its clause from here on
//!     ..
//! ```
#![tactic(auto)]

mod headline;

pub use headline::network_law;
