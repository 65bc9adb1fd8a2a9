//! Which server is asked next (RFC 1035, section 7.2): penalties of addresses, and plans of two rounds over
//! addresses.
//!
//! `Penalties` keeps a number from 0 to 8 for the addresses that were asked last: `timed_out` raises it by two,
//! `answered` halves it. `Plan::new` orders addresses by their penalties, and `Plan::next` gives them in that
//! order, twice; `wait_ms` is how long the one that was given last is waited for.
//!
//! Promised: the penalties and the order exactly (`timed_out`, `answered`, `by_penalty`), and in words
//! (`IsByPenalty`); no penalty is ever above 8 (`most_law`).
//! Not here: round-trip times; which addresses there are (`frames`).
//!
//! ```text
//! let mut penalties = Penalties::new(alloc, room, hasher)?;
//! penalties.timed_out(Addr([192, 0, 2, 1]))?;
//! let mut plan = Plan::new(alloc, &[Addr([192, 0, 2, 1]), Addr([192, 0, 2, 2])], &penalties)?;
//! assert_eq!(rt; (plan.next(), plan.wait_ms()), (Some(Addr([192, 0, 2, 2])), 1_000));
//! ```
#![tactic(auto)]

mod laws;
mod penalties;
mod plan;

pub use laws::most_law;
pub use penalties::Penalties;
pub use plan::Plan;
