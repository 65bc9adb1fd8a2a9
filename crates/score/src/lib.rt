//! What is kept of a script while it is played: what each client asked, which asks of servers are left to be
//! carried, and how many replies were right.
//!
//! `Clients` numbers the clients and has the recursive query of each; `query_bytes` are the bytes that one sends.
//! `Sends` marks the asks that went out, `take_off` and `take_lowest` take one off that list. `Count::with` judges
//! one more reply.
//!
//! Promised: each exactly (`IsHeard`, `query_for`, `taken_off`, `lowest`); a reply counts where it is no SERVFAIL,
//! and as right where the judge says so (`IsCounted`).
//! Not here: playing scripts (`play`, `storm`).
//!
//! ```text
//! let mut sends = Sends::new(alloc);
//! sends.push(Via::Udp)?;
//! sends.push(Via::Tcp)?;
//! assert_eq!(rt; (sends.way(2), sends.take_lowest()), (Some(Via::Tcp), Some(1)));
//! ```
#![tactic(auto)]

mod clients;
mod count;
mod query;
mod sends;

pub use clients::Clients;
pub use count::Count;
pub use query::query_bytes;
pub use sends::{Mark, Sends};
