//! Scripts of a network in memory: what clients ask, what comes of the asks of servers, and when.
//!
//! `read_script` reads the orders of a script, a line each: `at` sets the moment, `ask` and `raw` are clients,
//! `carry`, `cut` and `lose` say whether the reply to a numbered ask comes, comes truncated or never comes, `run`
//! carries all that are left, `tick` lets time pass. `read_asks` reads a script that may only ask.
//!
//! Promised: the orders that the text says (`script_of`, `asks_of`), or the first line that is refused and why
//! (`LineError`).
//! Not here: playing them (`play` in one thread, `storm` in many).
//!
//! ```text
//! let orders = read_script(alloc, "at 0\nask www.lab.example. A\ncut 1\nrun\n")?;
//! assert!(rt; matches!(orders.as_slice(), [_, _, Order::Truncate(1), _]));
//! ```
#![tactic(auto)]

mod keyword;
mod mark;
mod order;
mod script;

pub use order::Order;
pub use script::{read_asks, read_script};
