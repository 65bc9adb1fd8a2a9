//! Scripts played in a network in memory: clients ask, replies are carried, truncated and lost, the clock moves,
//! and what happens is printed line by line.
//!
//! `play` takes a world and the orders of a script, and gives the text: a line for each ask of a server, the lines
//! of each reply, and at last how many replies to recursive queries were right. `settings` is what the resolver in
//! it is set to.
//!
//! Promised: the text is that of these orders in this world, and each reply that it counts is right (`IsPlayed`, by
//! `network::network_law`).
//! Not here: reading scripts and worlds (`script`, `world_text`); many clients at once (`storm`).
//!
//! ```text
//! let orders = read_script(alloc, "at 0\nask www.lab.example. A\nrun\n")?;
//! let text = play(alloc, world, orders)?;
//! ```
#![tactic(auto)]

mod follow;
mod show;

pub use follow::{play, settings};
