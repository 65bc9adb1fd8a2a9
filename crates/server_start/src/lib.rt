//! A resolver at its sockets: made of what a server's file says and of its zones, and run until a flag is up.
//!
//! `resolver_of` makes the resolver of a `config::ServeConfig`, its local zones and a seed for identifiers.
//! `run_server` runs it at a server's `Ends`, within its `Bounds`.
//!
//! Promised: a new resolver with these zones, and with the hints and the settings of the file (`IsDescribed`), or
//! the refusal of `Core::new`.
//! Not here: reading the file and the zones, and binding the sockets (`commands`).
//!
//! ```text
//! let core = resolver_of(alloc, config, zones, seed)?;
//! run_server(&rt, alloc, core, &ends, bounds, &stop)?;
//! ```
#![tactic(auto)]

mod resolver;
mod running;

pub use resolver::resolver_of;
pub use running::run_server;
