//! World texts: which zones a world has, who serves them, and where a resolver starts; read, and built into a
//! world.
//!
//! `world_in` gives the `World` of a text. In two steps: `read_world` reads its lines, `zone` and `local` blocks of
//! master file text, `host` and `hint` lines, into a `WorldText`; `WorldText::build` reads the blocks as master
//! files, checks each zone and then the world.
//!
//! Promised: the world that the text says (`IsWorldOf`), or why it says none: the first fault, of its lines, its
//! blocks or the rules of a world, in this order (`WorldFault`, `IsNoWorld`).
//! Not here: scripts of what happens in a world (`script`).
//!
//! ```text
//! let text = "zone .\n. 60 IN SOA r. h. 1 2 3 4 60\n. 60 IN NS ns.\nend\nhost 192.0.2.1 .\nhint 192.0.2.1\n";
//! let world = world_in(alloc, text)?;
//! assert_eq!(rt; world.hints().len(), 1);
//! ```
#![tactic(auto)]

mod build;
mod keyword;
mod open_block;
mod reader;
mod statement;
mod world_fault;
mod world_text;

pub use build::world_in;
pub use world_fault::WorldFault;
pub use world_text::{Block, WorldText, read_world};
