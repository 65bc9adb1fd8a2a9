//! The file of a server: where it listens, which root servers it is told of, which zones it serves itself, and how
//! much it keeps.
//!
//! `read_config` reads the text of such a file, a table of its lines, into a `ServeConfig`: `listen` and `port`,
//! `hint` lines (RFC 1034, section 5.3.2), `local` lines with the paths of master files, and the sizes of cache,
//! delegations, penalties and failures.
//!
//! Promised: what the text says (`config_of`), or the first line that is refused and why (`LineError`): an unknown
//! word, a value out of its limits, a line that may stand once and stands twice, no `listen`.
//! Not here: reading files and binding sockets (`commands`); making the resolver (`server_start`).
//!
//! ```text
//! let text = "listen 127.0.0.1 5300\nhint 198.41.0.4\nlocal example. example.zone\n";
//! let config = read_config(rt.alloc(), text)?;
//! assert_eq!(rt; (config.listen.port, config.port, config.locals.len()), (5300, 53, 1));
//! ```
#![tactic(auto)]

mod config;
mod draft;
mod keyword;

pub use config::{Endpoint, LocalFile, LogLevel, ServeConfig, read_config};
