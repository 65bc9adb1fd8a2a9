//! What the program is asked to do, done: `ask`, `check`, `dump`, `play`, `storm`, `serve`, `check-config` and `trace`,
//! over what the caller gives: a runtime for threads, a source of texts, a place for a server's sockets, and two writers.
//!
//! `run_words` does what the words of a command line ask, `run_command` a `Command`; each writes the text or the
//! line of the fault, and gives the exit status and, of `serve`, the `Server` that was started, which `serve_at`
//! runs. `Disk` and `Machine` are the real files and sockets; a test gives a `Texts` and a `Host` of its own.
//!
//! Promised: status, text and fault of each command by one definition (`IsLineDone`, `IsRun`). It says the lines of the
//! reply that the zone gives (`PrintsAnswer`), the text of a script (`PrintsScript`, `PrintsStorm`), the server made of
//! its file (`StartsFor`), and which of several faults counts. A server is started, and its file found well, only where
//! its sockets are bound (`IsBoundFor`).
//! Not here: the words themselves (`commandline`).
//!
//! ```text
//! let mut disk = Disk::new(&rt);
//! let mut machine = Machine::new(&rt, rt.alloc());
//! let done = run_words(&rt, &words, &mut disk, &mut machine, &mut out, &mut err);
//! if let Some(server) = done.server { serve_at(&machine, server, &mut err); }
//! ```
#![tactic(auto)]

mod answering;
mod ask;
mod check_config;
mod fault;
mod files;
mod host;
mod outcome;
mod peers;
mod play_script;
mod run;
mod serve;
mod serving;
mod storm_scripts;
mod texts;
mod trace_query;
mod zones;

pub use host::{Host, Machine};
pub use outcome::{Outcome, Server};
pub use run::{refuse_line, run_command, run_words};
pub use serving::serve_at;
pub use texts::{Disk, Texts};
