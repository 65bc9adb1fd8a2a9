//! `vectors_resolver`: test vectors of what one query stands on, and of the resolver's steps.
//!
//! Each row of standard input is a command (the modules say which there are) that makes a store, does something with
//! it or asks it for something. `stdout` holds the rows, each with what has to come of it.
//!
//! Not here: refused growths, threads and sockets, of which no row can tell (`unit_tests`, `resolver_tests`).
//!
//! ```text
//! cache 2
//! keep a A 10 0 set : a 300 A 192.0.2.1
//! look a A 9999
//!   set of one for 10 s since 0 ms, 1 s left
//! ```
#![tactic(auto)]

mod asked;
mod exchange;
mod frame;
mod links;
mod replies;
mod row;
mod script;
mod servers;
mod settings;
mod shown;
mod steps;

use crate::script::Script;
use std::process::ExitCode;

fn main(rt: HostRuntime) -> ExitCode {
    let mut script = Script::new();
    vectors::run(&rt, &mut script)
}
