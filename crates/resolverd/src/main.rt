//! `resolverd`: what its command line asks, done with the real files, streams and sockets.
//!
//! It is thin: it hands its words to `commands::run_words`, which says in its contract what is printed and which
//! status is given, and runs the server that `serve` started by `commands::serve_at`. Words that are not UTF-8 name
//! no command.
//!
//! ```text
//! resolverd ask lab.example. lab.zone www.lab.example. A
//! resolverd serve resolverd.conf
//! ```
#![tactic(auto)]

use commandline::LineFault;
use commands::{Disk, Machine, refuse_line, run_words, serve_at};
use std::io::{ErrorKind, Write};
use std::net::{Net, TcpListener, TcpStream};
use std::process::ExitCode;
use std::rt::{Env, Files};
use std::sync::Wait;
use std::thread::Threads;
use std::time::Clock;
use std::{env, io};

fn main(rt: HostRuntime) -> ExitCode {
    let alloc = rt.alloc();
    let mut out = rt.stdout();
    let mut err = rt.stderr();
    let status = match words_of(&rt) {
        Ok(words) => run(&rt, &words, &mut out, &mut err),
        Err(fault) => refuse_line(alloc, &[], fault, &mut out, &mut err),
    };
    ExitCode::from(status)
}

// Does what these words ask, and runs the server that was started, if one was.
fn run<
    R: Net<Listener = TcpListener, Stream = TcpStream>
        + Threads
        + Wait
        + Clock
        + Files
        + Env
        + AllocGlobal
        + Sync,
    O: Write,
    E: Write,
>(rt: &R, words: &[String], out: &mut O, err: &mut E) -> u8 {
    let mut machine = Machine::new(rt, rt.alloc());
    let mut disk = Disk::new(rt);
    let done = run_words(rt, words, &mut disk, &mut machine, out, err);
    match done.server {
        Some(server) => serve_at(&machine, server, err),
        None => done.status,
    }
}

// The words after the program's name. One that is not UTF-8 names no command.
fn words_of<R: Env + AllocGlobal>(rt: &R) -> Result<Vec<String>, LineFault> {
    let mut words = Vec::new(rt.alloc());
    match env::args(rt) {
        Ok(args) => {
            for word in args.skip(1) {
                words.push(word)?;
            }
            Ok(words)
        }
        Err(error) => Err(line_fault(&error)),
    }
}

fn line_fault(error: &io::Error) -> LineFault {
    match error.kind() {
        ErrorKind::OutOfMemory => LineFault::Memory,
        _ => LineFault::Words,
    }
}
