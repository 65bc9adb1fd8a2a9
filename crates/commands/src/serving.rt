//! A server that was started, run.
ghost use Rattle.std.specs.Option.{is_some};
ghost use Rattle.commands.specs.Servers.{IsServed, IsToldOf};

use crate::fault::Fault;
use crate::host::Machine;
use crate::outcome::Server;
use crate::run::report;
use server::{Ends, ServeError};
use std::alloc::Global;
use std::io::Write;
use std::net::{Net, TcpListener, TcpStream};
use std::sync::Wait;
use std::sync::atomic::AtomicBool;
use std::thread::Threads;
use std::time::Clock;

/// Runs a server at the sockets that this machine bound last, and gives the exit status: of a server that can't be
/// run, that of the fault whose line is printed. No flag ends it: it runs until the program is stopped.
pub fn serve_at<
    R: Net<Listener = TcpListener, Stream = TcpStream> + Threads + Wait + Clock + Sync,
    E: Write,
>(machine: &Machine<'_, R>, server: Server<Global>, err: &mut E) -> u8
    ensures { IsServed (is_some machine.now.ends) (E.contents err.old) (E.contents err.new) result }
{
    match &machine.ends {
        Some(ends) => told(run(machine.runtime, machine.alloc, ends, server), err),
        None => {
            drop(server);
            report(&Fault::Socket, err)
        }
    }
}

// Runs a server at these sockets, until the program is stopped.
fn run<R: Net<Listener = TcpListener, Stream = TcpStream> + Threads + Wait + Clock + Sync>(
    rt: &R,
    alloc: Global,
    ends: &Ends,
    server: Server<Global>,
) -> Result<(), ServeError> {
    let stop = AtomicBool::new(false);
    let bounds = server.bounds;
    server_start::run_server(rt, alloc, server.into_core(), ends, bounds, &stop)
}

// The exit status of a server that ended so: 0, or that of the fault whose line is printed.
fn told<E: Write>(done: Result<(), ServeError>, err: &mut E) -> u8
    ensures { IsToldOf done (E.contents err.old) (E.contents err.new) result }
{
    match done {
        Ok(()) => 0,
        Err(ServeError::Memory) => report(&Fault::Memory, err),
        Err(ServeError::Clock) | Err(ServeError::Threads) => report(&Fault::Threads, err),
    }
}
