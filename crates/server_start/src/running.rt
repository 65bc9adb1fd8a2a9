//! A resolver at its sockets: its state in a book, which the loops of a server take turns at.
ghost use Rattle.std.specs.Prelude.{◌≡◌};
ghost use Rattle.dispatch.specs.Roles.{loop_count};
ghost use Rattle.engine.specs.Beginnings.{IsBegun};

use book::Book;
use dispatch::loop_count;
use engine::{Core, TypedCore};
use pool::Shared;
use server::{Bounds, Ends, ServeError, serve_until};
use std::alloc::Global;
use std::marker::Brand;
use std::net::{Net, TcpListener, TcpStream};
use std::sync::Wait;
use std::sync::atomic::AtomicBool;
use std::sync::ledger::{Blank, Ledger};
use std::thread::Threads;
use std::time::Clock;

// How many entries of its history a server keeps: nobody reads them, so no message is copied for them.
const KEPT: usize = 0;

/// Serves with this resolver at these ends, within these bounds, until the flag is up.
pub fn run_server<
    R: Net<Listener = TcpListener, Stream = TcpStream> + Threads + Wait + Clock + Sync,
>(
    rt: &R,
    alloc: Global,
    core: Core,
    ends: &Ends,
    bounds: Bounds,
    stop: &AtomicBool,
) -> Result<(), ServeError>
    requires { IsBegun core }
{
    let blank = Blank::new(loop_count(bounds.loops) as u64);
    serve_by::<Brand, R>(rt, alloc, blank, core, ends, bounds, stop)
}

// Serves with a book whose tickets are of the ledger that `L` names, one for each loop.
fn serve_by<
    L: Ledger + Send + Sync,
    R: Net<Listener = TcpListener, Stream = TcpStream> + Threads + Wait + Clock + Sync,
>(
    rt: &R,
    alloc: Global,
    blank: Blank,
    core: Core,
    ends: &Ends,
    bounds: Bounds,
    stop: &AtomicBool,
) -> Result<(), ServeError>
    requires name { blank.name ≡ L.name }
    requires parts { (blank.parts ≡ L.parts) × (blank.parts ≡ loop_count bounds.loops) }
    requires begun { IsBegun core }
{
    let loops = loop_count(bounds.loops);
    let Ok((book, tickets)) = Book::<TypedCore, L>::new(alloc, blank, core, loops, KEPT) else {
        return Err(ServeError::Memory);
    };
    serve_until(rt, alloc, &Shared::new(book), tickets, ends, bounds, stop)
}
