//! The loops of a server, a thread for each, from their start until all have ended.
ghost use Rattle.server.specs.Staff.{IsStaffed};

use crate::clock::pass_time;
use crate::context::{Bounds, Common, Context};
use crate::datagrams::take_datagrams;
use crate::ends::Ends;
use crate::fault::ServeError;
use crate::log::log_start;
use crate::metrics::serve_counters;
use crate::moments::Beginning;
use crate::server_streams::ask_servers;
use crate::shared_admission::SharedAdmission;
use crate::streams::take_streams;
use crate::upstream::take_answers;
use crate::worker::{Worker, workers_of};
use book::{Answering, Measured, Ticket};
use counters::StoreSizes;
use dispatch::{Role, role_of};
use pool::Shared;
use std::alloc::Global;
use std::net::{Net, TcpListener, TcpStream};
use std::sync::Wait;
use std::sync::atomic::{AtomicBool, Ordering};
use std::sync::ledger::Ledger;
use std::thread;
use std::thread::{Scope, Threads};
use std::time::Clock;
use typed::{TypedActions, TypedEvent};

/// Serves at these ends within these bounds until the flag is up: each ticket is for one loop, by its worker's number.
/// Every loop has ended when this returns. Where a thread can't be made the flag is put up, and the server is refused
/// with `Threads`; where a loop can't begin for want of memory, with `Memory`.
pub fn serve_until<
    M: Measured<Event = TypedEvent, Out = TypedActions, Sizes = StoreSizes>
        + Answering<Event = TypedEvent, Out = TypedActions>
        + Send
        + Sync,
    L: Ledger + Send + Sync,
    R: Net<Listener = TcpListener, Stream = TcpStream> + Threads + Wait + Clock + Sync,
>(
    rt: &R,
    alloc: Global,
    shared: &Shared<M, L>,
    tickets: Vec<Ticket<L>>,
    ends: &Ends,
    bounds: Bounds,
    stop: &AtomicBool,
) -> Result<(), ServeError>
    requires { IsStaffed bounds.loops tickets.items }
{
    let Some(beginning) = Beginning::now(rt) else {
        return Err(ServeError::Clock);
    };
    let Some(admission) = SharedAdmission::new(alloc, &bounds.seed, bounds.clients) else {
        return Err(ServeError::Memory);
    };
    let Ok(workers) = workers_of(alloc, tickets) else {
        return Err(ServeError::Memory);
    };
    let (to_servers, asks) = crossbeam_channel::unbounded(alloc)?;
    let (to_streams, replies) = crossbeam_channel::unbounded(alloc)?;
    let gave_up = AtomicBool::new(false);
    let common = Common {
        alloc,
        ends,
        bounds,
        admission: &admission,
        to_servers: &to_servers,
        asks: &asks,
        to_streams: &to_streams,
        replies: &replies,
        stop,
        gave_up: &gave_up,
        beginning,
    };
    run(rt, shared, &common, workers)
}

// Logs the start, before any loop answers, and runs a loop for each worker, until all have ended.
fn run<
    M: Measured<Event = TypedEvent, Out = TypedActions, Sizes = StoreSizes>
        + Answering<Event = TypedEvent, Out = TypedActions>
        + Send
        + Sync,
    L: Ledger + Send + Sync,
    R: Net<Listener = TcpListener, Stream = TcpStream> + Threads + Wait + Clock + Sync,
>(
    rt: &R,
    shared: &Shared<M, L>,
    common: &Common<'_>,
    workers: Vec<Worker<M, L>>,
) -> Result<(), ServeError> {
    let context = Context { shared, common };
    log_start(common);
    let well = thread::scope(
        thread::scope_env(),
        rt,
        |scope| start_all(rt, scope, &context, workers),
    );
    if !well {
        Err(ServeError::Threads)
    } else if common.gave_up.load(Ordering::SeqCst) {
        Err(ServeError::Memory)
    } else {
        Ok(())
    }
}

// Begins what each worker is for, and tells a service manager once all have begun; whether each has its thread.
fn start_all<
    's,
    'd,
    E,
    M: Measured<Event = TypedEvent, Out = TypedActions, Sizes = StoreSizes>
        + Answering<Event = TypedEvent, Out = TypedActions>
        + Send
        + Sync,
    L: Ledger + Send + Sync,
    R: Net<Listener = TcpListener, Stream = TcpStream> + Wait + Clock + Sync,
>(
    rt: &'s R,
    scope: &Scope<'s, E>,
    context: &'s Context<'d, M, L>,
    workers: Vec<Worker<M, L>>,
) -> bool {
    let mut well = start_counters(rt, scope, context);
    for worker in workers {
        let started = start(rt, scope, context, worker);
        well = well && started;
    }
    if well && !context.common.is_over() {
        context.common.ends.tell("READY=1");
    }
    well
}

// Begins to serve the counters, in a thread of its own, where they are served; whether there is one where one is
// wanted.
fn start_counters<
    's,
    'd,
    E,
    M: Measured<Event = TypedEvent, Out = TypedActions, Sizes = StoreSizes>
        + Answering<Event = TypedEvent, Out = TypedActions>
        + Send
        + Sync,
    L: Ledger + Send + Sync,
    R: Net<Listener = TcpListener, Stream = TcpStream> + Wait + Clock + Sync,
>(rt: &'s R, scope: &Scope<'s, E>, context: &'s Context<'d, M, L>) -> bool {
    if context.common.ends.scrapes.is_none() {
        return true;
    }
    let started = scope.spawn(move || serve_counters(rt, context)).is_ok();
    if !started {
        context.common.stop.store(true, Ordering::SeqCst);
    }
    started
}

// Begins what the worker is for, in a thread of its own; whether there is one. Where none can be made the flag is put
// up.
fn start<
    's,
    'd,
    E,
    M: Answering<Event = TypedEvent, Out = TypedActions> + Send + Sync,
    L: Ledger + Send + Sync,
    R: Net<Listener = TcpListener, Stream = TcpStream> + Wait + Clock + Sync,
>(rt: &'s R, scope: &Scope<'s, E>, context: &'s Context<'d, M, L>, worker: Worker<M, L>) -> bool {
    let started = scope.spawn(move || work(rt, context, worker)).is_ok();
    if !started {
        context.common.stop.store(true, Ordering::SeqCst);
    }
    started
}

// Does what the worker is for, until the flag is up.
fn work<
    M: Answering<Event = TypedEvent, Out = TypedActions>,
    L: Ledger,
    R: Net<Listener = TcpListener, Stream = TcpStream> + Wait + Clock,
>(rt: &R, context: &Context<'_, M, L>, worker: Worker<M, L>) {
    let mut worker = worker;
    match role_of(worker.ticket.worker()) {
        Role::Datagrams => take_datagrams(rt, context, &mut worker),
        Role::Streams => take_streams(rt, context, &mut worker),
        Role::Clock => pass_time(rt, context, &mut worker),
        Role::Upstream => take_answers(rt, context, &mut worker),
        Role::Asks => ask_servers(rt, context, &mut worker),
    }
}
