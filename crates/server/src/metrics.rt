//! The counters of a server over HTTP: one request at a time, bounded in time and in size.
ghost use Rattle.std.specs.Prelude.{◌≤◌, IfSome, length};

use crate::context::{Common, Context};
use crate::ends::{Ends, SLICE_MS, accept_fault, address_of, is_early};
use crate::poller::Poller;
use book::Measured;
use counters::{MOST_REQUEST, Outcome, SocketFault, StoreSizes, is_request, put_response};
use events::Endpoint;
use mio::Events;
use std::alloc::Global;
use std::io;
use std::io::{Read, Write};
use std::net::{Net, TcpListener, TcpStream};
use std::os::fd::AsRawFd;
use std::sync::Wait;
use std::sync::ledger::Ledger;
use std::time::{Clock, Duration};
use typed::{TypedActions, TypedEvent};

// How many sockets are told of at once.
const EVENTS: usize = 4;

// How long a request may take to come, and its response to go, in milliseconds.
const REQUEST_MS: u64 = 2_000;

// How long one read or write waits, in milliseconds.
const WAIT_MS: u64 = 100;

/// Where the counters are served.
#[derive(Drop)]
pub(crate) struct Scrapes {
    poller: Poller,
    listener: TcpListener,
}

impl Scrapes {
    /// At this address.
    pub fn open<R: Net<Listener = TcpListener, Stream = TcpStream>>(
        rt: &R,
        at: Endpoint,
    ) -> io::Result<Scrapes> {
        let listener = listener_at(rt, at)?;
        match Poller::of_listener(rt, listener.as_raw_fd()) {
            Ok(poller) => Ok(Scrapes { poller, listener }),
            Err(error) => Err(error),
        }
    }
}

// A listener at this address that is not waited for.
fn listener_at<R: Net<Listener = TcpListener, Stream = TcpStream>>(
    rt: &R,
    at: Endpoint,
) -> io::Result<TcpListener> {
    let listener = TcpListener::bind(rt, address_of(at))?;
    listener.set_nonblocking(true)?;
    Ok(listener)
}

/// Serves the counters until the flag is up. Whatever a client does, it holds up nothing but this loop.
pub(crate) fn serve_counters<
    M: Measured<Event = TypedEvent, Out = TypedActions, Sizes = StoreSizes>,
    L: Ledger,
    R: Wait + Clock,
>(rt: &R, context: &Context<'_, M, L>) {
    let Some(scrapes) = &context.common.ends.scrapes else {
        return;
    };
    let Ok(mut events) = Events::with_capacity(context.common.alloc, EVENTS) else {
        context.common.give_up();
        return;
    };
    let mut poll = scrapes.poller.poll.lock(rt);
    for _ in rt.forever() {
        if context.common.is_over() {
            break;
        }
        if !serve_next(rt, context, &scrapes.listener) {
            context
                .common
                .wait(&scrapes.poller, &mut poll, &mut events, SLICE_MS);
        }
    }
}

// Serves the next client; whether there was one. A fault is counted.
fn serve_next<
    M: Measured<Event = TypedEvent, Out = TypedActions, Sizes = StoreSizes>,
    L: Ledger,
    R: Wait + Clock,
>(rt: &R, context: &Context<'_, M, L>, listener: &TcpListener) -> bool {
    match listener.accept() {
        Ok((stream, _)) => {
            serve_one(rt, context, stream);
            true
        }
        Err(error) => {
            if !is_early(&error) {
                count_accept_fault(context.common.ends, &error);
            }
            false
        }
    }
}

fn count_accept_fault(ends: &Ends, error: &io::Error) {
    ends.count(Outcome::SocketFailed(accept_fault(error)));
}

// Serves one client, and closes its stream.
fn serve_one<
    M: Measured<Event = TypedEvent, Out = TypedActions, Sizes = StoreSizes>,
    L: Ledger,
    R: Wait + Clock,
>(rt: &R, context: &Context<'_, M, L>, mut stream: TcpStream) {
    let mut request = [0u8; MOST_REQUEST];
    if let Some(count) = request_of(rt, context.common, &mut stream, &mut request) {
        let stores = pool::sizes(rt, context.shared);
        respond(rt, context.common, &mut stream, &request[..count], stores);
    }
}

// How many bytes a client's request has, which stand at the front of the buffer. None where it can't be read in time.
fn request_of<R: Wait + Clock>(
    rt: &R,
    common: &Common<'_>,
    stream: &mut TcpStream,
    buffer: &mut [u8; MOST_REQUEST],
) -> Option<usize>
    ensures { IfSome result (λ n. n ≤ MOST_REQUEST) }
{
    let wait = Some(Duration::from_millis(WAIT_MS));
    if stream.set_read_timeout(wait).is_err() || stream.set_write_timeout(wait).is_err() {
        return None;
    }
    read_request(rt, common, stream, buffer)
}

// Writes the response to a request, where memory is left for it.
fn respond<R: Wait + Clock>(
    rt: &R,
    common: &Common<'_>,
    stream: &mut TcpStream,
    request: &[u8],
    stores: StoreSizes,
) {
    if let Some(response) = response_to(rt, common, request, stores) {
        write_response(rt, common, stream, response.as_bytes());
    }
}

// The response to a request. None where no memory is left for it.
fn response_to<R: Wait + Clock>(
    rt: &R,
    common: &Common<'_>,
    request: &[u8],
    stores: StoreSizes,
) -> Option<String> {
    let tally = common.ends.tally.as_ref()?;
    let (cells, waiting) = tally.values(rt, common.moment(rt));
    let mut response = String::new(common.alloc);
    put_response(
        common.alloc,
        &mut response,
        request,
        &cells,
        waiting,
        stores,
    )
    .ok()?;
    Some(response)
}

// How many bytes a request has, which stand at the front of the buffer. None where it is too long, or comes too late.
fn read_request<R: Wait + Clock>(
    rt: &R,
    common: &Common<'_>,
    stream: &mut TcpStream,
    buffer: &mut [u8; MOST_REQUEST],
) -> Option<usize>
    ensures { IfSome result (λ n. n ≤ MOST_REQUEST) }
{
    let began = common.moment(rt);
    let mut count = 0usize;
    for _ in 0..MOST_REQUEST {
        if count >= MOST_REQUEST || common.moment(rt).saturating_sub(began) >= REQUEST_MS {
            return None;
        }
        match stream.read(&mut buffer[count..]) {
            Ok(0) => return None,
            Ok(read) => count = count.saturating_add(read).min(MOST_REQUEST),
            Err(error) if is_early(&error) => {}
            Err(_) => return None,
        }
        if is_request(&buffer[..count]) {
            return Some(count);
        }
    }
    None
}

// Writes a response, as far as its client takes it in time.
fn write_response<R: Wait + Clock>(
    rt: &R,
    common: &Common<'_>,
    stream: &mut TcpStream,
    response: &[u8],
) {
    let began = common.moment(rt);
    let mut rest = response;
    for _ in 0..response.len() {
        if rest.is_empty() || common.moment(rt).saturating_sub(began) >= REQUEST_MS {
            return;
        }
        match write_some(stream, rest) {
            Some(written) => rest = rest.get(written..).unwrap_or(&[]),
            None => return,
        }
    }
}

// How many of these bytes were taken, which may be none yet. None where no more will be.
fn write_some(stream: &mut TcpStream, bytes: &[u8]) -> Option<usize> {
    match stream.write(bytes) {
        Ok(count) => Some(count),
        Err(error) if is_early(&error) => Some(0),
        Err(_) => None,
    }
}
