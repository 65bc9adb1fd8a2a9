//! The loops that take clients' datagrams, all from one socket: each datagram comes to one of them.
ghost use Rattle.std.specs.Prelude.{◌≤◌, IfSome, length};

use crate::clock::rest;
use crate::context::Context;
use crate::ends::{Ends, MOST_BYTES, endpoint_of, is_early};
use crate::worker::{MOST_AT_ONCE, Worker};
use book::Answering;
use counters::{Outcome, SocketFault};
use events::Endpoint;
use libc::net as c;
use rdata::Addr;
use std::net::UdpSocket;
use std::os::fd::AsRawFd;
use std::sync::Wait;
use std::sync::ledger::Ledger;
use std::time::Clock;
use typed::{TypedActions, TypedEvent};

/// Takes the datagrams of clients until the flag is up.
pub(crate) fn take_datagrams<
    M: Answering<Event = TypedEvent, Out = TypedActions>,
    L: Ledger,
    R: Wait + Clock,
>(rt: &R, context: &Context<'_, M, L>, worker: &mut Worker<M, L>) {
    let mut buffer = [0u8; MOST_BYTES];
    for _ in rt.forever() {
        if context.common.is_over() {
            return;
        }
        if let Some((count, from)) = next_datagram(rt, context.common.ends, &mut buffer) {
            let moment = context.common.moment(rt);
            context.take_datagram(worker, moment, from, &buffer[..count]);
            take_others(context, worker, moment, &mut buffer);
            context.put_batch(rt, worker);
        }
    }
}

// Takes the datagrams that are there already at this moment, as many as one batch has.
fn take_others<M: Answering<Event = TypedEvent, Out = TypedActions>, L: Ledger>(
    context: &Context<'_, M, L>,
    worker: &mut Worker<M, L>,
    moment: u64,
    buffer: &mut [u8; MOST_BYTES],
) {
    for _ in 1..MOST_AT_ONCE {
        let Some((count, from)) = datagram_at_hand(&context.common.ends.clients, buffer) else {
            return;
        };
        context.take_datagram(worker, moment, from, &buffer[..count]);
    }
}

// The next datagram of a client: how many bytes it has, which stand at the front of the buffer, and who sent it. None
// where none came in time, and at a fault: since it may last, the loop rests for a while.
fn next_datagram<R: Clock>(rt: &R, ends: &Ends, buffer: &mut [u8]) -> Option<(usize, Endpoint)>
    ensures { IfSome result (λ d. d.0 ≤ length buffer.new) }
{
    match ends.clients.recv_from(buffer) {
        Ok((count, from)) => Some((count, endpoint_of(from)?)),
        Err(error) if is_early(&error) => None,
        Err(_) => {
            ends.count(Outcome::SocketFailed(SocketFault::Receive));
            rest(rt);
            None
        }
    }
}

// Bytes of an address of any family (socket(7)).
const ADDRESS_BYTES: usize = 128;

// The datagram that a socket at an IPv4 address has already: how many bytes it has, which stand at the front of the
// buffer, and who sent it, whose port and address stand behind the family (ip(7)). None where there is none, and at a
// fault: one that lasts is told by the next wait.
fn datagram_at_hand(socket: &UdpSocket, buffer: &mut [u8]) -> Option<(usize, Endpoint)>
    ensures { IfSome result (λ d. d.0 ≤ length buffer.new) }
{
    let mut sender = [0u8; ADDRESS_BYTES];
    let mut length = ADDRESS_BYTES as u32;
    let count = unsafe {
        c::recvfrom(
            socket.as_raw_fd(),
            buffer,
            c::MSG_DONTWAIT,
            &mut sender,
            &mut length,
        )
    };
    let count = usize::try_from(count).ok()?;
    let [_, _, high, low, first, second, third, fourth, ..] = sender;
    let end = Endpoint {
        address: Addr([first, second, third, fourth]),
        port: u16::from_be_bytes([high, low]),
    };
    Some((count, end))
}
