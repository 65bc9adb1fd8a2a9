//! To whom an action of the resolver goes, and by which socket or stream.
ghost use Rattle.std.specs.Prelude.{◌≡◌};
ghost use Rattle.events.specs.Views.{action_view, bytes_in};
ghost use Rattle.dispatch.specs.Targets.{target};

use crate::senders::sender_of;
use events::{Action, Bytes, Endpoint};
use std::alloc::Allocator;
use wire::Via;

/// Where an action goes.
#[derive(Clone, Copy, Debug, PartialEq, Eq)]
pub enum Destination {
    /// To the client at this address, in a datagram.
    Client(Endpoint),
    /// To the client whose frame came under this number, on its stream.
    Stream(u64),
    /// To this server, in a datagram, as an ask under this socket number.
    Server(u16, Endpoint),
    /// To this server over TCP, of which is told under this number.
    Worker(u64, Endpoint),
}

/// Where an action goes.
pub fn destination_of<A: Allocator>(action: &Action<A>) -> Destination
    ensures { result ≡ target action.now }
{
    match action {
        Action::Reply { client, way, .. } => match way {
            Via::Udp => Destination::Client(sender_of(*client)),
            Via::Tcp => Destination::Stream(*client),
        },
        Action::Send { socket, to, .. } => Destination::Server(*socket, *to),
        Action::TcpAsk { number, to, .. } => Destination::Worker(*number, *to),
    }
}

/// The bytes that go out.
pub fn bytes_of<A: Allocator>(action: &Action<A>) -> &Bytes<A>
    ensures { result.now ≡ bytes_in (action_view action.now) }
{
    match action {
        Action::Reply { bytes, .. } | Action::Send { bytes, .. } | Action::TcpAsk { bytes, .. } => {
            bytes
        }
    }
}
