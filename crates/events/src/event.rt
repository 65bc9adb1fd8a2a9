//! The events of the resolver.
ghost use Rattle.std.specs.Prelude.{◌≡◌, ◌≤◌, ◌↔◌, IfOk, IsTrue};
ghost use Rattle.runs.specs.States.{latest, moment};
ghost use Rattle.events.specs.Views.{event_view};
ghost use Rattle.events.specs.declared.event.Event.TheVariants.{Client, Datagram, TcpReply};

use crate::bytes::Bytes;
use crate::path::Endpoint;
use limits::LATEST_MOMENT;
use memory::{Heap, Starved};
use std::alloc::{Allocator, Global};
use wire::Via;

/// An event, with the moment at which it came, in milliseconds.
#[derive(Drop)]
pub enum Event<A: Allocator = Global> {
    /// Bytes from a client.
    Client {
        /// When it came, in milliseconds.
        moment: u64,
        /// The client's number, with which the reply goes out.
        client: u64,
        /// The way by which it came, and by which the reply goes.
        way: Via,
        /// Bytes that may be a query, without a length before them.
        bytes: Bytes<A>,
    },
    /// A datagram at a socket.
    Datagram {
        /// When it came, in milliseconds.
        moment: u64,
        /// The number of the socket at which it came.
        socket: u16,
        /// The address and the port that it was sent from, which may be forged.
        from: Endpoint,
        /// Bytes that may be a server's reply.
        bytes: Bytes<A>,
    },
    /// The reply to the ask over TCP of this number.
    TcpReply {
        /// When it came, in milliseconds.
        moment: u64,
        /// The number of the ask, as `Action::TcpAsk` gave it.
        number: u64,
        /// The message, without the two bytes of its length.
        bytes: Bytes<A>,
    },
    /// The ask over TCP of this number failed.
    TcpFailed {
        /// When it failed, in milliseconds.
        moment: u64,
        /// The number of the ask, as `Action::TcpAsk` gave it.
        number: u64,
    },
    /// The clock's moment.
    Tick {
        /// The moment, in milliseconds.
        moment: u64,
    },
}

impl<A: Allocator> Event<A> {
    /// When it came, `LATEST_MOMENT` at most.
    pub fn moment(&self) -> u64
        ensures is { result ≡ moment (event_view self.now) }
        ensures most { result ≤ latest }
    {
        match self {
            Event::Client { moment, .. }
            | Event::Datagram { moment, .. }
            | Event::TcpReply { moment, .. }
            | Event::TcpFailed { moment, .. }
            | Event::Tick { moment } => (*moment).min(LATEST_MOMENT),
        }
    }
}

impl<A: Allocator> Event<A> {
    /// Whether the events are equal.
    pub fn same(&self, other: &Event<A>) -> bool
        ensures { IsTrue result ↔ (self.now ≡ other.now) }
    {
        match self {
            Event::Client {
                moment,
                client,
                way,
                bytes,
            } => other.is_from_client(*moment, *client, *way, bytes),
            Event::Datagram {
                moment,
                socket,
                from,
                bytes,
            } => other.is_datagram(*moment, *socket, *from, bytes),
            Event::TcpReply {
                moment,
                number,
                bytes,
            } => other.is_tcp_reply(*moment, *number, bytes),
            Event::TcpFailed { moment, number } => {
                matches!(other, Event::TcpFailed { moment: now, number: ask } if now == moment && ask == number)
            }
            Event::Tick { moment } => matches!(other, Event::Tick { moment: now } if now == moment),
        }
    }

    // Whether this one brings those bytes from that client, then and by that way.
    fn is_from_client(&self, now: u64, from: u64, by: Via, sent: &Bytes<A>) -> bool
        ensures { IsTrue result ↔ (self.now ≡ Client now from by sent.now) }
    {
        match self {
            Event::Client {
                moment,
                client,
                way,
                bytes,
            } => *moment == now && *client == from && *way == by && bytes.same(sent),
            _ => false,
        }
    }

    // Whether this one brings those bytes in a datagram, then, at that socket and from that endpoint.
    fn is_datagram(&self, now: u64, at: u16, sender: Endpoint, sent: &Bytes<A>) -> bool
        ensures { IsTrue result ↔ (self.now ≡ Datagram now at sender sent.now) }
    {
        match self {
            Event::Datagram {
                moment,
                socket,
                from,
                bytes,
            } => *moment == now && *socket == at && *from == sender && bytes.same(sent),
            _ => false,
        }
    }

    // Whether this one brings those bytes as the reply to that ask over TCP, then.
    fn is_tcp_reply(&self, now: u64, ask: u64, sent: &Bytes<A>) -> bool
        ensures { IsTrue result ↔ (self.now ≡ TcpReply now ask sent.now) }
    {
        match self {
            Event::TcpReply {
                moment,
                number,
                bytes,
            } => *moment == now && *number == ask && bytes.same(sent),
            _ => false,
        }
    }
}

impl<A: Heap> Event<A> {
    /// The same event, copied; its bytes are on the memory of the old ones.
    pub fn copied(&self) -> Result<Event<A>, Starved>
        ensures { IfOk result (λ e. e ≡ self.now) }
    {
        Ok(match *self {
            Event::Client {
                moment,
                client,
                way,
                ref bytes,
            } => Event::Client {
                moment,
                client,
                way,
                bytes: bytes.copied()?,
            },
            Event::Datagram {
                moment,
                socket,
                from,
                ref bytes,
            } => Event::Datagram {
                moment,
                socket,
                from,
                bytes: bytes.copied()?,
            },
            Event::TcpReply {
                moment,
                number,
                ref bytes,
            } => Event::TcpReply {
                moment,
                number,
                bytes: bytes.copied()?,
            },
            Event::TcpFailed { moment, number } => Event::TcpFailed { moment, number },
            Event::Tick { moment } => Event::Tick { moment },
        })
    }
}
