//! Events whose bytes were read.
ghost use Rattle.std.specs.Prelude.{◌≡◌, ◌≤◌, ◌↔◌, IfOk, MatchOption, IsTrue};
ghost use Rattle.runs.specs.States.{Event as EventSpec, Datagram, latest, moment};
ghost use Rattle.events.specs.Paths.{endpoint_view};
ghost use Rattle.events.specs.Views.{event_view};
ghost use Rattle.typed.specs.Events.{ReadAs, HasBytes, RepliesToNone};
ghost use Rattle.typed.specs.Views.{parsed_view};

use crate::boxed::{BoxedReading, boxed_reading};
use classify::read;
use events::{Endpoint, Event, read_asked};
use front::Request;
use limits::LATEST_MOMENT;
use memory::{Heap, Starved};
use std::alloc::{Allocator, Global};
use std::marker::Model;
use wire::Via;

/// An event as it was read: what its bytes say stands in place of them.
#[derive(Drop)]
pub enum Parsed<A: Allocator = Global> {
    /// A client's request.
    Client {
        /// When it came, in milliseconds.
        moment: u64,
        /// The client's number, with which the reply goes out.
        client: u64,
        /// The way by which it came, and by which the reply goes.
        way: Via,
        /// What its bytes ask for.
        request: Request<A>,
    },
    /// A datagram at a socket.
    Datagram {
        /// When it came, in milliseconds.
        moment: u64,
        /// The number of the socket at which it came.
        socket: u16,
        /// The address and the port that it was sent from, which may be forged.
        from: Endpoint,
        /// What was read of its message.
        reading: BoxedReading<A>,
    },
    /// The reply to the ask over TCP of this number.
    TcpReply {
        /// When it came, in milliseconds.
        moment: u64,
        /// The number of the ask, as `events::Action::TcpAsk` gave it.
        number: u64,
        /// What was read of its message; none where it replies to no ask.
        reading: Option<BoxedReading<A>>,
    },
    /// The ask over TCP of this number failed.
    TcpFailed {
        /// When it failed, in milliseconds.
        moment: u64,
        /// The number of the ask, as `events::Action::TcpAsk` gave it.
        number: u64,
    },
    /// The clock's moment.
    Tick {
        /// The moment, in milliseconds.
        moment: u64,
    },
}

/// An event whose bytes were read: `read_event` alone makes one, and `copied` another of it. Contracts see what was
/// read.
#[derive(Drop)]
pub struct TypedEvent<A: Allocator = Global> {
    parsed: Parsed<A>,
}

impl<A: Allocator> Model for TypedEvent<A> {
    ghost use Rattle.typed.specs.Events.{Parsed, HasBytes};
    ghost use Rattle.typed.specs.Views.{parsed_view};

    ghost Value = { Parsed };

    ghost view = { λ e. parsed_view e.parsed };

    ghost invariant = { λ e. HasBytes (parsed_view e.parsed) };
}

impl<A: Allocator> TypedEvent<A> {
    /// What was read.
    pub fn parsed(&self) -> &Parsed<A>
        ensures is { parsed_view result.now ≡ self.now }
        ensures bytes { HasBytes self.now }
    {
        &self.parsed
    }

    /// When it came, `LATEST_MOMENT` at most.
    pub fn moment(&self) -> u64
        ensures is { (e : EventSpec) → ReadAs e self.now → result ≡ moment e }
        ensures most { result ≤ latest }
    {
        moment_of(&self.parsed)
    }

    /// Whether both were read the same, and came at one moment.
    pub fn same(&self, other: &TypedEvent<A>) -> bool
        ensures { IsTrue result ↔ (self.now ≡ other.now) }
    {
        self.parsed.same(&other.parsed)
    }
}

impl<A: Heap> TypedEvent<A> {
    /// The same event, copied on the memory of the old one.
    pub fn copied(&self) -> Result<TypedEvent<A>, Starved>
        ensures { IfOk result (λ e. e ≡ self.now) }
    {
        let parsed = self.parsed.copied()?;
        Ok(TypedEvent { parsed })
    }
}

fn moment_of<A: Allocator>(parsed: &Parsed<A>) -> u64
    ensures is { (e : EventSpec) → ReadAs e (parsed_view parsed.now) → result ≡ moment e }
    ensures most { result ≤ latest }
{
    match parsed {
        Parsed::Client { moment, .. }
        | Parsed::Datagram { moment, .. }
        | Parsed::TcpReply { moment, .. }
        | Parsed::TcpFailed { moment, .. }
        | Parsed::Tick { moment } => (*moment).min(LATEST_MOMENT),
    }
}

/// An event whose bytes are read, before the resolver is locked. A server's message is read whole, whichever ask it
/// replies to. None for a datagram that replies to no question of a served type: it is for no query.
pub fn read_event<A: Heap>(alloc: A, event: &Event<A>) -> Result<Option<TypedEvent<A>>, Starved>
    ensures { IfOk result (λ o. MatchOption o (RepliesToNone (event_view event.now)) (λ t. ReadAs (event_view event.now) t)) }
{
    match parse(alloc, event)? {
        Some(parsed) => Ok(Some(TypedEvent { parsed })),
        None => Ok(None),
    }
}

fn parse<A: Heap>(alloc: A, event: &Event<A>) -> Result<Option<Parsed<A>>, Starved>
    ensures { IfOk result (λ o. MatchOption o (RepliesToNone (event_view event.now)) (λ p. ReadAs (event_view event.now) (parsed_view p))) }
{
    Ok(Some(match *event {
        Event::Client {
            moment,
            client,
            way,
            ref bytes,
        } => Parsed::Client {
            moment,
            client,
            way,
            request: read_asked(alloc, bytes.as_slice())?,
        },
        Event::Datagram {
            moment,
            socket,
            from,
            ref bytes,
        } => return parse_datagram(alloc, moment, socket, from, bytes.as_slice()),
        Event::TcpReply {
            moment,
            number,
            ref bytes,
        } => Parsed::TcpReply {
            moment,
            number,
            reading: boxed_reading(alloc, read(alloc, Via::Tcp, bytes.as_slice())?)?,
        },
        Event::TcpFailed { moment, number } => Parsed::TcpFailed { moment, number },
        Event::Tick { moment } => Parsed::Tick { moment },
    }))
}

// None where it replies to no question of a served type.
fn parse_datagram<A: Heap>(
    alloc: A,
    moment: u64,
    socket: u16,
    from: Endpoint,
    bytes: &[u8],
) -> Result<Option<Parsed<A>>, Starved>
    ensures { IfOk result (λ o. MatchOption o (RepliesToNone (Datagram moment socket (endpoint_view from) bytes.now)) (λ p. ReadAs (Datagram moment socket (endpoint_view from) bytes.now) (parsed_view p))) }
{
    match read(alloc, Via::Udp, bytes)? {
        None => Ok(None),
        Some(reading) => Ok(Some(Parsed::Datagram {
            moment,
            socket,
            from,
            reading: BoxedReading::new(alloc, reading)?,
        })),
    }
}
