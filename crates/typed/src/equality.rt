//! Equality of typed events and of typed actions. Actions are the same by their parts, and not where the same bytes are
//! written of them.
ghost use Rattle.std.specs.Prelude.{◌≡◌, ◌↔◌, IsTrue};
ghost use Rattle.typed.specs.declared.action.TypedAction.TheVariants as said;
ghost use Rattle.typed.specs.declared.event.Parsed.TheVariants as parsed;

use crate::action::{TypedAction, TypedActions};
use crate::boxed::BoxedReading;
use crate::event::Parsed;
use classify::Reading;
use events::{Ask, ClientQuery, Endpoint};
use front::{Outcome, Refusal, Request, SharedEcho, Start, same_echo};
use std::alloc::Allocator;
use wire::Via;

impl<A: Allocator> Parsed<A> {
    /// Whether both were read the same, and came at one moment.
    pub fn same(&self, other: &Parsed<A>) -> bool
        ensures { IsTrue result ↔ (self.now ≡ other.now) }
    {
        match self {
            Parsed::Client {
                moment,
                client,
                way,
                request,
            } => other.is_from_client(*moment, *client, *way, request),
            Parsed::Datagram {
                moment,
                socket,
                from,
                reading,
            } => other.is_datagram(*moment, *socket, *from, reading),
            Parsed::TcpReply {
                moment,
                number,
                reading,
            } => other.is_tcp_reply(*moment, *number, reading),
            Parsed::TcpFailed { moment, number } => {
                matches!(other, Parsed::TcpFailed { moment: now, number: ask } if now == moment && ask == number)
            }
            Parsed::Tick { moment } => {
                matches!(other, Parsed::Tick { moment: now } if now == moment)
            }
        }
    }

    // Whether this one is that request of that client, then and by that way.
    fn is_from_client(&self, now: u64, from: u64, by: Via, asked: &Request<A>) -> bool
        ensures { IsTrue result ↔ (self.now ≡ parsed.Client now from by asked.now) }
    {
        match self {
            Parsed::Client {
                moment,
                client,
                way,
                request,
            } => *moment == now && *client == from && *way == by && request.same(asked),
            _ => false,
        }
    }

    // Whether this one was read so of a datagram, then, at that socket and from that endpoint.
    fn is_datagram(&self, now: u64, at: u16, sender: Endpoint, told: &Reading<A>) -> bool
        ensures { IsTrue result ↔ (self.now ≡ parsed.Datagram now at sender told.now) }
    {
        match self {
            Parsed::Datagram {
                moment,
                socket,
                from,
                reading,
            } => *moment == now && *socket == at && *from == sender && reading.same(told),
            _ => false,
        }
    }

    // Whether this one was read so of the reply to that ask over TCP, then.
    fn is_tcp_reply(&self, now: u64, ask: u64, told: &Option<BoxedReading<A>>) -> bool
        ensures { IsTrue result ↔ (self.now ≡ parsed.TcpReply now ask told.now) }
    {
        match self {
            Parsed::TcpReply {
                moment,
                number,
                reading,
            } => *moment == now && *number == ask && same_reading(reading, told),
            _ => false,
        }
    }
}

fn same_reading<A: Allocator>(
    reading: &Option<BoxedReading<A>>,
    other: &Option<BoxedReading<A>>,
) -> bool
    ensures { IsTrue result ↔ (reading.now ≡ other.now) }
{
    match (reading, other) {
        (None, None) => true,
        (Some(reading), Some(other)) => reading.same(other),
        _ => false,
    }
}

impl<A: Allocator> TypedAction<A> {
    /// Whether both actions have the same parts.
    pub fn same(&self, other: &TypedAction<A>) -> bool
        ensures { IsTrue result ↔ (self.now ≡ other.now) }
    {
        match self {
            TypedAction::Reply {
                client_query,
                outcome,
            } => other.is_reply(client_query, outcome),
            TypedAction::Refusal {
                client,
                way,
                refusal,
                start,
                echo,
            } => other.is_refusal(*client, *way, *refusal, *start, echo),
            TypedAction::Ask { port, ask } => other.is_ask(*port, ask),
        }
    }

    // Whether this one is the reply of that outcome to that client's query.
    fn is_reply(&self, asked: &ClientQuery<A>, end: &Outcome<A>) -> bool
        ensures { IsTrue result ↔ (self.now ≡ said.Reply asked.now end.now) }
    {
        match self {
            TypedAction::Reply {
                client_query,
                outcome,
            } => client_query.same(asked) && outcome.same(end),
            _ => false,
        }
    }

    // Whether this one is that refusal, with that question, to that client by that way.
    fn is_refusal(
        &self,
        to: u64,
        by: Via,
        why: Refusal,
        opening: Start,
        question: &Option<SharedEcho<A>>,
    ) -> bool
        ensures { IsTrue result ↔ (self.now ≡ said.Refusal to by why opening question.now) }
    {
        match self {
            TypedAction::Refusal {
                client,
                way,
                refusal,
                start,
                echo,
            } => {
                *client == to
                    && *way == by
                    && *refusal == why
                    && *start == opening
                    && same_echo(echo, question)
            }
            _ => false,
        }
    }

    // Whether this one is that ask of a server at that port.
    fn is_ask(&self, at: u16, sent: &Ask<A>) -> bool
        ensures { IsTrue result ↔ (self.now ≡ said.Ask at sent.now) }
    {
        match self {
            TypedAction::Ask { port, ask } => *port == at && ask.same(sent),
            _ => false,
        }
    }
}

impl<A: Allocator> TypedActions<A> {
    /// Whether both results have the same parts.
    pub fn same(&self, other: &TypedActions<A>) -> bool
        ensures { IsTrue result ↔ (self.now ≡ other.now) }
    {
        self.more_due == other.more_due && same_first(&self.first, &other.first)
    }
}

fn same_first<A: Allocator>(first: &Option<TypedAction<A>>, other: &Option<TypedAction<A>>) -> bool
    ensures { IsTrue result ↔ (first.now ≡ other.now) }
{
    match (first, other) {
        (None, None) => true,
        (Some(action), Some(other)) => action.same(other),
        _ => false,
    }
}
