//! The actions of the resolver.
ghost use Rattle.std.specs.Prelude.{◌≡◌, ◌↔◌, IfOk, IsTrue};
ghost use Rattle.events.specs.declared.action.Action.TheVariants.{Reply};

use crate::bytes::Bytes;
use crate::path::Endpoint;
use causes::Cause;
use memory::{Heap, Starved};
use std::alloc::{Allocator, Global};
use std::marker::Model;
use wire::Via;

/// An action: a reply or an ask that goes out.
#[derive(Drop)]
pub enum Action<A: Allocator = Global> {
    /// A reply to a client by its way, with the cause of a SERVFAIL.
    Reply {
        /// The client's number, as its query came with it.
        client: u64,
        /// The way by which the query came.
        way: Via,
        /// The message; over TCP without the two bytes of its length.
        bytes: Bytes<A>,
        /// Why the reply is a SERVFAIL, where it is one.
        cause: Option<Cause>,
    },
    /// A datagram from a socket to a server.
    Send {
        /// The number of the socket, below `Settings::sockets` of the engine.
        socket: u16,
        /// The server that is asked.
        to: Endpoint,
        /// The query: one question, RD clear.
        bytes: Bytes<A>,
    },
    /// An ask over TCP, under its number.
    TcpAsk {
        /// The ask's number, which its reply or its failure comes with; none is used twice.
        number: u64,
        /// The server to connect to.
        to: Endpoint,
        /// The query, without the two bytes of its length (RFC 1035, section 4.2.2).
        bytes: Bytes<A>,
    },
}

impl<A: Allocator> Action<A> {
    /// Whether the actions are equal.
    pub fn same(&self, other: &Action<A>) -> bool
        ensures { IsTrue result ↔ (self.now ≡ other.now) }
    {
        match (self, other) {
            (
                Action::Reply {
                    client,
                    way,
                    bytes,
                    cause,
                },
                _,
            ) => other.is_reply(*client, *way, bytes, *cause),
            (
                Action::Send { socket, to, bytes },
                Action::Send {
                    socket: its_socket,
                    to: its_to,
                    bytes: its_bytes,
                },
            ) => socket == its_socket && to == its_to && bytes.same(its_bytes),
            (
                Action::TcpAsk { number, to, bytes },
                Action::TcpAsk {
                    number: its_number,
                    to: its_to,
                    bytes: its_bytes,
                },
            ) => number == its_number && to == its_to && bytes.same(its_bytes),
            _ => false,
        }
    }

    // Whether this one is the reply of those bytes to that client by that way, with that cause.
    fn is_reply(&self, to: u64, by: Via, sent: &Bytes<A>, why: Option<Cause>) -> bool
        ensures { IsTrue result ↔ (self.now ≡ Reply to by sent.now why) }
    {
        match self {
            Action::Reply {
                client,
                way,
                bytes,
                cause,
            } => *client == to && *way == by && *cause == why && bytes.same(sent),
            _ => false,
        }
    }
}

impl<A: Heap> Action<A> {
    /// The same action, copied.
    pub fn copied(&self) -> Result<Action<A>, Starved>
        ensures { IfOk result (λ a. a ≡ self.now) }
    {
        Ok(match self {
            Action::Reply {
                client,
                way,
                bytes,
                cause,
            } => Action::Reply {
                client: *client,
                way: *way,
                bytes: bytes.copied()?,
                cause: *cause,
            },
            Action::Send { socket, to, bytes } => Action::Send {
                socket: *socket,
                to: *to,
                bytes: bytes.copied()?,
            },
            Action::TcpAsk { number, to, bytes } => Action::TcpAsk {
                number: *number,
                to: *to,
                bytes: bytes.copied()?,
            },
        })
    }
}

/// The result of a step: one action at most, and whether another query is due.
#[derive(Drop)]
pub struct Actions<A: Allocator = Global> {
    /// The reply or the ask, if the step gives one.
    pub first: Option<Action<A>>,
    /// After a tick: another query is due too, so that a further tick has to follow at once.
    pub more_due: bool,
}

impl<A: Allocator> Model for Actions<A> {
    ghost use Rattle.std.specs.Prelude.{List};
    ghost use Rattle.runs.specs.States.{Action};
    ghost use Rattle.events.specs.Views.{listed};

    ghost Value = { List Action };

    ghost view = { λ a. listed a.first a.more_due };
}

impl<A: Allocator> Actions<A> {
    /// Whether both results are equal.
    pub fn same(&self, other: &Actions<A>) -> bool
        ensures { IsTrue result ↔ (self.now ≡ other.now) }
    {
        self.more_due == other.more_due && same_first(&self.first, &other.first)
    }
}

impl<A: Heap> Actions<A> {
    /// The same result, copied.
    pub fn copied(&self) -> Result<Actions<A>, Starved>
        ensures { IfOk result (λ a. a ≡ self.now) }
    {
        let first = match &self.first {
            None => None,
            Some(action) => Some(action.copied()?),
        };
        Ok(Actions {
            first,
            more_due: self.more_due,
        })
    }
}

fn same_first<A: Allocator>(first: &Option<Action<A>>, other: &Option<Action<A>>) -> bool
    ensures { IsTrue result ↔ (first.now ≡ other.now) }
{
    match (first, other) {
        (None, None) => true,
        (Some(action), Some(other)) => action.same(other),
        _ => false,
    }
}
