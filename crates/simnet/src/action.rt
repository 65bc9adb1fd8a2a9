//! What the resolver of a network does.
ghost use Rattle.std.specs.Prelude.{◌≡◌, ◌↔◌, [], IfOk, IsTrue};
ghost use Rattle.simnet.specs.declared.action.SimAction.TheVariants.{Reply};

use causes::Cause;
use events::Bytes;
use memory::{Heap, Starved};
use std::alloc::{Allocator, Global};
use std::marker::Model;
use wire::Via;

/// What the resolver does. An ask stands in the network under its number; the first one has number 1.
#[derive(Drop)]
pub enum SimAction<A: Allocator = Global> {
    /// A reply to a client by its way, with the cause of a SERVFAIL.
    Reply {
        /// The number of the client, as its query came with it.
        client: u64,
        /// Over UDP or TCP, as the query came.
        way: Via,
        /// The reply as a message of RFC 1035, over TCP without the two bytes of its length.
        bytes: Bytes<A>,
        /// Why the query failed, where the reply is a SERVFAIL.
        cause: Option<Cause>,
    },
    /// A datagram went out.
    Sent {
        /// Its place among all asks of the network, counted from 1.
        number: u64,
    },
    /// An ask over TCP went out.
    Asked {
        /// Its place among all asks of the network, counted from 1.
        number: u64,
    },
}

impl<A: Allocator> SimAction<A> {
    /// Whether the actions are equal.
    pub fn same(&self, other: &SimAction<A>) -> bool
        ensures { IsTrue result ↔ (self.now ≡ other.now) }
    {
        match (self, other) {
            (
                SimAction::Reply {
                    client,
                    way,
                    bytes,
                    cause,
                },
                _,
            ) => other.is_reply(*client, *way, bytes, *cause),
            (SimAction::Sent { number }, SimAction::Sent { number: its_number }) => {
                number == its_number
            }
            (SimAction::Asked { number }, SimAction::Asked { number: its_number }) => {
                number == its_number
            }
            _ => false,
        }
    }

    // Whether this one is the reply of those bytes to that client by that way, with that cause.
    fn is_reply(&self, to: u64, by: Via, sent: &Bytes<A>, why: Option<Cause>) -> bool
        ensures { IsTrue result ↔ (self.now ≡ Reply to by sent.now why) }
    {
        match self {
            SimAction::Reply {
                client,
                way,
                bytes,
                cause,
            } => *client == to && *way == by && *cause == why && bytes.same(sent),
            _ => false,
        }
    }
}

impl<A: Heap> SimAction<A> {
    /// The same action once more.
    pub fn copied(&self) -> Result<SimAction<A>, Starved>
        ensures { IfOk result (λ a. a ≡ self.now) }
    {
        Ok(match self {
            SimAction::Reply {
                client,
                way,
                bytes,
                cause,
            } => SimAction::Reply {
                client: *client,
                way: *way,
                bytes: bytes.copied()?,
                cause: *cause,
            },
            SimAction::Sent { number } => SimAction::Sent { number: *number },
            SimAction::Asked { number } => SimAction::Asked { number: *number },
        })
    }
}

/// All that comes out of a step: one action at most, and whether another query is due.
#[derive(Drop)]
pub struct SimActions<A: Allocator = Global> {
    /// The reply or the ask, if there is one.
    pub first: Option<SimAction<A>>,
    /// Whether a query is due by now, so that another tick of the same moment serves it.
    pub more_due: bool,
}

impl<A: Allocator> Model for SimActions<A> {
    ghost use Rattle.std.specs.Prelude.{List};
    ghost use Rattle.network.specs.Networks.{NetworkAction};
    ghost use Rattle.simnet.specs.Views.{listed};

    ghost Value = { List NetworkAction };

    ghost view = { λ a. listed a.first a.more_due };
}

impl<A: Allocator> SimActions<A> {
    /// What comes out where nothing happened.
    pub fn none() -> SimActions<A>
        ensures { result ≡ [] }
    {
        SimActions {
            first: None,
            more_due: false,
        }
    }

    /// Whether the same comes out.
    pub fn same(&self, other: &SimActions<A>) -> bool
        ensures { IsTrue result ↔ (self.now ≡ other.now) }
    {
        self.more_due == other.more_due && same_first(&self.first, &other.first)
    }
}

impl<A: Heap> SimActions<A> {
    /// The same once more.
    pub fn copied(&self) -> Result<SimActions<A>, Starved>
        ensures { IfOk result (λ a. a ≡ self.now) }
    {
        let first = match &self.first {
            None => None,
            Some(action) => Some(action.copied()?),
        };
        Ok(SimActions {
            first,
            more_due: self.more_due,
        })
    }
}

fn same_first<A: Allocator>(first: &Option<SimAction<A>>, other: &Option<SimAction<A>>) -> bool
    ensures { IsTrue result ↔ (first.now ≡ other.now) }
{
    match (first, other) {
        (None, None) => true,
        (Some(action), Some(other)) => action.same(other),
        _ => false,
    }
}
