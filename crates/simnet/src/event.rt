//! What happens in a network.
ghost use Rattle.std.specs.Prelude.{◌≡◌, ◌↔◌, IfOk, IsTrue};
ghost use Rattle.simnet.specs.declared.event.SimEvent.TheVariants.{Client};

use events::Bytes;
use memory::{Heap, Starved};
use std::alloc::{Allocator, Global};
use wire::Via;

/// What happens, and its moment in milliseconds.
#[derive(Drop)]
pub enum SimEvent<A: Allocator = Global> {
    /// Bytes from a client.
    Client {
        /// In milliseconds of the network's clock.
        moment: u64,
        /// The number of the client, which its reply is told with.
        client: u64,
        /// Over UDP or TCP; the reply goes the same way.
        way: Via,
        /// What came: over TCP without the two bytes of the length.
        bytes: Bytes<A>,
    },
    /// The server's reply to the ask over UDP of this number comes; one of more than 512 bytes comes truncated.
    Carry {
        /// In milliseconds of the network's clock.
        moment: u64,
        /// The place of the ask among all asks of the network, counted from 1.
        number: u64,
    },
    /// It comes truncated, whatever its length.
    CarryTruncated {
        /// In milliseconds of the network's clock.
        moment: u64,
        /// The place of the ask among all asks of the network, counted from 1.
        number: u64,
    },
    /// The server's reply to the ask over TCP of this number comes.
    CarryTcp {
        /// In milliseconds of the network's clock.
        moment: u64,
        /// The place of the ask among all asks of the network, counted from 1.
        number: u64,
    },
    /// The ask of this number is lost: over TCP that is its failure, over UDP nothing happens.
    Lose {
        /// In milliseconds of the network's clock.
        moment: u64,
        /// The place of the ask among all asks of the network, counted from 1.
        number: u64,
    },
    /// Time passes.
    Tick {
        /// In milliseconds of the network's clock.
        moment: u64,
    },
}

impl<A: Allocator> SimEvent<A> {
    /// Whether the events are equal.
    pub fn same(&self, other: &SimEvent<A>) -> bool
        ensures { IsTrue result ↔ (self.now ≡ other.now) }
    {
        match self {
            SimEvent::Client {
                moment,
                client,
                way,
                bytes,
            } => other.is_from_client(*moment, *client, *way, bytes),
            SimEvent::Carry { moment, number } => {
                matches!(other, SimEvent::Carry { moment: now, number: ask } if now == moment && ask == number)
            }
            SimEvent::CarryTruncated { moment, number } => {
                matches!(other, SimEvent::CarryTruncated { moment: now, number: ask } if now == moment && ask == number)
            }
            SimEvent::CarryTcp { moment, number } => {
                matches!(other, SimEvent::CarryTcp { moment: now, number: ask } if now == moment && ask == number)
            }
            SimEvent::Lose { moment, number } => {
                matches!(other, SimEvent::Lose { moment: now, number: ask } if now == moment && ask == number)
            }
            SimEvent::Tick { moment } =>
                matches!(other, SimEvent::Tick { moment: now } if now == moment),
        }
    }

    // Whether this one brings those bytes from that client, then and by that way.
    fn is_from_client(&self, now: u64, from: u64, by: Via, sent: &Bytes<A>) -> bool
        ensures { IsTrue result ↔ (self.now ≡ Client now from by sent.now) }
    {
        match self {
            SimEvent::Client {
                moment,
                client,
                way,
                bytes,
            } => *moment == now && *client == from && *way == by && bytes.same(sent),
            _ => false,
        }
    }
}

impl<A: Heap> SimEvent<A> {
    /// The same event once more.
    pub fn copied(&self) -> Result<SimEvent<A>, Starved>
        ensures { IfOk result (λ e. e ≡ self.now) }
    {
        Ok(match *self {
            SimEvent::Client {
                moment,
                client,
                way,
                ref bytes,
            } => SimEvent::Client {
                moment,
                client,
                way,
                bytes: bytes.copied()?,
            },
            SimEvent::Carry { moment, number } => SimEvent::Carry { moment, number },
            SimEvent::CarryTruncated { moment, number } => SimEvent::CarryTruncated {
                moment,
                number,
            },
            SimEvent::CarryTcp { moment, number } => SimEvent::CarryTcp { moment, number },
            SimEvent::Lose { moment, number } => SimEvent::Lose { moment, number },
            SimEvent::Tick { moment } => SimEvent::Tick { moment },
        })
    }
}
