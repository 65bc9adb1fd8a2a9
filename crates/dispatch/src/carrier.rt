//! What goes out, handed over to what carries it.
ghost use Rattle.std.specs.Prelude.{MatchOption};
ghost use Rattle.dispatch.specs.Parcels.{Adds, IsTcpAskRefused, parcel_of};

use crate::destinations::{Destination, bytes_of, destination_of};
use events::{Action, Bytes, Endpoint};
use std::alloc::Allocator;

/// Carries what goes out: sockets and channels, or a list in a test.
pub trait Carrier<A: Allocator> {
    ghost use Rattle.std.specs.Prelude.{◌≡◌, List, Option, None};
    ghost use Rattle.std.specs.Bool.{MatchBool};
    ghost use Rattle.dispatch.specs.Parcels.{Parcel, Adds, parcel};
    ghost use Rattle.dispatch.specs.declared.destinations.Destination.TheVariants.{Client, Stream, Server, Worker};

    // What was handed over, in its order, where that is known.
    ghost carried: { Self → Option (List Parcel) } = { λ _. None };

    /// To the client at this address, in a datagram.
    fn to_client(&mut self, to: Endpoint, bytes: &Bytes<A>)
        ensures { Adds (carried self.old) (parcel (Client to) bytes.now) (carried self.new) };

    /// To the client whose frame came under this number, on its stream.
    fn to_stream(&mut self, client: u64, bytes: &Bytes<A>)
        ensures { Adds (carried self.old) (parcel (Stream client) bytes.now) (carried self.new) };

    /// To this server, in a datagram, as an ask under this socket number.
    fn to_server(&mut self, socket: u16, to: Endpoint, bytes: &Bytes<A>)
        ensures { Adds (carried self.old) (parcel (Server socket to) bytes.now) (carried self.new) };

    /// To this server over TCP, of which is told under this number: whether it can be asked so.
    fn to_worker(&mut self, number: u64, to: Endpoint, bytes: &Bytes<A>) -> bool
        ensures { MatchBool result (Adds (carried self.old) (parcel (Worker number to) bytes.now) (carried self.new)) (carried self.new ≡ carried self.old) };
}

/// Hands an action over, to where it goes. Gives the number of an ask over TCP that can't be made.
pub fn hand_over<A: Allocator, C: Carrier<A>>(carrier: &mut C, action: &Action<A>) -> Option<u64>
    ensures { MatchOption result (Adds (C.carried carrier.old) (parcel_of action.now) (C.carried carrier.new)) (λ number. IsTcpAskRefused action.now number (C.carried carrier.old) (C.carried carrier.new)) }
{
    let bytes = bytes_of(action);
    match destination_of(action) {
        Destination::Client(to) => carrier.to_client(to, bytes),
        Destination::Stream(client) => carrier.to_stream(client, bytes),
        Destination::Server(socket, to) => carrier.to_server(socket, to, bytes),
        Destination::Worker(number, to) => {
            if !carrier.to_worker(number, to, bytes) {
                return Some(number);
            }
        }
    }
    None
}
