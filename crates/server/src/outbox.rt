//! What goes out, by the sockets and the channels of a server.
use crate::ends::Ends;
use counters::{AskFault, Outcome, SocketFault, Way};
use crossbeam_channel::Sender;
use dispatch::{Carrier, Reach};
use events::{Bytes, Endpoint};
use std::alloc::Global;
use std::sync::Wait;
use std::time::Clock;

/// An ask over TCP, for the loop that makes them.
#[derive(Drop)]
pub(crate) struct StreamAsk {
    pub number: u64,
    pub to: Endpoint,
    pub bytes: Bytes,
    /// When it was made: its time runs in the channel too.
    pub moment: u64,
}

/// What came of the frame of a client that came under this number.
#[derive(Drop)]
pub(crate) struct StreamReply {
    pub client: u64,
    /// The reply. None where there will be none, since the question waited in admission until it was dropped.
    pub bytes: Option<Bytes>,
}

/// Hands on what came of a frame, to the loop of clients' streams.
pub(crate) fn hand_back<R: Wait>(
    rt: &R,
    ends: &Ends,
    to_streams: &Sender<StreamReply>,
    reply: StreamReply,
) {
    if to_streams.send(rt, reply).is_err() {
        ends.count(Outcome::MemoryRefused);
    }
    ends.streams.notify();
}

/// The sockets, and the channels to the loops of streams.
#[derive(Drop)]
pub(crate) struct Outbox<'a, R> {
    pub rt: &'a R,
    pub ends: &'a Ends,
    /// At which addresses servers are asked.
    pub reach: Reach,
    pub to_streams: &'a Sender<StreamReply>,
    pub to_servers: &'a Sender<StreamAsk>,
    pub moment: u64,
}

// What can't be sent or handed on is lost, as a datagram on its way; but an ask over TCP that can't be made is told.
impl<R: Wait + Clock> Carrier<Global> for Outbox<'_, R> {
    fn to_client(&mut self, to: Endpoint, bytes: &Bytes) {
        if !self.ends.reply(to, bytes.as_slice()) {
            self.ends.count(Outcome::SocketFailed(SocketFault::Send));
        }
    }

    fn to_stream(&mut self, client: u64, bytes: &Bytes) {
        let Ok(bytes) = bytes.copied() else {
            self.ends.count(Outcome::MemoryRefused);
            return;
        };
        let reply = StreamReply {
            client,
            bytes: Some(bytes),
        };
        hand_back(self.rt, self.ends, self.to_streams, reply);
    }

    fn to_server(&mut self, socket: u16, to: Endpoint, bytes: &Bytes) {
        let ends = self.ends;
        if !self.reach.has(to.address) {
            ends.count(Outcome::AskFailed(Way::Udp, AskFault::Barred));
        } else if let Err(lost) = ends.asks.send(self.rt, self.moment, socket, to, bytes) {
            ends.count(lost);
        }
    }

    fn to_worker(&mut self, number: u64, to: Endpoint, bytes: &Bytes) -> bool {
        if !self.reach.has(to.address) {
            self.ends
                .count(Outcome::AskFailed(Way::Tcp, AskFault::Barred));
            return false;
        }
        let Ok(bytes) = bytes.copied() else {
            self.ends.count(Outcome::MemoryRefused);
            return false;
        };
        self.hand_on(StreamAsk {
            number,
            to,
            bytes,
            moment: self.moment,
        })
    }
}

impl<R: Wait + Clock> Outbox<'_, R> {
    // Hands an ask on to the loop that makes them; whether it could.
    fn hand_on(&self, ask: StreamAsk) -> bool {
        let sent = self.to_servers.send(self.rt, ask).is_ok();
        if !sent {
            self.ends.count(Outcome::MemoryRefused);
        }
        self.ends.servers.notify();
        sent
    }
}
