//! Clients' queries, as they come in datagrams and on streams.
ghost use Rattle.std.specs.Prelude.{◌≡◌};
ghost use Rattle.runs.specs.States.{Client};
ghost use Rattle.events.specs.Views.{event_view};
ghost use Rattle.server.specs.Askers.{admission_client, asker_in};
ghost use Rattle.server.specs.Tallies.{counted_as};

use counters::Way;
use dispatch::stream_client;
use events::{Action, Bytes, Event};
use wire::Via;

/// Who asks: a client's number, and the way by which its reply goes.
#[derive(Clone, Copy, PartialEq, Eq)]
pub(crate) struct Asker {
    /// Of a datagram its sender's number, of a frame its stream's.
    pub client: u64,
    pub way: Via,
}

impl Asker {
    /// The client's number in admission, where all that one address asks counts together.
    pub fn admission_client(self) -> u64
        ensures { result ≡ admission_client self.way self.client }
    {
        match self.way {
            Via::Udp => self.client,
            Via::Tcp => stream_client(self.client),
        }
    }

    /// The way, as it is counted.
    pub fn counted_way(self) -> Way
        ensures { result ≡ counted_as self.way }
    {
        match self.way {
            Via::Udp => Way::Udp,
            Via::Tcp => Way::Tcp,
        }
    }
}

/// Whom an action replies to. None where it asks a server.
pub(crate) fn asker_of(action: &Action) -> Option<Asker>
    ensures { result ≡ asker_in action.now }
{
    match action {
        Action::Reply { client, way, .. } => Some(Asker {
            client: *client,
            way: *way,
        }),
        Action::Send { .. } | Action::TcpAsk { .. } => None,
    }
}

/// A client's message, and who sent it.
#[derive(Drop)]
pub(crate) struct Query {
    pub asker: Asker,
    pub bytes: Bytes,
}

impl Query {
    /// It comes at this moment.
    pub fn into_event(self, moment: u64) -> Event
        ensures { event_view result ≡ Client moment self.asker.client self.asker.way self.bytes }
    {
        Event::Client {
            moment,
            client: self.asker.client,
            way: self.asker.way,
            bytes: self.bytes,
        }
    }
}
