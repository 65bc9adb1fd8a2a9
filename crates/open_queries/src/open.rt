//! One open query: who asks, the work on it, and its ask.
ghost use Rattle.std.specs.Prelude.{◌≡◌};
ghost use Rattle.runs.specs.States.{due_moment};
ghost use Rattle.open_queries.specs.Indexes.{udp_ask, tcp_ask};

use asks::AskKey;
use events::{Ask, ClientQuery, Path};
use iterate::Job;
use std::alloc::{Allocator, Global};
use std::marker::Model;

/// A query that waits for the answer to its one open ask, until the moment `due`, in milliseconds.
#[derive(Drop)]
pub struct Open<A: Allocator = Global> {
    /// No other query has it.
    pub number: u64,
    /// To whom the reply goes, and the query that it is for.
    pub client_query: ClientQuery<A>,
    /// How far its resolution is, with its deadline and the number of asks so far.
    pub job: Job<A>,
    /// The one ask that it waits for.
    pub ask: Ask<A>,
    /// When the wait for that ask is over, in milliseconds.
    pub due: u64,
}

impl<A: Allocator> Model for Open<A> {
    ghost use Rattle.runs.specs.States.{Open as OpenSpec, open_query};

    ghost Value = { OpenSpec };

    ghost view = { λ q. open_query q.number q.client_query q.job q.ask q.due };
}

impl<A: Allocator> Open<A> {
    /// Its number.
    pub fn number(&self) -> u64
        ensures { result ≡ self.now.number }
    {
        self.number
    }

    /// Who asks, and the work on it.
    pub fn into_work(self) -> (ClientQuery<A>, Job<A>)
        ensures client_query { result.0 ≡ self.client_query }
        ensures job { result.1 ≡ self.job }
    {
        (self.client_query, self.job)
    }

    /// Its open ask.
    pub fn ask(&self) -> &Ask<A>
        ensures { result.now ≡ self.now.ask }
    {
        &self.ask
    }

    /// When its own time is up, in milliseconds.
    pub fn deadline(&self) -> u64
        ensures { result ≡ (self.now.job).deadline }
    {
        self.job.deadline()
    }

    /// When it is due: the wait for its ask is over, or its own time is up.
    pub fn due_moment(&self) -> u64
        ensures { result ≡ due_moment self.now }
    {
        self.due.min(self.job.deadline())
    }

    // Its open ask, where that went over UDP.
    pub(crate) fn udp_ask(&self) -> Option<AskKey>
        ensures { result ≡ udp_ask (self.now).ask }
    {
        match self.ask.path {
            Path::Udp(socket) => Some(AskKey {
                socket,
                server: self.ask.server,
                id: self.ask.id,
            }),
            Path::Tcp(_) => None,
        }
    }

    // The number of its open ask, where that went over TCP.
    pub(crate) fn tcp_ask(&self) -> Option<u64>
        ensures { result ≡ tcp_ask (self.now).ask }
    {
        match self.ask.path {
            Path::Udp(_) => None,
            Path::Tcp(number) => Some(number),
        }
    }
}
