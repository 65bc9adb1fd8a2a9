//! Datagrams from servers. The ask that one may answer is found by its socket, its sender and its ID, and only a
//! message that is accepted for that ask is used.
ghost use Rattle.std.specs.Result.{IsOkAnd};
ghost use Rattle.std.specs.Prelude.{◌≡◌, ℕ, List, Some, None, IfOk, OnErr, MatchOption};
ghost use Rattle.message_grammar.specs.Messages.{Message};
ghost use Rattle.wire.specs.declared.via.Via.TheVariants as via;
ghost use Rattle.classify.specs.Read.{IsReadingOf, IsReadFrom};
ghost use Rattle.classify.specs.Views.{reading_view};
ghost use Rattle.events.specs.Paths.{endpoint_view};
ghost use Rattle.runs.specs.States.{Datagram};
ghost use Rattle.engine.specs.ResolverStates.{state_of, IsSound};
ghost use Rattle.engine.specs.Replies.{if_any};
ghost use Rattle.engine.specs.Finds.{IsOffLine, Reaches};
ghost use Rattle.engine.specs.Turns.{Turns, IsQuiet};

use crate::state::ResolverState;
use classify::{Reading, read};
use events::{Endpoint, id_in, id_is_in_message};
use memory::{Heap, Starved};
use typed::TypedAction;
use wire::Via;

// The bytes of a message's header (RFC 1035, section 4.1.1).
const HEADER: usize = 12;

impl<A: Heap> ResolverState<A> {
    // The open query whose ask left the socket for the sender under this ID.
    fn asked_on(&self, socket: u16, from: Endpoint, id: u16) -> Option<u64>
        ensures { MatchOption result (IsOffLine (state_of self.now) socket (endpoint_view from) id) (Reaches (state_of self.now) socket (endpoint_view from) id) }
    {
        if from.port != self.port {
            return None;
        }
        self.queries.apart_law();
        self.queries.find(socket, from.address, id)
    }

    // Serves the query that a datagram of this reading is for, if it is accepted.
    pub fn read_datagram(
        &mut self,
        socket: u16,
        from: Endpoint,
        reading: &Reading<A>,
    ) -> Result<Option<TypedAction<A>>, Starved>
        requires sound { IsSound (state_of self.old) }
        requires read { (m : Message) × IsReadingOf via.Udp m (reading_view reading.now) }
        ensures ok { (now : ℕ) (bytes : List ℕ) → IsReadFrom via.Udp bytes (reading_view reading.now) → IfOk result (λ a. Turns (state_of self.old) (Datagram now socket (endpoint_view from) bytes) (Some (if_any a)) (state_of self.new)) }
        ensures err { (now : ℕ) (bytes : List ℕ) → IsReadFrom via.Udp bytes (reading_view reading.now) → OnErr result (Turns (state_of self.old) (Datagram now socket (endpoint_view from) bytes) None (state_of self.new)) }
    {
        id_is_in_message();
        match self.asked_on(socket, from, reading.id) {
            Some(number) => self.hear(number, reading),
            None => Ok(None),
        }
    }

    // Serves the query that a datagram is for, if it is accepted. Only the bytes of an open ask's reply are read.
    pub fn datagram(
        &mut self,
        socket: u16,
        from: Endpoint,
        bytes: &[u8],
    ) -> Result<Option<TypedAction<A>>, Starved>
        requires sound { IsSound (state_of self.old) }
        ensures ok { (now : ℕ) → IfOk result (λ a. Turns (state_of self.old) (Datagram now socket (endpoint_view from) bytes.now) (Some (if_any a)) (state_of self.new)) }
        ensures err { (now : ℕ) → OnErr result (Turns (state_of self.old) (Datagram now socket (endpoint_view from) bytes.now) None (state_of self.new)) }
        ensures quiet { (now : ℕ) → IsQuiet (state_of self.old) (Datagram now socket (endpoint_view from) bytes.now) → IsOkAnd result (λ o. o ≡ None) }
    {
        if bytes.len() < HEADER {
            return Ok(None);
        }
        let Some(number) = self.asked_on(socket, from, id_in(bytes)) else {
            return Ok(None);
        };
        match read(self.alloc, Via::Udp, bytes) {
            Err(starved) => {
                self.forget(number);
                Err(starved)
            }
            Ok(None) => {
                self.kind_of(number);
                Ok(None)
            }
            Ok(Some(reading)) => {
                let given = self.read_datagram(socket, from, &reading);
                drop(reading);
                given
            }
        }
    }
}
