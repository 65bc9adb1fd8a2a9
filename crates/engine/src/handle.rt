//! Treatment of an event: the clock goes on to its moment, never back, and then the part for the event's kind is
//! called.
ghost use Rattle.std.specs.Result.{IsErr, IsOkAnd, MatchResult};
ghost use Rattle.std.specs.Prelude.{◌≡◌, max, Some, None, IfOk, OnErr};
ghost use Rattle.events.specs.Views.{event_view};
ghost use Rattle.runs.specs.States.{Event as EventSpec};
ghost use Rattle.typed.specs.Events.{ReadAs, HasBytes};
ghost use Rattle.typed.specs.Views.{parsed_view, said_listed};
ghost use Rattle.engine.specs.ResolverStates.{state_of, IsSound};
ghost use Rattle.engine.specs.Replies.{if_any};
ghost use Rattle.engine.specs.Turns.{Turns, IsQuiet};

use crate::state::ResolverState;
use events::Event;
use memory::{Heap, Starved};
use std::alloc::Allocator;
use typed::{Parsed, TypedAction, TypedActions, lent_reading};

// One action at most, without word that another query is due.
fn alone<A: Allocator>(
    first: Result<Option<TypedAction<A>>, Starved>,
) -> Result<TypedActions<A>, Starved>
    ensures { MatchResult first (λ o. IsOkAnd result (λ a. (a.first ≡ o) × (said_listed a.first a.more_due ≡ if_any o))) (λ _. IsErr result) }
{
    Ok(TypedActions {
        first: first?,
        more_due: false,
    })
}

impl<A: Heap> ResolverState<A> {
    // Sets the clock to the moment, unless it is past that already.
    pub fn advance_clock(&mut self, moment: u64)
        ensures { state_of self.new ≡ record (state_of self.old) { clock = max self.old.clock moment } }
    {
        self.clock = self.clock.max(moment);
    }

    // Serves the query that an event is for.
    pub fn handle_event(&mut self, event: &Event<A>) -> Result<TypedActions<A>, Starved>
        requires sound { IsSound (state_of self.old) }
        ensures ok { IfOk result (λ a. Turns (state_of self.old) (event_view event.now) (Some (said_listed a.first a.more_due)) (state_of self.new)) }
        ensures err { OnErr result (Turns (state_of self.old) (event_view event.now) None (state_of self.new)) }
        ensures quiet { IsQuiet (state_of self.old) (event_view event.now) → IsOkAnd result (λ a. a.first ≡ None) }
    {
        match event {
            Event::Client {
                client,
                way,
                bytes,
                ..
            } => alone(self.client(*client, *way, bytes.as_slice())),
            Event::Datagram {
                socket,
                from,
                bytes,
                ..
            } => alone(self.datagram(*socket, *from, bytes.as_slice())),
            Event::TcpReply { number, bytes, .. } => alone(self.tcp_reply(
                *number,
                bytes.as_slice(),
            )),
            Event::TcpFailed { number, .. } => alone(self.tcp_failed(*number)),
            Event::Tick { .. } => self.tick(),
        }
    }

    // Serves the query that an event is for whose bytes were read.
    pub fn handle_parsed(&mut self, event: &Parsed<A>) -> Result<TypedActions<A>, Starved>
        requires sound { IsSound (state_of self.old) }
        requires bytes { HasBytes (parsed_view event.now) }
        ensures ok { (e : EventSpec) → ReadAs e (parsed_view event.now) → IfOk result (λ a. Turns (state_of self.old) e (Some (said_listed a.first a.more_due)) (state_of self.new)) }
        ensures err { (e : EventSpec) → ReadAs e (parsed_view event.now) → OnErr result (Turns (state_of self.old) e None (state_of self.new)) }
    {
        match event {
            Parsed::Client {
                client,
                way,
                request,
                ..
            } => alone(self.read_client(*client, *way, request)),
            Parsed::Datagram {
                socket,
                from,
                reading,
                ..
            } => alone(self.read_datagram(*socket, *from, reading)),
            Parsed::TcpReply {
                number,
                reading,
                ..
            } => alone(self.read_reply(*number, lent_reading(reading))),
            Parsed::TcpFailed { number, .. } => alone(self.tcp_failed(*number)),
            Parsed::Tick { .. } => self.tick(),
        }
    }
}
