//! Messages for open queries: a query is served by one whose reading answers its open ask.
ghost use Rattle.std.specs.Prelude.{◌↔◌, IfOk, OnErr, IsTrue};
ghost use Rattle.message_grammar.specs.Messages.{Message};
ghost use Rattle.wire.specs.declared.via.Via.{Via};
ghost use Rattle.classify.specs.Read.{IsReadingOf};
ghost use Rattle.classify.specs.Views.{reading_view};
ghost use Rattle.runs.specs.States.{Event, Open};
ghost use Rattle.open_queries.specs.Lookups.{IsTheOne};
ghost use Rattle.engine.specs.ResolverStates.{state_of, IsSound};
ghost use Rattle.engine.specs.Moves.{Answers, Carries, Forgets, IsHeard, IsLost};
ghost use Rattle.engine.specs.Finds.{OfTheOne};

use crate::state::ResolverState;
use classify::Reading;
use events::Ask;
use memory::{Heap, Starved};
use std::alloc::Allocator;
use typed::TypedAction;

// Whether a message of this reading answers the ask: it has its ID, and its one question (RFC 1035, section 7.3).
fn answers<A: Allocator>(ask: &Ask<A>, reading: &Reading<A>) -> bool
    ensures { IsTrue result ↔ Answers ask.now (reading_view reading.now) }
{
    reading.id == ask.id && reading.kind.number() == ask.kind.number() && reading.name == ask.name
}

impl<A: Heap> ResolverState<A> {
    // Whether a message of this reading answers the ask of the open query of that number.
    fn is_answered(&self, number: u64, reading: &Reading<A>) -> bool
        requires { (q : Open) × IsTheOne self.now.queries number q }
        ensures { OfTheOne self.now.queries number (λ q. IsTrue result ↔ Answers q.ask (reading_view reading.now)) }
    {
        match self.queries.get(number) {
            Some(open) => answers(open.ask(), reading),
            None => unreachable!(),
        }
    }

    // Drops the open query of that number.
    pub fn forget(&mut self, number: u64)
        requires { (q : Open) × IsTheOne self.old.queries number q }
        ensures { Forgets (state_of self.old) number (state_of self.new) }
    {
        match self.queries.take_out(number) {
            Some(open) => drop(open),
            None => unreachable!(),
        }
    }

    // Serves the open query of that number by a message of this reading, where it answers the query's ask.
    pub fn hear(
        &mut self,
        number: u64,
        reading: &Reading<A>,
    ) -> Result<Option<TypedAction<A>>, Starved>
        requires sound { IsSound (state_of self.old) }
        requires there { (q : Open) × IsTheOne self.old.queries number q }
        requires read { (way : Via) × (m : Message) × IsReadingOf way m (reading_view reading.now) }
        ensures ok { (event : Event) (way : Via) (m : Message) → IsReadingOf way m (reading_view reading.now) → OfTheOne self.old.queries number (Carries self.old.port event way m) → IfOk result (λ o. IsHeard (state_of self.old) number event o (state_of self.new)) }
        ensures err { (event : Event) (way : Via) (m : Message) → IsReadingOf way m (reading_view reading.now) → OfTheOne self.old.queries number (Carries self.old.port event way m) → OnErr result (IsLost (state_of self.old) number event (state_of self.new)) }
    {
        if !self.is_answered(number, reading) {
            return Ok(None);
        }
        let server = self.server_of(number);
        Ok(Some(self.go_on_by_reply(number, server, reading)?))
    }
}
