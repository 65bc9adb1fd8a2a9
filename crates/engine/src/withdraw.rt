//! What a step gives, written. An ask that could not be written is taken back: out of memory a step drops its query,
//! and gives its numbers again.
ghost use Rattle.std.specs.Prelude.{◌≡◌, Some, None, IfOk, IsOk, OnErr, MatchOption, Contains};
ghost use Rattle.message_grammar.specs.Messages.{encoding};
ghost use Rattle.runs.specs.States.{Open};
ghost use Rattle.runs.specs.Messages.{id_in, asking_message};
ghost use Rattle.events.specs.Views.{event_view};
ghost use Rattle.typed.specs.Views.{said_listed};
ghost use Rattle.engine.specs.ResolverStates.{state_of, IsSound};
ghost use Rattle.engine.specs.Moves.{IsLike, DropsAsking, IsAskUndone, IsUndone};
ghost use Rattle.engine.specs.Finds.{Finds};
ghost use Rattle.engine.specs.Turns.{Turns, IsQuiet};

use crate::state::ResolverState;
use events::{Actions, Ask, Event, Path, ask_is_message, id_is_in_message};
use memory::{Heap, Starved};
use typed::{TypedAction, TypedActions, write_action};
use wire::Writer;

// The ID of an ask is in the first bytes of its encoding.
fn id_law<A: Heap>(ask: &Ask<A>)
    ensures { id_in (encoding (asking_message ask.now)) ≡ ask.now.id }
{
    ask_is_message(ask);
    id_is_in_message();
}

impl<A: Heap> ResolverState<A> {
    // The number of the query whose ask this is.
    fn asking(&self, ask: &Ask<A>) -> Option<u64>
        ensures { MatchOption result ((q : Open) → Contains self.now.queries q → IsLike ask.now q → ⊥) (λ k. Finds (IsLike ask.now) self.now.queries k) }
    {
        self.queries.apart_law();
        match ask.path {
            Path::Udp(socket) => self.queries.find(socket, ask.server, ask.id),
            Path::Tcp(number) => self.queries.find_tcp(number),
        }
    }

    // Drops the query whose ask this is.
    fn drop_asking(&mut self, ask: &Ask<A>)
        ensures { DropsAsking ask.now (state_of self.old) (state_of self.new) }
    {
        if let Some(number) = self.asking(ask) {
            self.forget(number);
        }
    }

    // Takes back an ask that could not be written, at a moment when so many queries had been opened, and so many asks
    // had gone over TCP.
    fn take_back(&mut self, ask: &Ask<A>, opened: u64, tcp_asks: u64)
        ensures { IsAskUndone ask.now opened tcp_asks (state_of self.old) (state_of self.new) }
    {
        id_law(ask);
        self.drop_asking(ask);
        self.opened = opened;
        self.tcp_asks = tcp_asks;
    }

    // Takes back what was done for an action that could not be written: for a reply nothing.
    fn withdraw(&mut self, action: &TypedAction<A>, opened: u64, tcp_asks: u64)
        ensures { IsUndone action.now opened tcp_asks (state_of self.old) (state_of self.new) }
    {
        match action {
            TypedAction::Ask { ask, .. } => self.take_back(ask, opened, tcp_asks),
            TypedAction::Reply { .. } | TypedAction::Refusal { .. } => {}
        }
    }

    // Writes what a step gives, and takes it back where it cannot be written.
    fn write_out(
        &mut self,
        writer: &mut Writer<A>,
        said: TypedActions<A>,
        opened: u64,
        tcp_asks: u64,
    ) -> Result<Actions<A>, Starved>
        ensures ok { IfOk result (λ a. (a ≡ said_listed said.first said.more_due) × (state_of self.new ≡ state_of self.old)) }
        ensures err { OnErr result (MatchOption said.first ⊥ (λ a. IsUndone a opened tcp_asks (state_of self.old) (state_of self.new))) }
    {
        let TypedActions { first, more_due } = said;
        let Some(action) = first else {
            return Ok(Actions {
                first: None,
                more_due,
            });
        };
        match write_action(self.alloc, writer, &action) {
            Ok(written) => {
                drop(action);
                Ok(Actions {
                    first: Some(written),
                    more_due,
                })
            }
            Err(starved) => {
                self.withdraw(&action, opened, tcp_asks);
                drop(action);
                Err(starved)
            }
        }
    }

    // Serves the query that an event is for, and writes what goes out.
    pub fn serve(&mut self, writer: &mut Writer<A>, event: &Event<A>) -> Result<Actions<A>, Starved>
        requires sound { IsSound (state_of self.old) }
        ensures ok { IfOk result (λ a. Turns (state_of self.old) (event_view event.now) (Some a) (state_of self.new)) }
        ensures err { OnErr result (Turns (state_of self.old) (event_view event.now) None (state_of self.new)) }
        ensures quiet { IsQuiet (state_of self.old) (event_view event.now) → IsOk result }
    {
        id_is_in_message();
        let (opened, tcp_asks) = (self.opened, self.tcp_asks);
        let said = self.handle_event(event)?;
        self.write_out(writer, said, opened, tcp_asks)
    }
}
