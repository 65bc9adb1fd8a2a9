//! A tick: the query that is due first is served.
ghost use Rattle.std.specs.Result.{IsOkAnd};
ghost use Rattle.std.specs.Prelude.{◌≡◌, ℕ, Some, None, IfOk, OnErr, MatchOption};
ghost use Rattle.std.specs.Bool.{MatchBool};
ghost use Rattle.runs.specs.States.{Tick, Open};
ghost use Rattle.runs.specs.Steps.{IsFirstDue};
ghost use Rattle.open_queries.specs.Lookups.{IsTheOne};
ghost use Rattle.engine.specs.ResolverStates.{state_of, IsSound};
ghost use Rattle.typed.specs.Views.{said_listed};
ghost use Rattle.engine.specs.Replies.{alone};
ghost use Rattle.engine.specs.Finds.{Finds, NoneDue, IsLateOne, IsEarlyOne, Expires, Rings, Unrung};
ghost use Rattle.engine.specs.Turns.{Turns, IsQuiet};

use crate::state::ResolverState;
use causes::Cause;
use iterate::Input;
use memory::{Heap, Starved};
use typed::{TypedAction, TypedActions};

impl<A: Heap> ResolverState<A> {
    // The number of the query that is due first, where one is due.
    fn first_due(&self) -> Option<u64>
        ensures { MatchOption result (NoneDue (state_of self.now)) (λ k. Finds (IsFirstDue (state_of self.now)) self.now.queries k) }
    {
        self.queries.apart_law();
        match self.queries.earliest() {
            Some((due, number)) if due <= self.clock => Some(number),
            _ => None,
        }
    }

    // Whether the time of the open query of that number is up.
    fn is_late(&self, number: u64) -> bool
        requires { (q : Open) × IsTheOne self.now.queries number q }
        ensures { MatchBool result (IsLateOne (state_of self.now) number) (IsEarlyOne (state_of self.now) number) }
    {
        match self.queries.get(number) {
            Some(open) => open.deadline() <= self.clock,
            None => unreachable!(),
        }
    }

    // Ends the open query of that number, whose time is up.
    fn end(&mut self, number: u64) -> TypedAction<A>
        requires { (q : Open) × IsTheOne self.old.queries number q }
        ensures { Expires (state_of self.old) number (alone result) (state_of self.new) }
    {
        match self.queries.take_out(number) {
            Some(open) => {
                let (client_query, job) = open.into_work();
                drop(job);
                self.fail(number, client_query, Cause::DeadlineOver)
            }
            None => unreachable!(),
        }
    }

    // Serves the query of that number, which is due.
    fn ring(&mut self, number: u64) -> Result<TypedAction<A>, Starved>
        requires sound { IsSound (state_of self.old) }
        requires there { (q : Open) × IsTheOne self.old.queries number q }
        ensures ok { IfOk result (λ a. Rings (state_of self.old) number (alone a) (state_of self.new)) }
        ensures err { OnErr result (Unrung (state_of self.old) number (state_of self.new)) }
    {
        if self.is_late(number) {
            Ok(self.end(number))
        } else {
            let server = self.server_of(number);
            self.go_on(number, Input::TimedOut(server))
        }
    }

    // Serves the query that is due first, and says whether another one is due.
    pub fn tick(&mut self) -> Result<TypedActions<A>, Starved>
        requires sound { IsSound (state_of self.old) }
        ensures ok { IfOk result (λ a. (now : ℕ) → Turns (state_of self.old) (Tick now) (Some (said_listed a.first a.more_due)) (state_of self.new)) }
        ensures err { OnErr result ((now : ℕ) → Turns (state_of self.old) (Tick now) None (state_of self.new)) }
        ensures quiet { (now : ℕ) → IsQuiet (state_of self.old) (Tick now) → IsOkAnd result (λ a. a.first ≡ None) }
    {
        match self.first_due() {
            Some(number) => {
                let first = Some(self.ring(number)?);
                Ok(TypedActions {
                    first,
                    more_due: self.first_due().is_some(),
                })
            }
            None => Ok(TypedActions {
                first: None,
                more_due: false,
            }),
        }
    }
}
