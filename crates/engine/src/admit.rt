//! Recursive queries whose work has begun. The result goes out. A query that has to wait is opened under the next
//! number, or answered with a failure where 1,024 are open.
ghost use Rattle.std.specs.Prelude.{◌+◌, IfOk, OnErr};
ghost use Rattle.std.specs.Bool.{MatchBool};
ghost use Rattle.iterate.specs.Views.{next_view};
ghost use Rattle.runs.specs.Steps.{IsAsk, Comes};
ghost use Rattle.engine.specs.ResolverStates.{state_of, IsSound};
ghost use Rattle.engine.specs.Moves.{Halts, Opens};
ghost use Rattle.engine.specs.Replies.{alone};

use crate::state::ResolverState;
use causes::Cause;
use events::ClientQuery;
use iterate::{Job, Next};
use limits::MAX_OPEN_QUERIES;
use memory::{Heap, Starved};
use typed::TypedAction;

// Whether a server is to be asked.
fn is_ask<A: Heap>(next: &Next<A>) -> bool
    ensures { MatchBool result (IsAsk (next_view next.now)) (IsAsk (next_view next.now) → ⊥) }
{
    matches!(next, Next::AskUdp(..) | Next::AskTcp(..))
}

// Drops a query for which no number is left.
fn turn_away<A: Heap>(client_query: ClientQuery<A>, job: Job<A>, next: Next<A>) {
    drop(client_query);
    drop(job);
    drop(next);
}

impl<A: Heap> ResolverState<A> {
    // Opens a query that has to wait, under the next number.
    fn let_in(
        &mut self,
        client_query: ClientQuery<A>,
        job: Job<A>,
        next: Next<A>,
    ) -> Result<TypedAction<A>, Starved>
        requires sound { IsSound (state_of self.old) }
        requires asks { IsAsk (next_view next) }
        ensures ok { IfOk result (λ a. Comes (state_of self.old) client_query self.old.opened (self.old.opened + 1) (next_view next) job self.old.stores (alone a) (state_of self.new)) }
        ensures err { OnErr result (Halts (state_of self.old) (state_of self.new)) }
    {
        let number = self.opened;
        if number == u64::MAX {
            turn_away(client_query, job, next);
            return Err(Starved);
        }
        let action = self.follow(number, client_query, job, next)?;
        self.opened = number + 1;
        Ok(action)
    }

    // Sends the result of the work on a new query: the reply, or an ask where not too many queries wait.
    pub fn admit(
        &mut self,
        client_query: ClientQuery<A>,
        job: Job<A>,
        next: Next<A>,
    ) -> Result<TypedAction<A>, Starved>
        requires { IsSound (state_of self.old) }
        ensures ok { IfOk result (λ a. Opens (state_of self.old) client_query (next_view next) job (alone a) (state_of self.new)) }
        ensures err { OnErr result (Halts (state_of self.old) (state_of self.new)) }
    {
        if !is_ask(&next) {
            return self.follow(self.opened, client_query, job, next);
        }
        if self.queries.len() < MAX_OPEN_QUERIES {
            return self.let_in(client_query, job, next);
        }
        drop(next);
        Ok(self.fail(self.opened, client_query, Cause::TooManyOpen))
    }
}
