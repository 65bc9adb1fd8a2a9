//! Queries that are answered at once: the answer is at hand, and shows without any work on the query.
ghost use Rattle.std.specs.Prelude.{◌≡◌, [], IfOk, MatchOption};
ghost use Rattle.runs.specs.States.{client_query, Event as EventSpec, moved};
ghost use Rattle.runs.specs.Messages.{outcome_of};
ghost use Rattle.runs.specs.Steps.{Ends};
ghost use Rattle.open_queries.specs.Lookups.{HasNo};
ghost use Rattle.events.specs.Plain.{plain};
ghost use Rattle.typed.specs.Events.{ReadAs};
ghost use Rattle.typed.specs.Views.{parsed_view, said_listed};
ghost use Rattle.engine.specs.AtHand.{HasAnswer, IsAnsweredAt, IsAnsweredNow};
ghost use Rattle.engine.specs.Histories.{written_of};
ghost use Rattle.engine.specs.ResolverStates.{state_of, IsSound};
ghost use Rattle.engine.specs.Turns.{Turns};

use crate::state::ResolverState;
use events::ClientQuery;
use front::{Query, Request, SharedQuery};
use iterate::{Chain, answer_query};
use limits::LATEST_MOMENT;
use lookup::Taken;
use memory::{Heap, Starved};
use std::alloc::AllocError;
use typed::{Parsed, TypedActions};
use wire::Via;

impl<A: Heap> ResolverState<A> {
    // Serves a client's query whose answer shows at once. None, and no change, where there is none.
    pub fn answer_parsed(&mut self, event: &Parsed<A>) -> Option<Result<TypedActions<A>, Starved>>
        requires sound { IsSound (state_of self.old) }
        ensures has { MatchOption result (state_of self.new ≡ state_of self.old) (λ r. HasAnswer (state_of self.old) (parsed_view event.now)) }
        ensures turns { (e : EventSpec) → ReadAs e (parsed_view event.now) → MatchOption result (state_of self.new ≡ state_of self.old) (λ r. Turns (moved (state_of self.old) e) e (written_of r) (state_of self.new)) }
    {
        match event {
            Parsed::Client {
                moment,
                client,
                way,
                request: Request::Query(query),
            } => self.answer_at(*moment, *client, *way, query),
            _ => None,
        }
    }

    // The same of a query that comes at this moment: the clock is at it then, and else where it was.
    fn answer_at(
        &mut self,
        moment: u64,
        client: u64,
        way: Via,
        query: &SharedQuery<A>,
    ) -> Option<Result<TypedActions<A>, Starved>>
        requires sound { IsSound (state_of self.old) }
        ensures { MatchOption result (state_of self.new ≡ state_of self.old) (λ r. IsAnsweredAt (state_of self.old) moment client way (plain query.now) r (state_of self.new)) }
    {
        let clock = self.clock;
        self.advance_clock(moment.min(LATEST_MOMENT));
        let said = self.answer_now(client, way, query);
        if said.is_none() {
            self.clock = clock;
        }
        said
    }

    // The same at the moment of the clock.
    fn answer_now(
        &mut self,
        client: u64,
        way: Via,
        query: &SharedQuery<A>,
    ) -> Option<Result<TypedActions<A>, Starved>>
        requires sound { IsSound (state_of self.old) }
        ensures { MatchOption result (state_of self.new ≡ state_of self.old) (λ r. IsAnsweredNow (state_of self.old) client way (plain query.now) r (state_of self.new)) }
    {
        let asked: &Query<A> = query;
        if !asked.start.wants_recursion() {
            return None;
        }
        match answer_query(
            self.alloc,
            &asked.name,
            asked.kind,
            &self.home,
            &mut self.stores,
            self.clock,
        ) {
            Some(Ok(last)) => Some(self.reply_with(client, way, query, last)),
            Some(Err(starved)) => Some(Err(starved)),
            None => None,
        }
    }

    // The reply of this answer to a query.
    fn reply_with(
        &self,
        client: u64,
        way: Via,
        query: &SharedQuery<A>,
        last: Taken<A>,
    ) -> Result<TypedActions<A>, Starved>
        requires { HasNo (state_of self.now).queries (state_of self.now).opened }
        ensures { IfOk result (λ said. Ends (state_of self.now) (client_query client way (plain query.now)) self.now.opened (outcome_of self.now.clock [] last) self.now.stores (said_listed said.first said.more_due) (state_of self.now)) }
    {
        let copy: Result<SharedQuery<A>, AllocError> = query.clone();
        match copy {
            Ok(query) => {
                let client_query = ClientQuery { client, way, query };
                let reply = self.answer(self.opened, client_query, Chain::new(self.alloc), last)?;
                Ok(TypedActions {
                    first: Some(reply),
                    more_due: false,
                })
            }
            Err(_) => {
                drop(last);
                Err(Starved)
            }
        }
    }
}
