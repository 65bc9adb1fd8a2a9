//! The work on one query, and its result. `go_on` takes a query out, gives its work one input, and sends the result: an
//! ask for which it waits again, or the reply.
ghost use Rattle.std.specs.Prelude.{◌≡◌, IfOk, OnErr};
ghost use Rattle.causes.specs.declared.cause.Cause.TheVariants as cause;
ghost use Rattle.front.specs.declared.queries.Outcome.TheVariants as outcome;
ghost use Rattle.message_grammar.specs.Messages.{Message};
ghost use Rattle.wire.specs.declared.via.Via.{Via};
ghost use Rattle.classify.specs.Read.{IsReadingOf};
ghost use Rattle.classify.specs.Views.{reading_view};
ghost use Rattle.resolution.specs.Jobs.{Told};
ghost use Rattle.iterate.specs.Inputs.{IsSoughtIn};
ghost use Rattle.iterate.specs.Views.{input_view, next_view};
ghost use Rattle.runs.specs.States.{Open};
ghost use Rattle.runs.specs.Messages.{outcome_of};
ghost use Rattle.runs.specs.Steps.{Ends, Comes};
ghost use Rattle.open_queries.specs.Lookups.{HasNo, IsTheOne};
ghost use Rattle.engine.specs.ResolverStates.{state_of, IsSound};
ghost use Rattle.engine.specs.Moves.{Halts, Goes, Falls, ServesOne, DropsOne, Answers};
ghost use Rattle.engine.specs.Finds.{OfTheOne};
ghost use Rattle.engine.specs.Replies.{alone};

use crate::answer::outcome_of;
use crate::state::ResolverState;
use causes::Cause;
use classify::Reading;
use events::ClientQuery;
use front::Outcome;
use iterate::{Chain, Input, Job, Next, advance, advance_by_reply};
use lookup::Taken;
use memory::{Heap, Starved};
use rdata::Addr;
use typed::{TypedAction, reply_to};

impl<A: Heap> ResolverState<A> {
    // The answer of a chain and its end, as it goes out; the query of that number is over.
    pub fn answer(
        &self,
        number: u64,
        client_query: ClientQuery<A>,
        chain: Chain<A>,
        last: Taken<A>,
    ) -> Result<TypedAction<A>, Starved>
        requires { HasNo self.now.queries number }
        ensures { IfOk result (λ a. Ends (state_of self.now) client_query number (outcome_of self.now.clock chain last) self.now.stores (alone a) (state_of self.now)) }
    {
        let outcome = outcome_of(self.alloc, chain, last, self.clock)?;
        Ok(reply_to(client_query, outcome))
    }

    // The failure, as it goes out; the query of that number is over.
    pub fn fail(&self, number: u64, client_query: ClientQuery<A>, cause: Cause) -> TypedAction<A>
        requires { HasNo self.now.queries number }
        ensures { Ends (state_of self.now) client_query number (outcome.Fail cause) self.now.stores (alone result) (state_of self.now) }
    {
        reply_to(client_query, Outcome::Fail(cause))
    }

    // Sends the result of the work: an ask, or the reply.
    pub fn follow(
        &mut self,
        number: u64,
        client_query: ClientQuery<A>,
        job: Job<A>,
        next: Next<A>,
    ) -> Result<TypedAction<A>, Starved>
        requires sound { IsSound (state_of self.old) }
        requires fresh { HasNo self.old.queries number }
        ensures ok { IfOk result (λ a. Comes (state_of self.old) client_query number self.old.opened (next_view next) job self.old.stores (alone a) (state_of self.new)) }
        ensures err { OnErr result (Halts (state_of self.old) (state_of self.new)) }
    {
        match next {
            Next::AskUdp(server, name, kind) => {
                self.ask_udp(number, client_query, job, server, name, kind)
            }
            Next::AskTcp(server, name, kind) => {
                self.ask_tcp(number, client_query, job, server, name, kind)
            }
            Next::Done(chain, last) => {
                drop(job);
                self.answer(number, client_query, chain, last)
            }
            Next::Fail(cause) => {
                drop(job);
                Ok(self.fail(number, client_query, cause))
            }
        }
    }

    // Goes on with the work on the query of that number by one input, and sends its result.
    fn advance_query(
        &mut self,
        number: u64,
        client_query: ClientQuery<A>,
        mut job: Job<A>,
        input: Input,
    ) -> Result<TypedAction<A>, Starved>
        requires sound { IsSound (state_of self.old) }
        requires fresh { HasNo self.old.queries number }
        ensures ok { IfOk result (λ a. Goes (state_of self.old) client_query number job (input_view input) (alone a) (state_of self.new)) }
        ensures err { OnErr result (Falls (state_of self.old) job (input_view input) (state_of self.new)) }
    {
        let gives = advance(
            self.alloc,
            &mut job,
            input,
            &self.home,
            &mut self.stores,
            self.clock,
        );
        match gives {
            Err(starved) => {
                drop(client_query);
                drop(job);
                Err(starved)
            }
            Ok(next) => self.follow(number, client_query, job, next),
        }
    }

    // Goes on with the work on the query of that number by a message of the server that it asks, and sends its result.
    fn advance_query_by_reply(
        &mut self,
        number: u64,
        client_query: ClientQuery<A>,
        mut job: Job<A>,
        server: Addr,
        reading: &Reading<A>,
    ) -> Result<TypedAction<A>, Starved>
        requires sound { IsSound (state_of self.old) }
        requires fresh { HasNo self.old.queries number }
        requires read { (way : Via) × (m : Message) × IsReadingOf way m (reading_view reading.now) × IsSoughtIn job (reading_view reading.now) }
        ensures ok { (way : Via) (m : Message) → IsReadingOf way m (reading_view reading.now) → IsSoughtIn job (reading_view reading.now) → IfOk result (λ a. Goes (state_of self.old) client_query number job (Told way server m) (alone a) (state_of self.new)) }
        ensures err { (way : Via) (m : Message) → IsReadingOf way m (reading_view reading.now) → IsSoughtIn job (reading_view reading.now) → OnErr result (Falls (state_of self.old) job (Told way server m) (state_of self.new)) }
    {
        let gives = advance_by_reply(
            self.alloc,
            &mut job,
            server,
            reading,
            &self.home,
            &mut self.stores,
            self.clock,
        );
        match gives {
            Err(starved) => {
                drop(client_query);
                drop(job);
                Err(starved)
            }
            Ok(next) => self.follow(number, client_query, job, next),
        }
    }

    // Serves the open query of that number.
    pub fn go_on(&mut self, number: u64, input: Input) -> Result<TypedAction<A>, Starved>
        requires sound { IsSound (state_of self.old) }
        requires there { (q : Open) × IsTheOne self.old.queries number q }
        ensures ok { IfOk result (λ a. ServesOne (state_of self.old) number (input_view input) (alone a) (state_of self.new)) }
        ensures err { OnErr result (DropsOne (state_of self.old) number (input_view input) (state_of self.new)) }
    {
        match self.queries.take_out(number) {
            Some(open) => {
                let (client_query, job) = open.into_work();
                self.advance_query(number, client_query, job, input)
            }
            None => unreachable!(),
        }
    }

    // Serves the open query of that number by a message of the server that it asks. The contract holds for each message
    // that has the reading.
    pub fn go_on_by_reply(
        &mut self,
        number: u64,
        server: Addr,
        reading: &Reading<A>,
    ) -> Result<TypedAction<A>, Starved>
        requires sound { IsSound (state_of self.old) }
        requires there { (q : Open) × IsTheOne self.old.queries number q }
        requires read { (way : Via) × (m : Message) × IsReadingOf way m (reading_view reading.now) }
        requires answers { OfTheOne self.old.queries number (λ q. Answers q.ask (reading_view reading.now)) }
        ensures ok { (way : Via) (m : Message) → IsReadingOf way m (reading_view reading.now) → IfOk result (λ a. ServesOne (state_of self.old) number (Told way server m) (alone a) (state_of self.new)) }
        ensures err { (way : Via) (m : Message) → IsReadingOf way m (reading_view reading.now) → OnErr result (DropsOne (state_of self.old) number (Told way server m) (state_of self.new)) }
    {
        match self.queries.take_out(number) {
            Some(open) => {
                let (client_query, job) = open.into_work();
                self.advance_query_by_reply(number, client_query, job, server, reading)
            }
            None => unreachable!(),
        }
    }
}
