//! Requests of clients: they are dropped, refused, answered by local zones (without RD), or resolved.
ghost use Rattle.std.specs.Result.{IsOkAnd};
ghost use Rattle.std.specs.Prelude.{◌≡◌, ℕ, ◌<◌, ◌≤◌, Some, None, List, IfOk, OnErr, length};
ghost use Rattle.resolution.specs.Jobs.{Start as StartSpec};
ghost use Rattle.resolution.specs.Stops.{Stops};
ghost use Rattle.iterate.specs.Beginnings.{StartsWith};
ghost use Rattle.front.specs.declared.queries.Request.TheVariants as request;
ghost use Rattle.runs.specs.States.{Client, Own, latest, recursive, job_for};
ghost use Rattle.runs.specs.Steps.{AnswersAtHand};
ghost use Rattle.events.specs.Plain.{plain_asked};
ghost use Rattle.front.specs.Queries.{IsRequest};
ghost use Rattle.engine.specs.ResolverStates.{state_of, IsSound};
ghost use Rattle.engine.specs.Replies.{alone, if_any};
ghost use Rattle.engine.specs.Calls.{Handles, IsResolved, Begins, DropsWork, IsGone};
ghost use Rattle.engine.specs.Turns.{Turns};

use crate::hashing::StoreHasher;
use crate::state::ResolverState;
use events::{ClientQuery, local_answer_is_plain, read_asked};
use front::{Request, answer_local};
use iterate::{Chain, Started, begin_query};
use lookup::{Home, Stores};
use memory::{Heap, Starved};
use typed::{TypedAction, refuse, reply_to};
use wire::Via;

// The result of starting a query at `now` milliseconds: its answer, or work that waits. For the proof: it says of
// `begin_query` what the steps of a run speak of.
fn begun<A: Heap>(
    alloc: A,
    client_query: &ClientQuery<A>,
    home: &Home<A>,
    stores: &mut Stores<StoreHasher, A>,
    now: u64,
) -> Result<Started<A>, Starved>
    requires { now ≤ latest }
    ensures begins { IfOk result (λ b. StartsWith home.now now (job_for now client_query.now.query) stores.old b stores.new) }
    ensures stops { OnErr result (Stops home.now now StartSpec (job_for now client_query.now.query) stores.old stores.new) }
{
    begin_query(
        alloc,
        &client_query.query.name,
        client_query.query.kind,
        home,
        stores,
        now,
    )
}

// Whether the query has RD, so that the answer is to be found for the client (RFC 1035, section 4.1.1). For the proof:
// it names the bit RD as the steps of a run do.
fn is_recursive<A: Heap>(client_query: &ClientQuery<A>) -> bool
    ensures { result ≡ recursive client_query.now.query }
{
    client_query.query.start.wants_recursion()
}

impl<A: Heap> ResolverState<A> {
    // Treats a client's bytes: they are dropped, refused, answered or opened.
    pub fn client(
        &mut self,
        client: u64,
        way: Via,
        bytes: &[u8],
    ) -> Result<Option<TypedAction<A>>, Starved>
        requires sound { IsSound (state_of self.old) }
        ensures ok { IfOk result (λ a. (now : ℕ) → Turns (state_of self.old) (Client now client way bytes.now) (Some (if_any a)) (state_of self.new)) }
        ensures err { OnErr result ((now : ℕ) → Turns (state_of self.old) (Client now client way bytes.now) None (state_of self.new)) }
        ensures quiet { length bytes.now < 12 → IsOkAnd result (λ o. o ≡ None) }
    {
        let asked = read_asked(self.alloc, bytes)?;
        self.handle(client, way, asked)
    }

    // Treats what was read of a client's bytes.
    pub fn read_client(
        &mut self,
        client: u64,
        way: Via,
        request: &Request<A>,
    ) -> Result<Option<TypedAction<A>>, Starved>
        requires sound { IsSound (state_of self.old) }
        ensures ok { (now : ℕ) (bytes : List ℕ) → IsRequest bytes (plain_asked request.now) → IfOk result (λ a. Turns (state_of self.old) (Client now client way bytes) (Some (if_any a)) (state_of self.new)) }
        ensures err { (now : ℕ) (bytes : List ℕ) → IsRequest bytes (plain_asked request.now) → OnErr result (Turns (state_of self.old) (Client now client way bytes) None (state_of self.new)) }
    {
        let request = request.clone()?;
        self.handle(client, way, request)
    }

    // Dispatches a client's request: it is dropped, refused, or resolved.
    fn handle(
        &mut self,
        client: u64,
        way: Via,
        asked: Request<A>,
    ) -> Result<Option<TypedAction<A>>, Starved>
        requires sound { IsSound (state_of self.old) }
        ensures ok { IfOk result (λ a. Handles (state_of self.old) client way (plain_asked asked) (if_any a) (state_of self.new)) }
        ensures err { OnErr result (IsGone (state_of self.old) (plain_asked asked) (state_of self.new)) }
        ensures quiet { plain_asked asked ≡ request.Drop → IsOkAnd result (λ o. o ≡ None) }
    {
        match asked {
            Request::Drop => Ok(None),
            Request::Refuse(why, start, echo) => Ok(Some(refuse(client, way, why, start, echo))),
            Request::Query(query) => { Ok(Some(self.resolve(ClientQuery { client, way, query })?)) }
        }
    }

    // Treats a query: without RD it is answered by the local zones alone (RFC 1034, section 4.3.1).
    fn resolve(&mut self, client_query: ClientQuery<A>) -> Result<TypedAction<A>, Starved>
        requires sound { IsSound (state_of self.old) }
        ensures ok { IfOk result (λ a. IsResolved (state_of self.old) client_query (alone a) (state_of self.new)) }
        ensures err { OnErr result (IsGone (state_of self.old) (request.Query client_query.query) (state_of self.new)) }
    {
        if is_recursive(&client_query) {
            Ok(self.begin_query(client_query)?)
        } else {
            Ok(self.at_hand(client_query)?)
        }
    }

    // Answers from the local zones alone.
    fn at_hand(&self, client_query: ClientQuery<A>) -> Result<TypedAction<A>, Starved>
        ensures { IfOk result (λ a. AnswersAtHand (state_of self.now) client_query Own (alone a) (state_of self.now)) }
    {
        local_answer_is_plain(self.alloc);
        let outcome = answer_local(self.alloc, &client_query.query, self.home.catalog())?;
        Ok(reply_to(client_query, outcome))
    }

    // Begins a recursive query: it is answered by a link that is found, or its work begins.
    fn begin_query(&mut self, client_query: ClientQuery<A>) -> Result<TypedAction<A>, Starved>
        requires sound { IsSound (state_of self.old) }
        ensures ok { IfOk result (λ a. Begins (state_of self.old) client_query (alone a) (state_of self.new)) }
        ensures err { OnErr result (DropsWork (state_of self.old) client_query.query (state_of self.new)) }
    {
        match begun(
            self.alloc,
            &client_query,
            &self.home,
            &mut self.stores,
            self.clock,
        )? {
            Started::Answered(last) => {
                self.answer(self.opened, client_query, Chain::new(self.alloc), last)
            }
            Started::Working(job, next) => self.admit(client_query, job, next),
        }
    }
}
