//! Queries whose answer is at hand: whether that is so, before their step.
ghost use Rattle.std.specs.Prelude.{◌≡◌, ◌↔◌, IsTrue, IfOk};
ghost use Rattle.typed.specs.Views.{parsed_view};
ghost use Rattle.engine.specs.AtHand.{HasEnd, HasAnswer};
ghost use Rattle.engine.specs.ResolverStates.{state_of};

use crate::state::ResolverState;
use front::{Query, Request};
use limits::LATEST_MOMENT;
use lookup::holds;
use memory::{Heap, Starved};
use typed::Parsed;

impl<A: Heap> ResolverState<A> {
    // Whether a query that comes at this moment is answered in its step. Without RD each is (RFC 1034, section 4.3.1).
    fn has_end(&self, query: &Query<A>, moment: u64) -> Result<bool, Starved>
        ensures { IfOk result (λ b. IsTrue b ↔ HasEnd (state_of self.now) moment query.now) }
    {
        if !query.start.wants_recursion() {
            return Ok(true);
        }
        let now = self.clock.max(moment);
        Ok(holds(
            self.alloc,
            &self.home,
            &query.name,
            query.kind,
            &self.stores,
            now,
        )?)
    }

    // Whether an event that was read is a client's query whose answer is at hand.
    pub fn holds(&self, event: &Parsed<A>) -> Result<bool, Starved>
        ensures { IfOk result (λ b. IsTrue b ↔ HasAnswer (state_of self.now) (parsed_view event.now)) }
    {
        match event {
            Parsed::Client {
                moment,
                request: Request::Query(query),
                ..
            } => Ok(self.has_end(query, (*moment).min(LATEST_MOMENT))?),
            _ => Ok(false),
        }
    }
}
