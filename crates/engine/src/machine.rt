//! `Core`, the resolver as one machine for one thread. Its `step` says in its contract what the crate promises.
ghost use Rattle.std.specs.Prelude.{◌≡◌, ◌↔◌, false, Some, None, IsTrue, IfOk, IfSome, IsOk, OnErr, MatchOption, MatchResult};
ghost use Rattle.std.specs.NonZero.{non_zero_usize_get};
ghost use Rattle.authority.specs.Catalogs.{has_twins};
ghost use Rattle.authority.specs.CatalogFaults.{CatalogRefuses};
ghost use Rattle.lookup.specs.Views.{home_at, no_stores, sizes_of};
ghost use Rattle.engine.specs.AtHand.{HasAnswer};
ghost use Rattle.engine.specs.Beginnings.{CoreRefuses, IsMade};
ghost use Rattle.engine.specs.Histories.{written_of};
ghost use Rattle.engine.specs.ResolverStates.{state_of};
ghost use Rattle.engine.specs.Turns.{IsQuiet};
ghost use Rattle.engine.specs.Promises.{Steps};
ghost use Rattle.events.specs.Views.{event_view};
ghost use Rattle.runs.specs.States.{Event as EventSpec, moved};
ghost use Rattle.typed.specs.Events.{ReadAs};
ghost use Rattle.typed.specs.Views.{said_listed};

use crate::hashing::{Seeded, StoreHasher};
use crate::settings::{Config, CoreError};
use crate::state::ResolverState;
use authority::{Catalog, CatalogError};
use counters::StoreSizes;
use events::{Actions, Event};
use lookup::{Capacities, Hashers, Home, Stores};
use memory::{Heap, Starved};
use open_queries::Queries;
use rand_chacha::ChaCha20Rng;
use rand_core::SeedableRng;
use rdata::Addr;
use std::alloc::{Allocator, Global};
use std::hash::DefaultHasher;
use std::marker::Model;
use typed::{TypedActions, TypedEvent};
use wire::Writer;
use zone::Zone;

/// A resolver: its local zones and hints, the stores, and the open queries.
pub struct Core<A: Allocator = Global> {
    state: ResolverState<A>,
    // The writer of what `step` gives.
    writer: Writer<A>,
}

// By hand, so that each drop of a resolver calls this, and does not write out all that it holds.
impl<A: Allocator> Drop for Core<A> {
    fn drop(self) {
        let Core { state, writer } = self;
        drop(state);
        drop(writer);
    }
}

impl<A: Allocator> Model for Core<A> {
    ghost use Rattle.runs.specs.States.{State};
    ghost use Rattle.engine.specs.ResolverStates.{state_of, IsSound};

    ghost Value = { State };

    ghost view = { λ c. state_of c.state };

    ghost invariant = { λ c. IsSound (state_of c.state) };
}

// Empty stores, hashed behind the seed.
fn stores<A: Heap>(
    alloc: A,
    room: Capacities,
    seed: &[u8],
) -> Result<Stores<StoreHasher, A>, Starved>
    ensures { IfOk result (λ s. s ≡ no_stores (non_zero_usize_get room.links) (non_zero_usize_get room.cuts) (non_zero_usize_get room.servers) (non_zero_usize_get room.failures)) }
{
    let seeded = Seeded::new(DefaultHasher::new(), seed);
    let hashers = Hashers {
        links: seeded,
        cuts: seeded,
        servers: seeded,
        failures: seeded,
    };
    Ok(Stores::new(alloc, room, hashers)?)
}

// Empty stores, and the writer of messages.
fn tools<A: Heap>(
    alloc: A,
    room: Capacities,
    seed: &[u8],
) -> Result<(Stores<StoreHasher, A>, Writer<A>), Starved>
    ensures { IfOk result (λ t. t.0 ≡ no_stores (non_zero_usize_get room.links) (non_zero_usize_get room.cuts) (non_zero_usize_get room.servers) (non_zero_usize_get room.failures)) }
{
    let stores = stores(alloc, room, seed)?;
    let writer = Writer::new(alloc)?;
    Ok((stores, writer))
}

// The local zones, and the root's cut with its hints.
fn home<A: Heap>(
    alloc: A,
    local: Vec<Zone<A>, A>,
    hints: Vec<Addr, A>,
) -> Result<Home<A>, CatalogError>
    ensures { MatchResult result (λ h. (h ≡ home_at local.items hints.items) × (has_twins local.items ≡ false)) (λ e. CatalogRefuses e (has_twins local.items)) }
{
    let catalog = Catalog::new(local)?;
    Ok(Home::new(alloc, catalog, &hints)?)
}

impl<A: Heap> Core<A> {
    /// A resolver that has done nothing yet. Refused for the first of these that holds: a setting out of its limits
    /// (1), two zones of one origin (2), out of memory (3).
    pub fn new(alloc: A, config: Config<A>) -> Result<Core<A>, CoreError>
        ensures { MatchResult result (IsMade config.local.items config.hints.items config.settings) (λ e. CoreRefuses e config.settings config.local.items) }
    {
        let Some(room) = config.settings.room() else {
            return Err(CoreError::Setting);
        };
        let settings = config.settings;
        let home = home(alloc, config.local, config.hints)?;
        let (stores, writer) = tools(alloc, room, &settings.seed)?;
        Ok(Core {
            state: ResolverState {
                alloc,
                home,
                port: settings.port,
                sockets: settings.sockets,
                clock: 0,
                stores,
                queries: Queries::new(alloc),
                opened: 0,
                tcp_asks: 0,
                generator: ChaCha20Rng::from_seed(settings.seed),
            },
            writer,
        })
    }

    /// One step: an event comes, and at most one query is served. Out of memory, nothing goes out, and the query that
    /// the event was for is dropped. Every run that this step continues keeps what the laws of runs promise.
    pub fn step(&mut self, event: &Event<A>) -> Result<Actions<A>, Starved>
        ensures ok { IfOk result (λ a. Steps self.old (event_view event.now) (Some a) self.new) }
        ensures err { OnErr result (Steps self.old (event_view event.now) None self.new) }
        ensures quiet { IsQuiet (moved self.old (event_view event.now)) (event_view event.now) → IsOk result }
    {
        self.state.advance_clock(event.moment());
        let out = self.state.serve(&mut self.writer, event);
        self.state.queries.apart_law();
        out
    }

    /// One step whose event was read before and whose action is written after, so that no bytes are read or written in
    /// it. It is a step on the bytes that the event was read from, and its action is the one that is written of it
    /// (`typed::write_actions`). Out of memory, it leaves what `step` leaves.
    pub fn step_typed(&mut self, event: &TypedEvent<A>) -> Result<TypedActions<A>, Starved>
        ensures ok { (e : EventSpec) → ReadAs e event.now → IfOk result (λ a. Steps self.old e (Some (said_listed a.first a.more_due)) self.new) }
        ensures err { (e : EventSpec) → ReadAs e event.now → OnErr result (Steps self.old e None self.new) }
    {
        self.state.advance_clock(event.moment());
        let said = self.state.handle_parsed(event.parsed());
        self.state.queries.apart_law();
        said
    }

    /// The step of `step_typed` on a client's query with RD whose answer is at hand, where that shows at once: a link that is
    /// no alias stands in a local zone, or in the cache under the name itself. None, and no change, for all else, also
    /// where no memory is left to see it.
    pub fn answer(&mut self, event: &TypedEvent<A>) -> Option<Result<TypedActions<A>, Starved>>
        ensures has { MatchOption result (self.new ≡ self.old) (λ r. HasAnswer self.old event.now) }
        ensures steps { (e : EventSpec) → ReadAs e event.now → IfSome result (λ r. Steps self.old e (written_of r) self.new) }
    {
        let said = self.state.answer_parsed(event.parsed());
        self.state.queries.apart_law();
        said
    }

    /// Whether the event is a client's query whose answer is at hand: one without RD, or one for whose name at most eight
    /// aliases and the end behind them stand in the local zones or live in the cache. Its step asks no server then.
    pub fn holds(&self, event: &TypedEvent<A>) -> Result<bool, Starved>
        ensures { IfOk result (λ b. IsTrue b ↔ HasAnswer self.now event.now) }
    {
        Ok(self.state.holds(event.parsed())?)
    }

    /// How many entries each store has, expired ones among them.
    pub fn sizes(&self) -> StoreSizes
        ensures { result ≡ sizes_of (self.now).stores }
    {
        self.state.stores.sizes()
    }
}
