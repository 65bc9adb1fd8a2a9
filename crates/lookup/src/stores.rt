//! The four stores of the resolver, each of a fixed capacity: links and failures of servers (`cache`), delegations
//! (`referral`) and the penalties of servers (`retry`). `Stores` has one call for each use that the work on a query
//! makes of them. It decides how long a link or a cut is cached, and how much of a cut.
ghost use Rattle.std.specs.Prelude.{◌≡◌, IfOk, IfSome, MatchOption, OnOk, OnErr};
ghost use Rattle.std.specs.NonZero.{non_zero_usize_get};
ghost use Rattle.dname.specs.Labels.{Name as NameSpec};
ghost use Rattle.rdata.specs.Types.{type_number};
ghost use Rattle.zone.specs.Views.{link_view};
ghost use Rattle.referral.specs.Cuts.{IsBest};
ghost use Rattle.cache.specs.Cached.{asked_to, lent, hit_of, IsHeld};
ghost use Rattle.cache.specs.Failures.{failed_ask, is_failed};
ghost use Rattle.frames.specs.Frames.{opened, fresh_addresses, after_add};
ghost use Rattle.resolution.specs.Jobs.{level_of, with_answer, with_timeout};
ghost use Rattle.lookup.specs.Ends.{IsUsed};
ghost use Rattle.lookup.specs.Views.{no_stores, sizes_of, with_link, with_cut, with_failed, after_look, after_best, after_failure_look};

use cache::{Cache, Failures, Hit};
use classify::{lifetime, referral_lifetime};
use counters::StoreSizes;
use dname::Name;
use frames::{Frame, trimmed};
use memory::{Heap, Starved};
use rdata::{Addr, RType};
use referral::{Cut, Delegations};
use retry::Penalties;
use std::alloc::{Allocator, Global};
use std::hash::BuildHasher;
use std::marker::Model;
use std::num::NonZeroUsize;
use zone::Link;

/// How many entries each store may have.
#[derive(Clone, Copy)]
pub struct Capacities {
    /// Links.
    pub links: NonZeroUsize,
    /// Delegations.
    pub cuts: NonZeroUsize,
    /// Servers that have a penalty.
    pub servers: NonZeroUsize,
    /// Questions that a server failed to answer.
    pub failures: NonZeroUsize,
}

/// The hasher for the keys of each store.
#[derive(Drop)]
pub struct Hashers<S: BuildHasher + Drop> {
    /// For the cache, whose keys are a name and a type.
    pub links: S,
    /// For the delegations, by the name of the zone.
    pub cuts: S,
    /// For the penalties, by the server's address.
    pub servers: S,
    /// For the failures, by the name that was asked for and the server's address.
    pub failures: S,
}

/// The stores: links, delegations, penalties of servers that did not answer, and which servers failed to answer which
/// questions.
pub struct Stores<S: BuildHasher + Drop, A: Allocator = Global> {
    cache: Cache<S, A>,
    delegations: Delegations<S, A>,
    penalties: Penalties<S, A>,
    failures: Failures<S, A>,
}

// By hand, so that each drop of stores calls this, and does not write out all that it holds.
impl<S: BuildHasher + Drop, A: Allocator> Drop for Stores<S, A> {
    fn drop(self) {
        let Stores {
            cache,
            delegations,
            penalties,
            failures,
        } = self;
        drop(cache);
        drop(delegations);
        drop(penalties);
        drop(failures);
    }
}

impl<S: BuildHasher + Drop, A: Allocator> Model for Stores<S, A> {
    ghost use Rattle.resolution.specs.Jobs.{Stores as StoresSpec};

    ghost Value = { StoresSpec };

    ghost view = { λ s. record { cache = s.cache.entries; cache_cap = s.cache.cap; delegations = s.delegations.entries; delegations_cap = s.delegations.cap; penalties = s.penalties.entries; penalties_cap = s.penalties.cap; failures = s.failures.entries; failures_cap = s.failures.cap } };
}

impl<S: BuildHasher + Drop, A: Heap> Stores<S, A> {
    /// Empty stores with these capacities. Memory is taken as entries come.
    pub fn new(
        alloc: A,
        capacities: Capacities,
        hashers: Hashers<S>,
    ) -> Result<Stores<S, A>, Starved>
        ensures { IfOk result (λ s. s ≡ no_stores (non_zero_usize_get capacities.links) (non_zero_usize_get capacities.cuts) (non_zero_usize_get capacities.servers) (non_zero_usize_get capacities.failures)) }
    {
        Ok(Stores {
            cache: Cache::new(alloc, capacities.links, hashers.links)?,
            delegations: Delegations::new(alloc, capacities.cuts, hashers.cuts)?,
            penalties: Penalties::new(alloc, capacities.servers, hashers.servers)?,
            failures: Failures::new(alloc, capacities.failures, hashers.failures)?,
        })
    }

    /// How many entries each store has, expired ones among them.
    pub fn sizes(&self) -> StoreSizes
        ensures { result ≡ sizes_of self.now }
    {
        StoreSizes {
            cache: self.cache.len(),
            delegations: self.delegations.len(),
            penalties: self.penalties.len(),
            failures: self.failures.len(),
        }
    }

    /// The cache's answer for this name and type at the moment `now`, in milliseconds, where an NXDOMAIN of a name
    /// above counts up to `top`. Its entry becomes the most recently used.
    pub fn look(
        &mut self,
        name: &Name<A>,
        kind: RType,
        top: &Name<A>,
        now: u64,
    ) -> Result<Option<Hit<A>>, Starved>
        ensures value { IfOk result (λ h. h ≡ hit_of (lent (asked_to top.now name.now (type_number kind)) now self.old.cache)) }
        ensures held { IfOk result (λ h. IfSome h (IsHeld (asked_to top.now name.now (type_number kind)) now self.old.cache)) }
        ensures ok { OnOk result (self.new ≡ after_look self.old (asked_to top.now name.now (type_number kind)) now) }
        ensures err { OnErr result (self.new ≡ self.old) }
    {
        Ok(self.cache.look(name, kind, top, now)?)
    }

    /// What `look` gives at the moment `now`, in milliseconds, whatever its `top`, where an entry of the name itself answers
    /// that is no alias. It becomes the most recently used. None, and no change, where there is none.
    pub fn look_end(
        &mut self,
        name: &Name<A>,
        kind: RType,
        now: u64,
    ) -> Result<Option<Hit<A>>, Starved>
        ensures ok { IfOk result (λ o. MatchOption o (self.new ≡ self.old) (λ h. (top : NameSpec) → IsUsed top now name.now (type_number kind) self.old h self.new)) }
        ensures err { OnErr result (self.new ≡ self.old) }
    {
        self.cache.look_end(name, kind, now)
    }

    /// What `look` would give. No entry is used by that.
    pub fn peek(
        &self,
        name: &Name<A>,
        kind: RType,
        top: &Name<A>,
        now: u64,
    ) -> Result<Option<Hit<A>>, Starved>
        ensures { IfOk result (λ h. h ≡ hit_of (lent (asked_to top.now name.now (type_number kind)) now self.now.cache)) }
    {
        Ok(self.cache.peek(name, kind, top, now)?)
    }

    /// The deepest cached delegation that lives at the moment `now`, in milliseconds, and that the name is at or under.
    /// It becomes the most recently used.
    pub fn best(&mut self, name: &Name<A>, now: u64) -> Result<Option<Cut<A>>, Starved>
        ensures relation { IfOk result (IsBest name.now now self.old.delegations) }
        ensures ok { OnOk result (self.new ≡ after_best self.old name.now now) }
        ensures err { OnErr result (self.new ≡ self.old) }
    {
        Ok(self.delegations.best(name, now)?)
    }

    /// The frame of this cut, its addresses in the order of their penalties. `nesting` is 0 for the name in a client's
    /// question, and one more for each look-up of a server's address.
    pub fn open(&self, alloc: A, cut: &Cut<A>, nesting: u8) -> Result<Frame<A>, Starved>
        ensures { IfOk result (λ f. f ≡ opened (level_of self.now) nesting cut.now) }
    {
        Ok(Frame::start(alloc, cut, nesting, &self.penalties)?)
    }

    /// Adds addresses that were found for a server's name: those that the frame does not know yet make its new plan.
    /// Running out of memory changes nothing.
    pub fn add(&self, frame: &mut Frame<A>, found: &[Addr]) -> Result<(), Starved>
        ensures ok { OnOk result (frame.new ≡ after_add (level_of self.now) frame.old (fresh_addresses frame.old found.now)) }
        ensures err { OnErr result (frame.new ≡ frame.old) }
    {
        frame.add(found, &self.penalties)?;
        Ok(())
    }

    /// Caches a link that is within the limits on TTLs (`classify::received`) for this name and type from the moment
    /// `now`, in milliseconds, for as long as it lives. Running out of memory changes nothing.
    #[tactic(auto, using(crate::proofs::Times::whole_ttl))]
    pub fn keep_link(
        &mut self,
        name: &Name<A>,
        kind: RType,
        link: &Link<A>,
        now: u64,
    ) -> Result<(), Starved>
        ensures ok { OnOk result (self.new ≡ with_link self.old name.now (type_number kind) (link_view link.now) now) }
        ensures err { OnErr result (self.new ≡ self.old) }
    {
        self.cache.keep(name, kind, link, lifetime(link), now)?;
        Ok(())
    }

    /// Caches what a frame can use of a delegation whose lowest TTL is this, in seconds, from the moment `now`, in
    /// milliseconds: a week at most (RFC 2181, section 8). Running out of memory changes nothing.
    pub fn keep_cut(&mut self, alloc: A, cut: &Cut<A>, ttl: u32, now: u64) -> Result<(), Starved>
        ensures ok { OnOk result (self.new ≡ with_cut self.old cut.now ttl now) }
        ensures err { OnErr result (self.new ≡ self.old) }
    {
        let kept = trimmed(alloc, cut)?;
        self.delegations.keep(kept, referral_lifetime(ttl), now)?;
        Ok(())
    }

    /// Halves the penalty of a server that answered, whatever its answer.
    pub fn answered(&mut self, server: Addr)
        ensures { self.new ≡ with_answer self.old server }
    {
        self.penalties.answered(server);
    }

    /// Raises the penalty of a server that did not answer in time. Running out of memory changes nothing.
    pub fn timed_out(&mut self, server: Addr) -> Result<(), Starved>
        ensures ok { OnOk result (self.new ≡ with_timeout self.old server) }
        ensures err { OnErr result (self.new ≡ self.old) }
    {
        self.penalties.timed_out(server)?;
        Ok(())
    }

    /// Caches that this server failed to answer the question at the moment `now`, in milliseconds (RFC 2308, section
    /// 7.1). Running out of memory changes nothing.
    pub fn failed(
        &mut self,
        name: &Name<A>,
        kind: RType,
        server: Addr,
        now: u64,
    ) -> Result<(), Starved>
        ensures ok { OnOk result (self.new ≡ with_failed self.old (failed_ask name.now (type_number kind) server) now) }
        ensures err { OnErr result (self.new ≡ self.old) }
    {
        self.failures.failed(name, kind, server, now)?;
        Ok(())
    }

    /// Whether this server failed to answer the question less than 30 seconds before the moment `now`, which is in
    /// milliseconds. Running out of memory changes nothing.
    pub fn is_failed(
        &mut self,
        name: &Name<A>,
        kind: RType,
        server: Addr,
        now: u64,
    ) -> Result<bool, Starved>
        ensures value { IfOk result (λ b. b ≡ is_failed now (failed_ask name.now (type_number kind) server) self.old.failures) }
        ensures ok { OnOk result (self.new ≡ after_failure_look self.old (failed_ask name.now (type_number kind) server) now) }
        ensures err { OnErr result (self.new ≡ self.old) }
    {
        Ok(self.failures.is_failed(name, kind, server, now)?)
    }
}
