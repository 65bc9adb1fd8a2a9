//! Cached delegations, and the deepest one over a name.
ghost use Rattle.std.specs.Prelude.{◌≡◌, ◌≢◌, [], IfOk, OnOk, OnErr, IfSome, Contains, length, option_map};
ghost use Rattle.std.specs.NonZero.{non_zero_usize_get};
ghost use Rattle.lru.specs.LruCache.{lru_cache, IsValid};
ghost use Rattle.dname.specs.Labels.{same_name, IsAtOrUnder};
ghost use Rattle.lru_laws.specs.Orders.{KeepsOnly, LosesOnly, HasSame};
ghost use Rattle.referral.specs.Cuts.{as_kept, known_of, AreNamed, live_at, under, nearest, cut_of, after_best, after_keep, IsBest, IsKept, IsGone};

use crate::cut::{Cut, Servers};
use dname::Name;
use lru::LruCache;
use lru_laws::keep_for;
use memory::{Heap, Starved};
use std::alloc::{Allocator, Global};
use std::hash::BuildHasher;
use std::marker::Model;
use std::num::NonZeroUsize;

/// The cached cuts. Contracts see the entries, the most recently used first, and the capacity. An expired entry stays
/// until it is replaced or pushed out.
#[derive(Drop)]
pub struct Delegations<S: BuildHasher + Drop, A: Allocator = Global> {
    entries: LruCache<Name<A>, Servers<A>, S, A>,
}

impl<S: BuildHasher + Drop, A: Allocator> Model for Delegations<S, A> {
    ghost use Rattle.std.specs.Prelude.{List, ℕ};
    ghost use Rattle.lru.specs.LruCache.{LruCache as LruCacheSpec};
    ghost use Rattle.referral.specs.Cuts.{Known};

    ghost Value = { LruCacheSpec (List (List ℕ)) Known };

    ghost use Rattle.lru.specs.LruCache.{lru_cache};
    ghost use Rattle.referral.specs.Cuts.{shown};

    ghost view = { λ d. lru_cache (shown d.entries.entries) d.entries.cap };
}

impl<S: BuildHasher + Drop, A: Heap> Delegations<S, A> {
    /// No cuts, with room for `cap` of them. Memory is taken as they come.
    pub fn new(alloc: A, cap: NonZeroUsize, hasher: S) -> Result<Delegations<S, A>, Starved>
        ensures { IfOk result (λ d. d ≡ lru_cache [] (non_zero_usize_get cap)) }
    {
        let mut entries = LruCache::unbounded_with_hasher(alloc, hasher)?;
        entries.resize(cap);
        Ok(Delegations { entries })
    }

    /// Each entry stands under the owner of its cut, no two under one, and there are no more of them than
    /// the capacity.
    pub fn well_formed_law(&self)
        ensures named { AreNamed self.now.entries }
        ensures valid { IsValid same_name self.now }
    {
        let _ = self.entries.len();
    }

    /// How many entries there are, expired ones among them.
    pub fn len(&self) -> usize
        ensures { result ≡ length self.now.entries }
    {
        self.entries.len()
    }

    /// Caches the cut from the moment `now`, in milliseconds, for `ttl` seconds. A cut with TTL 0 is not cached, and
    /// the entry of its name goes. Running out of memory changes nothing, and the cut is dropped.
    pub fn keep(&mut self, cut: Cut<A>, ttl: u32, now: u64) -> Result<(), Starved>
        ensures ok { OnOk result (self.new ≡ lru_cache (after_keep self.old.cap (as_kept cut ttl now) self.old.entries) self.old.cap) }
        ensures err { OnErr result (self.new ≡ self.old) }
        ensures there { OnOk result (ttl ≢ 0 → Contains self.new.entries (cut.owner, as_kept cut ttl now)) }
        ensures only { KeepsOnly self.old.entries (IsKept (as_kept cut ttl now)) self.new.entries }
        ensures gone { LosesOnly self.old.entries (IsGone self.old.cap (as_kept cut ttl now) self.old.entries) self.new.entries }
    {
        let (at, servers) = Servers::of(cut, ttl, now);
        self.store(at, servers)?;
        Ok(())
    }

    fn store(&mut self, at: Name<A>, servers: Servers<A>) -> Result<(), Starved>
        ensures ok { OnOk result (self.new ≡ lru_cache (after_keep self.old.cap (known_of at servers) self.old.entries) self.old.cap) }
        ensures err { OnErr result (self.new ≡ self.old) }
    {
        let ttl = servers.ttl();
        keep_for(&mut self.entries, at, servers, ttl)
    }

    /// The deepest cut that lives at the moment `now`, in milliseconds, and that the name is at or under. It
    /// becomes the most recently used.
    pub fn best(&mut self, name: &Name<A>, now: u64) -> Result<Option<Cut<A>>, Starved>
        ensures value { IfOk result (λ c. c ≡ cut_of (nearest name.now now self.old.entries)) }
        ensures relation { IfOk result (IsBest name.now now self.old.entries) }
        ensures ok { OnOk result (self.new ≡ lru_cache (after_best name.now now self.old.entries) self.old.cap) }
        ensures err { OnErr result (self.new ≡ self.old) }
        ensures over { IfOk result (λ c. IfSome c (λ k. IsAtOrUnder name.now k.owner)) }
        ensures members { HasSame self.old.entries self.new.entries }
    {
        let mut at = name.clone()?;
        match self.find(&mut at, now)? {
            Some(servers) => {
                self.entries.promote(&at);
                Ok(Some(servers.into_cut(at)))
            }
            None => Ok(None),
        }
    }

    // The servers of the nearest live cut; the name becomes that of the cut.
    fn find(&self, at: &mut Name<A>, now: u64) -> Result<Option<Servers<A>>, Starved>
        ensures { IfOk result (λ s. under at.new (option_map (known_of at.new) s) ≡ nearest at.old now self.now.entries) }
    {
        loop {
            at.well_formed_law();
            if let Some(servers) = self.live_at(at, now)? {
                return Ok(Some(servers));
            }
            if !at.ascend() {
                return Ok(None);
            }
        }
    }

    fn live_at(&self, at: &Name<A>, now: u64) -> Result<Option<Servers<A>>, Starved>
        ensures { IfOk result (λ s. option_map (known_of at.now) s ≡ live_at now at.now self.now.entries) }
    {
        match self.entries.peek(at) {
            Some(servers) if servers.is_live(now) => Ok(Some(servers.clone()?)),
            _ => Ok(None),
        }
    }
}
