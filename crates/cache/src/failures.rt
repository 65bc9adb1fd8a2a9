//! Servers that failed to answer a question, which are not asked it again at once (RFC 2308, section 7.1).
ghost use Rattle.std.specs.Prelude.{◌≡◌, [], IfOk, OnOk, OnErr, length};
ghost use Rattle.std.specs.NonZero.{non_zero_usize_get};
ghost use Rattle.lru.specs.LruCache.{lru_cache, IsValid};
ghost use Rattle.rdata.specs.Types.{type_number};
ghost use Rattle.lru_laws.specs.Orders.{KeepsOnly, LosesOnly, HasSame, MayGo};
ghost use Rattle.cache.specs.Failures.{failed_ask, same_failed, is_failed, after_failed, after_is_failed};
ghost use Rattle.cache.specs.FailureLaws.{same_failed_per, same_failed_equiv, same_failed_fed, fed_failed};

use dname::Name;
use limits::FAILURE_LIFETIME;
use lru::LruCache;
use memory::{Heap, Starved};
use rdata::{Addr, RType, is_young};
use std::alloc::{Allocator, Global};
use std::cmp::Eq;
use std::hash::{BuildHasher, Hash, Hasher};
use std::marker::Model;
use std::num::NonZeroUsize;

/// A question, and the server that failed to answer it.
#[derive(Drop)]
pub struct FailedAsk<A: Allocator = Global> {
    /// The name that was asked for.
    pub name: Name<A>,
    /// The type that was asked for.
    pub kind: RType,
    /// The server that was asked.
    pub server: Addr,
}

impl<A: Allocator> Model for FailedAsk<A> {
    ghost use Rattle.rdata.specs.Types.{type_number};
    ghost use Rattle.cache.specs.Failures.{FailedAsk as FailedAskSpec};

    ghost Value = { FailedAskSpec };

    ghost view = { λ f. record { name = f.name; kind = type_number f.kind; server = f.server } };
}

impl<A: Allocator> PartialEq for FailedAsk<A> {
    ghost eq = { same_failed };

    ghost laws = { same_failed_per };

    fn eq(&self, other: &FailedAsk<A>) -> bool {
        self.kind.number() == other.kind.number()
            && (self.server == other.server && self.name == other.name)
    }
}

impl<A: Allocator> Eq for FailedAsk<A> {
    ghost laws = { same_failed_equiv };
}

impl<A: Allocator> Hash for FailedAsk<A> {
    ghost hash_input = { fed_failed };

    ghost respects_eq = { same_failed_fed };

    fn hash<H: Hasher>(&self, state: &mut H) {
        self.name.hash(state);
        state.write(&self.server.0);
    }
}

/// The cached failures: which servers failed to answer which questions. Contracts see the entries, the most recently
/// used first, each with the moment at which it came, in milliseconds, and the capacity. An expired entry stays until
/// it is replaced or pushed out.
#[derive(Drop)]
pub struct Failures<S: BuildHasher + Drop, A: Allocator = Global> {
    entries: LruCache<FailedAsk<A>, u64, S, A>,
}

impl<S: BuildHasher + Drop, A: Allocator> Model for Failures<S, A> {
    ghost use Rattle.std.specs.Prelude.{ℕ};
    ghost use Rattle.lru.specs.LruCache.{LruCache as LruCacheSpec};
    ghost use Rattle.cache.specs.Failures.{FailedAsk as FailedAskSpec};

    ghost Value = { LruCacheSpec FailedAskSpec ℕ };

    ghost view = { λ f. f.entries };
}

impl<S: BuildHasher + Drop, A: Heap> Failures<S, A> {
    /// No failures, with room for `cap` of them: `is_failed` is false of each. Memory is taken as they come.
    pub fn new(alloc: A, cap: NonZeroUsize, hasher: S) -> Result<Failures<S, A>, Starved>
        ensures { IfOk result (λ f. f ≡ lru_cache [] (non_zero_usize_get cap)) }
    {
        let mut entries = LruCache::unbounded_with_hasher(alloc, hasher)?;
        entries.resize(cap);
        Ok(Failures { entries })
    }

    /// No two entries are of one question and server, and there are no more of them than the capacity.
    pub fn well_formed_law(&self)
        ensures { IsValid same_failed self.now }
    {
        let _ = self.entries.len();
    }

    /// How many entries there are, expired ones among them.
    pub fn len(&self) -> usize
        ensures { result ≡ length self.now.entries }
    {
        self.entries.len()
    }

    /// Caches that the server failed to answer this question at the moment `now`, in milliseconds. Its entry becomes
    /// the most recently used; a new one can push out the least recently used. With `now` 0, `is_failed` is true up to
    /// 29,999. Running out of memory changes nothing.
    pub fn failed(
        &mut self,
        name: &Name<A>,
        kind: RType,
        server: Addr,
        now: u64,
    ) -> Result<(), Starved>
        ensures ok { OnOk result (self.new ≡ lru_cache (after_failed self.old.cap (failed_ask name.now (type_number kind) server) now self.old.entries) self.old.cap) }
        ensures err { OnErr result (self.new ≡ self.old) }
        ensures only { KeepsOnly self.old.entries (λ e. e ≡ (failed_ask name.now (type_number kind) server, now)) self.new.entries }
        ensures gone { LosesOnly self.old.entries (MayGo same_failed self.old.cap (failed_ask name.now (type_number kind) server) self.old.entries) self.new.entries }
    {
        let key = FailedAsk {
            name: name.clone()?,
            kind,
            server,
        };
        self.entries.put(key, now)?;
        Ok(())
    }

    /// Whether the server failed to answer this question less than 30 seconds before the moment `now`, which is in
    /// milliseconds: for a failure at 0, true at 29,999 and false at 30,000. If so, the entry becomes the most recently
    /// used. Where there are no entries no memory is taken.
    pub fn is_failed(
        &mut self,
        name: &Name<A>,
        kind: RType,
        server: Addr,
        now: u64,
    ) -> Result<bool, Starved>
        ensures value { IfOk result (λ b. b ≡ is_failed now (failed_ask name.now (type_number kind) server) self.old.entries) }
        ensures ok { OnOk result (self.new ≡ lru_cache (after_is_failed now (failed_ask name.now (type_number kind) server) self.old.entries) self.old.cap) }
        ensures err { OnErr result (self.new ≡ self.old) }
        ensures members { HasSame self.old.entries self.new.entries }
    {
        if self.entries.is_empty() {
            return Ok(false);
        }
        let key = FailedAsk {
            name: name.clone()?,
            kind,
            server,
        };
        Ok(self.recall(&key, now))
    }

    // Whether the failure lives. If so, it becomes the most recently used.
    fn recall(&mut self, key: &FailedAsk<A>, now: u64) -> bool
        ensures value { result ≡ is_failed now key.now self.old.entries }
        ensures entries { self.new ≡ lru_cache (after_is_failed now key.now self.old.entries) self.old.cap }
    {
        let lives = self.lives(key, now);
        if lives {
            self.entries.promote(key);
        }
        lives
    }

    fn lives(&self, key: &FailedAsk<A>, now: u64) -> bool
        ensures { result ≡ is_failed now key.now self.now.entries }
    {
        match self.entries.peek(key) {
            Some(since) => is_young(FAILURE_LIFETIME, *since, now),
            None => false,
        }
    }
}
