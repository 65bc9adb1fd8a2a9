//! Penalties of addresses that did not answer.
ghost use Rattle.std.specs.Prelude.{◌≡◌, ◌≤◌, [], IfOk, OnOk, OnErr, IsOk, IsSome, length};
ghost use Rattle.std.specs.Map.{lookup};
ghost use Rattle.std.specs.NonZero.{non_zero_usize_get};
ghost use Rattle.lru.specs.LruCache.{lru_cache, IsValid};
ghost use Rattle.lru_laws.specs.Orders.{KeepsOnly, LosesOnly, MayGo};
ghost use Rattle.retry.specs.Penalties.{same_addr, penalty, raised, timed_out, answered, AreAtMost};

use lru::LruCache;
use memory::{Heap, Starved};
use rdata::Addr;
use std::alloc::{Allocator, Global};
use std::hash::BuildHasher;
use std::marker::Model;
use std::num::NonZeroUsize;

/// The penalties of the addresses that were asked last, from 0 to 8; an address of which nothing is kept
/// has 0. Contracts see the entries, the most recently used first, and the capacity.
#[derive(Drop)]
pub struct Penalties<S: BuildHasher + Drop, A: Allocator = Global> {
    levels: LruCache<Addr, u8, S, A>,
}

impl<S: BuildHasher + Drop, A: Allocator> Model for Penalties<S, A> {
    ghost use Rattle.std.specs.Prelude.{ℕ};
    ghost use Rattle.lru.specs.LruCache.{LruCache as LruCacheSpec};
    ghost use Rattle.rdata.specs.declared.addr.Addr.{Addr as AddrSpec};
    ghost use Rattle.retry.specs.Penalties.{AreAtMost};

    ghost Value = { LruCacheSpec AddrSpec ℕ };

    ghost view = { λ p. p.levels };

    ghost invariant = { λ p. AreAtMost 8 p.levels.entries };
}

impl<S: BuildHasher + Drop, A: Heap> Penalties<S, A> {
    /// No penalties, with room for those of `cap` addresses, which is taken as they come.
    pub fn new(alloc: A, cap: NonZeroUsize, hasher: S) -> Result<Penalties<S, A>, Starved>
        ensures { IfOk result (λ p. p ≡ lru_cache [] (non_zero_usize_get cap)) }
    {
        let mut levels = LruCache::unbounded_with_hasher(alloc, hasher)?;
        levels.resize(cap);
        Ok(Penalties { levels })
    }

    /// An ask of this address timed out: its penalty rises by 2, up to 8, and its entry goes first. An
    /// address without an entry can push the last entry out, and can want memory: then nothing changes.
    pub fn timed_out(&mut self, addr: Addr) -> Result<(), Starved>
        ensures ok { OnOk result (self.new ≡ lru_cache (timed_out addr self.old.cap self.old.entries) self.old.cap) }
        ensures err { OnErr result (self.new ≡ self.old) }
        ensures known { IsSome (lookup (same_addr addr) self.old.entries) → IsOk result }
        ensures only { KeepsOnly self.old.entries (λ e. e ≡ (addr, raised addr self.old.entries)) self.new.entries }
        ensures gone { LosesOnly self.old.entries (MayGo same_addr self.old.cap addr self.old.entries) self.new.entries }
    {
        let level = (self.of(addr) + 2).min(8);
        self.levels.put(addr, level)?;
        Ok(())
    }
}

impl<S: BuildHasher + Drop, A: Allocator> Penalties<S, A> {
    /// The penalty of this address, 0 to 8.
    pub fn of(&self, addr: Addr) -> u8
        ensures value { result ≡ penalty addr self.now.entries }
        ensures most { result ≤ 8 }
    {
        self.levels.peek(&addr).copied().unwrap_or(0)
    }

    /// How many addresses have a penalty that is kept, one of 0 among them.
    pub fn len(&self) -> usize
        ensures { result ≡ length self.now.entries }
    {
        self.levels.len()
    }

    /// Every penalty that is kept is at most 8; no two are of one address, and there are no more of them than
    /// the capacity.
    pub fn well_formed_law(&self)
        ensures most { AreAtMost 8 self.now.entries }
        ensures valid { IsValid same_addr self.now }
    {
        let _ = self.levels.len();
    }

    /// This address answered: the penalty that is kept is halved, rounded down, and its entry goes first.
    pub fn answered(&mut self, addr: Addr)
        ensures value { self.new ≡ lru_cache (answered addr self.old.entries) self.old.cap }
        ensures only { KeepsOnly self.old.entries (λ e. e.0 ≡ addr) self.new.entries }
        ensures gone { LosesOnly self.old.entries (λ e. e.0 ≡ addr) self.new.entries }
    {
        if let Some(level) = self.levels.get_mut(&addr) {
            *level /= 2;
        }
    }
}
