//! The entries of a cache, found by the hash of their name, which is taken once for all keys of that name.
ghost use Rattle.std.specs.Prelude.{◌≡◌, [], IfOk, OnOk, OnErr, length, option_map, option_copied};
ghost use Rattle.std.specs.NonZero.{non_zero_usize_get};
ghost use Rattle.lru.specs.LruCache.{lru_cache, IsValid, promoted};
ghost use Rattle.zone.specs.Views.{link_view};
ghost use Rattle.cache.specs.Keys.{same_key, error_key};
ghost use Rattle.cache.specs.Kinds.{slot_view};
ghost use Rattle.cache.specs.Hashed.{plain, hashed, name_hash, IsHashed};
ghost use Rattle.cache.specs.Cached.{is_error, live_at, swept, stored};
ghost use Rattle.cache.specs.Packed.{hit_of_packed};

use crate::key::{Key, Slot};
use crate::packed::Packed;
use dname::Name;
use lru::LruCache;
use lru_laws::keep_for;
use memory::{Heap, Starved};
use std::alloc::{Allocator, Global};
use std::hash::{BuildHasher, BuildHasherDefault, FoldHasher};
use std::marker::Model;
use std::num::NonZeroUsize;
use zone::Link;

/// The entries of a cache by their last use, and what hashes their names. Contracts see the entries without the hashes.
#[derive(Drop)]
pub struct Entries<S: BuildHasher + Drop, A: Allocator = Global> {
    // Its own hasher has no secret: it sees the hashes of names alone.
    links: LruCache<Key<A>, Packed<A>, BuildHasherDefault<FoldHasher>, A>,
    hasher: S,
}

impl<S: BuildHasher + Drop, A: Allocator> Model for Entries<S, A> {
    ghost use Rattle.cache.specs.Hashed.{Entries as EntriesSpec};

    ghost Value = { EntriesSpec S };

    ghost use Rattle.lru.specs.LruCache.{lru_cache};
    ghost use Rattle.cache.specs.Hashed.{name_hash, unhashed, AreHashed};
    ghost use Rattle.cache.specs.Packed.{unpacked};

    ghost view = { λ e. record { lru = lru_cache (unpacked (unhashed e.links.entries)) e.links.cap; hasher = e.hasher } };

    ghost invariant = { λ e. AreHashed (name_hash S.Hasher.write S.Hasher.finish (S.build_hasher e.hasher)) e.links.entries };
}

fn denies<A: Allocator>(link: &Link<A>) -> bool
    ensures { result ≡ is_error (link_view link.now) }
{
    matches!(link, Link::NxDomain(_))
}

impl<S: BuildHasher + Drop, A: Heap> Entries<S, A> {
    // No entries, with this capacity. Memory is taken as entries come.
    pub(crate) fn new(alloc: A, cap: NonZeroUsize, hasher: S) -> Result<Entries<S, A>, Starved>
        ensures { IfOk result (λ e. e.lru ≡ lru_cache [] (non_zero_usize_get cap)) }
    {
        let mut links = LruCache::unbounded_with_hasher(alloc, BuildHasherDefault::new())?;
        links.resize(cap);
        Ok(Entries { links, hasher })
    }

    // No two entries have one key, and there are no more of them than the capacity.
    pub(crate) fn well_formed_law(&self)
        ensures { IsValid same_key self.now.lru }
    {
        let _ = self.links.len();
    }

    // How many entries there are.
    pub(crate) fn len(&self) -> usize
        ensures { result ≡ length self.now.lru.entries }
    {
        self.links.len()
    }

    // What the memory of the entries is taken from.
    pub(crate) fn allocator(&self) -> A {
        *self.links.allocator()
    }

    // The hash of a name.
    pub(crate) fn hash_of(&self, name: &Name<A>) -> u64
        ensures { result ≡ name_hash S.Hasher.write S.Hasher.finish (S.build_hasher self.now.hasher) name.now }
    {
        self.hasher.hash_one(name)
    }

    // The key of this name.
    pub(crate) fn key(&self, name: Name<A>, slot: Slot) -> Key<A>
        ensures { result ≡ hashed (name_hash S.Hasher.write S.Hasher.finish (S.build_hasher self.now.hasher)) (record { name = name; slot = slot_view slot }) }
    {
        let hash = self.hash_of(&name);
        Key { name, slot, hash }
    }

    // The entry under the key, if it lives.
    pub(crate) fn live_at(&self, key: &Key<A>, now: u64) -> Option<&Packed<A>>
        requires { IsHashed (name_hash S.Hasher.write S.Hasher.finish (S.build_hasher self.now.hasher)) key.now }
        ensures { option_map (hit_of_packed key.now.name) (option_copied result) ≡ live_at now (plain key.now) self.now.lru.entries }
    {
        match self.links.peek(key) {
            Some(kept) if kept.is_live(now) => Some(kept),
            _ => None,
        }
    }

    // The entry of the key becomes the most recently used.
    pub(crate) fn promote(&mut self, key: &Key<A>)
        requires { IsHashed (name_hash S.Hasher.write S.Hasher.finish (S.build_hasher self.old.hasher)) key.now }
        ensures { self.new ≡ record self.old { lru = lru_cache (promoted (same_key (plain key.now)) self.old.lru.entries) self.old.lru.cap } }
    {
        self.links.promote(key);
    }

    // Stores a link for its TTL.
    pub(crate) fn store(&mut self, key: Key<A>, packed: Packed<A>) -> Result<(), Starved>
        requires { IsHashed (name_hash S.Hasher.write S.Hasher.finish (S.build_hasher self.old.hasher)) key }
        ensures ok { OnOk result (self.new ≡ record self.old { lru = lru_cache (stored self.old.lru.cap (plain key) (hit_of_packed key.name packed) self.old.lru.entries) self.old.lru.cap }) }
        ensures err { OnErr result (self.new ≡ self.old) }
    {
        let ttl = packed.ttl();
        keep_for(&mut self.links, key, packed, ttl)
    }

    // The NXDOMAIN of a name goes where this link of it is none.
    pub(crate) fn sweep(&mut self, error: &Key<A>, link: &Link<A>)
        requires is { plain error.now ≡ error_key error.now.name }
        requires hashed { IsHashed (name_hash S.Hasher.write S.Hasher.finish (S.build_hasher self.old.hasher)) error.now }
        ensures { self.new ≡ record self.old { lru = lru_cache (swept error.now.name (link_view link.now) self.old.lru.entries) self.old.lru.cap } }
    {
        if !denies(link) {
            drop(self.links.pop(error));
        }
    }
}
