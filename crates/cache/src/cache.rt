//! The cache: links are put in, and looked up.
ghost use Rattle.std.specs.Prelude.{◌≡◌, ◌≢◌, ℕ, List, [], MatchOption, IfOk, OnOk, OnErr, IfSome, IfNone, Contains, length};
ghost use Rattle.std.specs.NonZero.{non_zero_usize_get};
ghost use Rattle.lru.specs.LruCache.{lru_cache, IsValid};
ghost use Rattle.rdata.specs.Types.{type_number};
ghost use Rattle.zone.specs.Views.{link_view};
ghost use Rattle.lru_laws.specs.Orders.{KeepsOnly, LosesOnly, HasSame};
ghost use Rattle.cache.specs.Keys.{same_key, key_for};
ghost use Rattle.cache.specs.Cached.{as_kept, kept_ttl, IsUsed, asked_to, hit_of, lent, moved, after_keep, IsKept, IsGone, IsHeld, IsMiss};

use crate::entries::Entries;
use crate::hit::Hit;
use crate::key::{Key, Slot};
use crate::packed::Packed;
use dname::Name;
use memory::{Heap, Starved};
use rdata::{GREATEST_TTL, RType};
use std::alloc::{Allocator, Global};
use std::hash::BuildHasher;
use std::marker::Model;
use std::num::NonZeroUsize;
use zone::Link;

/// The cached links. Contracts see the entries, the most recently used first, and the capacity. An expired entry stays
/// until it is replaced or pushed out.
#[derive(Drop)]
pub struct Cache<S: BuildHasher + Drop, A: Allocator = Global> {
    entries: Entries<S, A>,
    // The name of the last key: the next key takes its memory.
    spare: Option<Name<A>>,
}

impl<S: BuildHasher + Drop, A: Allocator> Model for Cache<S, A> {
    ghost use Rattle.lru.specs.LruCache.{LruCache as LruCacheSpec};
    ghost use Rattle.cache.specs.Keys.{Key as KeySpec};
    ghost use Rattle.cache.specs.Cached.{Hit as HitSpec};

    ghost Value = { LruCacheSpec KeySpec HitSpec };

    ghost view = { λ c. c.entries.lru };
}

impl<S: BuildHasher + Drop, A: Heap> Cache<S, A> {
    /// An empty cache with room for `cap` links: a look-up finds nothing in it. Memory is taken as links come.
    pub fn new(alloc: A, cap: NonZeroUsize, hasher: S) -> Result<Cache<S, A>, Starved>
        ensures { IfOk result (λ c. c ≡ lru_cache [] (non_zero_usize_get cap)) }
    {
        Ok(Cache {
            entries: Entries::new(alloc, cap, hasher)?,
            spare: None,
        })
    }

    /// No two entries have one key, and there are no more of them than the capacity.
    pub fn well_formed_law(&self)
        ensures { IsValid same_key self.now }
    {
        self.entries.well_formed_law();
    }

    /// How many entries there are, expired ones among them.
    pub fn len(&self) -> usize
        ensures { result ≡ length self.now.entries }
    {
        self.entries.len()
    }

    /// Caches the link for this name and type from the moment `now`, in milliseconds, for `ttl` seconds. With `ttl` 300
    /// and `now` 0, `look` finds it up to 299,999. More than 2,147,483,647 counts as that (RFC 2181, section 8). A link
    /// with TTL 0 is not cached, and the entry under its key goes. Running out of memory changes nothing.
    pub fn keep(
        &mut self,
        name: &Name<A>,
        kind: RType,
        link: &Link<A>,
        ttl: u32,
        now: u64,
    ) -> Result<(), Starved>
        ensures ok { OnOk result (self.new ≡ lru_cache (after_keep self.old.cap name.now (type_number kind) (as_kept (link_view link.now) (kept_ttl ttl) now) self.old.entries) self.old.cap) }
        ensures err { OnErr result (self.new ≡ self.old) }
        ensures there { OnOk result (ttl ≢ 0 → Contains self.new.entries (key_for name.now (type_number kind) (link_view link.now), as_kept (link_view link.now) (kept_ttl ttl) now)) }
        ensures only { KeepsOnly self.old.entries (IsKept name.now (type_number kind) (as_kept (link_view link.now) (kept_ttl ttl) now)) self.new.entries }
        ensures gone { LosesOnly self.old.entries (IsGone self.old.cap name.now (type_number kind) (as_kept (link_view link.now) (kept_ttl ttl) now) self.old.entries) self.new.entries }
    {
        let spare = self.copy_of(name)?;
        let error = self.entries.key(spare, Slot::NameError);
        let key = Key {
            name: name.clone()?,
            slot: Slot::for_link(kind, link),
            hash: error.hash,
        };
        let kept = ttl.min(GREATEST_TTL);
        let packed = Packed::of(self.entries.allocator(), name, link, kept, now)?;
        self.entries.store(key, packed)?;
        self.entries.sweep(&error, link);
        self.put_back(error);
        Ok(())
    }

    /// The cached answer for this name and type at the moment `now`, in milliseconds. It is the name's NXDOMAIN, the
    /// link of that type, for a type other than CNAME the alias, or the NXDOMAIN of a name above up to `top`, the
    /// nearest first (RFC 8020, section 2). The first of these that lives answers and becomes the most recently used.
    /// With an NXDOMAIN of `b.example` cached, that is the answer for `a.b.example`, where `top` is the root. For type
    /// CNAME an alias is an RRset.
    pub fn look(
        &mut self,
        name: &Name<A>,
        kind: RType,
        top: &Name<A>,
        now: u64,
    ) -> Result<Option<Hit<A>>, Starved>
        ensures value { IfOk result (λ h. h ≡ hit_of (lent (asked_to top.now name.now (type_number kind)) now self.old.entries)) }
        ensures ok { OnOk result (self.new ≡ lru_cache (moved (lent (asked_to top.now name.now (type_number kind)) now self.old.entries) self.old.entries) self.old.cap) }
        ensures err { OnErr result (self.new ≡ self.old) }
        ensures held { IfOk result (λ h. IfSome h (IsHeld (asked_to top.now name.now (type_number kind)) now self.old.entries)) }
        ensures missed { IfOk result (λ h. IfNone h (IsMiss (asked_to top.now name.now (type_number kind)) now self.old.entries)) }
        ensures members { HasSame self.old.entries self.new.entries }
    {
        let spare = self.copy_of(name)?;
        let mut key = self.entries.key(spare, Slot::NameError);
        let hit = self.entries.look_at(&mut key, kind, top, now)?;
        self.put_back(key);
        Ok(hit)
    }

    /// What `look` would give at the moment `now`, in milliseconds. No entry is used by that: their order stays as it
    /// is.
    pub fn peek(
        &self,
        name: &Name<A>,
        kind: RType,
        top: &Name<A>,
        now: u64,
    ) -> Result<Option<Hit<A>>, Starved>
        ensures { IfOk result (λ h. h ≡ hit_of (lent (asked_to top.now name.now (type_number kind)) now self.now.entries)) }
    {
        let mut key = self.entries.key(name.clone()?, Slot::NameError);
        let found = self.entries.find(&mut key, kind, top, now);
        drop(key);
        found
    }

    /// What `look` gives for this name and type at the moment `now`, in milliseconds, whatever its `top`, where an entry
    /// of the name itself answers that is no alias: its NXDOMAIN, or the link of the type. It becomes the most recently
    /// used. None, and no change, where there is neither.
    pub fn look_end(
        &mut self,
        name: &Name<A>,
        kind: RType,
        now: u64,
    ) -> Result<Option<Hit<A>>, Starved>
        ensures ok { IfOk result (λ o. MatchOption o (self.new ≡ self.old) (λ h. (top : List (List ℕ)) → IsUsed (asked_to top name.now (type_number kind)) now self.old h self.new)) }
        ensures err { OnErr result (self.new ≡ self.old) }
    {
        let spare = self.copy_of(name)?;
        let mut key = self.entries.key(spare, Slot::NameError);
        let found = self.entries.look_end(&mut key, kind, now);
        self.put_back(key);
        found
    }

    // A copy of this name, in the memory of the last one.
    fn copy_of(&mut self, name: &Name<A>) -> Result<Name<A>, Starved>
        ensures name { IfOk result (λ n. n ≡ name.now) }
        ensures same { self.new ≡ self.old }
    {
        match self.spare.take() {
            Some(mut spare) => {
                spare.copy_from(name)?;
                Ok(spare)
            }
            None => Ok(name.clone()?),
        }
    }

    fn put_back(&mut self, key: Key<A>)
        ensures { self.new ≡ self.old }
    {
        self.spare = Some(key.name);
    }
}
