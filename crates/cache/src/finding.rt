//! Which entry answers a question.
ghost use Rattle.std.specs.Prelude.{◌≡◌, ◌∷◌, [], IfOk, OnOk, OnErr, IfSome, IfNone, MatchOption, List, ℕ};
ghost use Rattle.std.specs.Bool.{OnTrue, OnFalse};
ghost use Rattle.lru.specs.LruCache.{lru_cache};
ghost use Rattle.dname.specs.Labels.{is_under};
ghost use Rattle.rdata.specs.Types.{type_number};
ghost use Rattle.lru_laws.specs.Orders.{HasSame};
ghost use Rattle.cache.specs.Hashed.{name_hash, plain, IsHashed};
ghost use Rattle.cache.specs.Cached.{own_end, IsUsed, set_at, alias_at, under, answer, asked_to, above_to, error_above, hit_of, lent, moved, IsHeld, IsMiss};

use crate::entries::Entries;
use crate::hit::Hit;
use crate::key::{Key, Slot};
use dname::Name;
use memory::{Heap, Starved};
use rdata::RType;
use std::alloc::Allocator;
use std::hash::BuildHasher;

// Whether the name is at or under `top`. Under the root each is, which is seen without passing its labels.
fn is_within<A: Allocator>(name: &Name<A>, top: &Name<A>) -> bool
    ensures { result ≡ is_under name.now top.now }
{
    name.well_formed_law();
    top.is_root() || name.is_at_or_under(top)
}

// Makes the name the one above it; false where that is not at or under `top`.
fn climb<A: Allocator>(name: &mut Name<A>, top: &Name<A>) -> bool
    ensures up { OnTrue result (above_to top.now name.old ≡ name.new ∷ above_to top.now name.new) }
    ensures end { OnFalse result (above_to top.now name.old ≡ []) }
{
    top.well_formed_law();
    name.ascend() && is_within(name, top)
}

impl<S: BuildHasher + Drop, A: Heap> Entries<S, A> {
    // The answer for the key's name and this type, whose entry becomes the most recently used; the key becomes that of
    // the entry.
    pub(crate) fn look_at(
        &mut self,
        key: &mut Key<A>,
        kind: RType,
        top: &Name<A>,
        now: u64,
    ) -> Result<Option<Hit<A>>, Starved>
        requires { IsHashed (name_hash S.Hasher.write S.Hasher.finish (S.build_hasher self.old.hasher)) key.old }
        ensures value { IfOk result (λ h. h ≡ hit_of (lent (asked_to top.now key.old.name (type_number kind)) now self.old.lru.entries)) }
        ensures ok { OnOk result (self.new.lru ≡ lru_cache (moved (lent (asked_to top.now key.old.name (type_number kind)) now self.old.lru.entries) self.old.lru.entries) self.old.lru.cap) }
        ensures err { OnErr result (self.new ≡ self.old) }
        ensures held { IfOk result (λ h. IfSome h (IsHeld (asked_to top.now key.old.name (type_number kind)) now self.old.lru.entries)) }
        ensures missed { IfOk result (λ h. IfNone h (IsMiss (asked_to top.now key.old.name (type_number kind)) now self.old.lru.entries)) }
        ensures members { HasSame self.old.lru.entries self.new.lru.entries }
    {
        let hit = self.find(key, kind, top, now)?;
        if hit.is_some() {
            self.promote(&*key);
        }
        Ok(hit)
    }

    // The answer of the key's own name for this type that is no alias, whose entry becomes the most recently used. None,
    // and no change, where there is none.
    pub(crate) fn look_end(
        &mut self,
        key: &mut Key<A>,
        kind: RType,
        now: u64,
    ) -> Result<Option<Hit<A>>, Starved>
        requires { IsHashed (name_hash S.Hasher.write S.Hasher.finish (S.build_hasher self.old.hasher)) key.old }
        ensures ok { IfOk result (λ o. MatchOption o (self.new.lru ≡ self.old.lru) (λ h. (top : List (List ℕ)) → IsUsed (asked_to top key.old.name (type_number kind)) now self.old.lru h self.new.lru)) }
        ensures err { OnErr result (self.new ≡ self.old) }
    {
        let hit = self.find_end(key, kind, now)?;
        if hit.is_some() {
            self.promote(&*key);
        }
        Ok(hit)
    }

    // The answer for the key's name and this type; the key becomes that of its entry.
    pub(crate) fn find(
        &self,
        key: &mut Key<A>,
        kind: RType,
        top: &Name<A>,
        now: u64,
    ) -> Result<Option<Hit<A>>, Starved>
        requires { IsHashed (name_hash S.Hasher.write S.Hasher.finish (S.build_hasher self.now.hasher)) key.old }
        ensures hashed { IsHashed (name_hash S.Hasher.write S.Hasher.finish (S.build_hasher self.now.hasher)) key.new }
        ensures value { IfOk result (λ h. under (plain key.new) h ≡ lent (asked_to top.now key.old.name (type_number kind)) now self.now.lru.entries) }
    {
        match self.find_own(key, kind, now)? {
            Some(hit) => Ok(Some(hit)),
            None => self.error_above(key, top, now),
        }
    }

    // Makes the key that of the name above; false where that is not at or under `top`.
    fn climb(&self, key: &mut Key<A>, top: &Name<A>) -> bool
        ensures up { OnTrue result (above_to top.now key.old.name ≡ key.new.name ∷ above_to top.now key.new.name) }
        ensures end { OnFalse result (above_to top.now key.old.name ≡ []) }
        ensures slot { key.new.slot ≡ key.old.slot }
        ensures hashed { IsHashed (name_hash S.Hasher.write S.Hasher.finish (S.build_hasher self.now.hasher)) key.new }
    {
        let rises = climb(&mut key.name, top);
        key.hash = self.hash_of(&key.name);
        rises
    }

    // The NXDOMAIN of the nearest name above, up to `top`, that has a live one; the key becomes that of its entry.
    fn error_above(
        &self,
        key: &mut Key<A>,
        top: &Name<A>,
        now: u64,
    ) -> Result<Option<Hit<A>>, Starved>
        requires { IsHashed (name_hash S.Hasher.write S.Hasher.finish (S.build_hasher self.now.hasher)) key.old }
        ensures hashed { IsHashed (name_hash S.Hasher.write S.Hasher.finish (S.build_hasher self.now.hasher)) key.new }
        ensures value { IfOk result (λ h. under (plain key.new) h ≡ error_above (above_to top.now key.old.name) now self.now.lru.entries) }
    {
        key.slot = Slot::NameError;
        while self.climb(key, top) {
            if let Some(hit) = self.set_at(key, now)? {
                return Ok(Some(hit));
            }
        }
        Ok(None)
    }

    // The answer of the key's own name for this type; the key becomes that of its entry.
    fn find_own(&self, key: &mut Key<A>, kind: RType, now: u64) -> Result<Option<Hit<A>>, Starved>
        requires { IsHashed (name_hash S.Hasher.write S.Hasher.finish (S.build_hasher self.now.hasher)) key.old }
        ensures hashed { IsHashed (name_hash S.Hasher.write S.Hasher.finish (S.build_hasher self.now.hasher)) key.new }
        ensures value { IfOk result (λ h. under (plain key.new) h ≡ answer key.old.name (type_number kind) now self.now.lru.entries) }
        ensures name { key.new.name ≡ key.old.name }
    {
        // 1. The name's NXDOMAIN, or the link of the type. For type CNAME nothing else answers.
        if let Some(hit) = self.find_end(key, kind, now)? {
            return Ok(Some(hit));
        }
        if kind.number() == RType::Cname.number() {
            return Ok(None);
        }
        // 2. The alias, for another type.
        key.slot = Slot::Of(RType::Cname);
        self.alias_at(key, now)
    }

    // The answer of the key's own name for this type that is no alias; the key becomes that of its entry.
    fn find_end(&self, key: &mut Key<A>, kind: RType, now: u64) -> Result<Option<Hit<A>>, Starved>
        requires { IsHashed (name_hash S.Hasher.write S.Hasher.finish (S.build_hasher self.now.hasher)) key.old }
        ensures hashed { IsHashed (name_hash S.Hasher.write S.Hasher.finish (S.build_hasher self.now.hasher)) key.new }
        ensures value { IfOk result (λ h. under (plain key.new) h ≡ own_end key.old.name (type_number kind) now self.now.lru.entries) }
        ensures name { key.new.name ≡ key.old.name }
    {
        key.slot = Slot::NameError;
        if let Some(hit) = self.set_at(key, now)? {
            return Ok(Some(hit));
        }
        key.slot = Slot::Of(kind);
        self.set_at(key, now)
    }

    fn set_at(&self, key: &Key<A>, now: u64) -> Result<Option<Hit<A>>, Starved>
        requires { IsHashed (name_hash S.Hasher.write S.Hasher.finish (S.build_hasher self.now.hasher)) key.now }
        ensures { IfOk result (λ h. h ≡ set_at now (plain key.now) self.now.lru.entries) }
    {
        match self.live_at(key, now) {
            Some(kept) => Ok(Some(kept.as_set(self.allocator(), &key.name)?)),
            None => Ok(None),
        }
    }

    fn alias_at(&self, key: &Key<A>, now: u64) -> Result<Option<Hit<A>>, Starved>
        requires { IsHashed (name_hash S.Hasher.write S.Hasher.finish (S.build_hasher self.now.hasher)) key.now }
        ensures { IfOk result (λ h. h ≡ alias_at now (plain key.now) self.now.lru.entries) }
    {
        match self.live_at(key, now) {
            Some(kept) => Ok(kept.as_alias(&key.name)?),
            None => Ok(None),
        }
    }
}
