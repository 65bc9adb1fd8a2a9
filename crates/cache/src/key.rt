//! The key under which a link is cached (RFC 2308, section 5).
ghost use Rattle.std.specs.Prelude.{◌≡◌, true};
ghost use Rattle.cache.specs.Keys.{same_slot, slot_for};
ghost use Rattle.rdata.specs.Types.{type_number};
ghost use Rattle.cache.specs.Kinds.{slot_view};
ghost use Rattle.cache.specs.Hashed.{same_hashed};
ghost use Rattle.cache.specs.Laws.{same_hashed_per, same_hashed_equiv, same_hashed_fed, fed_hash};
ghost use Rattle.zone.specs.Views.{link_view};

use dname::Name;
use rdata::RType;
use std::alloc::{Allocator, Global};
use std::cmp::Eq;
use std::hash::{Hash, Hasher};
use std::marker::Model;
use zone::Link;

/// What an entry is about: one type of a name, or the whole name.
#[derive(Clone, Copy)]
pub enum Slot {
    /// One type: an RRset, NODATA, or under CNAME an alias.
    Of(RType),
    /// NXDOMAIN: the name does not exist, whatever the type (RFC 2308, section 5).
    NameError,
}

impl Slot {
    // The slot of a link that answers a question of this type.
    pub(crate) fn for_link<A: Allocator>(kind: RType, link: &Link<A>) -> Slot
        ensures { slot_view result ≡ slot_for (type_number kind) (link_view link.now) }
    {
        match link {
            Link::Found(_) | Link::NoData(_) => Slot::Of(kind),
            Link::Alias(_) => Slot::Of(RType::Cname),
            Link::NxDomain(_) => Slot::NameError,
        }
    }

    fn is(self, other: Slot) -> bool
        ensures { result ≡ same_slot (slot_view self) (slot_view other) }
    {
        match (self, other) {
            (Slot::Of(kind), Slot::Of(its)) => kind.number() == its.number(),
            (Slot::NameError, Slot::NameError) => true,
            _ => false,
        }
    }
}

/// A name, which of its links, and the hash of the name.
#[derive(Drop)]
pub struct Key<A: Allocator = Global> {
    /// The name in the question, to which the link is an answer.
    pub name: Name<A>,
    /// Which link of that name.
    pub slot: Slot,
    /// The hash of the name: entries are found by it alone.
    pub hash: u64,
}

impl<A: Allocator> Model for Key<A> {
    ghost use Rattle.cache.specs.Hashed.{HashedKey};
    ghost use Rattle.cache.specs.Kinds.{slot_view};

    ghost Value = { HashedKey };

    ghost view = { λ k. record { name = k.name; slot = slot_view k.slot; hash = k.hash } };
}

impl<A: Allocator> PartialEq for Key<A> {
    ghost eq = { same_hashed };

    ghost laws = { same_hashed_per };

    fn eq(&self, other: &Key<A>) -> bool {
        self.hash == other.hash && self.slot.is(other.slot) && self.name == other.name
    }
}

impl<A: Allocator> Eq for Key<A> {
    ghost laws = { same_hashed_equiv };
}

impl<A: Allocator> Hash for Key<A> {
    ghost hash_input = { fed_hash };

    ghost respects_eq = { same_hashed_fed };

    fn hash<H: Hasher>(&self, state: &mut H) {
        state.write_u64(self.hash);
    }
}
