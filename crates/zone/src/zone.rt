//! A zone: an origin, and records that meet the rules.
ghost use Rattle.std.specs.Prelude.{◌≡◌, None, Some, false, IfOk, MatchOption, MatchResult};
ghost use Rattle.zone.specs.Look.{denial_of};
ghost use Rattle.zone.specs.Faults.{fault_of, IsFault};
ghost use Rattle.zone.specs.Kept.{zone_with};
ghost use Rattle.zone.specs.Tree.{has_under, IsStand};

use crate::denial::denial_in;
use crate::fault::ZoneError;
use crate::rules::check;
use crate::tree::{Stand, Tree};
use dname::{Name, Suffix};
use memory::Heap;
use rdata::{Record, Records};
use std::alloc::{AllocError, Allocator, Global};
use std::marker::Model;

/// A zone (RFC 1034, section 4.2): its records meet all rules of `ZoneError`. Contracts see its origin
/// and its records in order.
pub struct Zone<A: Allocator = Global> {
    origin: Name<A>,
    tree: Box<Tree<A>, A>,
    // The SOA with the lesser of its TTL and MINIMUM, as every negative answer has it.
    denial: Record<A>,
}

// By hand, so that each drop of a zone calls this, and does not write out all that it holds.
impl<A: Allocator> Drop for Zone<A> {
    fn drop(self) {
        let Zone {
            origin,
            tree,
            denial,
        } = self;
        drop(origin);
        drop(tree);
        drop(denial);
    }
}

impl<A: Allocator> Model for Zone<A> {
    ghost use Rattle.zone.specs.Zones.{Zone};
    ghost use Rattle.zone.specs.Kept.{zone_with, IsKept};

    ghost Value = { Zone };

    ghost view = { λ z. zone_with z.origin z.tree.value };

    ghost invariant = { λ z. IsKept (zone_with z.origin z.tree.value) z.denial };
}

fn boxed_copy<A: Heap>(tree: &Tree<A>, alloc: A) -> Result<Box<Tree<A>, A>, AllocError>
    ensures { IfOk result (λ b. b.value ≡ tree.now) }
{
    Ok(Box::new(alloc, tree.copied(alloc)?)?)
}

impl<A: Heap> Clone for Zone<A> {
    ghost is_clone = { λ x y. y ≡ x };

    fn clone(&self) -> Result<Zone<A>, AllocError> {
        Ok(Zone {
            origin: self.origin.clone()?,
            tree: boxed_copy(&self.tree, self.origin.allocator())?,
            denial: self.denial.clone()?,
        })
    }
}

impl<A: Heap> Zone<A> {
    /// The zone of these records: without a record it is refused as `ZoneError::Soa`. Refused where they break a rule,
    /// by the lowest number, or where a growth is refused.
    pub fn build(origin: Name<A>, records: Records<A>) -> Result<Zone<A>, ZoneError>
        ensures { MatchResult result (λ z. (z ≡ zone_with origin records) × (fault_of (zone_with origin records) ≡ None)) (λ e. IsFault e (fault_of (zone_with origin records))) }
    {
        let Some(denial) = denial_in(records.as_slice())? else {
            return Err(ZoneError::Soa);
        };
        check(&origin, records.as_slice())?;
        let tree = Box::new(
            origin.allocator(),
            Tree::build(origin.allocator(), records)?,
        )?;
        Ok(Zone {
            origin,
            tree,
            denial,
        })
    }
}

impl<A: Allocator> Zone<A> {
    /// Its origin, the name at its top: `example` of the zone `example`.
    pub fn origin(&self) -> &Name<A>
        ensures { result.now ≡ self.now.origin }
    {
        &self.origin
    }

    /// Its records in the order in which they were given: of `build` of an SOA and an NS record, these two.
    pub fn records(&self) -> &[Record<A>]
        ensures { result.now ≡ self.now.records }
    {
        self.tree.records()
    }

    /// The records of a name and of its wildcard: at the origin, the SOA and the NS records. Nothing where no owner is
    /// at or under the name. They are found by the name alone, whatever the zone's size.
    pub fn stand(&self, name: &Name<A>) -> Option<Stand<'_, A>>
        ensures { MatchOption result (has_under name.now self.now.records ≡ false) (λ s. IsStand name.now self.now.records s.own s.wild) }
    {
        self.tree.stand(&name.suffix())
    }

    /// The records of a borrowed name, as `stand` gives them: at the origin, the SOA and the NS records.
    pub fn stand_at(&self, name: &Suffix<'_>) -> Option<Stand<'_, A>>
        ensures { MatchOption result (has_under name.now self.now.records ≡ false) (λ s. IsStand name.now self.now.records s.own s.wild) }
    {
        self.tree.stand(name)
    }

    /// The SOA that its negative answers carry: its TTL is the lesser of the record's own and MINIMUM (RFC 2308,
    /// section 3), 300 of TTL 3,600 and MINIMUM 300.
    pub fn denial(&self) -> &Record<A>
        ensures { denial_of self.now ≡ Some result.now }
    {
        &self.denial
    }

    /// A law: its records meet all rules.
    pub(crate) fn sound_law(&self)
        ensures { fault_of self.now ≡ None }
    {
        let _ = &self.origin;
    }
}
