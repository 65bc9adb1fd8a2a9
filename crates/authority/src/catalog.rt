//! The local zones, and the look-up in the one with the longest origin over a name.
ghost use Rattle.std.specs.Prelude.{◌≡◌, ◌≤◌, ◌+◌, length, Some, IfOk, IfSome, IfNone, MatchResult, false};
ghost use Rattle.std.specs.Option.{option_copied};
ghost use Rattle.rdata.specs.Types.{type_number};
ghost use Rattle.zone.specs.Look.{NotHere};
ghost use Rattle.authority.specs.Answers.{local_view};
ghost use Rattle.authority.specs.Catalogs.{zone_over, looked, among, chosen, has_twins, AreZones, IsLooked};
ghost use Rattle.authority.specs.CatalogFaults.{catalog_fault_number, catalog_fault_text, CatalogRefuses};
ghost use Rattle.authority.specs.Origins.{ArePlaces};

use crate::answer::Local;
use crate::origins::{Places, places_of, zone_at};
use crate::walk::look_counted;
use dname::Name;
use memory::{Heap, Starved};
use rdata::RType;
use std::alloc::{Allocator, Global};
use std::fmt;
use std::marker::Model;
use zone::{Zone, zone_keeps_rules};

/// Why zones are no catalog.
#[derive(Clone, Copy, Debug, PartialEq, Eq)]
pub enum CatalogError {
    /// Two zones have one origin.
    Twins,
    /// A growth was refused.
    Memory,
}

impl CatalogError {
    /// The number of the refusal.
    pub fn number(self) -> u8
        ensures { result ≡ catalog_fault_number self }
    {
        match self {
            CatalogError::Twins => 1,
            CatalogError::Memory => 2,
        }
    }
}

impl fmt::Display for CatalogError {
    ghost output = { λ e. Some (catalog_fault_text e) };

    fn fmt<W: fmt::Write>(&self, f: &mut fmt::Formatter<W>) -> fmt::Result {
        f.write_str(match self {
            CatalogError::Twins => "two zones have one origin",
            CatalogError::Memory => "out of memory",
        })
    }
}

impl std::error::Error for CatalogError {}

impl From<Starved> for CatalogError {
    ghost use Rattle.authority.specs.declared.catalog.CatalogError.TheVariants.{Memory};

    ghost from_gives = { λ _ e. e ≡ Memory };

    fn from(_error: Starved) -> CatalogError {
        CatalogError::Memory
    }
}

/// Zones of different origins. Contracts see their list.
#[derive(Drop)]
pub struct Catalog<A: Allocator = Global> {
    zones: Vec<Zone<A>, A>,
    places: Places<A>,
}

impl<A: Allocator> Model for Catalog<A> {
    ghost use Rattle.std.specs.Prelude.{List};
    ghost use Rattle.zone.specs.Zones.{Zone};
    ghost use Rattle.authority.specs.Catalogs.{IsCatalog};
    ghost use Rattle.authority.specs.Origins.{ArePlaces};

    ghost Value = { List Zone };

    ghost view = { λ c. c.zones.items };

    ghost invariant = { λ c. IsCatalog c.zones.items × ArePlaces c.places.by_origin c.places.sizes c.zones.items };
}

// The zone with the longest origin over the name, of those that are listed.
fn zone_over<'a, A: Heap>(
    zones: &'a [Zone<A>],
    places: &Places<A>,
    listed: Option<&[Name<A>]>,
    name: &Name<A>,
) -> Option<&'a Zone<A>>
    requires { ArePlaces places.now.by_origin places.now.sizes zones.now }
    ensures { option_copied result ≡ zone_over (chosen (option_copied listed.entry) zones.now) name.now }
{
    name.well_formed_law();
    let mut up = name.suffix();
    if let Some(found) = zone_at(zones, places, listed, &up) {
        return Some(found);
    }
    'up: while up.ascend() {
        if let Some(found) = zone_at(zones, places, listed, &up) {
            return Some(found);
        }
    }
    None
}

impl<A: Heap> Catalog<A> {
    /// The catalog of these zones; refused where two have one origin.
    pub fn new(zones: Vec<Zone<A>, A>) -> Result<Catalog<A>, CatalogError>
        ensures { MatchResult result (λ c. (c ≡ zones.items) × (has_twins zones.items ≡ false)) (λ e. CatalogRefuses e (has_twins zones.items)) }
    {
        match places_of(*zones.allocator(), &zones) {
            Ok(places) => Ok(Catalog { zones, places }),
            Err(error) => Err(error),
        }
    }

    /// Its zones, as they were given: no two have one origin, and each keeps the rules of a zone.
    pub fn zones(&self) -> &[Zone<A>]
        ensures value { result.now ≡ self.now }
        ensures apart { has_twins self.now ≡ false }
        ensures sound { AreZones self.now }
    {
        &self.zones
    }

    /// The result of the look-up in the zone with the longest origin over the name (RFC 1034, section 4.3.2).
    pub fn look(&self, alloc: A, name: &Name<A>, kind: RType) -> Result<Local<A>, Starved>
        ensures value { IfOk result (λ l. local_view l ≡ looked self.now name.now (type_number kind)) }
        ensures relation { IfOk result (λ l. IsLooked self.now name.now (type_number kind) (local_view l)) }
    {
        let (local, _) = self.look_counted(alloc, name, kind)?;
        Ok(local)
    }

    /// The result of `look`, where a zone is over the name; none where no zone is, as `look` gives `NotHere`.
    pub fn look_here<'a>(
        &'a self,
        alloc: A,
        name: &Name<A>,
        kind: RType,
    ) -> Option<Result<Local<A>, Starved>>
        ensures none { IfNone result ((looked self.now name.now (type_number kind) ≡ NotHere) × IsLooked self.now name.now (type_number kind) NotHere) }
        ensures value { IfSome result (λ r. IfOk r (λ l. local_view l ≡ looked self.now name.now (type_number kind))) }
        ensures relation { IfSome result (λ r. IfOk r (λ l. IsLooked self.now name.now (type_number kind) (local_view l))) }
    {
        let all: Option<&'a [Name<A>]> = None;
        match zone_over(&self.zones, &self.places, all, name) {
            None => None,
            Some(zone) => {
                zone_keeps_rules(zone);
                match look_counted(alloc, zone, zone.denial(), name, kind) {
                    Ok((local, _)) => Some(Ok(local)),
                    Err(starved) => Some(Err(starved)),
                }
            }
        }
    }

    /// The result of `look`, and how many nodes were met in the tree of the zone that answers, from the name up to the
    /// zone's origin, glue aside: at most two more than the name has labels. `www.example` in a zone `example` that has
    /// it meets two.
    pub fn look_counted(
        &self,
        alloc: A,
        name: &Name<A>,
        kind: RType,
    ) -> Result<(Local<A>, usize), Starved>
        ensures value { IfOk result (λ p. local_view p.0 ≡ looked self.now name.now (type_number kind)) }
        ensures relation { IfOk result (λ p. IsLooked self.now name.now (type_number kind) (local_view p.0)) }
        ensures count { IfOk result (λ p. p.1 ≤ length name.now + 1) }
    {
        self.counted_through(alloc, None, name, kind)
    }

    /// The result of the look-up in those zones alone whose origins are listed, as a server of these zones answers.
    /// Origins without a zone mean nothing.
    pub fn look_among(
        &self,
        alloc: A,
        origins: &[Name<A>],
        name: &Name<A>,
        kind: RType,
    ) -> Result<Local<A>, Starved>
        ensures value { IfOk result (λ l. local_view l ≡ looked (among origins.now self.now) name.now (type_number kind)) }
        ensures relation { IfOk result (λ l. IsLooked (among origins.now self.now) name.now (type_number kind) (local_view l)) }
    {
        let (local, _) = self.counted_through(alloc, Some(origins), name, kind)?;
        Ok(local)
    }

    // The look-up in the listed zones; without a list, in all zones.
    fn counted_through<'a>(
        &'a self,
        alloc: A,
        listed: Option<&'a [Name<A>]>,
        name: &Name<A>,
        kind: RType,
    ) -> Result<(Local<A>, usize), Starved>
        ensures value { IfOk result (λ p. local_view p.0 ≡ looked (chosen (option_copied listed.entry) self.now) name.now (type_number kind)) }
        ensures relation { IfOk result (λ p. IsLooked (chosen (option_copied listed.entry) self.now) name.now (type_number kind) (local_view p.0)) }
        ensures count { IfOk result (λ p. p.1 ≤ length name.now + 1) }
    {
        match zone_over(&self.zones, &self.places, listed, name) {
            None => Ok((Local::NotHere, 0)),
            Some(zone) => {
                zone_keeps_rules(zone);
                Ok(look_counted(alloc, zone, zone.denial(), name, kind)?)
            }
        }
    }
}
