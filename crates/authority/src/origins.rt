//! Zones by their origins: the place of each in the list of zones.
ghost use Rattle.std.specs.Prelude.{◌≡◌, ℕ, List, None, Some, cond, is_none, IfOk, OnOk, MatchResult};
ghost use Rattle.std.specs.Option.{option_copied};
ghost use Rattle.dname.specs.Keys.{at_name};
ghost use Rattle.dname.specs.Labels.{same_name};
ghost use Rattle.authority.specs.Catalogs.{zone_at, has_origin_in, is_chosen, chosen, has_twins, IsCatalog};
ghost use Rattle.authority.specs.CatalogFaults.{CatalogRefuses};
ghost use Rattle.authority.specs.Origins.{AreSized, ArePlaces};

use crate::catalog::CatalogError;
use dname::{LONGEST_NAME, Name, Suffix};
use memory::{Heap, Starved};
use std::alloc::Allocator;
use std::collections::HashMap;
use std::hash::{BuildHasherDefault, FoldHasher};
use zone::{Zone, zone_keeps_rules};

// Places by the wire forms of names.
type ByOrigin<A> = HashMap<Vec<u8, A>, usize, BuildHasherDefault<FoldHasher>, A>;

/// The place of each zone in a list of them, by the wire form of its origin.
pub(crate) struct Places<A: Allocator> {
    by_origin: ByOrigin<A>,
    // Whether an origin may have so many bytes in wire form: most names are of no such size, and are not hashed.
    sizes: [bool; LONGEST_NAME + 1],
}

// By hand, so that whatever drops it calls this.
impl<A: Allocator> Drop for Places<A> {
    fn drop(self) {
        let Places {
            by_origin,
            sizes: _,
        } = self;
        drop(by_origin);
    }
}

impl<A: Heap> Places<A> {
    // Without zones.
    fn new(alloc: A) -> Places<A>
        ensures none { (q : List (List ℕ)) → at_name result.by_origin q ≡ None }
        ensures sized { AreSized result.by_origin result.sizes }
    {
        Places {
            by_origin: HashMap::new(alloc),
            sizes: [false; LONGEST_NAME + 1],
        }
    }

    // Notes the place of the zone; false where a zone of its origin was noted before.
    fn note(&mut self, zone: &Zone<A>, place: usize) -> Result<bool, Starved>
        requires { AreSized self.old.by_origin self.old.sizes }
        ensures fresh { IfOk result (λ b. b ≡ is_none (at_name self.old.by_origin zone.now.origin)) }
        ensures noted { OnOk result ((q : List (List ℕ)) → at_name self.new.by_origin q ≡ cond (same_name zone.now.origin q) (Some place) (at_name self.old.by_origin q)) }
        ensures sized { OnOk result (AreSized self.new.by_origin self.new.sizes) }
    {
        let name = zone.origin();
        let key = Vec::from_slice(name.allocator(), name.wire())?;
        let noted = self.by_origin.insert(key, place)?;
        self.sizes[name.size()] = true;
        Ok(noted.is_none())
    }

    // The place that is noted for this name.
    fn at(&self, name: &Suffix<'_>) -> Option<usize>
        requires { AreSized self.now.by_origin self.now.sizes }
        ensures { result ≡ at_name self.now.by_origin name.now }
    {
        name.well_formed_law();
        let origin = name.wire();
        if !self.sizes[origin.len()] {
            return None;
        }
        self.by_origin.get(origin).copied()
    }
}

/// The places of zones; refused where two have one origin.
pub(crate) fn places_of<A: Heap>(alloc: A, zones: &[Zone<A>]) -> Result<Places<A>, CatalogError>
    ensures { MatchResult result (λ m. IsCatalog zones.now × ArePlaces m.by_origin m.sizes zones.now) (λ e. CatalogRefuses e (has_twins zones.now)) }
{
    let mut places = Places::new(alloc);
    let mut place = 0;
    for zone in zones {
        zone_keeps_rules(zone);
        zone.origin().well_formed_law();
        if !places.note(zone, place)? {
            return Err(CatalogError::Twins);
        }
        place += 1;
    }
    Ok(places)
}

fn has_origin_in<A: Allocator>(zone: &Zone<A>, origins: &[Name<A>]) -> bool
    ensures { result ≡ has_origin_in origins.now zone.now }
{
    origins.iter().any(|origin| *zone.origin() == *origin)
}

// Whether the zone's origin is listed; without a list, always.
fn is_chosen<A: Allocator>(zone: &Zone<A>, listed: Option<&[Name<A>]>) -> bool
    ensures { result ≡ is_chosen (option_copied listed.entry) zone.now }
{
    match listed {
        None => true,
        Some(origins) => has_origin_in(zone, origins),
    }
}

/// The zone of that origin, if it is listed.
pub(crate) fn zone_at<'a, A: Heap>(
    zones: &'a [Zone<A>],
    places: &Places<A>,
    listed: Option<&[Name<A>]>,
    name: &Suffix<'_>,
) -> Option<&'a Zone<A>>
    requires { ArePlaces places.now.by_origin places.now.sizes zones.now }
    ensures { option_copied result ≡ zone_at name.now (chosen (option_copied listed.entry) zones.now) }
{
    let zone = zones.get(places.at(name)?)?;
    if is_chosen(zone, listed) {
        Some(zone)
    } else {
        None
    }
}
