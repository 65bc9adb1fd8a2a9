//! The zone cuts of records that are to be a zone.
ghost use Rattle.std.specs.Prelude.{◌≡◌, ◌&&◌, ◌||◌, ℕ, List, IfOk, OnOk};
ghost use Rattle.std.specs.HashSet as bag;
ghost use Rattle.dname.specs.Labels.{same_name};
ghost use Rattle.zone.specs.Zones.{ns_type};
ghost use Rattle.zone.specs.Look.{is_type, is_owned, owns, is_cut, is_beneath_cut};
ghost use Rattle.zone.specs.Kept.{zone_with};

use crate::scan::is_type;
use dname::Name;
use memory::{Heap, Starved};
use rdata::{RType, Record};
use std::alloc::Allocator;
use std::collections::HashSet;
use std::hash::{BuildHasherDefault, FoldHasher};
use std::marker::Model;

// Owners of NS records.
type Owners<A> = HashSet<Name<A>, BuildHasherDefault<FoldHasher>, A>;

// The cuts of records that are to be a zone. Contracts see the records.
#[derive(Drop)]
pub struct Cuts<'a, A: Allocator> {
    origin: &'a Name<A>,
    records: &'a [Record<A>],
    owners: Owners<A>,
}

impl<'a, A: Allocator> Model for Cuts<'a, A> {
    ghost use Rattle.std.specs.Prelude.{◌≡◌, ℕ, List};
    ghost use Rattle.std.specs.HashSet as bag;
    ghost use Rattle.dname.specs.Labels.{same_name};
    ghost use Rattle.zone.specs.Zones.{Zone, ns_type};
    ghost use Rattle.zone.specs.Look.{owns};
    ghost use Rattle.zone.specs.Kept.{zone_with};

    ghost Value = { Zone };

    ghost view = { λ c. zone_with c.origin.now c.records.now };

    ghost invariant = { λ c. (q : List (List ℕ)) → bag.contains same_name c.owners q ≡ owns ns_type q c.records.now };
}

// Notes the owner of the record, if it is of type NS.
fn note_owner<A: Heap>(owners: &mut Owners<A>, rr: &Record<A>) -> Result<(), Starved>
    ensures { OnOk result ((q : List (List ℕ)) → bag.contains same_name owners.new q ≡ (bag.contains same_name owners.old q || (is_owned q rr.now && is_type ns_type rr.now))) }
{
    if !is_type(rr, RType::Ns) {
        return Ok(());
    }
    owners.insert(rr.owner.clone()?)?;
    Ok(())
}

fn owners_of_servers<A: Heap>(alloc: A, records: &[Record<A>]) -> Result<Owners<A>, Starved>
    ensures { IfOk result (λ s. (q : List (List ℕ)) → bag.contains same_name s q ≡ owns ns_type q records.now) }
{
    let mut owners = HashSet::new(alloc);
    for record in records {
        note_owner(&mut owners, record)?;
    }
    Ok(owners)
}

impl<'a, A: Heap> Cuts<'a, A> {
    // The cuts of these records: `sub.example`, where that has NS records in the zone `example`.
    pub fn new(origin: &'a Name<A>, records: &'a [Record<A>]) -> Result<Cuts<'a, A>, Starved>
        ensures { IfOk result (λ c. c ≡ zone_with origin.now records.now) }
    {
        let owners = owners_of_servers(origin.allocator(), records)?;
        Ok(Cuts {
            origin,
            records,
            owners,
        })
    }

    // Whether the name is a cut, an owner of NS records other than the origin: in the zone `example`, `sub.example` may
    // be one, and `example` not.
    pub fn is_cut(&self, name: &Name<A>) -> bool
        ensures { result ≡ is_cut self.now name.now }
    {
        self.owners.contains(name) && *name != *self.origin
    }

    // Whether the name is strictly under a cut: `www.sub.example` is under the cut `sub.example`, and `sub.example`
    // not.
    pub fn is_beneath_cut(&self, name: &Name<A>) -> Result<bool, Starved>
        ensures { IfOk result (λ b. b ≡ is_beneath_cut self.now name.now) }
    {
        let mut above = name.clone()?;
        'up: while above.ascend() {
            if self.is_cut(&above) {
                return Ok(true);
            }
        }
        Ok(false)
    }
}
