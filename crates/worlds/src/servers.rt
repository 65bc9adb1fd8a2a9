//! Rules of a world about its servers and hints.
ghost use Rattle.std.specs.Prelude.{◌≡◌, ◌||◌, IfOk};
ghost use Rattle.std.specs.List.{list_any};
ghost use Rattle.dname.specs.Labels.{root};
ghost use Rattle.rdata.specs.Kept.{datum};
ghost use Rattle.zone.specs.Zones.{a_type};
ghost use Rattle.authority.specs.Catalogs.{looked};
ghost use Rattle.authority.specs.Answers.{local_view};
ghost use Rattle.worlds.specs.Kept.{addresses};
ghost use Rattle.worlds.specs.Rules.{serves, is_missed, some_missed, is_missed_at, zone_misses, look_misses, is_lame, has_lame_cut, has_lame_cuts, serves_nothing, has_idle_host, has_bad_hint, lacks_start};

use crate::rules::{has_name, has_origin};
use crate::world::Host;
use authority::{Catalog, Local};
use dname::Name;
use memory::{Heap, Starved};
use rdata::{Addr, RData, RType, Record, RecordSet};
use std::alloc::Allocator;
use zone::{Link, Zone};

// Whether the server at that address serves the zone of that origin.
pub fn serves<A: Allocator>(hosts: &[Host<A>], address: Addr, origin: &Name<A>) -> bool
    ensures { result ≡ serves address.0 origin.now hosts.now }
{
    hosts.iter().any(|host| host.address.0 == address.0 && has_name(&host.origins, origin))
}

// Whether the data is an address that does not serve the cut.
fn is_missed<A: Allocator>(value: &RData<A>, cut: &Name<A>, hosts: &[Host<A>]) -> bool
    ensures { result ≡ is_missed hosts.now cut.now (datum value.now) }
{
    match value {
        RData::A(address) => !serves(hosts, *address, cut),
        _ => false,
    }
}

fn some_missed<A: Allocator>(records: &[Record<A>], cut: &Name<A>, hosts: &[Host<A>]) -> bool
    ensures { result ≡ some_missed hosts.now cut.now records.now }
{
    records
        .iter()
        .any(|record| is_missed(&record.value, cut, hosts))
}

// Whether the record is an address of the name that does not serve the cut.
fn is_missed_at<A: Allocator>(
    rr: &Record<A>,
    name: &Name<A>,
    cut: &Name<A>,
    hosts: &[Host<A>],
) -> bool
    ensures { result ≡ is_missed_at hosts.now cut.now name.now rr.now }
{
    rr.owner == *name && is_missed(&rr.value, cut, hosts)
}

// Whether the zone has an address of the name that does not serve the cut.
fn zone_misses<A: Allocator>(
    zone: &Zone<A>,
    name: &Name<A>,
    cut: &Name<A>,
    hosts: &[Host<A>],
) -> bool
    ensures { result ≡ zone_misses hosts.now cut.now name.now zone.now }
{
    zone.records()
        .iter()
        .any(|record| is_missed_at(record, name, cut, hosts))
}

// Whether a zone has an address of the name that does not serve the cut.
fn some_zone_misses<A: Allocator>(
    zones: &[Zone<A>],
    name: &Name<A>,
    cut: &Name<A>,
    hosts: &[Host<A>],
) -> bool
    ensures { result ≡ list_any (zone_misses hosts.now cut.now name.now) zones.now }
{
    zones.iter().any(|zone| zone_misses(zone, name, cut, hosts))
}

// Whether what was looked up is a set with an address that does not serve the cut.
fn found_misses<A: Heap>(
    found: &Local<A>,
    cut: &Name<A>,
    hosts: &[Host<A>],
) -> Result<bool, Starved>
    ensures { IfOk result (λ b. b ≡ look_misses hosts.now cut.now (local_view found.now)) }
{
    match found {
        Local::Link(Link::Found(set)) => Ok(set_misses(set, cut, hosts)?),
        _ => Ok(false),
    }
}

fn set_misses<A: Heap>(
    set: &RecordSet<A>,
    cut: &Name<A>,
    hosts: &[Host<A>],
) -> Result<bool, Starved>
    ensures { IfOk result (λ b. b ≡ some_missed hosts.now cut.now set.now) }
{
    let records = set.to_records(cut.allocator())?;
    Ok(some_missed(records.as_slice(), cut, hosts))
}

// Whether the look-up finds an address of the name that does not serve the cut.
fn look_misses<A: Heap>(
    catalog: &Catalog<A>,
    name: &Name<A>,
    cut: &Name<A>,
    hosts: &[Host<A>],
) -> Result<bool, Starved>
    ensures { IfOk result (λ b. b ≡ look_misses hosts.now cut.now (looked catalog.now name.now a_type)) }
{
    let found = catalog.look(name.allocator(), name, RType::A)?;
    let missed = found_misses(&found, cut, hosts);
    drop(found);
    missed
}

// Whether a zone has, or the look-up finds, an address of the name that does not serve the cut.
fn name_misses<A: Heap>(
    catalog: &Catalog<A>,
    name: &Name<A>,
    cut: &Name<A>,
    hosts: &[Host<A>],
) -> Result<bool, Starved>
    ensures { IfOk result (λ b. b ≡ (list_any (zone_misses hosts.now cut.now name.now) catalog.now || look_misses hosts.now cut.now (looked catalog.now name.now a_type))) }
{
    if some_zone_misses(catalog.zones(), name, cut, hosts) {
        return Ok(true);
    }
    Ok(look_misses(catalog, name, cut, hosts)?)
}

// Whether the record names a server of a cut that does not serve it.
fn is_lame<A: Heap>(
    catalog: &Catalog<A>,
    rr: &Record<A>,
    origin: &Name<A>,
    hosts: &[Host<A>],
) -> Result<bool, Starved>
    ensures { IfOk result (λ b. b ≡ is_lame catalog.now hosts.now origin.now rr.now) }
{
    match &rr.value {
        RData::Ns(name) if rr.owner != *origin => Ok(name_misses(catalog, name, &rr.owner, hosts)?),
        _ => Ok(false),
    }
}

fn has_lame_cut<A: Heap>(
    catalog: &Catalog<A>,
    zone: &Zone<A>,
    hosts: &[Host<A>],
) -> Result<bool, Starved>
    ensures { IfOk result (λ b. b ≡ has_lame_cut catalog.now hosts.now zone.now) }
{
    for record in zone.records() {
        if is_lame(catalog, record, zone.origin(), hosts)? {
            return Ok(true);
        }
    }
    Ok(false)
}

// Whether a server of a cut of one of the zones does not serve it.
pub fn has_lame_cuts<A: Heap>(
    catalog: &Catalog<A>,
    zones: &[Zone<A>],
    hosts: &[Host<A>],
) -> Result<bool, Starved>
    ensures { IfOk result (λ b. b ≡ has_lame_cuts catalog.now hosts.now zones.now) }
{
    for zone in zones {
        if has_lame_cut(catalog, zone, hosts)? {
            return Ok(true);
        }
    }
    Ok(false)
}

// Whether the server names an origin without a zone.
fn serves_nothing<A: Allocator>(host: &Host<A>, zones: &[Zone<A>]) -> bool
    ensures { result ≡ serves_nothing zones.now host.now }
{
    host.origins.iter().any(|origin| !has_origin(zones, origin))
}

// Whether a server names an origin without a zone.
pub fn has_idle_host<A: Allocator>(hosts: &[Host<A>], zones: &[Zone<A>]) -> bool
    ensures { result ≡ has_idle_host zones.now hosts.now }
{
    hosts.iter().any(|host| serves_nothing(host, zones))
}

// Whether a hint does not serve the root.
pub fn has_bad_hint<A: Allocator>(hints: &[Addr], hosts: &[Host<A>], top: &Name<A>) -> bool
    requires { top.now ≡ root }
    ensures { result ≡ has_bad_hint hosts.now (addresses hints.now) }
{
    for hint in hints {
        if !serves(hosts, *hint, top) {
            return true;
        }
    }
    false
}

// Whether there is no hint and the root is not local.
pub fn lacks_start<A: Allocator>(hints: &[Addr], locals: &[Name<A>], top: &Name<A>) -> bool
    requires { top.now ≡ root }
    ensures { result ≡ lacks_start (addresses hints.now) locals.now }
{
    hints.is_empty() && !has_name(locals, top)
}
