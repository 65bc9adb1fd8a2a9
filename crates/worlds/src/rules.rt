//! Rules of a world about its zones, and who serves them.
ghost use Rattle.std.specs.Prelude.{◌≡◌, ◌&&◌, not};
ghost use Rattle.std.specs.List.{list_any};
ghost use Rattle.dname.specs.Labels.{root};
ghost use Rattle.zone.specs.Zones.{ns_type};
ghost use Rattle.zone.specs.Look.{is_type, is_owned, owns};
ghost use Rattle.worlds.specs.Rules.{has_name, has_origin, makes_cut, is_loose, has_loose_cut, has_loose_cuts, is_above, is_between, delegates, is_placed, has_undelegated};

use dname::Name;
use rdata::{RType, Record};
use std::alloc::Allocator;
use zone::Zone;

pub fn has_name<A: Allocator>(names: &[Name<A>], name: &Name<A>) -> bool
    ensures { result ≡ has_name name.now names.now }
{
    names.iter().any(|own| *own == *name)
}

// Whether a zone has that origin.
pub fn has_origin<A: Allocator>(zones: &[Zone<A>], name: &Name<A>) -> bool
    ensures { result ≡ has_origin name.now zones.now }
{
    zones.iter().any(|zone| *zone.origin() == *name)
}

fn is_server<A: Allocator>(rr: &Record<A>) -> bool
    ensures { result ≡ is_type ns_type rr.now }
{
    rr.is(RType::Ns)
}

// Whether the record makes a cut in the zone of that origin.
fn makes_cut<A: Allocator>(rr: &Record<A>, origin: &Name<A>) -> bool
    ensures { result ≡ makes_cut origin.now rr.now }
{
    is_server(rr) && rr.owner != *origin
}

fn is_loose<A: Allocator>(rr: &Record<A>, origin: &Name<A>, zones: &[Zone<A>]) -> bool
    ensures { result ≡ is_loose zones.now origin.now rr.now }
{
    makes_cut(rr, origin) && !has_origin(zones, &rr.owner)
}

fn some_is_loose<A: Allocator>(records: &[Record<A>], origin: &Name<A>, zones: &[Zone<A>]) -> bool
    ensures { result ≡ list_any (is_loose zones.now origin.now) records.now }
{
    records.iter().any(|record| is_loose(record, origin, zones))
}

fn has_loose_cut<A: Allocator>(zone: &Zone<A>, zones: &[Zone<A>]) -> bool
    ensures { result ≡ has_loose_cut zones.now zone.now }
{
    some_is_loose(zone.records(), zone.origin(), zones)
}

// Whether a cut of one of `subjects` is no origin of `zones`.
pub fn has_loose_cuts<A: Allocator>(subjects: &[Zone<A>], zones: &[Zone<A>]) -> bool
    ensures { result ≡ has_loose_cuts zones.now subjects.now }
{
    subjects.iter().any(|zone| has_loose_cut(zone, zones))
}

// Whether the zone's origin is strictly above the name.
fn is_above<A: Allocator>(zone: &Zone<A>, name: &Name<A>) -> bool
    ensures { result ≡ is_above name.now zone.now }
{
    name.is_at_or_under(zone.origin()) && *name != *zone.origin()
}

fn is_between<A: Allocator>(zone: &Zone<A>, above: &Name<A>, name: &Name<A>) -> bool
    ensures { result ≡ is_between name.now above.now zone.now }
{
    is_above(zone, name) && above.labels() < zone.origin().labels()
}

fn some_is_between<A: Allocator>(zones: &[Zone<A>], above: &Name<A>, name: &Name<A>) -> bool
    ensures { result ≡ list_any (is_between name.now above.now) zones.now }
{
    zones.iter().any(|zone| is_between(zone, above, name))
}

fn is_server_at<A: Allocator>(rr: &Record<A>, name: &Name<A>) -> bool
    ensures { result ≡ (is_owned name.now rr.now && is_type ns_type rr.now) }
{
    rr.owner == *name && is_server(rr)
}

fn has_server_at<A: Allocator>(records: &[Record<A>], name: &Name<A>) -> bool
    ensures { result ≡ owns ns_type name.now records.now }
{
    records.iter().any(|record| is_server_at(record, name))
}

// Whether the zone is right above the name and has it as a cut.
fn delegates<A: Allocator>(zone: &Zone<A>, name: &Name<A>, zones: &[Zone<A>]) -> bool
    ensures { result ≡ delegates zones.now name.now zone.now }
{
    is_above(zone, name)
        && has_server_at(zone.records(), name)
        && !some_is_between(zones, zone.origin(), name)
}

fn some_delegates<A: Allocator>(uppers: &[Zone<A>], name: &Name<A>, zones: &[Zone<A>]) -> bool
    ensures { result ≡ list_any (delegates zones.now name.now) uppers.now }
{
    uppers.iter().any(|zone| delegates(zone, name, zones))
}

fn is_placed<A: Allocator>(
    origin: &Name<A>,
    zones: &[Zone<A>],
    locals: &[Name<A>],
    top: &Name<A>,
) -> bool
    requires { top.now ≡ root }
    ensures { result ≡ is_placed zones.now locals.now origin.now }
{
    *origin == *top || has_name(locals, origin) || some_delegates(zones, origin, zones)
}

fn is_undelegated<A: Allocator>(
    zone: &Zone<A>,
    zones: &[Zone<A>],
    locals: &[Name<A>],
    top: &Name<A>,
) -> bool
    requires { top.now ≡ root }
    ensures { result ≡ not (is_placed zones.now locals.now zone.now.origin) }
{
    !is_placed(zone.origin(), zones, locals, top)
}

// Whether one of `subjects` is neither the root's nor local and the zone right above does not cut it off.
pub fn has_undelegated<A: Allocator>(
    subjects: &[Zone<A>],
    zones: &[Zone<A>],
    locals: &[Name<A>],
    top: &Name<A>,
) -> bool
    requires { top.now ≡ root }
    ensures { result ≡ has_undelegated zones.now locals.now subjects.now }
{
    subjects
        .iter()
        .any(|zone| is_undelegated(zone, zones, locals, top))
}
