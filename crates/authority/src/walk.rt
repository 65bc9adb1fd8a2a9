//! Look-up by one walk up from the name: its cost grows with the number of the name's labels alone.
ghost use Rattle.std.specs.Prelude.{◌≡◌, ◌≤◌, ◌+◌, ◌&&◌, not, cond, is_some, length, Some, None, IfOk};
ghost use Rattle.std.specs.List.{list_any};
ghost use Rattle.dname.specs.Labels.{same_name};
ghost use Rattle.rdata.specs.Types.{type_number};
ghost use Rattle.zone.specs.Zones.{ns_type};
ghost use Rattle.zone.specs.Links.{NxDomain};
ghost use Rattle.zone.specs.Look.{is_type, local_by};
ghost use Rattle.zone.specs.Views.{link_view};
ghost use Rattle.authority.specs.Answers.{local_view};
ghost use Rattle.authority.specs.Values.{IsTimed, AreTimedIn};
ghost use Rattle.authority.specs.Walk.{own_of, wild_of, near_or, met, told, IsWalk};

use crate::answer::Local;
use crate::held::{has_type, say, say_wild};
use crate::plain::first_or;
use crate::refer::refer;
use dname::{Name, Suffix};
use memory::{Heap, Starved};
use rdata::{RType, Record};
use std::alloc::Allocator;
use zone::{Held, Link, Stand, Zone, zone_keeps_rules};

// The result of a walk up from a name.
#[derive(Drop)]
pub(crate) struct Walk<'a, A: Allocator> {
    // The cut over the name that is nearest to the origin.
    cut: Option<Name<A>>,
    // The records of the name and of its wildcard.
    here: Option<Stand<'a, A>>,
    // The records of the wildcard at the nearest existing name above it.
    near: Option<Held<'a, A>>,
    // How many names have a node, from the name up to the origin.
    count: usize,
}

// Whether a name has NS records.
fn has_servers<A: Allocator>(stand: &Option<Stand<'_, A>>) -> bool
    ensures { result ≡ list_any (is_type ns_type) (own_of stand.now) }
{
    match stand {
        Some(stand) => has_type(&stand.own, RType::Ns),
        None => false,
    }
}

// The name, if it is a cut: it has NS records, and is not the origin.
fn cut_at<A: Heap>(
    zone: &Zone<A>,
    stand: &Option<Stand<'_, A>>,
    name: &Suffix<'_>,
) -> Result<Option<Name<A>>, Starved>
    ensures { IfOk result (λ c. c ≡ cond (list_any (is_type ns_type) (own_of stand.now) && not (same_name name.now zone.now.origin)) (Some name.now) None) }
{
    if has_servers(stand) && !name.is(zone.origin()) {
        return Ok(Some(name.to_name(zone.origin().allocator())?));
    }
    Ok(None)
}

// The wildcard's records of the nearer name of two.
fn nearer<'a, A: Allocator>(
    near: Option<Held<'a, A>>,
    stand: Option<Stand<'a, A>>,
) -> Option<Held<'a, A>>
    ensures { result ≡ near_or near.entry (wild_of stand.entry) }
{
    match near {
        Some(held) => Some(held),
        None => match stand {
            Some(stand) => Some(stand.wild),
            None => None,
        },
    }
}

// Whether a name has a node, as a number.
fn node_count<A: Allocator>(stand: &Option<Stand<'_, A>>) -> usize
    ensures { result ≡ cond (is_some stand.now) 1 0 }
{
    match stand {
        Some(_) => 1,
        None => 0,
    }
}

// The walk from a name up to the zone's origin, or to the root where the name is not under that. The names that have a
// node are counted.
fn walk_up<'a, A: Heap>(zone: &'a Zone<A>, name: &Name<A>) -> Result<Walk<'a, A>, Starved>
    ensures { IfOk result (λ w. IsWalk zone.now name.now w) }
{
    name.well_formed_law();
    zone_keeps_rules(zone);
    let mut up = name.suffix();
    let here = zone.stand_at(&up);
    let mut cut = cut_at(zone, &here, &up)?;
    let mut near = None;
    let mut count = node_count(&here);
    'up: while !up.is(zone.origin()) && up.ascend() {
        let stand = zone.stand_at(&up);
        cut = first_or(cut_at(zone, &stand, &up)?, cut);
        count += node_count(&stand);
        near = nearer(near, stand);
    }
    Ok(Walk {
        cut,
        here,
        near,
        count,
    })
}

// The answer of the wildcard at the closest encloser.
fn link_above<A: Heap>(
    alloc: A,
    near: Option<Held<'_, A>>,
    soa: &Record<A>,
    name: &Name<A>,
    kind: RType,
) -> Result<Link<A>, Starved>
    requires { AreTimedIn near }
    ensures { IfOk result (λ l. link_view l ≡ met soa.now name.now (type_number kind) near.entry (NxDomain soa.now)) }
{
    match near {
        Some(held) => Ok(say_wild(alloc, &held, soa, name, kind)?),
        None => Ok(Link::NxDomain(soa.clone()?)),
    }
}

// The link of a name over which no cut stands.
fn link<A: Heap>(
    alloc: A,
    here: Option<Stand<'_, A>>,
    near: Option<Held<'_, A>>,
    soa: &Record<A>,
    name: &Name<A>,
    kind: RType,
) -> Result<Link<A>, Starved>
    requires here { IsTimed here }
    requires near { AreTimedIn near }
    ensures { IfOk result (λ l. link_view l ≡ told soa.now name.now (type_number kind) here.entry near.entry) }
{
    match here {
        Some(stand) => Ok(say(alloc, &stand.own, soa, name, kind)?),
        None => Ok(link_above(alloc, near, soa, name, kind)?),
    }
}

// The result for a name and a type, and how many nodes of the zone's tree were met on the way up to the origin, glue
// aside: at most two more than the name has labels.
pub(crate) fn look_counted<A: Heap>(
    alloc: A,
    zone: &Zone<A>,
    soa: &Record<A>,
    name: &Name<A>,
    kind: RType,
) -> Result<(Local<A>, usize), Starved>
    ensures value { IfOk result (λ p. local_view p.0 ≡ local_by soa.now zone.now name.now (type_number kind)) }
    ensures count { IfOk result (λ p. p.1 ≤ length name.now + 1) }
{
    name.well_formed_law();
    let Walk {
        cut,
        here,
        near,
        count,
    } = walk_up(zone, name)?;
    match cut {
        Some(cut) => Ok((refer(alloc, zone, cut)?, count + 1)),
        None => Ok((
            Local::Link(link(alloc, here, near, soa, name, kind)?),
            count,
        )),
    }
}
