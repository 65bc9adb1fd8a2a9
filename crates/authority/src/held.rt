//! The answer of the records of one name.
ghost use Rattle.std.specs.Prelude.{◌≡◌, ◌≢◌, [], None, find, map, IfOk, IfSome, MatchOption};
ghost use Rattle.std.specs.List.{list_any};
ghost use Rattle.std.specs.Option.{option_copied};
ghost use Rattle.rdata.specs.Rows.{in_set};
ghost use Rattle.rdata.specs.Types.{type_number};
ghost use Rattle.zone.specs.Zones.{cname_type};
ghost use Rattle.zone.specs.Look.{is_type, of_type, firsts, with_owner, said, said_alias, said_wild};
ghost use Rattle.zone.specs.Views.{link_view};
ghost use Rattle.authority.specs.Values.{AreTimed, IsFirst};

use crate::gather::owned_by;
use crate::plain::is_kind;
use dname::Name;
use memory::{Heap, Starved};
use rdata::{RType, Record, RecordSet};
use std::alloc::Allocator;
use zone::{Held, Link};

// The set of a type of these records, each record once, with `owner` as owner.
pub(crate) fn set_of<A: Heap>(
    alloc: A,
    held: &Held<'_, A>,
    owner: &Name<A>,
    kind: RType,
) -> Result<Option<RecordSet<A>>, Starved>
    requires { AreTimed held.now }
    ensures value { IfOk result (λ set. in_set set ≡ firsts (map (with_owner owner.now) (of_type (type_number kind) held.now))) }
    ensures some { IfOk result (λ set. IfSome set (λ rs. rs ≢ [])) }
{
    match place_of(held, kind) {
        None => Ok(None),
        Some(first) => Ok(Some(RecordSet {
            owner: owner.clone()?,
            ttl: held.get(first).ttl,
            values: held.values(alloc, first)?,
        })),
    }
}

// At which index of these records the first of a type stands.
fn place_of<A: Allocator>(held: &Held<'_, A>, kind: RType) -> Option<usize>
    ensures { MatchOption result (find (is_type (type_number kind)) held.now ≡ None) (IsFirst (is_type (type_number kind)) held.now) }
{
    for index in 0..held.len() {
        if is_kind(held.get(index), kind) {
            return Some(index);
        }
    }
    None
}

// The first of these records that has the type.
fn first_of<'a, A: Allocator>(held: &Held<'a, A>, kind: RType) -> Option<&'a Record<A>>
    ensures { option_copied result ≡ find (is_type (type_number kind)) held.now }
{
    match place_of(held, kind) {
        Some(index) => Some(held.get(index)),
        None => None,
    }
}

// Whether one of these records is of that type.
pub(crate) fn has_type<A: Allocator>(held: &Held<'_, A>, kind: RType) -> bool
    ensures { result ≡ list_any (is_type (type_number kind)) held.now }
{
    match first_of(held, kind) {
        Some(_) => true,
        None => false,
    }
}

// The CNAME of these records, with `owner` as owner, or NODATA.
fn alias_or_none<A: Heap>(
    held: &Held<'_, A>,
    soa: &Record<A>,
    owner: &Name<A>,
) -> Result<Link<A>, Starved>
    ensures { IfOk result (λ l. link_view l ≡ said_alias soa.now owner.now (of_type cname_type held.now)) }
{
    match first_of(held, RType::Cname) {
        Some(alias) => Ok(Link::Alias(owned_by(owner, alias)?)),
        None => Ok(Link::NoData(soa.clone()?)),
    }
}

// The link of these records for a type: their set of it, their CNAME, or NODATA.
pub(crate) fn say<A: Heap>(
    alloc: A,
    held: &Held<'_, A>,
    soa: &Record<A>,
    owner: &Name<A>,
    kind: RType,
) -> Result<Link<A>, Starved>
    requires { AreTimed held.now }
    ensures { IfOk result (λ l. link_view l ≡ said soa.now owner.now (type_number kind) held.now) }
{
    match set_of(alloc, held, owner, kind)? {
        Some(set) => Ok(Link::Found(set)),
        None => Ok(alias_or_none(held, soa, owner)?),
    }
}

// The link of a wildcard's records, and NXDOMAIN where there are none.
pub(crate) fn say_wild<A: Heap>(
    alloc: A,
    held: &Held<'_, A>,
    soa: &Record<A>,
    owner: &Name<A>,
    kind: RType,
) -> Result<Link<A>, Starved>
    requires { AreTimed held.now }
    ensures { IfOk result (λ l. link_view l ≡ said_wild soa.now owner.now (type_number kind) held.now) }
{
    if held.len() == 0 {
        return Ok(Link::NxDomain(soa.clone()?));
    }
    Ok(say(alloc, held, soa, owner, kind)?)
}
