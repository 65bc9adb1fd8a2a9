//! Look-up by walking a zone's list of records.
ghost use Rattle.std.specs.Prelude.{◌≡◌, ◌&&◌, ℕ, List, cond, find, filter, fold, Some, None, IfOk, OnOk};
ghost use Rattle.std.specs.List.{list_any};
ghost use Rattle.std.specs.Option.{option_copied};
ghost use Rattle.dname.specs.Labels.{is_under};
ghost use Rattle.rdata.specs.Types.{type_number};
ghost use Rattle.zone.specs.Zones.{cname_type};
ghost use Rattle.zone.specs.Look.{is_type, is_owned, at, is_cut, cut_of, said, said_alias, said_wild, ns_of, glue_of, local_by, or_else, add_glue, is_address, addresses_of, climbed, Cut, link_by};
ghost use Rattle.zone.specs.Views.{link_view};
ghost use Rattle.authority.specs.Answers.{local_view};
ghost use Rattle.authority.specs.Climb.{target, is_picked, picked, has_glue, has_under};
ghost use Rattle.authority.specs.Values.{HaveOneTtl};
ghost use Rattle.authority.specs.declared.plain.Whose.TheVariants.{Wildcard};

use crate::answer::Local;
use crate::gather::{gathered, owned_by, records_in};
use dname::Name;
use memory::{Heap, Starved};
use rdata::{RData, RType, Record, Records};
use std::alloc::Allocator;
use zone::Link;

// Whose records are meant: those of a name itself, or of the wildcard right under it (RFC 4592, section 2.1.1).
#[derive(Clone, Copy)]
pub(crate) enum Whose {
    Own,
    Wildcard,
}

// Whether a record stands at the name, or at the wildcard right under it.
fn stands<A: Allocator>(rr: &Record<A>, name: &Name<A>, whose: Whose) -> bool
    ensures { result ≡ is_owned (target whose name.now) rr.now }
{
    match whose {
        Whose::Own => rr.owner == *name,
        Whose::Wildcard => rr.owner.is_wildcard_of(name),
    }
}

pub(crate) fn is_kind<A: Allocator>(rr: &Record<A>, kind: RType) -> bool
    ensures { result ≡ is_type (type_number kind) rr.now }
{
    rr.is(kind)
}

// Whether a record stands at the name, or at the wildcard, and has the type.
pub(crate) fn answers<A: Allocator>(
    rr: &Record<A>,
    name: &Name<A>,
    whose: Whose,
    kind: RType,
) -> bool
    ensures { result ≡ is_picked (target whose name.now) (type_number kind) rr.now }
{
    stands(rr, name, whose) && is_kind(rr, kind)
}

// Whether some record of the type stands at the name, or at the wildcard.
fn has_any<A: Allocator>(records: &[Record<A>], name: &Name<A>, whose: Whose, kind: RType) -> bool
    ensures { result ≡ list_any (is_picked (target whose name.now) (type_number kind)) records.now }
{
    records.iter().any(|rr| answers(rr, name, whose, kind))
}

// Whether any record stands at the name, or at the wildcard.
fn is_held<A: Allocator>(records: &[Record<A>], name: &Name<A>, whose: Whose) -> bool
    ensures { result ≡ list_any (is_owned (target whose name.now)) records.now }
{
    records.iter().any(|rr| stands(rr, name, whose))
}

fn is_owner_under<A: Allocator>(rr: &Record<A>, name: &Name<A>) -> bool
    ensures { result ≡ is_under rr.now.owner name.now }
{
    rr.owner.is_at_or_under(name)
}

// Whether some owner is at or under the name.
fn has_owner_under<A: Allocator>(records: &[Record<A>], name: &Name<A>) -> bool
    ensures { result ≡ has_under name.now records.now }
{
    records.iter().any(|rr| is_owner_under(rr, name))
}

// The first record of the type at the name, or at the wildcard.
pub(crate) fn first_of<'a, A: Allocator>(
    records: &'a [Record<A>],
    name: &Name<A>,
    whose: Whose,
    kind: RType,
) -> Option<&'a Record<A>>
    ensures { option_copied result ≡ find (is_picked (target whose name.now) (type_number kind)) records.now }
{
    records.iter().find(|rr| answers(rr, name, whose, kind))
}

// The CNAME at the name, or at the wildcard, with `owner` as owner, or NODATA.
fn alias_or_none<A: Heap>(
    records: &[Record<A>],
    soa: &Record<A>,
    owner: &Name<A>,
    name: &Name<A>,
    whose: Whose,
) -> Result<Link<A>, Starved>
    ensures { IfOk result (λ l. link_view l ≡ said_alias soa.now owner.now (picked (target whose name.now) cname_type records.now)) }
{
    match first_of(records, name, whose, RType::Cname) {
        Some(alias) => Ok(Link::Alias(owned_by(owner, alias)?)),
        None => Ok(Link::NoData(soa.clone()?)),
    }
}

// The link of the name's or the wildcard's records for a type: their set of it, their CNAME, or NODATA.
fn say<A: Heap>(
    alloc: A,
    records: &[Record<A>],
    soa: &Record<A>,
    owner: &Name<A>,
    kind: RType,
    name: &Name<A>,
    whose: Whose,
) -> Result<Link<A>, Starved>
    requires { HaveOneTtl records.now }
    ensures { IfOk result (λ l. link_view l ≡ said soa.now owner.now (type_number kind) (at (target whose name.now) records.now)) }
{
    match gathered(alloc, records, owner, kind, name, whose)? {
        Some(set) => Ok(Link::Found(set)),
        None => Ok(alias_or_none(records, soa, owner, name, whose)?),
    }
}

// The name, if it is a cut.
fn cut_at<A: Heap>(
    origin: &Name<A>,
    records: &[Record<A>],
    name: &Name<A>,
) -> Result<Option<Name<A>>, Starved>
    ensures { IfOk result (λ c. c ≡ cond (is_cut record { origin = origin.now; records = records.now } name.now) (Some name.now) None) }
{
    if has_any(records, name, Whose::Own, RType::Ns) && *name != *origin {
        return Ok(Some(name.clone()?));
    }
    Ok(None)
}

pub(crate) fn first_or<A: Heap>(nearer: Option<Name<A>>, found: Option<Name<A>>) -> Option<Name<A>>
    ensures { result ≡ or_else nearer found }
{
    match nearer {
        Some(cut) => Some(cut),
        None => found,
    }
}

// The cut over a name that is nearest to the origin: the last one on the way up.
fn cut_over<A: Heap>(
    origin: &Name<A>,
    records: &[Record<A>],
    name: &Name<A>,
) -> Result<Option<Name<A>>, Starved>
    ensures { IfOk result (λ c. c ≡ cut_of record { origin = origin.now; records = records.now } name.now) }
{
    name.well_formed_law();
    let mut up = name.clone()?;
    let mut found = cut_at(origin, records, &up)?;
    'up: while up.ascend() {
        found = first_or(cut_at(origin, records, &up)?, found);
    }
    Ok(found)
}

// The answer of the wildcard right under the closest encloser of a name that does not exist itself.
fn climb<A: Heap>(
    alloc: A,
    records: &[Record<A>],
    soa: &Record<A>,
    name: &Name<A>,
    kind: RType,
) -> Result<Link<A>, Starved>
    requires { HaveOneTtl records.now }
    ensures { IfOk result (λ l. link_view l ≡ climbed soa.now name.now (type_number kind) records.now name.now) }
{
    name.well_formed_law();
    let mut up = name.clone()?;
    'up: while up.ascend() {
        if has_owner_under(records, &up) {
            return Ok(wildcard(alloc, records, soa, name, kind, &up)?);
        }
    }
    Ok(Link::NxDomain(soa.clone()?))
}

// The link that the wildcard right under a name gives.
fn wildcard<A: Heap>(
    alloc: A,
    records: &[Record<A>],
    soa: &Record<A>,
    name: &Name<A>,
    kind: RType,
    encloser: &Name<A>,
) -> Result<Link<A>, Starved>
    requires { HaveOneTtl records.now }
    ensures { IfOk result (λ l. link_view l ≡ said_wild soa.now name.now (type_number kind) (at (target Wildcard encloser.now) records.now)) }
{
    if is_held(records, encloser, Whose::Wildcard) {
        return Ok(say(alloc, records, soa, name, kind, encloser, Whose::Wildcard)?);
    }
    Ok(Link::NxDomain(soa.clone()?))
}

fn is_address_of<A: Allocator>(rr: &Record<A>, name: &Name<A>) -> bool
    ensures { result ≡ (is_owned name.now rr.now && is_address rr.now) }
{
    rr.owner == *name && (is_kind(rr, RType::A) || is_kind(rr, RType::Aaaa))
}

fn has_repeat<A: Allocator>(set: &[Record<A>], rr: &Record<A>) -> bool
    ensures { result ≡ has_glue rr.now set.now }
{
    set.iter().any(|kept| kept.repeats(rr))
}

// Adds an address, where it is new.
pub(crate) fn put_glue<A: Heap>(set: &mut Records<A>, rr: &Record<A>) -> Result<(), Starved>
    ensures { OnOk result (set.new ≡ add_glue set.old rr.now) }
{
    if has_repeat(set.as_slice(), rr) {
        return Ok(());
    }
    set.push(rr.clone()?)?;
    Ok(())
}

// Adds the addresses of a server's name.
fn put_addresses<A: Heap>(
    set: &mut Records<A>,
    records: &[Record<A>],
    name: &Name<A>,
) -> Result<(), Starved>
    ensures { OnOk result (set.new ≡ fold add_glue set.old (filter (λ r. is_owned name.now r && is_address r) records.now)) }
{
    for rr in records {
        if is_address_of(rr, name) {
            put_glue(set, rr)?;
        }
    }
    Ok(())
}

fn put_server<A: Heap>(
    set: &mut Records<A>,
    records: &[Record<A>],
    server: &Record<A>,
) -> Result<(), Starved>
    ensures { OnOk result (set.new ≡ fold add_glue set.old (addresses_of records.now server.now.value)) }
{
    if let RData::Ns(name) = &server.value {
        put_addresses(set, records, name)?;
    }
    Ok(())
}

// The addresses of an NS set's servers, server by server.
fn glue<A: Heap>(
    alloc: A,
    records: &[Record<A>],
    servers: &[Record<A>],
) -> Result<Records<A>, Starved>
    ensures { IfOk result (λ set. set ≡ glue_of records.now servers.now) }
{
    let mut set = Records::new(alloc);
    for server in servers {
        put_server(&mut set, records, server)?;
    }
    Ok(set)
}

/// The result for a name and a type of a zone's records, by a walk over all of them, with which the look-up by the tree
/// is compared. `soa` is the SOA of the zone's negative answers. That records of one owner and type have one TTL is one
/// of a zone's rules.
pub fn look_in<A: Heap>(
    alloc: A,
    origin: &Name<A>,
    soa: &Record<A>,
    records: &[Record<A>],
    name: &Name<A>,
    kind: RType,
) -> Result<Local<A>, Starved>
    requires { HaveOneTtl records.now }
    ensures { IfOk result (λ l. local_view l ≡ local_by soa.now record { origin = origin.now; records = records.now } name.now (type_number kind)) }
{
    match cut_over(origin, records, name)? {
        Some(cut) => Ok(refer(alloc, records, cut)?),
        None => Ok(Local::Link(link(alloc, origin, soa, records, name, kind)?)),
    }
}

fn refer<A: Heap>(alloc: A, records: &[Record<A>], cut: Name<A>) -> Result<Local<A>, Starved>
    requires { HaveOneTtl records.now }
    ensures { IfOk result (λ l. (origin : List (List ℕ)) → local_view l ≡ Cut cut (ns_of record { origin = origin; records = records.now } cut) (glue_of records.now (ns_of record { origin = origin; records = records.now } cut))) }
{
    let set = gathered(alloc, records, &cut, RType::Ns, &cut, Whose::Own)?;
    let servers = records_in(alloc, set)?;
    let addresses = glue(alloc, records, servers.as_slice())?;
    Ok(Local::Cut(cut, servers, addresses))
}

// The link of a name over which no cut stands.
fn link<A: Heap>(
    alloc: A,
    origin: &Name<A>,
    soa: &Record<A>,
    records: &[Record<A>],
    name: &Name<A>,
    kind: RType,
) -> Result<Link<A>, Starved>
    requires uncut { cut_of record { origin = origin.now; records = records.now } name.now ≡ None }
    requires ttls { HaveOneTtl records.now }
    ensures { IfOk result (λ l. link_view l ≡ link_by soa.now record { origin = origin.now; records = records.now } name.now (type_number kind)) }
{
    if has_owner_under(records, name) {
        return Ok(say(alloc, records, soa, name, kind, name, Whose::Own)?);
    }
    Ok(climb(alloc, records, soa, name, kind)?)
}
