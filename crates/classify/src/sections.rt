//! Records of a reply's sections. A record is made only where it is chosen.
ghost use Rattle.std.specs.Prelude.{◌≡◌, [], ◌∷◌, ◌++◌, filter, take, IfOk, OnOk};
ghost use Rattle.std.specs.List.Sorted.{IsSorted};
ghost use Rattle.dname.specs.Order.{name_cmp};
ghost use Rattle.rdata.specs.Rows.{in_set};
ghost use Rattle.rdata.specs.Selected.{is_at, records_at};
ghost use Rattle.rdata.specs.Sets.{one_set};
ghost use Rattle.rdata.specs.Types.{type_number};
ghost use Rattle.zone.specs.Look.{is_type};
ghost use Rattle.classify.specs.Classes.{first_of, addresses_of};
ghost use Rattle.classify.specs.Narrowed.{all_addresses};
ghost use Rattle.classify.specs.Targets.{is_given};

use crate::targets::{is_one_of, targets_of};
use dname::Name;
use limits::MAX_GLUE;
use memory::{Heap, Starved};
use rdata::{RType, Record, RecordSet, Records, set_at};
use std::alloc::Allocator;
use wire::{Lent, Walk};

// Whether a record is of that type.
fn is_of(found: &Lent<'_>, kind: RType) -> bool
    ensures { result ≡ is_type (type_number kind) found.now }
{
    found.kind() == kind
}

// Whether a record is of that owner and type.
fn is_at<A: Allocator>(found: &Lent<'_>, owner: &Name<A>, kind: RType) -> bool
    ensures { result ≡ is_at owner.now (type_number kind) found.now }
{
    is_of(found, kind) && found.owner_is(owner)
}

// Adds a record, where it has this owner and type.
fn put_at<A: Heap>(
    alloc: A,
    records: &mut Records<A>,
    found: &Lent<'_>,
    owner: &Name<A>,
    kind: RType,
) -> Result<(), Starved>
    ensures { OnOk result (records.new ≡ records.old ++ filter (is_at owner.now (type_number kind)) (found.now ∷ [])) }
{
    if is_at(found, owner, kind) {
        records.push(found.record(alloc)?)?;
    }
    Ok(())
}

// The records of that owner and type in a section.
fn records_in<A: Heap>(
    alloc: A,
    mut section: Walk<'_>,
    owner: &Name<A>,
    kind: RType,
) -> Result<Records<A>, Starved>
    ensures { IfOk result (λ rs. rs ≡ records_at owner.now (type_number kind) section.entry) }
{
    let mut records = Records::new(alloc);
    while let Some(found) = section.next() {
        put_at(alloc, &mut records, &found, owner, kind)?;
    }
    Ok(records)
}

/// The RRset of that owner and type in a section, where there is one, as `set_at` makes it.
pub(crate) fn set_in<A: Heap>(
    alloc: A,
    section: Walk<'_>,
    owner: &Name<A>,
    kind: RType,
) -> Result<Option<RecordSet<A>>, Starved>
    ensures { IfOk result (λ set. in_set set ≡ one_set (records_at owner.now (type_number kind) section.entry)) }
{
    let records = records_in(alloc, section, owner, kind)?;
    Ok(set_at(alloc, records.as_slice(), owner, kind)?)
}

// The first records of that owner and type in a section, so many at most. What stands behind them is not read.
fn first_records_in<A: Heap>(
    alloc: A,
    mut section: Walk<'_>,
    owner: &Name<A>,
    kind: RType,
    most: usize,
) -> Result<Records<A>, Starved>
    ensures { IfOk result (λ rs. rs ≡ take most (records_at owner.now (type_number kind) section.entry)) }
{
    let mut records = Records::new(alloc);
    while let Some(found) = section.next() {
        if records.len() >= most {
            return Ok(records);
        }
        put_at(alloc, &mut records, &found, owner, kind)?;
    }
    Ok(records)
}

/// The RRset that the first records of that owner and type in a section make, so many at most; none where there are
/// none.
pub(crate) fn first_set_in<A: Heap>(
    alloc: A,
    section: Walk<'_>,
    owner: &Name<A>,
    kind: RType,
    most: usize,
) -> Result<Option<RecordSet<A>>, Starved>
    ensures { IfOk result (λ set. in_set set ≡ one_set (take most (records_at owner.now (type_number kind) section.entry))) }
{
    let first = first_records_in(alloc, section, owner, kind, most)?;
    Ok(set_at(alloc, first.as_slice(), owner, kind)?)
}

/// The first record of the type in a section.
pub(crate) fn first_in<'a>(mut section: Walk<'a>, kind: RType) -> Option<Lent<'a>>
    ensures { result ≡ first_of (type_number kind) section.entry }
{
    while let Some(found) = section.next() {
        if is_of(&found, kind) {
            return Some(found);
        }
    }
    None
}

// Adds a record whose owner is made already.
fn put_owned<A: Heap>(
    alloc: A,
    records: &mut Records<A>,
    found: &Lent<'_>,
    owner: Name<A>,
) -> Result<(), Starved>
    ensures { OnOk result (records.new ≡ records.old ++ record { owner = owner; ttl = found.now.ttl; value = found.now.value } ∷ []) }
{
    match found.value(alloc) {
        Err(starved) => {
            drop(owner);
            Err(starved)
        }
        Ok(value) => {
            let ttl = found.ttl();
            records.push(Record { owner, ttl, value })
        }
    }
}

// Adds an address, where it is one of these names at or under the zone.
fn put_given<A: Heap>(
    alloc: A,
    addresses: &mut Records<A>,
    found: &Lent<'_>,
    zone: &Name<A>,
    targets: &[Name<A>],
) -> Result<(), Starved>
    requires { IsSorted name_cmp targets.now }
    ensures { OnOk result (addresses.new ≡ addresses.old ++ filter (is_given zone.now targets.now) (found.now ∷ [])) }
{
    if !is_of(found, RType::A) {
        return Ok(());
    }
    let owner = found.owner(alloc)?;
    if owner.is_at_or_under(zone) && is_one_of(&owner, targets) {
        return put_owned(alloc, addresses, found, owner);
    }
    drop(owner);
    Ok(())
}

/// The A records of the servers that stand at or under the zone, the first `MAX_GLUE` of them. A message can hold
/// thousands, so the servers' names are sorted once.
pub(crate) fn addresses_in<A: Heap>(
    alloc: A,
    mut section: Walk<'_>,
    zone: &Name<A>,
    servers: &[Record<A>],
) -> Result<Records<A>, Starved>
    ensures { IfOk result (λ rs. rs ≡ addresses_of zone.now servers.now section.entry) }
{
    let targets = targets_of(alloc, servers)?;
    let mut addresses = Records::new(alloc);
    while let Some(found) = section.next() {
        if addresses.len() >= MAX_GLUE {
            return Ok(addresses);
        }
        put_given(alloc, &mut addresses, &found, zone, &targets)?;
    }
    Ok(addresses)
}

/// All A records of the servers that stand at or under the zone, however many.
pub(crate) fn all_addresses_in<A: Heap>(
    alloc: A,
    mut section: Walk<'_>,
    zone: &Name<A>,
    servers: &[Record<A>],
) -> Result<Records<A>, Starved>
    ensures { IfOk result (λ rs. rs ≡ all_addresses zone.now servers.now section.entry) }
{
    let targets = targets_of(alloc, servers)?;
    let mut addresses = Records::new(alloc);
    while let Some(found) = section.next() {
        put_given(alloc, &mut addresses, &found, zone, &targets)?;
    }
    Ok(addresses)
}
