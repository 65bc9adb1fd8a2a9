//! The RRset of an owner and a type, gathered from the records of a zone.
ghost use Rattle.std.specs.Prelude.{◌≡◌, ◌≢◌, [], IfOk, IfSome, OnOk, cond, map};
ghost use Rattle.rdata.specs.Types.{type_number};
ghost use Rattle.rdata.specs.Kept.{datum};
ghost use Rattle.rdata.specs.Gathering.{add_datum};
ghost use Rattle.rdata.specs.Later.{AreFound};
ghost use Rattle.rdata.specs.Rows.{in_set};
ghost use Rattle.zone.specs.Look.{firsts, with_owner};
ghost use Rattle.authority.specs.Climb.{target, picked};
ghost use Rattle.zone.specs.Values.{values_of};
ghost use Rattle.authority.specs.Values.{HaveOneTtl};

use crate::plain::{Whose, answers, first_of};
use dname::Name;
use memory::{Heap, Starved};
use rdata::{Later, RData, RType, Record, RecordSet, Records, Values, put_once};
use std::collections::BTreeSet;

pub(crate) fn owned_by<A: Heap>(owner: &Name<A>, rr: &Record<A>) -> Result<Record<A>, Starved>
    ensures { IfOk result (λ r. r ≡ with_owner owner.now rr.now) }
{
    Ok(Record {
        owner: owner.clone()?,
        ttl: rr.ttl,
        value: rr.value.clone()?,
    })
}

// Adds the data of a record that is wanted to a set that is being made, unless it has them already.
pub(crate) fn put_wanted<'a, A: Heap>(
    values: &mut Vec<RData<A>, A>,
    later: &mut Later<'a, A>,
    rr: &'a Record<A>,
    wanted: bool,
) -> Result<(), Starved>
    requires { AreFound later.old (map datum values.old.items) }
    ensures values { OnOk result (map datum values.new.items ≡ cond wanted (add_datum (map datum values.old.items) rr.now.value) (map datum values.old.items)) }
    ensures found { OnOk result (AreFound later.new (map datum values.new.items)) }
{
    if wanted {
        return put_once(values, later, &rr.value);
    }
    Ok(())
}

// The data of a type at this name, each once.
fn values_of<A: Heap>(
    alloc: A,
    records: &[Record<A>],
    kind: RType,
    name: &Name<A>,
    whose: Whose,
) -> Result<Vec<RData<A>, A>, Starved>
    ensures { IfOk result (λ v. map datum v.items ≡ values_of (picked (target whose name.now) (type_number kind) records.now)) }
{
    let mut values = Vec::new(alloc);
    let mut later = BTreeSet::new(alloc);
    for rr in records {
        put_wanted(&mut values, &mut later, rr, answers(rr, name, whose, kind))?;
    }
    Ok(values)
}

// The set of a type at this name, each record once, with `owner` as owner.
pub(crate) fn gathered<A: Heap>(
    alloc: A,
    records: &[Record<A>],
    owner: &Name<A>,
    kind: RType,
    name: &Name<A>,
    whose: Whose,
) -> Result<Option<RecordSet<A>>, Starved>
    requires { HaveOneTtl records.now }
    ensures value { IfOk result (λ set. in_set set ≡ firsts (map (with_owner owner.now) (picked (target whose name.now) (type_number kind) records.now))) }
    ensures some { IfOk result (λ set. IfSome set (λ rs. rs ≢ [])) }
{
    match first_of(records, name, whose, kind) {
        None => Ok(None),
        Some(first) => {
            let items = values_of(alloc, records, kind, name, whose)?;
            let values = Values::new(alloc, items)?;
            Ok(Some(RecordSet {
                owner: owner.clone()?,
                ttl: first.ttl,
                values,
            }))
        }
    }
}

// The records of a set, and none where there is no set.
pub(crate) fn records_in<A: Heap>(
    alloc: A,
    set: Option<RecordSet<A>>,
) -> Result<Records<A>, Starved>
    ensures { IfOk result (λ rs. rs ≡ in_set set) }
{
    match set {
        Some(set) => Ok(set.to_records(alloc)?),
        None => Ok(Records::new(alloc)),
    }
}
