//! CNAME records that stand beside other data (RFC 1034, section 3.6.2).
ghost use Rattle.std.specs.Prelude.{◌≡◌, ℕ, List, IfOk, OnOk};
ghost use Rattle.std.specs.HashMap as hash;
ghost use Rattle.std.specs.List.{list_any};
ghost use Rattle.dname.specs.Labels.{same_name};
ghost use Rattle.rdata.specs.Data.{Cname, same_data};
ghost use Rattle.rdata.specs.Kept.{datum};
ghost use Rattle.zone.specs.Last.{kept_after, alias_of, last_target, is_beside};
ghost use Rattle.zone.specs.Rules.{has_cname_clash};
ghost use Rattle.zone.specs.Kept.{zone_with};

use dname::Name;
use memory::{Heap, Starved};
use rdata::{RData, Record};
use std::alloc::Allocator;
use std::collections::HashMap;
use std::hash::{BuildHasherDefault, FoldHasher};

// Owners of CNAME records, each with the target of its last one.
type Targets<A> = HashMap<Name<A>, Name<A>, BuildHasherDefault<FoldHasher>, A>;

// Notes the target of the record, if it is a CNAME.
fn note_alias<A: Heap>(targets: &mut Targets<A>, rr: &Record<A>) -> Result<(), Starved>
    ensures { OnOk result ((q : List (List ℕ)) → hash.get same_name targets.new q ≡ kept_after (same_name rr.now.owner q) (alias_of rr.now) (hash.get same_name targets.old q)) }
{
    let RData::Cname(target) = &rr.value else {
        return Ok(());
    };
    targets.insert(rr.owner.clone()?, target.clone()?)?;
    Ok(())
}

fn last_targets<A: Heap>(alloc: A, records: &[Record<A>]) -> Result<Targets<A>, Starved>
    ensures { IfOk result (λ m. (q : List (List ℕ)) → hash.get same_name m q ≡ last_target q records.now) }
{
    let mut targets = HashMap::new(alloc);
    for record in records {
        note_alias(&mut targets, record)?;
    }
    Ok(targets)
}

fn is_alias_to<A: Allocator>(value: &RData<A>, target: &Name<A>) -> bool
    ensures { result ≡ same_data (datum value.now) (Cname target.now) }
{
    match value {
        RData::Cname(own) => own == target,
        _ => false,
    }
}

// Whether the record's owner has a CNAME and this is none of its repeats.
fn is_beside<A: Allocator>(rr: &Record<A>, targets: &Targets<A>) -> bool
    ensures { result ≡ is_beside rr.now.value (hash.get same_name targets.now rr.now.owner) }
{
    match targets.get(&rr.owner) {
        None => false,
        Some(target) => !is_alias_to(&rr.value, target),
    }
}

fn some_is_beside<A: Allocator>(records: &[Record<A>], targets: &Targets<A>) -> bool
    ensures { result ≡ list_any (λ r. is_beside r.value (hash.get same_name targets.now r.owner)) records.now }
{
    records.iter().any(|record| is_beside(record, targets))
}

// Whether a CNAME stands beside any other record than its own repeat (RFC 1034, section 3.6.2): `a CNAME b` beside `a A
// 192.0.2.1` does, beside a second `a CNAME b` not.
pub fn has_cname_clash<A: Heap>(origin: &Name<A>, records: &[Record<A>]) -> Result<bool, Starved>
    ensures { IfOk result (λ b. b ≡ has_cname_clash (zone_with origin.now records.now)) }
{
    let targets = last_targets(origin.allocator(), records)?;
    Ok(some_is_beside(records, &targets))
}
