//! Records made one RRset (RFC 2181, sections 5 and 5.2).
ghost use Rattle.std.specs.Prelude.{◌≡◌, ℕ, ◌≤◌, ◌∷◌, ◌++◌, [], not, cond, map, min, IfOk, OnOk, OnErr};
ghost use Rattle.std.specs.List.{list_any};
ghost use Rattle.rdata.specs.Gathering.{gathered, has, add_once, has_datum, add_datum};
ghost use Rattle.rdata.specs.Kept.{datum};
ghost use Rattle.rdata.specs.Later.{AreFound};
ghost use Rattle.rdata.specs.Order.{same_kept};
ghost use Rattle.rdata.specs.Records.{same_set, greatest_ttl};
ghost use Rattle.rdata.specs.Rows.{rows, in_set};
ghost use Rattle.rdata.specs.Selected.{is_at, records_at};
ghost use Rattle.rdata.specs.Sets.{lowest_ttl, one_set, with_ttl};
ghost use Rattle.rdata.specs.Types.{type_number};

use crate::data::RData;
use crate::record_set::RecordSet;
use crate::records::{GREATEST_TTL, Record, Records};
use crate::rtype::RType;
use crate::shared::Values;
use dname::Name;
use memory::{Heap, Starved};
use std::alloc::Allocator;
use std::collections::BTreeSet;

// The number of a set's first data that are compared one by one. Those behind them are found by their order.
const FEW: usize = 16;

/// While a set is made: the data behind its first sixteen, borrowed, by their order.
pub type Later<'a, A> = BTreeSet<&'a RData<A>, A>;

/// Whether both are of one RRset, with the same owner and type (RFC 2181, section 5): `a.example. A 192.0.2.1` and
/// `a.example. A 192.0.2.2` are.
pub fn same_set<A: Allocator>(a: &Record<A>, b: &Record<A>) -> bool
    ensures { result ≡ same_set a.now b.now }
{
    a.owner == b.owner && a.is(b.value.kind())
}

/// The records of that owner and type as one RRset, where there are any: of equal ones the first, in order, all with
/// the lowest TTL of theirs (RFC 2181, sections 5 and 5.2). Of 192.0.2.1 with TTL 300 and 192.0.2.2 with TTL 60 it is
/// both with TTL 60. Of n records it makes some n log n comparisons; up to 16 in the set take no memory but the set's.
pub fn set_at<A: Heap>(
    alloc: A,
    records: &[Record<A>],
    owner: &Name<A>,
    kind: RType,
) -> Result<Option<RecordSet<A>>, Starved>
    ensures { IfOk result (λ set. in_set set ≡ one_set (records_at owner.now (type_number kind) records.now)) }
{
    let ttl = lowest_ttl_at(records, owner, kind);
    let items = values_at(alloc, records, owner, kind)?;
    if items.is_empty() {
        return Ok(None);
    }
    let values = Values::new(alloc, items)?;
    Ok(Some(RecordSet {
        owner: owner.clone()?,
        ttl,
        values,
    }))
}

/// Any records as one set (RFC 2181, sections 5 and 5.2): of those that repeat each other, TTLs aside, the first, in
/// order, all with the lowest TTL. Of `a.example. 300 A 192.0.2.1`, `b.example. 60 A 192.0.2.1` and the first again
/// with TTL 90 it is the first two with TTL 60. Each record is compared with each that is kept: `set_at` serves long
/// lists.
pub fn dedup_set<A: Heap>(alloc: A, records: &[Record<A>]) -> Result<Records<A>, Starved>
    ensures { IfOk result (λ rs. rs ≡ one_set records.now) }
{
    let ttl = lowest_ttl(records);
    let mut kept = Records::with_capacity(alloc, records.len())?;
    for rr in records {
        keep_once(&mut kept, ttl, rr)?;
    }
    Ok(kept)
}

// Adds a record with this TTL, unless it repeats one that is kept.
fn keep_once<A: Heap>(kept: &mut Records<A>, ttl: u32, added: &Record<A>) -> Result<(), Starved>
    requires { ttl ≤ greatest_ttl }
    ensures { OnOk result (kept.new ≡ add_once ttl kept.old added.now) }
{
    if has_record(kept.as_slice(), added) {
        return Ok(());
    }
    Ok(kept.push(timed(added, ttl)?)?)
}

fn has_record<A: Allocator>(kept: &[Record<A>], added: &Record<A>) -> bool
    ensures { result ≡ has kept.now added.now }
{
    kept.iter().any(|rr| rr.repeats(added))
}

// A copy with this TTL.
fn timed<A: Heap>(rr: &Record<A>, ttl: u32) -> Result<Record<A>, Starved>
    requires { ttl ≤ greatest_ttl }
    ensures { IfOk result (λ r. r ≡ with_ttl ttl rr.now) }
{
    Ok(Record {
        owner: rr.owner.clone()?,
        ttl,
        value: rr.value.clone()?,
    })
}

// The data of an owner's records of a type, each once, in order.
fn values_at<A: Heap>(
    alloc: A,
    records: &[Record<A>],
    owner: &Name<A>,
    kind: RType,
) -> Result<Vec<RData<A>, A>, Starved>
    ensures { IfOk result (λ v. (t : ℕ) → rows owner.now t v.items ≡ gathered t (records_at owner.now (type_number kind) records.now)) }
{
    let most = records.iter().filter(|rr| is_at(rr, owner, kind)).count();
    let mut values = Vec::with_capacity(alloc, most)?;
    let mut later = BTreeSet::new(alloc);
    for rr in records {
        if is_at(rr, owner, kind) {
            put_once(&mut values, &mut later, &rr.value)?;
        }
    }
    Ok(values)
}

fn is_at<A: Allocator>(rr: &Record<A>, owner: &Name<A>, kind: RType) -> bool
    ensures { result ≡ is_at owner.now (type_number kind) rr.now }
{
    rr.owner == *owner && rr.is(kind)
}

// The lowest TTL of the records of that owner and type.
fn lowest_ttl_at<A: Allocator>(records: &[Record<A>], owner: &Name<A>, kind: RType) -> u32
    ensures value { result ≡ lowest_ttl (records_at owner.now (type_number kind) records.now) }
    ensures most { result ≤ greatest_ttl }
{
    let mut lowest = GREATEST_TTL;
    for rr in records {
        if is_at(rr, owner, kind) {
            lowest = rr.ttl.min(lowest);
        }
    }
    lowest
}

/// Adds data to a set that is being made, unless it has them already (RFC 2181, section 5): of 192.0.2.1, 192.0.2.2 and
/// 192.0.2.1 the first two stay. `later` finds those that stand behind the first sixteen. Where memory is refused, the
/// set is as before, and `later` is of no use any more.
pub fn put_once<'a, A: Heap>(
    values: &mut Vec<RData<A>, A>,
    later: &mut Later<'a, A>,
    added: &'a RData<A>,
) -> Result<(), Starved>
    requires { AreFound later.old (map datum values.old.items) }
    ensures values { OnOk result (map datum values.new.items ≡ add_datum (map datum values.old.items) (datum added.now)) }
    ensures found { OnOk result (AreFound later.new (map datum values.new.items)) }
    ensures err { OnErr result (map datum values.new.items ≡ map datum values.old.items) }
{
    if is_new(values, later, added)? {
        values.push(added.clone()?)?;
    }
    Ok(())
}

// Whether these data repeat none of a set. Where they will stand behind its first sixteen, `later` has them from then
// on.
fn is_new<'a, A: Heap>(
    values: &[RData<A>],
    later: &mut Later<'a, A>,
    added: &'a RData<A>,
) -> Result<bool, Starved>
    requires { AreFound later.old (map datum values.now) }
    ensures new { IfOk result (λ new. new ≡ not (has_datum (map datum values.now) (datum added.now))) }
    ensures found { IfOk result (λ new. AreFound later.new (cond new (map datum values.now ++ datum added.now ∷ []) (map datum values.now))) }
{
    let few = values.len().min(FEW);
    if has(&values[..few], added) {
        return Ok(false);
    }
    if values.len() < FEW {
        return Ok(true);
    }
    Ok(later.insert(added)?)
}

/// The lowest TTL in seconds (RFC 2181, sections 5.2 and 8): 60 of 300 and 60; of no records the greatest that there
/// is.
pub fn lowest_ttl<A: Allocator>(records: &[Record<A>]) -> u32
    ensures value { result ≡ lowest_ttl records.now }
    ensures most { result ≤ greatest_ttl }
{
    let mut least = GREATEST_TTL;
    for rr in records {
        least = rr.ttl.min(least);
    }
    least
}

fn has<A: Allocator>(values: &[RData<A>], added: &RData<A>) -> bool
    ensures { result ≡ list_any (λ kept. same_kept kept added.now) values.now }
{
    values.iter().any(|kept| kept.is_same(added))
}
