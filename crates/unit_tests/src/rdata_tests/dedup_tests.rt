use memory::{Heap, Starved};
use rdata::{Record, dedup_set};
use record_fixtures::{Row, Value, records};
use std::test::Fail;

// Two owners, two types, and one record twice but for its TTL.
const MIXED: &[Row<'static>] = &[
    ("a.example", 300, Value::A(1)),
    ("b.example", 60, Value::A(1)),
    ("a.example", 90, Value::A(1)),
    ("a.example", 400, Value::Aaaa),
];

const ONCE: &[Row<'static>] = &[
    ("a.example", 60, Value::A(1)),
    ("b.example", 60, Value::A(1)),
    ("a.example", 60, Value::Aaaa),
];

// Whether both are the same records, TTLs included.
fn are_same<A: Heap>(left: &[Record<A>], right: &[Record<A>]) -> bool {
    left.len() == right.len()
        && left
            .iter()
            .zip(right.iter())
            .all(|(a, b)| a.ttl == b.ttl && a.repeats(b))
}

// Whether the one set of the first rows are the second ones.
fn is_set<A: Heap>(
    alloc: A,
    rows: &[Row<'static>],
    wanted: &[Row<'static>],
) -> Result<bool, Starved> {
    let given = records(alloc, rows)?;
    let set = dedup_set(alloc, given.as_slice());
    drop(given);
    let wanted = records(alloc, wanted);
    Ok(are_same(set?.as_slice(), wanted?.as_slice()))
}

#[test]
fn any_records_are_made_one_set(rt: HostRuntime) -> Result<(), Fail> {
    assert_eq!(rt; is_set(rt.alloc(), MIXED, ONCE), Ok(true));
    assert_eq!(rt; is_set(rt.alloc(), &[], &[]), Ok(true));
    Ok(())
}
