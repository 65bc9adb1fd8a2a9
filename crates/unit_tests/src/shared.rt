//! What the tests of several crates are made of.
use memory::{Heap, Starved};
use rdata::{Record, RecordSet, set_at};

// The set of the first record's owner and type among these records.
pub fn set_of<A: Heap>(alloc: A, records: &[Record<A>]) -> Result<RecordSet<A>, Starved> {
    let [first, ..] = records else {
        return Err(Starved);
    };
    match set_at(alloc, records, &first.owner, first.value.kind())? {
        Some(set) => Ok(set),
        None => Err(Starved),
    }
}
