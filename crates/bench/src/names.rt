//! Names and records for what is measured.
use dname::Name;
use memory::{Heap, Starved};
use rdata::{Addr, RData, Record, Records};

/// The name of that text, which is one, so that only memory can be refused.
pub fn name<A: Heap>(alloc: A, text: &str) -> Result<Name<A>, Starved> {
    Name::from_text(alloc, text).map_err(|_| Starved)
}

/// So many addresses of a name.
pub fn addresses<A: Heap>(alloc: A, owner: &Name<A>, count: u8) -> Result<Records<A>, Starved> {
    let mut records = Records::new(alloc);
    for last in 0..count {
        let owner = owner.clone()?;
        records.push(Record {
            owner,
            ttl: 300,
            value: RData::A(Addr([192, 0, 2, last])),
        })?;
    }
    Ok(records)
}
