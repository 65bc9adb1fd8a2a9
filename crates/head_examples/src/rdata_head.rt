//! The example in the head of `rdata`.
use dname::Name;
use memory::Heap;
use rdata::{Addr, RData, RType, Record, Records, set_at};
use std::process::Abort;
use std::test::Fail;

pub fn example<R: Abort, H: Heap>(rt: &R, alloc: H, name: &Name<H>) -> Result<(), Fail> {
    let mut records = Records::new(alloc);
    records.push(Record {
        owner: name.clone()?,
        ttl: 300,
        value: RData::A(Addr([192, 0, 2, 1])),
    })?;
    let set = set_at(alloc, records.as_slice(), name, RType::A)?;
    assert!(rt; set.is_some_and(|set| set.len() == 1 && set.ttl() == 300));
    Ok(())
}
