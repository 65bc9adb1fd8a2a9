//! The example in the head of `zone`.
use dname::Name;
use memory::Heap;
use rdata::Records;
use std::test::Fail;
use zone::Zone;

pub fn example<H: Heap>(origin: Name<H>, records: Records<H>, name: &Name<H>) -> Result<(), Fail> {
    let zone = Zone::build(origin, records)?;
    if let Some(stand) = zone.stand(name) {
        if stand.own.len() > 0 {
            let record = stand.own.get(0);
        }
    }
    Ok(())
}
