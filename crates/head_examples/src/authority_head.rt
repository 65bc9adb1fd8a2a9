//! The example in the head of `authority`.
use authority::{Catalog, Local};
use dname::Name;
use memory::Heap;
use rdata::RType;
use std::test::Fail;
use zone::Zone;

pub fn example<H: Heap>(alloc: H, zone: Zone<H>, name: &Name<H>) -> Result<(), Fail> {
    let mut zones = Vec::new(alloc);
    zones.push(zone)?;
    let catalog = Catalog::new(zones)?;
    match catalog.look(alloc, name, RType::A)? {
        Local::Link(link) => {} // the RRset, a CNAME, NODATA or NXDOMAIN
        Local::Cut(at, servers, glue) => {} // a referral to `at`
        Local::NotHere => {} // not in bailiwick of any local zone
    }
    Ok(())
}
