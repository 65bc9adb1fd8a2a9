//! The example in the head of `worlds`.
use dname::Name;
use memory::Heap;
use rdata::{Addr, RType};
use std::test::Fail;
use worlds::{Host, World, host_reply, judge};
use zone::Zone;

pub fn example<H: Heap>(
    alloc: H,
    zones: Vec<Zone<H>, H>,
    hosts: Vec<Host<H>, H>,
    hints: Vec<Addr, H>,
    locals: Vec<Name<H>, H>,
    query: &[u8],
    name: &Name<H>,
) -> Result<(), Fail> {
    let world = World::check(zones, hosts, hints, locals)?;
    if let Some(reply) = host_reply(alloc, &world, Addr([198, 51, 100, 1]), query)? {
        let is_right = judge(&world, name, RType::A, &reply)?; // a referral is not, an answer is
    }
    Ok(())
}
