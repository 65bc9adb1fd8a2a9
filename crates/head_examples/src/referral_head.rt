//! The example in the head of `referral`.
use dname::Name;
use memory::Heap;
use rdata::Records;
use referral::{Cut, Delegations};
use std::hash::BuildHasher;
use std::num::NonZeroUsize;
use std::test::Fail;

pub fn example<S: BuildHasher + Drop, H: Heap>(
    alloc: H,
    room: NonZeroUsize,
    hasher: S,
    owner: Name<H>,
    servers: &Records<H>,
    glue: &Records<H>,
    name: &Name<H>,
) -> Result<(), Fail> {
    let mut delegations = Delegations::new(alloc, room, hasher)?;
    let cut = Cut::of_records(alloc, owner, servers.as_slice(), glue.as_slice())?;
    delegations.keep(cut, 3_600, 0)?;
    let best = delegations.best(name, 1_000)?;
    Ok(())
}
