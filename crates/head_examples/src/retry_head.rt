//! The example in the head of `retry`.
use memory::Heap;
use rdata::Addr;
use retry::{Penalties, Plan};
use std::hash::BuildHasher;
use std::num::NonZeroUsize;
use std::process::Abort;
use std::test::Fail;

pub fn example<R: Abort, S: BuildHasher + Drop, H: Heap>(
    rt: &R,
    alloc: H,
    room: NonZeroUsize,
    hasher: S,
) -> Result<(), Fail> {
    let mut penalties = Penalties::new(alloc, room, hasher)?;
    penalties.timed_out(Addr([192, 0, 2, 1]))?;
    let mut plan = Plan::new(
        alloc,
        &[Addr([192, 0, 2, 1]), Addr([192, 0, 2, 2])],
        &penalties,
    )?;
    assert_eq!(rt;
        (plan.next(), plan.wait_ms()),
        (Some(Addr([192, 0, 2, 2])), 1_000)
    );
    Ok(())
}
