//! The example in the head of `lookup`.
use dname::Name;
use lookup::{Found, Home, Stores, find};
use memory::Heap;
use rdata::RType;
use std::hash::BuildHasher;
use std::test::Fail;

pub fn example<S: BuildHasher + Drop, H: Heap>(
    alloc: H,
    home: &Home<H>,
    name: &Name<H>,
    stores: &mut Stores<S, H>,
    now: u64,
) -> Result<(), Fail> {
    match find(alloc, home, name, RType::A, stores, now)? {
        Found::Known(taken) => {
            let link = taken.into_sent(now);
        }
        Found::Start(cut) => {
            let frame = stores.open(alloc, &cut, 0)?;
        }
    }
    Ok(())
}
