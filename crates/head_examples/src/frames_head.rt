//! The example in the head of `frames`.
use frames::{Failed, Frame};
use memory::Heap;
use rdata::Addr;
use referral::Cut;
use retry::Penalties;
use std::hash::BuildHasher;
use std::test::Fail;

pub fn example<S: BuildHasher + Drop, H: Heap>(
    alloc: H,
    cut: &Cut<H>,
    penalties: &Penalties<S, H>,
    failed: &Failed<H>,
    found: &[Addr],
) -> Result<(), Fail> {
    let mut frame = Frame::start(alloc, cut, 0, penalties)?;
    if let Some(server) = frame.next_address() {
        let milliseconds = frame.wait_ms(); // how long its reply is waited for
    }
    if let Some(name) = frame.next_name(failed)? {
        let more = frame.add(found, penalties)?; // the addresses that a look-up of the name found
    }
    Ok(())
}
