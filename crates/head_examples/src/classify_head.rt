//! The example in the head of `classify`.
use classify::{Class, classify, lifetime, received};
use dname::Name;
use memory::Heap;
use rdata::RType;
use std::test::Fail;
use wire::{Via, View};

pub fn example<H: Heap>(
    alloc: H,
    bytes: &[u8],
    zone: &Name<H>,
    name: &Name<H>,
) -> Result<(), Fail> {
    let message = View::new(alloc, bytes)?;
    match classify(alloc, zone, name, RType::A, Via::Udp, &message)? {
        Class::Answer(link) => {
            let link = received(link);
            let seconds = lifetime(&link);
        }
        Class::Referral(referral) => {
            let seconds = referral.lifetime();
            let cut = referral.into_cut(alloc)?;
        }
        Class::Truncated => {} // ask the same server over TCP
        Class::Failed(failure) => {} // ask the next server
    }
    Ok(())
}
