//! The example in the head of `asks`.
use asks::{AskIndex, AskKey};
use memory::Heap;
use rdata::Addr;
use std::process::Abort;
use std::test::Fail;

fn example<R: Abort, H: Heap>(rt: &R, alloc: H) -> Result<(), Fail> {
    let mut asks = AskIndex::new(alloc);
    let server = Addr([192, 0, 2, 1]);
    asks.set(
        1,
        Some(AskKey {
            socket: 7,
            server,
            id: 4660,
        }),
        1_000,
    )?;
    assert_eq!(rt; asks.find(7, server, 4660), Some(1));
    assert_eq!(rt; asks.earliest(), Some((1_000, 1)));
    Ok(())
}

#[test]
fn runs(rt: HostRuntime) -> Result<(), Fail> {
    example(&rt, rt.alloc())
}
