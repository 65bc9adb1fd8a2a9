//! The example in the head of `memory`.
use memory::{Heap, Starved};
use std::test::Fail;

fn copy<A: Heap>(alloc: A, bytes: &[u8]) -> Result<Vec<u8, A>, Starved> {
    Ok(Vec::from_slice(alloc, bytes)?) // AllocError becomes Starved
}

#[test]
fn runs(rt: HostRuntime) -> Result<(), Fail> {
    assert_eq!(rt; copy(rt.alloc(), b"www")?.len(), 3);
    Ok(())
}
