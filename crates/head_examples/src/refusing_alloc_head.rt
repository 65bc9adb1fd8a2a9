//! The example in the head of `refusing_alloc`.
use refusing_alloc::Refusing;
use std::test::Fail;

#[test]
fn example(rt: HostRuntime) -> Result<(), Fail> {
    let heap = Refusing::new(rt.alloc());
    assert!(rt; Vec::from_slice(&heap, b"www").is_ok());
    for n in 0..heap.growths() {
        heap.refuse_after(n);
        assert!(rt; Vec::from_slice(&heap, b"www").is_err());
    }
    Ok(())
}
