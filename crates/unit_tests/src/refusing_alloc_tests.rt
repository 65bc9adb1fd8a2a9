use refusing_alloc::Refusing;
use std::alloc::{AllocError, Allocator};
use std::test::Fail;

// Three growths: `Vec`'s room for `first`, its room for `second`, and the copy.
fn doubled<A: Allocator + Copy>(
    alloc: A,
    first: &[u8],
    second: &[u8],
) -> Result<Vec<u8, A>, AllocError> {
    let mut bytes = Vec::from_slice(alloc, first)?;
    bytes.extend_from_slice(second)?;
    Vec::from_slice(alloc, &bytes)
}

#[test]
fn refuses_each_growth_in_turn(rt: HostRuntime) -> Result<(), Fail> {
    let heap = Refusing::new(rt.alloc());
    assert!(rt; doubled(&heap, b"ab", b"cdefghijklmnopqrstuvwxyz").is_ok());
    let growths = heap.growths();
    assert_eq!(rt; growths, 3);
    for n in 0..growths {
        heap.refuse_after(n);
        assert!(rt;
            doubled(&heap, b"ab", b"cdefghijklmnopqrstuvwxyz").is_err(),
            "growth {n}"
        );
        assert!(rt;
            doubled(&heap, b"ab", b"cdefghijklmnopqrstuvwxyz").is_ok(),
            "after growth {n}"
        );
    }
    heap.refuse_after(growths);
    assert!(rt; doubled(&heap, b"ab", b"cdefghijklmnopqrstuvwxyz").is_ok());
    Ok(())
}
