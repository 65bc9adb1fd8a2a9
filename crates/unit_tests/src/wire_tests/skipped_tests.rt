use memory::Heap;
use refusing_alloc::Refusing;
use std::test::Fail;
use wire::{WireError, decode};

// How many records the answer section has.
fn answers<A: Heap>(alloc: A, bytes: &[u8]) -> Result<usize, WireError> {
    Ok(decode(alloc, bytes)?.answer.len())
}

// Two records of a type that is not served: one owner in full, one by a pointer to it. Their owners are read.
#[test]
fn records_that_are_skipped_take_no_memory(rt: HostRuntime) -> Result<(), Fail> {
    let skipped =
        b"\0\x01\x80\0\0\0\0\x02\0\0\0\0\x01a\x07example\0\0\x63\0\x01\0\0\0\x01\0\x01x\xc0\x0c\0\x63\0\x01\0\0\0\x01\0\0";
    let heap = Refusing::new(rt.alloc());
    assert_eq!(rt; answers(&heap, skipped), Ok(0));
    assert_eq!(rt; heap.growths(), 0);
    Ok(())
}
