use memory::{Heap, Starved};
use refusing_alloc::Refusing;
use std::test::Fail;
use wire::{WireError, decode};

// A record that is skipped: its RDATA hold the name `a.`, at 23, and from 26 on 8,000 pointers, the first to that
// name and each further one to the one before it. Then come so many records, whose owner is a pointer to the last.
fn chained<A: Heap>(alloc: A, owners: u16) -> Result<Vec<u8, A>, Starved> {
    let mut bytes = Vec::from_slice(alloc, b"\0\x01\x80\0\0\0")?;
    bytes.extend_from_slice(&owners.saturating_add(1).to_be_bytes())?;
    bytes.extend_from_slice(b"\0\0\0\0\0\0\x63\0\x01\0\0\0\0\x3e\x83\x01a\0")?;
    put_chain(&mut bytes, owners)?;
    Ok(bytes)
}

fn put_chain<A: Heap>(bytes: &mut Vec<u8, A>, owners: u16) -> Result<(), Starved> {
    let mut target: u16 = 23;
    for link in 0..8_000_u16 {
        bytes.extend_from_slice(&(0xc000 | target).to_be_bytes())?;
        target = 26 + 2 * link;
    }
    for _ in 0..owners {
        bytes.extend_from_slice(b"\xfe\x98\0\x01\0\x01\0\0\0\x3c\0\x04\xc0\0\x02\x01")?;
    }
    Ok(())
}

// How many records are read.
fn read_back<A: Heap>(alloc: A, bytes: &[u8]) -> Result<usize, WireError> {
    Ok(decode(alloc, bytes)?.answer.len())
}

// With a table of the ends of the chain 3,000 owners are read at once; without memory for one, ten are read all the same.
#[test]
fn a_long_chain_needs_no_memory(rt: HostRuntime) -> Result<(), Fail> {
    let heap = Refusing::new(rt.alloc());
    let many = chained(rt.alloc(), 3_000)?;
    assert_eq!(rt; read_back(&heap, &many), Ok(3_000));
    let few = chained(rt.alloc(), 10)?;
    heap.refuse_after(0);
    assert_eq!(rt; read_back(&heap, &few), Ok(10));
    Ok(())
}
