//! The example in the head of `sockets`.
use memory::Heap;
use sockets::{read_framed, write_framed};
use std::io::{Read, Write};
use std::test::Fail;

pub fn example<A: Read, B: Write, H: Heap>(
    alloc: H,
    reader: &mut A,
    writer: &mut B,
) -> Result<(), Fail> {
    write_framed(writer, b"www")?; // 0, 3, then these three bytes
    let bytes = read_framed(alloc, reader)?; // none where the stream ends before a frame
    Ok(())
}
