//! The example in the head of `reply_lines`.
use memory::Heap;
use reply_lines::put_reply_bytes;
use std::test::Fail;

pub fn example<H: Heap>(alloc: H, reply: &[u8]) -> Result<(), Fail> {
    let mut out = String::new(alloc);
    put_reply_bytes(alloc, &mut out, 1, reply, None)?;
    // reply 1 NOERROR aa
    //   an www.example. 300 A 192.0.2.1
    Ok(())
}
