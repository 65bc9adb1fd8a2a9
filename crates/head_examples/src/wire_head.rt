//! The example in the head of `wire`.
use memory::Heap;
use std::test::Fail;
use wire::{UDP_LIMIT, decode, encode};

pub fn example<H: Heap>(alloc: H, bytes: &[u8]) -> Result<(), Fail> {
    let message = decode(alloc, bytes)?;
    for asked in message.questions.as_slice() {
        // its name, qtype and qclass
    }
    let bytes = encode(alloc, &message, UDP_LIMIT)?;
    Ok(())
}
