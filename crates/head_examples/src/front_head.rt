//! The example in the head of `front`.
use authority::Catalog;
use front::{Request, answer_local, read_query, reply_bytes};
use memory::Heap;
use std::test::Fail;
use wire::{Via, Writer};

pub fn example<H: Heap>(alloc: H, bytes: &[u8], catalog: &Catalog<H>) -> Result<(), Fail> {
    let mut writer = Writer::new(alloc)?;
    if let Request::Query(query) = read_query(alloc, bytes)? {
        let outcome = answer_local(alloc, &query, catalog)?;
        let (reply, cause) = reply_bytes(&mut writer, &query, &outcome, Via::Udp)?;
    }
    Ok(())
}
