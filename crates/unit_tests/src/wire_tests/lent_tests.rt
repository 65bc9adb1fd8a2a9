use crate::wire_tests::{DENIAL, REPLY};
use memory::Heap;
use std::test::Fail;
use wire::{View, WireError};

// Whether these are the bytes of the RDATA of the first record of the answer, or of the authority section where the
// answer has none.
fn first_rdata_is<A: Heap>(alloc: A, bytes: &[u8], wanted: &[u8]) -> Result<bool, WireError> {
    let view = View::new(alloc, bytes)?;
    let found = view.answer().next().or(view.authority().next());
    Ok(found.is_some_and(|lent| lent.rdata() == wanted))
}

// An address, and the data of an SOA whose names are pointers.
#[test]
fn a_lent_record_gives_the_bytes_of_its_rdata(rt: HostRuntime) -> Result<(), Fail> {
    let soa = b"\x02ns\xc0\x0e\x01h\xc0\x0e\0\0\0\x01\0\0\0\x02\0\0\0\x03\0\0\0\x04\0\0\0\x3c";
    assert_eq!(rt;
        first_rdata_is(rt.alloc(), REPLY, b"\xc0\0\x02\x01"),
        Ok(true)
    );
    assert_eq!(rt; first_rdata_is(rt.alloc(), DENIAL, soa), Ok(true));
    Ok(())
}
