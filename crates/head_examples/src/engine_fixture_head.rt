//! The example in the head of `engine_fixture`.
use engine_fixture::{Out, TestResolver, under};
use rdata::Addr;
use std::test::Fail;

// www.example. A with RD, under ID 5.
const QUERY: &[u8] = b"\0\x05\x01\0\0\x01\0\0\0\0\0\0\x03www\x07example\0\0\x01\0\x01";

// A server's reply behind its ID, with AA: www.example. 300 A 192.0.2.9.
const FOUND: &[u8] =
    b"\x84\0\0\x01\0\x01\0\0\0\0\x03www\x07example\0\0\x01\0\x01\xc0\x0c\0\x01\0\x01\0\0\x01\x2c\0\x04\xc0\0\x02\x09";

#[test]
fn example(rt: HostRuntime) -> Result<(), Fail> {
    let mut resolver = TestResolver::new(rt.alloc(), Addr([192, 0, 2, 1]))?;
    let query = resolver.query(3, 0, QUERY)?;
    assert_eq!(rt; resolver.step(&query), Out::Asked(1));
    let ask = resolver.ask();
    let reply = ask.told(20, under(rt.alloc(), ask.id, FOUND)?);
    assert_eq!(rt; resolver.step(&reply), Out::Replied);
    Ok(())
}
