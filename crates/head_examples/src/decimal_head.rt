//! The example in the head of `decimal`.
use std::test::Fail;

#[test]
fn example(rt: HostRuntime) -> Result<(), Fail> {
    assert_eq!(rt; decimal::value(b"0053", 65_535), Some(53));
    assert_eq!(rt; decimal::value(b"65536", 65_535), None);
    assert!(rt; !decimal::are_digits(b"5x"));
    Ok(())
}
