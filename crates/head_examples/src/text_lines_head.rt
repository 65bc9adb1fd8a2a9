//! The example in the head of `text_lines`.
use rdata::Addr;
use std::test::Fail;
use text_lines::LineWords;

#[test]
fn example(rt: HostRuntime) -> Result<(), Fail> {
    let mut words = LineWords::stated("listen 127.0.0.1 5300");
    assert_eq!(rt; words.word()?, "listen");
    assert_eq!(rt; words.address()?, Addr([127, 0, 0, 1]));
    assert_eq!(rt; words.number(0, 65_535)?, 5300);
    words.end()?;
    Ok(())
}
