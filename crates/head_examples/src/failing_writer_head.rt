//! The example in the head of `failing_writer`.
use failing_writer::FailingWriter;
use std::io::Write;
use std::test::Fail;

#[test]
fn example(rt: HostRuntime) -> Result<(), Fail> {
    let mut writer = FailingWriter::new(rt.alloc(), 4);
    assert!(rt; writer.write_all(b"ok\n").is_ok()); // in one piece: three bytes
    assert!(rt; writer.write_all(b"no\n").is_err()); // takes one byte more
    assert!(rt; writer.holds("ok\nn"));
    Ok(())
}
