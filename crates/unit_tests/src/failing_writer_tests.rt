use failing_writer::FailingWriter;
use std::io::Write;
use std::test::Fail;

#[test]
fn a_writer_holds_the_bytes_that_fit_alone(rt: HostRuntime) -> Result<(), Fail> {
    // Room, what is written, whether the writer takes all of it, and what it holds then.
    for (room, text, all, held) in [(3, "ok\n", true, "ok\n"), (5, "seventy", false, "seven")] {
        let mut writer = FailingWriter::new(rt.alloc(), room);
        let is_taken = writer.write_all(text.as_bytes()).is_ok();
        assert!(rt; is_taken == all && writer.holds(held), "{held}");
        for other in ["", "ok", "ok\n\n", "no\n", "OK\n"] {
            assert!(rt; !writer.holds(other), "{held}, {other}");
        }
    }
    Ok(())
}
