//! The example in the head of `causes`.
use causes::Cause;
use std::test::Fail;

#[test]
fn example(rt: HostRuntime) -> Result<(), Fail> {
    let cause = Cause::DeadlineOver;
    assert_eq!(rt; cause.number(), 2); // printed: reply 1 SERVFAIL cause 2
    Ok(())
}
