//! The example in the head of `script`.
use memory::Heap;
use script::{Order, read_script};
use std::process::Abort;
use std::test::Fail;

fn example<R: Abort, H: Heap>(rt: &R, alloc: H) -> Result<(), Fail> {
    let orders = read_script(alloc, "at 0\nask www.lab.example. A\ncut 1\nrun\n")?;
    assert!(rt; matches!(orders.as_slice(), [_, _, Order::Truncate(1), _]));
    Ok(())
}

#[test]
fn runs(rt: HostRuntime) -> Result<(), Fail> {
    example(&rt, rt.alloc())
}
