//! The example in the head of `masterfile`.
use dname::Name;
use masterfile::{print, read};
use memory::Heap;
use std::process::Abort;
use std::test::Fail;

fn example<R: Abort, H: Heap>(rt: &R, alloc: H) -> Result<(), Fail> {
    let origin = Name::from_text(alloc, "example.")?;
    let records = read(alloc, &origin, "$TTL 300\nwww IN A 192.0.2.1\n")?;
    let text = print(alloc, &origin, records.as_slice())?;
    assert_eq!(rt;
        text.as_str(),
        "$ORIGIN example.\nwww.example. 300 IN A 192.0.2.1\n"
    );
    Ok(())
}

#[test]
fn runs(rt: HostRuntime) -> Result<(), Fail> {
    example(&rt, rt.alloc())
}
