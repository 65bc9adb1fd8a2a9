//! The example in the head of `dname`.
use dname::Name;
use memory::Heap;
use std::process::Abort;
use std::test::Fail;

fn example<R: Abort, H: Heap>(rt: &R, alloc: H) -> Result<(), Fail> {
    let origin = Name::from_text(alloc, "Example.")?;
    let name = Name::under(alloc, b"www", &origin)?;
    assert!(rt; name.is_at_or_under(&origin) && name.labels() == 2);
    assert_eq!(rt; name.to_text()?.as_str(), "www.example.");
    Ok(())
}

#[test]
fn runs(rt: HostRuntime) -> Result<(), Fail> {
    example(&rt, rt.alloc())
}
