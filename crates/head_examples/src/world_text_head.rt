//! The example in the head of `world_text`.
use memory::Heap;
use std::process::Abort;
use std::test::Fail;
use world_text::world_in;

fn example<R: Abort, H: Heap>(rt: &R, alloc: H) -> Result<(), Fail> {
    let text =
        "zone .\n. 60 IN SOA r. h. 1 2 3 4 60\n. 60 IN NS ns.\nend\nhost 192.0.2.1 .\nhint 192.0.2.1\n";
    let world = world_in(alloc, text)?;
    assert_eq!(rt; world.hints().len(), 1);
    Ok(())
}

#[test]
fn runs(rt: HostRuntime) -> Result<(), Fail> {
    example(&rt, rt.alloc())
}
