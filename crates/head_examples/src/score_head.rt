//! The example in the head of `score`.
use memory::Heap;
use score::Sends;
use std::process::Abort;
use std::test::Fail;
use wire::Via;

fn example<R: Abort, H: Heap>(rt: &R, alloc: H) -> Result<(), Fail> {
    let mut sends = Sends::new(alloc);
    sends.push(Via::Udp)?;
    sends.push(Via::Tcp)?;
    assert_eq!(rt;
        (sends.way(2), sends.take_lowest()),
        (Some(Via::Tcp), Some(1))
    );
    Ok(())
}

#[test]
fn runs(rt: HostRuntime) -> Result<(), Fail> {
    example(&rt, rt.alloc())
}
