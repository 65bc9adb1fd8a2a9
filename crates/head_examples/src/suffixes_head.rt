//! The example in the head of `suffixes`.
use dname::Name;
use memory::Heap;
use std::process::Abort;
use std::test::Fail;
use suffixes::{Found, Suffixes};

fn example<R: Abort, H: Heap>(rt: &R, alloc: H) -> Result<(), Fail> {
    let mut seen = Suffixes::new(alloc)?;
    let www = Name::from_text(alloc, "www.example.")?;
    seen.note(&www, 2, 12)?; // www.example. stands at 12, so example. stands at 16
    let ftp = Name::from_text(alloc, "ftp.example.")?;
    let found = seen.longest(&ftp); // one label, then the pointer
    assert!(rt;
        matches!(
            found,
            Some(Found {
                labels: 1,
                place: 16,
                ..
            })
        )
    );
    Ok(())
}

#[test]
fn runs(rt: HostRuntime) -> Result<(), Fail> {
    example(&rt, rt.alloc())
}
