//! The example in the head of `cache`.
use cache::Cache;
use dname::Name;
use memory::Heap;
use rdata::RType;
use std::hash::BuildHasher;
use std::num::NonZeroUsize;
use std::process::Abort;
use std::test::Fail;
use zone::Link;

pub fn example<R: Abort, S: BuildHasher + Drop, H: Heap>(
    rt: &R,
    alloc: H,
    room: NonZeroUsize,
    hasher: S,
    name: &Name<H>,
    link: &Link<H>,
    root: &Name<H>,
) -> Result<(), Fail> {
    let mut cache = Cache::new(alloc, room, hasher)?;
    cache.keep(name, RType::A, link, 300, 0)?;
    if let Some(hit) = cache.look(name, RType::A, root, 10_000)? {
        assert_eq!(rt; hit.left(10_000), 290);
        let link = hit.into_link(10_000);
    }
    Ok(())
}
