//! The example in the head of `iterate`.
use dname::Name;
use iterate::{Next, Started, begin_query};
use lookup::{Home, Stores};
use memory::Heap;
use rdata::RType;
use std::hash::BuildHasher;
use std::test::Fail;

pub fn example<S: BuildHasher + Drop, H: Heap>(
    alloc: H,
    name: &Name<H>,
    home: &Home<H>,
    stores: &mut Stores<S, H>,
) -> Result<(), Fail> {
    match begin_query(alloc, name, RType::A, home, stores, 0)? {
        Started::Answered(last) => {} // the answer
        Started::Working(job, next) => match next {
            // Later: `advance_by_reply(.., server, &reading, ..)`, or `advance` with Input::TimedOut(server).
            Next::AskUdp(server, asked, kind) => {}
            // Later: the same, or Input::TcpFailed(server).
            Next::AskTcp(server, asked, kind) => {}
            Next::Done(chain, last) => {} // the aliases, and the link that ends them
            Next::Fail(cause) => {} // SERVFAIL
        },
    }
    Ok(())
}
