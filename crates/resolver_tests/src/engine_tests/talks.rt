//! Talks with servers up to a last reply, and a resolver that waits for it.
use crate::engine_tests::bytes::{Change, told};
use crate::engine_tests::fixtures::end;
use engine_fixture::{Out, TestResolver};
use memory::{Heap, Starved};
use rdata::Addr;
use std::mem;

// The server of the root, a client's query, the replies behind their IDs that lead to the last ask, and what the last
// of those brings; the reply to that ask, what the whole of it brings, and what the client has to be sent then, if
// anything.
#[derive(Clone, Copy)]
pub struct Talk {
    pub root: Addr,
    pub query: &'static [u8],
    pub before: &'static [&'static [u8]],
    pub asked: Out,
    pub reply: &'static [u8],
    pub out: Out,
    pub sent: Option<&'static [u8]>,
}

// The client asks, and all but the last ask are answered.
fn lead<A: Heap>(resolver: &mut TestResolver<A>, talk: Talk) -> Out {
    let query = resolver.query(3, 0, talk.query);
    let mut out = resolver.take(query);
    for reply in talk.before {
        out = told(resolver, reply, Change::Nothing);
    }
    out
}

// A resolver that waits for the reply of a talk.
pub fn waiting<A: Heap>(alloc: A, talk: Talk) -> Result<TestResolver<A>, Starved> {
    let mut resolver = TestResolver::new(alloc, talk.root)?;
    if lead(&mut resolver, talk) == talk.asked {
        Ok(resolver)
    } else {
        end(resolver);
        Err(Starved)
    }
}

// Another one waits.
pub fn renew<A: Heap>(resolver: &mut TestResolver<A>, talk: Talk) -> Result<(), Starved> {
    let next = waiting(resolver.heap(), talk)?;
    end(mem::replace(resolver, next));
    Ok(())
}

// Whether a resolver that waits for the reply takes the whole one when it comes, and sends what it has to.
pub fn goes_on<A: Heap>(resolver: &mut TestResolver<A>, talk: Talk) -> bool {
    let out = told(resolver, talk.reply, Change::Nothing);
    let is_sent = match talk.sent {
        Some(sent) => resolver.has_sent(3, sent),
        None => true,
    };
    out == talk.out && is_sent
}
