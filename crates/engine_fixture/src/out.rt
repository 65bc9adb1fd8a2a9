//! What comes of a step, in short.
use events::{Action, Actions};
use std::alloc::Allocator;

/// What comes of a step: a server that is asked by the last byte of its address, and the cause of a SERVFAIL by its
/// number. `Other` is anything else, as that another query is due.
#[derive(Clone, Copy, Debug, PartialEq, Eq)]
pub enum Out {
    /// No action, and no further query due.
    Nothing,
    /// An ask over UDP, to the address that ends in this byte.
    Asked(u8),
    /// The same over TCP.
    AskedOverTcp(u8),
    /// A reply for which no cause is given.
    Replied,
    /// A SERVFAIL, by the number of its cause.
    Failed(u8),
    /// Memory was wanting.
    Starved,
    /// Anything else, as that another query is due.
    Other,
}

impl Out {
    /// What these actions are.
    pub fn of<A: Allocator>(actions: &Actions<A>) -> Out {
        if actions.more_due {
            return Out::Other;
        }
        match &actions.first {
            None => Out::Nothing,
            Some(Action::Send { to, .. }) => Out::Asked(to.address.0[3]),
            Some(Action::TcpAsk { to, .. }) => Out::AskedOverTcp(to.address.0[3]),
            Some(Action::Reply { cause: None, .. }) => Out::Replied,
            Some(
                Action::Reply {
                    cause: Some(cause),
                    ..
                },
            ) => Out::Failed(cause.number()),
        }
    }
}
