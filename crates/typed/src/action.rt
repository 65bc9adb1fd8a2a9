//! Actions that are not written yet.
use events::{Ask, ClientQuery};
use front::{Outcome, Refusal, SharedEcho, Start};
use std::alloc::{Allocator, Global};
use wire::Via;

/// An action by its parts, of which its bytes are written. Contracts see the action that is written of it
/// (`said_view`), but those of `copied` and `same` its parts.
#[derive(Drop)]
pub enum TypedAction<A: Allocator = Global> {
    /// The reply of an outcome to the client who asked, by its way.
    Reply {
        /// The client, its way, and its query.
        client_query: ClientQuery<A>,
        /// The outcome of the query. Whether its reply is truncated, or a SERVFAIL for its length, shows when it is
        /// written.
        outcome: Outcome<A>,
    },
    /// The refusal of bytes that are no query to be answered.
    Refusal {
        /// The client's number, as its bytes came with it.
        client: u64,
        /// The way by which they came.
        way: Via,
        /// Why they are refused.
        refusal: Refusal,
        /// The fields of their header that the reply repeats.
        start: Start,
        /// Their question, if there is one.
        echo: Option<SharedEcho<A>>,
    },
    /// An ask of a server.
    Ask {
        /// The port at which servers are asked.
        port: u16,
        /// The ask, by its path.
        ask: Ask<A>,
    },
}

/// The result of a step: one action at most, and whether another query is due.
#[derive(Drop)]
pub struct TypedActions<A: Allocator = Global> {
    /// The reply or the ask, if the step gives one.
    pub first: Option<TypedAction<A>>,
    /// After a tick: another query is due too, so that a further tick has to follow at once.
    pub more_due: bool,
}
