//! The input and the result of a call of the work on a query: an `Input`, which came for the query, and `Next`, which
//! goes out.

use crate::chain::Chain;
use causes::Cause;
use dname::Name;
use lookup::Taken;
use rdata::{Addr, RType};
use std::alloc::{Allocator, Global};

/// An input for a query, beside the messages that are accepted for its asks.
#[derive(Clone, Copy)]
pub enum Input {
    /// The query itself.
    Start,
    /// No reply of this server came in time.
    TimedOut(Addr),
    /// The ask of this server over TCP failed.
    TcpFailed(Addr),
}

/// The result of a call: what goes out for a query.
#[derive(Drop)]
pub enum Next<A: Allocator = Global> {
    /// An ask in a datagram: of this server, for this name and type.
    AskUdp(Addr, Name<A>, RType),
    /// An ask over TCP: of this server, for this name and type.
    AskTcp(Addr, Name<A>, RType),
    /// The answer: the CNAME chain in order, and the link that ends it.
    Done(Chain<A>, Taken<A>),
    /// No answer, and the cause.
    Fail(Cause),
}
