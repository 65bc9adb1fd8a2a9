//! The task of a query at work, between two rules of one call: to find, to use, or to ask (`Task`).

use crate::calls::Next;
use lookup::Taken;
use rdata::Addr;
use std::alloc::{Allocator, Global};

/// The next task.
#[derive(Drop)]
pub enum Task<A: Allocator = Global> {
    /// To look for the name in local zones and cache.
    Seek,
    /// To use a link for the name.
    Take(Taken<A>),
    /// To ask servers.
    Go,
    /// To ask this server again, over TCP.
    Again(Addr),
}

/// The result of a task: a further one, or something that goes out.
#[derive(Drop)]
pub enum Move<A: Allocator = Global> {
    /// The call goes on with this task.
    Onward(Task<A>),
    /// The call ends: an ask, a reply or a failure is due.
    Out(Next<A>),
}
