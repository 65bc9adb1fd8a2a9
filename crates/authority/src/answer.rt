//! The result of a look-up: the link of a name, or the zone cut over it.

use dname::Name;
use rdata::Records;
use std::alloc::{Allocator, Global};
use zone::Link;

/// The result of a look-up in the local zones.
#[derive(Drop)]
pub enum Local<A: Allocator = Global> {
    /// A local zone has authority over the name, and this is its link.
    Link(Link<A>),
    /// The name is delegated: the zone cut, its NS RRset, and the glue that the zone has.
    Cut(Name<A>, Records<A>, Records<A>),
    /// No local zone is over the name.
    NotHere,
}
