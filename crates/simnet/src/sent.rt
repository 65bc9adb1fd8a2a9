//! An ask on its way through the network in memory.
use events::{Bytes, Endpoint, Path};
use std::alloc::{Allocator, Global};
use std::marker::Model;

/// An ask that went out: how, where to, and its bytes.
#[derive(Drop)]
pub struct Sent<A: Allocator = Global> {
    /// From which socket over UDP, or under which number over TCP.
    pub path: Path,
    /// The address and port of the server that is asked.
    pub to: Endpoint,
    /// The query as a message of RFC 1035, over TCP without the two bytes of its length.
    pub bytes: Bytes<A>,
}

impl<A: Allocator> Model for Sent<A> {
    ghost use Rattle.events.specs.Paths.{endpoint_view, path_view};
    ghost use Rattle.network.specs.Networks.{Sent};

    ghost Value = { Sent };

    ghost view = { λ x. record { path = path_view x.path; to = endpoint_view x.to; bytes = x.bytes } };
}
