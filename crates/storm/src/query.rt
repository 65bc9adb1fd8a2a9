//! A query that a worker of a storm sends, and when.
use events::Bytes;
use std::alloc::{Allocator, Global};
use wire::Via;

/// Bytes that a client sends by its way, and their moment in milliseconds.
#[derive(Drop)]
pub struct StormQuery<A: Allocator = Global> {
    /// When they come, in milliseconds of the run's clock.
    pub moment: u64,
    /// The number that the reply is told with.
    pub client: u64,
    /// Over UDP or TCP; the reply goes the same way.
    pub way: Via,
    /// The query as a message of RFC 1035, over TCP without the two bytes of its length.
    pub bytes: Bytes<A>,
}
