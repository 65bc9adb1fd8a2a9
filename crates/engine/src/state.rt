//! The state of the resolver: zones and hints, the stores, open queries, and its source of identifiers.
use crate::hashing::StoreHasher;
use lookup::{Home, Stores};
use open_queries::Queries;
use rand_chacha::ChaCha20Rng;
use std::alloc::{Allocator, Global};

// The state between two steps: the parts that no step changes, the clock in milliseconds, the stores, the open queries,
// and the numbers of the next query and of the next ask over TCP.
#[derive(Drop)]
pub struct ResolverState<A: Allocator = Global> {
    // The allocator of all memory of a step.
    pub alloc: A,
    // The local zones and the hints; no step changes them.
    pub home: Home<A>,
    // The port at which servers are asked, that of the settings.
    pub port: u16,
    // How many sockets asks over UDP may leave, by numbers from 0.
    pub sockets: u16,
    // The latest moment of any event so far, in milliseconds.
    pub clock: u64,
    // The cache, the delegations, the penalties and the failures.
    pub stores: Stores<StoreHasher, A>,
    // The open queries, 1,024 at most, with their indexes.
    pub queries: Queries<A>,
    // How many queries were opened, and so the number of the next one.
    pub opened: u64,
    // How many asks went over TCP, and so the number of the next one.
    pub tcp_asks: u64,
    // Gives a word for the socket and the ID of each ask (RFC 5452, section 4).
    pub generator: ChaCha20Rng,
}
