//! Every limit that more than one crate compares with, once. `docs/LIMITS.md` has each with its reason.
//!
//! `limits::limits_law` ties each to the number that the definitions state, so that neither moves alone.
#![tactic(auto)]

mod laws;

pub use laws::limits_law;

/// The most CNAME records that an answer follows.
pub const MAX_ALIASES: usize = 8;

/// The most asks that are sent for a query, over UDP and TCP together.
pub const MAX_ASKS: u32 = 40;

/// The most turns of servers' names that a query takes to look their addresses up.
pub const MAX_LOOK_UPS: u32 = 64;

/// The most queries that are open at once.
pub const MAX_OPEN_QUERIES: usize = 1_024;

/// How deep the search for the address of a server's name may stand in another one.
pub const MAX_NESTING: u8 = 3;

/// The most names of servers, and the most addresses of servers, that are taken from one delegation.
pub const MAX_SERVERS: usize = 16;

/// The most NS records that are read of a referral.
pub const MAX_REFERRAL_SERVERS: usize = 64;

/// The most addresses that are taken of a referral's glue.
pub const MAX_GLUE: usize = 256;

/// The most entries that a store may have room for.
pub const MAX_ENTRIES: usize = 1_000_000;

/// The most sockets from which servers are asked.
pub const MAX_SOCKETS: u16 = 16;

/// The most threads that ask servers over TCP.
pub const MAX_WORKERS: u16 = 16;

/// How long a query has, in milliseconds.
pub const QUERY_LIFETIME_MS: u64 = 10_000;

/// How long a reply over TCP is waited for, in milliseconds.
pub const TCP_WAIT_MS: u64 = 3_000;

/// How long a record of another server is kept at most, in seconds: a week (RFC 2181, section 8).
pub const MAX_TTL: u32 = 604_800;

/// How long a negative answer is kept at most, in seconds: three hours (RFC 2308, section 5).
pub const MAX_NEGATIVE_TTL: u32 = 10_800;

/// How long a server is passed over that failed to answer a question, in seconds (RFC 2308, section 7.1).
pub const FAILURE_LIFETIME: u32 = 30;

/// The last moment, in milliseconds: later ones count as this one.
pub const LATEST_MOMENT: u64 = 4_611_686_018_427_387_904;
