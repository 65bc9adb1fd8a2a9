//! What an open query waits for.
use rdata::Addr;

/// An ask over UDP, by what its reply is known: the socket that it left, the server that it went to, and its ID
/// (RFC 5452, section 4).
#[derive(Clone, Copy, Debug, PartialEq, Eq, Hash)]
pub struct AskKey {
    /// The number of the socket that it left, at which the reply comes.
    pub socket: u16,
    /// The address that was asked, from which the reply comes.
    pub server: Addr,
    /// The ID of its header (RFC 1035, section 4.1.1).
    pub id: u16,
}

/// A query's open ask, where it went over UDP, and the moment at which the query is due, in milliseconds.
#[derive(Clone, Copy, Debug, PartialEq, Eq)]
pub struct Waiting {
    /// The open ask; none where it went over TCP, and its reply is known by its number.
    pub ask: Option<AskKey>,
    /// When the query is due, in milliseconds: the wait for its ask or its own time is over.
    pub due: u64,
}
