//! How messages travel, and how long they may be.
ghost use Rattle.std.specs.Prelude.{◌≡◌, ◌≤◌};
ghost use Rattle.wire.specs.Limits.{limit_of};

/// Bytes of a message in a datagram at most (RFC 1035, section 2.3.4).
pub const UDP_LIMIT: usize = 512;

/// Bytes of a message on a stream at most: its length stands before it in 16 bits (RFC 1035, section 4.2.2).
pub const TCP_LIMIT: usize = 65_535;

/// How a message travels (RFC 1035, section 4.2).
#[derive(Clone, Copy, Debug, PartialEq, Eq)]
pub enum Via {
    /// In a datagram.
    Udp,
    /// On a stream, behind its length.
    Tcp,
}

impl Via {
    /// The bytes that a message may have: 512 in a datagram, 65,535 on a stream.
    pub fn limit(self) -> usize
        ensures is { result ≡ limit_of self }
        ensures within { result ≤ TCP_LIMIT }
    {
        match self {
            Via::Udp => UDP_LIMIT,
            Via::Tcp => TCP_LIMIT,
        }
    }
}
