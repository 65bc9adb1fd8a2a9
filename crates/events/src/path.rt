//! The destinations of asks, and their ways.
ghost use Rattle.std.specs.Prelude.{◌≡◌};
ghost use Rattle.runs.specs.States.{via_of};
ghost use Rattle.events.specs.Paths.{path_view};

use rdata::Addr;
use wire::Via;

/// A server's address and port.
#[derive(Clone, Copy, Debug, PartialEq, Eq)]
pub struct Endpoint {
    /// The IPv4 address.
    pub address: Addr,
    /// The port, of UDP or TCP.
    pub port: u16,
}

/// The way of an ask.
#[derive(Clone, Copy, Debug, PartialEq, Eq)]
pub enum Path {
    /// In a datagram, from the socket of this number.
    Udp(u16),
    /// On a stream, under this number.
    Tcp(u64),
}

impl Path {
    /// UDP or TCP, of this path.
    pub fn via(self) -> Via
        ensures { result ≡ via_of (path_view self) }
    {
        match self {
            Path::Udp(_) => Via::Udp,
            Path::Tcp(_) => Via::Tcp,
        }
    }
}
