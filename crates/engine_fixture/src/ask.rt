//! Asks that went out, and the events that answer them.
use events::{Action, Bytes, Endpoint, Event, Path};
use memory::{Heap, Starved};
use rdata::Addr;
use std::alloc::Allocator;
use wire::TCP_LIMIT;

/// The port at which servers are asked (RFC 1035, section 4.2).
pub const PORT: u16 = 53;

/// An ask: how it went, to which server, and under which ID.
#[derive(Clone, Copy, Debug, PartialEq, Eq)]
pub struct Ask {
    /// The socket that it left, or its number over TCP.
    pub path: Path,
    /// The address that was asked.
    pub server: Addr,
    /// The first two bytes of the message, as a reply has to begin.
    pub id: [u8; 2],
}

// An ask under the ID of these bytes.
fn ask_by(path: Path, to: Endpoint, bytes: &[u8]) -> Option<Ask> {
    match bytes {
        [high, low, ..] => Some(Ask {
            path,
            server: to.address,
            id: [*high, *low],
        }),
        _ => None,
    }
}

impl Ask {
    /// The ask that goes out by an action, if it is one.
    pub fn of<A: Allocator>(action: &Action<A>) -> Option<Ask> {
        match action {
            Action::Send { socket, to, bytes } => ask_by(Path::Udp(*socket), *to, bytes.as_slice()),
            Action::TcpAsk { number, to, bytes } => ask_by(
                Path::Tcp(*number),
                *to,
                bytes.as_slice(),
            ),
            Action::Reply { .. } => None,
        }
    }

    /// These bytes come for it from its server, by the way that it went.
    pub fn told<A: Allocator>(self, moment: u64, bytes: Bytes<A>) -> Event<A> {
        match self.path {
            Path::Udp(socket) => Event::Datagram {
                moment,
                socket,
                from: Endpoint {
                    address: self.server,
                    port: PORT,
                },
                bytes,
            },
            Path::Tcp(number) => Event::TcpReply {
                moment,
                number,
                bytes,
            },
        }
    }

    /// Nothing comes for it: over TCP it failed, else time has passed.
    pub fn lost<A: Allocator>(self, moment: u64) -> Event<A> {
        match self.path {
            Path::Udp(_) => Event::Tick { moment },
            Path::Tcp(number) => Event::TcpFailed { moment, number },
        }
    }
}

/// A message: its ID, and the bytes behind it. More than 65,535 bytes are refused.
pub fn under<A: Heap>(alloc: A, id: [u8; 2], rest: &[u8]) -> Result<Bytes<A>, Starved> {
    let mut bytes = Vec::from_slice(alloc, &id)?;
    bytes.extend_from_slice(rest)?;
    bounded(bytes)
}

/// These bytes as those of a message. More than 65,535 are refused.
pub fn bounded<A: Heap>(bytes: Vec<u8, A>) -> Result<Bytes<A>, Starved> {
    if bytes.len() > TCP_LIMIT {
        return Err(Starved);
    }
    Ok(Bytes::new(bytes))
}
