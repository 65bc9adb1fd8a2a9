//! What comes from servers, as events.
ghost use Rattle.std.specs.Prelude.{◌≡◌, ◌≤◌, IfOk, IfSome, MatchOption, length};
ghost use Rattle.runs.specs.States.{Datagram, TcpReply, TcpFailed};
ghost use Rattle.events.specs.Paths.{endpoint_view};
ghost use Rattle.events.specs.Views.{event_view};

use events::{Bytes, Endpoint, Event};
use memory::{Heap, Starved};

// Bytes that came, on memory of their own.
fn owned<A: Heap>(alloc: A, bytes: &[u8]) -> Result<Bytes<A>, Starved>
    requires { length bytes.now ≤ 65535 }
    ensures { IfOk result (λ b. b ≡ bytes.now) }
{
    Ok(Bytes::new(Vec::from_slice(alloc, bytes)?))
}

/// A datagram for an ask under this socket number.
pub fn datagram_event<A: Heap>(
    alloc: A,
    moment: u64,
    socket: u16,
    from: Endpoint,
    bytes: &[u8],
) -> Result<Event<A>, Starved>
    requires { length bytes.now ≤ 65535 }
    ensures { IfOk result (λ e. event_view e ≡ Datagram moment socket (endpoint_view from) bytes.now) }
{
    Ok(Event::Datagram {
        moment,
        socket,
        from,
        bytes: owned(alloc, bytes)?,
    })
}

/// The frame that came for the ask over TCP of this number; where none came, that ask failed.
pub fn stream_reply_event<A: Heap>(moment: u64, number: u64, frame: Option<Vec<u8, A>>) -> Event<A>
    requires { IfSome frame (λ bytes. length bytes.items ≤ 65535) }
    ensures { MatchOption frame (event_view result ≡ TcpFailed moment number) (λ bytes. event_view result ≡ TcpReply moment number bytes.items) }
{
    match frame {
        Some(bytes) => Event::TcpReply {
            moment,
            number,
            bytes: Bytes::new(bytes),
        },
        None => Event::TcpFailed { moment, number },
    }
}
