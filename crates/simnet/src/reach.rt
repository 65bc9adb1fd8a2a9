//! Which event, if any, an ask that went out brings to the resolver.
ghost use Rattle.std.specs.Prelude.{◌≡◌, IfOk, Option, option_map};
ghost use Rattle.runs.specs.States as runs;
ghost use Rattle.events.specs.Views.{event_view};
ghost use Rattle.network.specs.Networks.{IsTruncatedReply, IsFitReply, OverUdp, OverTcp, lost};

use crate::come::{fit, given, truncated};
use crate::sent::Sent;
use events::{Bytes, Event, Path};
use memory::{Heap, Starved};
use worlds::World;

/// A reply over UDP as it comes: whole where it has at most 512 bytes, else truncated; nothing from a server that does
/// not reply, and for an ask over TCP.
pub fn whole_over_udp<A: Heap>(
    alloc: A,
    world: &World<A>,
    sent: &Sent<A>,
    moment: u64,
) -> Result<Option<Event<A>>, Starved>
    ensures { IfOk result (λ e. OverUdp world.now IsFitReply moment sent.now sent.now.path (option_map event_view e)) }
{
    let Path::Udp(socket) = sent.path else {
        return Ok(None);
    };
    match given(alloc, world, sent)? {
        None => Ok(None),
        Some(reply) => Ok(Some(datagram(moment, socket, sent, fit(alloc, reply)?))),
    }
}

/// A reply over UDP that comes truncated.
pub fn truncated_over_udp<A: Heap>(
    alloc: A,
    world: &World<A>,
    sent: &Sent<A>,
    moment: u64,
) -> Result<Option<Event<A>>, Starved>
    ensures { IfOk result (λ e. OverUdp world.now IsTruncatedReply moment sent.now sent.now.path (option_map event_view e)) }
{
    let Path::Udp(socket) = sent.path else {
        return Ok(None);
    };
    match given(alloc, world, sent)? {
        None => Ok(None),
        Some(reply) => Ok(Some(datagram(moment, socket, sent, truncated(alloc, &reply)?))),
    }
}

fn datagram<A: Heap>(moment: u64, socket: u16, sent: &Sent<A>, bytes: Bytes<A>) -> Event<A>
    ensures { event_view result ≡ runs.Datagram moment socket sent.now.to bytes }
{
    Event::Datagram {
        moment,
        socket,
        from: sent.to,
        bytes,
    }
}

/// A reply over TCP; the failure of the ask where the server does not reply, and nothing for an ask over UDP.
pub fn over_tcp<A: Heap>(
    alloc: A,
    world: &World<A>,
    sent: &Sent<A>,
    moment: u64,
) -> Result<Option<Event<A>>, Starved>
    ensures { IfOk result (λ e. OverTcp world.now moment sent.now sent.now.path (option_map event_view e)) }
{
    let Path::Tcp(number) = sent.path else {
        return Ok(None);
    };
    match given(alloc, world, sent)? {
        None => Ok(Some(Event::TcpFailed { moment, number })),
        Some(reply) => Ok(Some(Event::TcpReply {
            moment,
            number,
            bytes: Bytes::new(reply),
        })),
    }
}

/// What the loss of an ask brings: over TCP its failure.
pub fn lost<A: Heap>(sent: &Sent<A>, moment: u64) -> Option<Event<A>>
    ensures { option_map event_view result ≡ lost moment sent.now.path }
{
    match sent.path {
        Path::Udp(_) => None,
        Path::Tcp(number) => Some(Event::TcpFailed { moment, number }),
    }
}
