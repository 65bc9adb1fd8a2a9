//! The network of a trace. Tests put another in its place.
use events::Endpoint;
use memory::{Heap, Starved};

/// The servers that can be asked, one ask at a time.
pub trait Peers {
    /// Milliseconds since the first call.
    fn moment(&mut self) -> u64;

    /// Asks a server in a datagram, from a socket of its own that takes the place of the one before. Whether it was sent.
    fn send(&mut self, to: Endpoint, bytes: &[u8]) -> bool;

    /// No datagram is waited for any more.
    fn close(&mut self);

    /// The datagram that comes at the socket of the last ask within so many milliseconds; where no socket is open that
    /// time passes.
    fn receive<A: Heap>(&mut self, alloc: A, wait_ms: u64) -> Result<Option<Vec<u8, A>>, Starved>;

    /// Asks a server over a stream of its own: the frame that comes within so many milliseconds.
    fn exchange<A: Heap>(
        &mut self,
        alloc: A,
        to: Endpoint,
        bytes: &[u8],
        wait_ms: u64,
    ) -> Result<Option<Vec<u8, A>>, Starved>;
}
