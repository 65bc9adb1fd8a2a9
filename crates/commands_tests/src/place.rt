//! A machine on which a server may listen, or none can.
use commands::Host;
use events::Endpoint;
use memory::{Heap, Starved};
use server::Shown;
use trace::Peers;
use wire::Via;

/// A place that has this port free or none, or no memory for sockets; and random bytes, or not.
#[derive(Clone, Copy)]
pub struct Place {
    pub port: Result<Option<u16>, Starved>,
    pub seed: Option<[u8; 32]>,
}

/// No place for a server.
pub const NOWHERE: Place = Place {
    port: Ok(None),
    seed: None,
};

impl Host for Place {
    fn seed(&mut self) -> Option<[u8; 32]> {
        self.seed
    }

    fn open(&mut self, listen: Endpoint, _shown: Shown) -> Result<Option<u16>, Starved> {
        let port = self.port?;
        if listen.port == 0 { Ok(port) } else { Ok(None) }
    }

    fn reason<A: Heap>(
        &mut self,
        alloc: A,
        _way: Via,
        _at: Endpoint,
    ) -> Result<Option<String<A>>, Starved> {
        Ok(Some(String::from_str(alloc, "busy")?))
    }
}

// Nothing is sent there, and nothing comes.
impl Peers for Place {
    fn moment(&mut self) -> u64 {
        0
    }

    fn send(&mut self, _to: Endpoint, _bytes: &[u8]) -> bool {
        false
    }

    fn close(&mut self) {}

    fn receive<A: Heap>(&mut self, _alloc: A, _wait: u64) -> Result<Option<Vec<u8, A>>, Starved> {
        Ok(None)
    }

    fn exchange<A: Heap>(
        &mut self,
        _alloc: A,
        _to: Endpoint,
        _bytes: &[u8],
        _wait: u64,
    ) -> Result<Option<Vec<u8, A>>, Starved> {
        Ok(None)
    }
}
