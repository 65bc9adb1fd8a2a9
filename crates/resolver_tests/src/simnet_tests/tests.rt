//! Asks that no script can order: of an address at which no server stands, and by a way that is not the ask's own.
use crate::simnet_tests::texts::world;
use engine_fixture::bounded;
use events::{Endpoint, Event, Path};
use memory::Starved;
use rdata::Addr;
use simnet::{Sent, over_tcp, whole_over_udp};
use std::alloc::Global;
use std::test::Fail;
use wire::Via;
use worlds::World;

// A root with one server.
const ROOT: &str =
    "zone .\n. 60 IN SOA r. h. 1 2 3 4 60\n. 60 IN NS ns.\nns. 60 IN A 198.51.100.1\nend\nhost 198.51.100.1 .\nhint 198.51.100.1\n";

// A query for ns. A, under ID 5.
const QUERY: &[u8] = b"\0\x05\0\0\0\x01\0\0\0\0\0\0\x02ns\0\0\x01\0\x01";

// What comes of an ask, in short.
#[derive(Clone, Copy, PartialEq, Eq)]
enum Come {
    Nothing,
    Failure,
    Reply,
    Other,
}

// What this is, for an ask in stream 3, at moment 9.
fn come_of(event: &Option<Event>) -> Come {
    match event {
        None => Come::Nothing,
        Some(
            Event::TcpFailed {
                moment: 9,
                number: 3,
            },
        ) => Come::Failure,
        Some(Event::Datagram { .. }) => Come::Reply,
        Some(Event::TcpReply { .. }) => Come::Reply,
        Some(_) => Come::Other,
    }
}

fn event_by(alloc: Global, world: &World, sent: &Sent, way: Via) -> Result<Option<Event>, Starved> {
    match way {
        Via::Udp => whole_over_udp(alloc, world, sent, 9),
        Via::Tcp => over_tcp(alloc, world, sent, 9),
    }
}

// An ask of the server 198.51.100.N by its path, and what a datagram or a stream brings of it.
#[derive(Clone, Copy)]
struct Asked {
    path: Path,
    last: u8,
    way: Via,
    come: Come,
}

impl Asked {
    fn sent(self, alloc: Global) -> Result<Sent, Starved> {
        let address = Addr([198, 51, 100, self.last]);
        Ok(Sent {
            path: self.path,
            to: Endpoint { address, port: 53 },
            bytes: bounded(Vec::from_slice(alloc, QUERY)?)?,
        })
    }

    fn comes_of(self, alloc: Global, world: &World, sent: &Sent) -> Result<Come, Starved> {
        let event = event_by(alloc, world, sent, self.way)?;
        Ok(come_of(&event))
    }

    fn comes(self, alloc: Global, world: &World) -> Result<Come, Starved> {
        let sent = self.sent(alloc)?;
        self.comes_of(alloc, world, &sent)
    }
}

const SOCKET: Path = Path::Udp(7);

const STREAM: Path = Path::Tcp(3);

const ASKS: &[Asked] = &[
    Asked {
        path: SOCKET,
        last: 1,
        way: Via::Udp,
        come: Come::Reply,
    },
    Asked {
        path: STREAM,
        last: 1,
        way: Via::Tcp,
        come: Come::Reply,
    },
    // By the other way nothing comes.
    Asked {
        path: SOCKET,
        last: 1,
        way: Via::Tcp,
        come: Come::Nothing,
    },
    Asked {
        path: STREAM,
        last: 1,
        way: Via::Udp,
        come: Come::Nothing,
    },
    // Where no server stands a stream alone fails.
    Asked {
        path: SOCKET,
        last: 99,
        way: Via::Udp,
        come: Come::Nothing,
    },
    Asked {
        path: STREAM,
        last: 99,
        way: Via::Tcp,
        come: Come::Failure,
    },
];

// The first ask of which something else comes.
fn first_wrong(alloc: Global, world: &World) -> Result<Option<usize>, Starved> {
    for (place, asked) in ASKS.iter().enumerate() {
        if asked.comes(alloc, world)? != asked.come {
            return Ok(Some(place));
        }
    }
    Ok(None)
}

#[test]
fn an_ask_is_answered_by_its_own_way(rt: HostRuntime) -> Result<(), Fail> {
    let world = world(rt.alloc(), ROOT).ok_or("no world")?;
    assert_eq!(rt; first_wrong(rt.alloc(), &world)?, None);
    Ok(())
}
