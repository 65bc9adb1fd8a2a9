//! The example in the head of `events`.
use dname::Name;
use events::{Ask, Bytes, Endpoint, Event, Path, send};
use memory::Heap;
use rdata::{Addr, RType};
use std::test::Fail;

pub fn example<H: Heap>(alloc: H, name: Name<H>, bytes: Bytes<H>) -> Result<(), Fail> {
    let ask = Ask {
        path: Path::Udp(7),
        server: Addr([192, 0, 2, 1]),
        id: 4660,
        name,
        kind: RType::A,
    };
    let action = send(alloc, 53, &ask)?;
    let from = Endpoint {
        address: Addr([192, 0, 2, 1]),
        port: 53,
    };
    let event = Event::Datagram {
        moment: 20,
        socket: 7,
        from,
        bytes,
    };
    Ok(())
}
