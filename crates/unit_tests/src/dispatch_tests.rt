//! Clients by their numbers, the loops of a small server, and what is handed over of each action.
use dispatch::{
    Carrier, Reach, Role, client_of, hand_over, loop_count, place_of, repeats, role_of, sender_of,
    silence_before_yielding, stream_client, stream_number,
};
use events::{Action, Bytes, Endpoint};
use memory::Starved;
use rdata::Addr;
use std::alloc::Global;
use std::test::Fail;
use wire::Via;

const SENDER: Endpoint = Endpoint {
    address: Addr([127, 0, 0, 2]),
    port: 5300,
};

#[test]
fn a_number_holds_its_sender(rt: HostRuntime) -> Result<(), Fail> {
    assert_eq!(rt; client_of(SENDER), 0x7f00_0002_14b4);
    assert_eq!(rt; sender_of(0x7f00_0002_14b4), SENDER);
    Ok(())
}

const ROLES: [(usize, Role); 7] = [
    (0, Role::Datagrams),
    (1, Role::Streams),
    (2, Role::Clock),
    (3, Role::Upstream),
    (4, Role::Asks),
    (5, Role::Datagrams),
    (19, Role::Datagrams),
];

// The first worker of another role.
fn first_other_role() -> Option<usize> {
    for (worker, role) in ROLES {
        if role_of(worker) != role {
            return Some(worker);
        }
    }
    None
}

#[test]
fn each_worker_has_its_loop(rt: HostRuntime) -> Result<(), Fail> {
    assert_eq!(rt; first_other_role(), None);
    assert_eq!(rt; (loop_count(1), loop_count(16)), (5, 20));
    Ok(())
}

// An ask for `Ab.c.`, type A, and what a server says of it: the bytes that differ from the right reply, and whether it
// repeats the ask.
const ASK: [u8; 22] = [
    1, 2, 0, 0, 0, 1, 0, 0, 0, 0, 0, 0, 2, b'A', b'b', 1, b'c', 0, 0, 1, 0, 1,
];

// The right reply with an A record.
const WITH_ANSWER: [u8; 38] = [
    1, 2, 0x84, 0, 0, 1, 0, 1, 0, 0, 0, 0, 2, b'a', b'b', 1, b'c', 0, 0, 1, 0, 1, 0xc0, 12, 0, 1,
    0, 1, 0, 0, 0, 60, 0, 4, 192, 0, 2, 1,
];

const REPLIES: [(&str, usize, u8, bool); 13] = [
    ("as it was asked", 2, 0x80, true),
    ("authoritative, truncated, RD", 2, 0x87, true),
    ("another ID", 0, 9, false),
    ("another ID, lower byte", 1, 9, false),
    ("no reply", 2, 0, false),
    ("operation 1", 2, 0x88, false),
    ("no question", 5, 0, false),
    ("257 questions", 4, 1, false),
    ("an answer that is not there", 7, 1, false),
    ("a small letter", 13, b'a', true),
    ("another letter", 13, b'x', false),
    ("another type", 19, 65, false),
    ("another class", 21, 3, false),
];

// The right reply, but for one byte.
fn reply_with(at: usize, byte: u8) -> [u8; 22] {
    let mut reply = ASK;
    reply[2] = 0x80;
    if at < reply.len() {
        reply[at] = byte;
    }
    reply
}

// Whether a reply repeats the ask where that is wanted, and does not without its last byte.
fn goes(alloc: Global, reply: &[u8; 22], wanted: bool) -> Result<bool, Starved> {
    Ok(repeats(alloc, &ASK, reply)? == wanted && !repeats(alloc, &ASK, &reply[..21])?)
}

// What is said of the first reply that goes otherwise.
fn first_other_reply(alloc: Global) -> Result<Option<&'static str>, Starved> {
    for (what, at, byte, wanted) in REPLIES {
        if !goes(alloc, &reply_with(at, byte), wanted)? {
            return Ok(Some(what));
        }
    }
    Ok(None)
}

#[test]
fn a_reply_repeats_its_ask(rt: HostRuntime) -> Result<(), Fail> {
    let alloc = rt.alloc();
    assert_eq!(rt; first_other_reply(alloc)?, None);
    assert!(rt; repeats(alloc, &ASK, &WITH_ANSWER)?, "with an answer");
    assert!(rt;
        !repeats(alloc, &ASK[..21], &ASK)?,
        "an ask that is no message"
    );
    Ok(())
}

const PEER: Addr = Addr([192, 0, 2, 9]);

// The first serial number with which a stream's place is not found again.
fn first_misplaced() -> Option<u64> {
    for (serial, place) in [(0, 0), (1, 255), (u64::MAX, 7)] {
        if place_of(stream_number(PEER, serial, place)) != place {
            return Some(serial);
        }
    }
    None
}

// So many places, whether a reply is awaited, and for how many milliseconds a stream may be silent then.
const SILENCES: [(u16, bool, u64); 5] = [
    (1, false, 3_000),
    (1, true, 10_000),
    (4, true, 2_500),
    (128, false, 23),
    (128, true, 1_000),
];

fn first_other_silence() -> Option<(u16, bool)> {
    for (places, awaits, wanted) in SILENCES {
        if silence_before_yielding(places, awaits) != wanted {
            return Some((places, awaits));
        }
    }
    None
}

#[test]
fn streams_have_places(rt: HostRuntime) -> Result<(), Fail> {
    let number = stream_number(PEER, 3, 4);
    let sender = Endpoint {
        address: PEER,
        port: 4,
    };
    assert_eq!(rt; first_misplaced(), None);
    assert_eq!(rt; number, 0xC000_0209_0000_0304);
    assert_eq!(rt; sender_of(stream_client(number)), sender);
    assert_eq!(rt; first_other_silence(), None);
    Ok(())
}

// First bytes of addresses, and whether a server there is asked without a hint in its block.
const ADDRESSES: [(u8, bool); 8] = [
    (0, false),
    (1, true),
    (10, true),
    (126, true),
    (127, false),
    (128, true),
    (223, true),
    (224, false),
];

// Whether an address of that first byte is asked without a hint in its block where that is wanted, and with one always;
// and not both ends of all addresses are.
fn is_reached(first: u8, wanted: bool) -> bool {
    let root = Addr([198, 41, 0, 4]);
    let none = Reach::of_hints(&[root]);
    let hinted = Reach::of_hints(&[root, Addr([first, 9, 9, 9])]);
    let asked = Addr([first, 0, 0, 1]);
    none.has(asked) == wanted
        && hinted.has(asked)
        && !(hinted.has(Addr([0, 0, 0, 1])) && hinted.has(Addr([255, 0, 0, 1])))
}

fn first_unreached() -> Option<u8> {
    for (first, wanted) in ADDRESSES {
        if !is_reached(first, wanted) {
            return Some(first);
        }
    }
    None
}

#[test]
fn hints_let_their_blocks_be_asked(rt: HostRuntime) -> Result<(), Fail> {
    assert_eq!(rt; first_unreached(), None);
    Ok(())
}

// What was handed over last, and how long it was. It takes no ask over TCP.
#[derive(Clone, Copy, Debug, PartialEq, Eq)]
enum Last {
    Nothing,
    Client(Endpoint, usize),
    Stream(u64, usize),
    Server(u16, Endpoint, usize),
}

impl Carrier<Global> for Last {
    fn to_client(&mut self, to: Endpoint, bytes: &Bytes) {
        *self = Last::Client(to, bytes.as_slice().len());
    }

    fn to_stream(&mut self, client: u64, bytes: &Bytes) {
        *self = Last::Stream(client, bytes.as_slice().len());
    }

    fn to_server(&mut self, socket: u16, to: Endpoint, bytes: &Bytes) {
        *self = Last::Server(socket, to, bytes.as_slice().len());
    }

    fn to_worker(&mut self, _number: u64, _to: Endpoint, _bytes: &Bytes) -> bool {
        false
    }
}

// Two bytes.
fn bytes(alloc: Global) -> Result<Bytes, Starved> {
    Ok(Bytes::new(Vec::from_slice(alloc, &[0, 5])?))
}

fn reply(alloc: Global, client: u64, way: Via) -> Result<Action, Starved> {
    Ok(Action::Reply {
        client,
        way,
        bytes: bytes(alloc)?,
        cause: None,
    })
}

// What an action hands over, and which ask is refused.
fn handed_over(action: &Action) -> (Last, Option<u64>) {
    let mut last = Last::Nothing;
    let refused = hand_over(&mut last, action);
    (last, refused)
}

fn reply_sent(alloc: Global, client: u64, way: Via) -> Result<(Last, Option<u64>), Starved> {
    let action = reply(alloc, client, way)?;
    let handed_over = handed_over(&action);
    drop(action);
    Ok(handed_over)
}

#[test]
fn a_reply_goes_to_who_asked(rt: HostRuntime) -> Result<(), Fail> {
    let (datagram, frame) = (Last::Client(SENDER, 2), Last::Stream(7, 2));
    assert_eq!(rt;
        reply_sent(rt.alloc(), 0x7f00_0002_14b4, Via::Udp)?,
        (datagram, None)
    );
    assert_eq!(rt; reply_sent(rt.alloc(), 7, Via::Tcp)?, (frame, None));
    Ok(())
}

fn ask_over_udp(alloc: Global) -> Result<(Last, Option<u64>), Starved> {
    let ask = Action::Send {
        socket: 3,
        to: SENDER,
        bytes: bytes(alloc)?,
    };
    let handed_over = handed_over(&ask);
    drop(ask);
    Ok(handed_over)
}

#[test]
fn an_ask_goes_to_its_server(rt: HostRuntime) -> Result<(), Fail> {
    assert_eq!(rt;
        ask_over_udp(rt.alloc())?,
        (Last::Server(3, SENDER, 2), None)
    );
    Ok(())
}

fn ask_over_tcp(alloc: Global) -> Result<(Last, Option<u64>), Starved> {
    let ask = Action::TcpAsk {
        number: 9,
        to: SENDER,
        bytes: bytes(alloc)?,
    };
    let handed_over = handed_over(&ask);
    drop(ask);
    Ok(handed_over)
}

#[test]
fn an_ask_that_no_worker_takes_is_told(rt: HostRuntime) -> Result<(), Fail> {
    assert_eq!(rt; ask_over_tcp(rt.alloc())?, (Last::Nothing, Some(9)));
    Ok(())
}
