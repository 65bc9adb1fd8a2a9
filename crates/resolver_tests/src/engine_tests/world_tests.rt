//! The replies of the servers of examples/plays/small.world: each change of one byte.
use crate::engine_tests::bytes::{Change, Places, told};
use crate::engine_tests::fixtures::end;
use crate::engine_tests::talks::{Talk, goes_on, renew, waiting};
use engine_fixture::{Out, TestResolver};
use memory::{Heap, Starved};
use rdata::Addr;
use std::test::Fail;

// The server of the root: 198.51.100.1.
const ROOT: Addr = Addr([198, 51, 100, 1]);

// www.lab.example. A: example. has the server 198.51.100.2, lab.example. has 198.51.100.3, which says 192.0.2.1.
pub const WWW: &[u8] = b"\0\x05\x01\0\0\x01\0\0\0\0\0\0\x03www\x03lab\x07example\0\0\x01\0\x01";

pub const TO_EXAMPLE: &[u8] =
    b"\x80\0\0\x01\0\0\0\x01\0\x01\x03www\x03lab\x07example\0\0\x01\0\x01\xc0\x14\0\x02\0\x01\0\0\x0e\x10\0\x05\x02ns\xc0\x14\xc0\x2d\0\x01\0\x01\0\0\x0e\x10\0\x04\xc6\x33\x64\x02";

pub const TO_LAB: &[u8] =
    b"\x80\0\0\x01\0\0\0\x01\0\x01\x03www\x03lab\x07example\0\0\x01\0\x01\xc0\x10\0\x02\0\x01\0\0\x0e\x10\0\x05\x02ns\xc0\x10\xc0\x2d\0\x01\0\x01\0\0\x0e\x10\0\x04\xc6\x33\x64\x03";

pub const FOUND: &[u8] =
    b"\x84\0\0\x01\0\x01\0\0\0\0\x03www\x03lab\x07example\0\0\x01\0\x01\xc0\x0c\0\x01\0\x01\0\0\x01\x2c\0\x04\xc0\0\x02\x01";

// gone.example. A: an NXDOMAIN with the SOA of example.
pub const GONE: &[u8] = b"\0\x05\x01\0\0\x01\0\0\0\0\0\0\x04gone\x07example\0\0\x01\0\x01";

pub const GONE_TO_EXAMPLE: &[u8] =
    b"\x80\0\0\x01\0\0\0\x01\0\x01\x04gone\x07example\0\0\x01\0\x01\xc0\x11\0\x02\0\x01\0\0\x0e\x10\0\x05\x02ns\xc0\x11\xc0\x2a\0\x01\0\x01\0\0\x0e\x10\0\x04\xc6\x33\x64\x02";

pub const DENIED: &[u8] =
    b"\x84\x03\0\x01\0\0\0\x01\0\0\x04gone\x07example\0\0\x01\0\x01\xc0\x11\0\x06\0\x01\0\0\0\x3c\0\x1d\x02ns\xc0\x11\x01h\xc0\x11\0\0\0\x01\0\0\0\x02\0\0\0\x03\0\0\0\x04\0\0\0\x3c";

// app.example. A: an alias of db.corp.example., which that server knows nothing of, and which it is asked for then.
pub const APP: &[u8] = b"\0\x05\x01\0\0\x01\0\0\0\0\0\0\x03app\x07example\0\0\x01\0\x01";

pub const APP_TO_EXAMPLE: &[u8] =
    b"\x80\0\0\x01\0\0\0\x01\0\x01\x03app\x07example\0\0\x01\0\x01\xc0\x10\0\x02\0\x01\0\0\x0e\x10\0\x05\x02ns\xc0\x10\xc0\x29\0\x01\0\x01\0\0\x0e\x10\0\x04\xc6\x33\x64\x02";

pub const ALIAS: &[u8] =
    b"\x84\x03\0\x01\0\x01\0\x01\0\0\x03app\x07example\0\0\x01\0\x01\xc0\x0c\0\x05\0\x01\0\0\x0e\x10\0\x0a\x02db\x04corp\xc0\x10\xc0\x10\0\x06\0\x01\0\0\0\x3c\0\x1d\x02ns\xc0\x10\x01h\xc0\x10\0\0\0\x01\0\0\0\x02\0\0\0\x03\0\0\0\x04\0\0\0\x3c";

const TALK_WITH_ROOT: Talk = Talk {
    root: ROOT,
    query: WWW,
    before: &[],
    asked: Out::Asked(1),
    reply: TO_EXAMPLE,
    out: Out::Asked(2),
    sent: None,
};

const TALK_WITH_EXAMPLE: Talk = Talk {
    root: ROOT,
    query: WWW,
    before: &[TO_EXAMPLE],
    asked: Out::Asked(2),
    reply: TO_LAB,
    out: Out::Asked(3),
    sent: None,
};

const TALK_WITH_LAB: Talk = Talk {
    root: ROOT,
    query: WWW,
    before: &[TO_EXAMPLE, TO_LAB],
    asked: Out::Asked(3),
    reply: FOUND,
    out: Out::Replied,
    sent: None,
};

const TALK_OF_GONE: Talk = Talk {
    root: ROOT,
    query: GONE,
    before: &[GONE_TO_EXAMPLE],
    asked: Out::Asked(2),
    reply: DENIED,
    out: Out::Replied,
    sent: None,
};

const TALK_OF_APP: Talk = Talk {
    root: ROOT,
    query: APP,
    before: &[APP_TO_EXAMPLE],
    asked: Out::Asked(2),
    reply: ALIAS,
    out: Out::Asked(2),
    sent: None,
};

// A resolver that waits for the reply is told it with a change. Where that brings something, another one waits then.
fn tell<A: Heap>(
    resolver: &mut TestResolver<A>,
    talk: Talk,
    change: Change,
) -> Result<bool, Starved> {
    match told(resolver, talk.reply, change) {
        Out::Nothing => Ok(true),
        Out::Starved | Out::Other => Ok(false),
        _ => {
            renew(resolver, talk)?;
            Ok(true)
        }
    }
}

// Whether each change of that byte of the reply is ignored or brings something, and the whole reply is taken then.
fn stands_at<A: Heap>(
    resolver: &mut TestResolver<A>,
    talk: Talk,
    place: usize,
) -> Result<bool, Starved> {
    for bits in 1..=255u8 {
        if !tell(resolver, talk, Change::Turned(place, bits))? {
            return Ok(false);
        }
    }
    Ok(goes_on(resolver, talk))
}

fn stands<A: Heap>(alloc: A, talk: Talk, place: usize) -> Result<bool, Starved> {
    let mut resolver = waiting(alloc, talk)?;
    let stands = stands_at(&mut resolver, talk, place);
    end(resolver);
    stands
}

// The first of these bytes of which a change does not stand.
fn wrong_place<A: Heap>(alloc: A, talk: Talk, places: Places) -> Result<Option<usize>, Starved> {
    for place in places.0..places.1 {
        if !stands(alloc, talk, place)? {
            return Ok(Some(place));
        }
    }
    Ok(None)
}

// A part of a talk's reply.
type Part = (&'static str, Talk, Places);

// The first of these parts with such a byte, and its place.
fn first_wrong<A: Heap>(
    alloc: A,
    parts: &[Part],
) -> Result<Option<(&'static str, usize)>, Starved> {
    for (what, talk, places) in parts {
        if let Some(place) = wrong_place(alloc, *talk, *places)? {
            return Ok(Some((*what, place)));
        }
    }
    Ok(None)
}

const PARTS: &[Part] = &[
    ("the root's header and question", TALK_WITH_ROOT, (0, 33)),
    (
        "the header and question of example.",
        TALK_WITH_EXAMPLE,
        (0, 33),
    ),
    (
        "the header and question of lab.example.",
        TALK_WITH_LAB,
        (0, 33),
    ),
    ("the header and question of a denial", TALK_OF_GONE, (0, 30)),
    ("the header and question of an alias", TALK_OF_APP, (0, 29)),
    ("the server of example.", TALK_WITH_ROOT, (33, 50)),
    ("its address", TALK_WITH_ROOT, (50, 66)),
    ("the server of lab.example.", TALK_WITH_EXAMPLE, (33, 50)),
    ("the address of that", TALK_WITH_EXAMPLE, (50, 66)),
    ("an address", TALK_WITH_LAB, (33, 49)),
    ("the names of a denial", TALK_OF_GONE, (30, 51)),
    ("the numbers of a denial", TALK_OF_GONE, (51, 71)),
    ("an alias", TALK_OF_APP, (29, 51)),
    ("the names beside an alias", TALK_OF_APP, (51, 72)),
    ("the numbers beside an alias", TALK_OF_APP, (72, 92)),
];

#[test]
fn a_changed_reply_stops_nobody(rt: HostRuntime) -> Result<(), Fail> {
    assert_eq!(rt; first_wrong(rt.alloc(), PARTS)?, None);
    Ok(())
}
