//! Steps from outside, by messages worked by hand.
use crate::engine_tests::fixtures::{
    Act, EXAMPLE, Line, QUERY, ROOT, Starving, WWW_EXAMPLE, first_wrong,
};
use engine_fixture::Out;
use std::test::Fail;

// The header of a server's reply behind its ID, with one record: QR and AA are set.
const FOUND: &[u8] = b"\x84\0\0\x01\0\x01\0\0\0\0";

// An address of www.example.
const WANTED: Line = Line {
    owner: WWW_EXAMPLE,
    ttl: 300,
    last: 9,
};

const ONE: &[Line] = &[WANTED];

// An address of example.
const UNWANTED: Line = Line {
    owner: EXAMPLE,
    ttl: 300,
    last: 66,
};

// An address of www.example., and twenty of example. behind it.
const CROWD: &[Line] = &[
    WANTED, UNWANTED, UNWANTED, UNWANTED, UNWANTED, UNWANTED, UNWANTED, UNWANTED, UNWANTED,
    UNWANTED, UNWANTED, UNWANTED, UNWANTED, UNWANTED, UNWANTED, UNWANTED, UNWANTED, UNWANTED,
    UNWANTED, UNWANTED, UNWANTED,
];

// Client 3 asks, and the server of the root is asked.
const ASKED: (Act, Out) = (Act::Asks(0, QUERY), Out::Asked(ROOT));

// A reply of another server, and bytes that are no message.
const STRAY: (Act, Out) = (Act::Told(2, FOUND, ONE), Out::Nothing);

const SHORT: (Act, Out) = (Act::Asks(0, b"\0\x05\x01\0\0\x01\0\0\0\0\0"), Out::Nothing);

const ROWS: &[Starving] = &[
    Starving {
        what: "a reply of another server takes no memory",
        acts: &[ASKED],
        last: STRAY,
        takes_memory: false,
        after: &[],
    },
    Starving {
        what: "bytes that are no message take none",
        acts: &[ASKED, STRAY],
        last: SHORT,
        takes_memory: false,
        after: &[],
    },
    Starving {
        what: "time at which nothing is due takes none",
        acts: &[ASKED, STRAY, SHORT],
        last: (Act::Tick(999), Out::Nothing),
        takes_memory: false,
        after: &[],
    },
    // The reply once more and time bring nothing.
    Starving {
        what: "a reply that wants memory ends its query",
        acts: &[ASKED],
        last: (Act::Told(ROOT, FOUND, ONE), Out::Replied),
        takes_memory: true,
        after: &[
            (Act::Told(ROOT, FOUND, ONE), Out::Nothing),
            (Act::Tick(60_000), Out::Nothing),
        ],
    },
    // Time brings nothing, and the query once more is opened.
    Starving {
        what: "a query that wants memory is not opened",
        acts: &[],
        last: ASKED,
        takes_memory: true,
        after: &[(Act::Tick(60_000), Out::Nothing), ASKED],
    },
];

#[test]
fn memory_may_be_refused(rt: HostRuntime) -> Result<(), Fail> {
    assert_eq!(rt; first_wrong(rt.alloc(), ROWS)?, None);
    Ok(())
}

const ANSWERED: Starving = Starving {
    what: "an answer",
    acts: &[ASKED],
    last: (Act::Told(ROOT, FOUND, ONE), Out::Replied),
    takes_memory: true,
    after: &[],
};

const ANSWERED_IN_A_CROWD: Starving = Starving {
    last: (
        Act::Told(ROOT, b"\x84\0\0\x01\0\x01\0\0\0\x14", CROWD),
        Out::Replied,
    ),
    ..ANSWERED
};

// Of twenty records more in the additional section none is made.
#[test]
fn what_nobody_asked_for_takes_no_memory(rt: HostRuntime) -> Result<(), Fail> {
    let (growths, out) = ANSWERED.last_step(rt.alloc())?;
    assert!(rt; ANSWERED_IN_A_CROWD.last_step(rt.alloc())? == (growths, out));
    assert_eq!(rt; out, Out::Replied);
    Ok(())
}
