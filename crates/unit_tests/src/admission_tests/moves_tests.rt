use crate::admission_tests::moves::{Answer, Move, made};
use Answer::{Done, Dropped, Expired, Handed, In, Nobody, Refused, Waits};
use Move::{Admit, Closed, DropLate, Expire, Fail, Next, Opened, Settled};
use admission::{Admission, Limits};
use memory::{Heap, Starved};
use refusing_alloc::Refusing;
use std::alloc::Allocator;
use std::test;

const SMALL: Limits = Limits {
    equal: 2,
    each: 3,
    places: 6,
    reserve: 2,
    answered: 0,
    waiting: 2,
};

// Without a reserve; one address may have two thirds of the places, or all of them.
const WIDE: Limits = Limits {
    equal: 2,
    each: 4,
    places: 6,
    reserve: 0,
    answered: 0,
    waiting: 2,
};

const OF_A_FRONT: Limits = Limits {
    equal: 2,
    each: 6,
    places: 6,
    reserve: 0,
    answered: 0,
    waiting: 2,
};

const OF_EIGHT: Limits = Limits {
    equal: 2,
    each: 8,
    places: 8,
    reserve: 0,
    answered: 0,
    waiting: 2,
};

const WITH_ANSWERED: Limits = Limits {
    answered: 2,
    ..OF_EIGHT
};

// Clients: of addresses 1 to 7, at port 9.
const A: u64 = 65_545;

const B: u64 = 131_081;

const C: u64 = 196_617;

const D: u64 = 262_153;

const E: u64 = 327_689;

const F: u64 = 393_225;

const G: u64 = 458_761;
// A's address at another port.
const A_OTHER: u64 = 65_546;

type Row = (Move, Answer);

// Two are admitted, two wait in order, a third is refused. A reply for a stranger calls nobody, and one for an open
// query the first that waits.
const IN_ORDER: [Row; 16] = [
    (Admit(5, A, 10), In(0)),
    (Admit(5, B, 11), In(1)),
    (Admit(5, C, 12), Waits),
    (Admit(5, D, 13), Waits),
    (Admit(5, E, 14), Refused(4)),
    (Admit(6, E, 15), In(5)),
    (Opened(5, A, 16), Done),
    (Closed(5, G), Done),
    (Closed(5, B), Done),
    (Settled(5, A), Done),
    (Next, Nobody),
    (Closed(5, A), Done),
    (Next, Handed(5, C, 12, 2)),
    (Settled(5, B), Done),
    (Next, Handed(5, D, 13, 3)),
    (Next, Nobody),
];

// Those that wait for a key are handed out where it fails, in order, and for another key none.
const FAILED: [Row; 8] = [
    (Admit(5, A, 0), In(0)),
    (Admit(5, B, 0), In(1)),
    (Admit(5, C, 1), Waits),
    (Admit(5, D, 2), Waits),
    (Fail(6), Nobody),
    (Fail(5), Handed(5, C, 1, 2)),
    (Fail(5), Handed(5, D, 2, 3)),
    (Fail(5), Nobody),
];

// An address has three queries, those that wait among them; another port is no other address.
const OF_ONE_ADDRESS: [Row; 7] = [
    (Admit(5, A, 0), In(0)),
    (Admit(5, A_OTHER, 0), In(1)),
    (Admit(5, A, 0), Waits),
    (Admit(6, A, 0), Refused(3)),
    (Admit(6, B, 0), In(4)),
    (Settled(5, A_OTHER), Done),
    (Admit(6, A, 0), In(6)),
];

// The last two of six places go to addresses that have none.
const RESERVE: [Row; 8] = [
    (Admit(1, A, 0), In(0)),
    (Admit(2, B, 0), In(1)),
    (Admit(3, C, 0), In(2)),
    (Admit(4, D, 0), In(3)),
    (Admit(5, A, 0), Refused(4)),
    (Admit(6, E, 0), In(5)),
    (Admit(7, F, 0), In(6)),
    (Admit(8, G, 0), Refused(7)),
];

// An address has as many queries as places are free, and no more.
const SHARE: [Row; 9] = [
    (Admit(1, A, 0), In(0)),
    (Admit(2, A, 0), In(1)),
    (Admit(3, A, 0), In(2)),
    (Admit(4, A, 0), Refused(3)),
    (Admit(5, B, 0), In(4)),
    (Admit(6, B, 0), In(5)),
    (Admit(7, B, 0), Refused(6)),
    (Admit(8, C, 0), In(7)),
    (Admit(9, D, 0), Refused(8)),
];

// Where one address may have all places it takes them.
const FRONT: [Row; 7] = [
    (Admit(1, A, 0), In(0)),
    (Admit(2, A, 0), In(1)),
    (Admit(3, A, 0), In(2)),
    (Admit(4, A, 0), In(3)),
    (Admit(5, A, 0), In(4)),
    (Admit(6, A, 0), In(5)),
    (Admit(7, A, 0), Refused(6)),
];

// A domain has three times as many queries as places are free, and no more, whoever asks.
const DOMAIN: [Row; 12] = [
    (Admit(11, A, 0), In(0)),
    (Admit(21, A, 0), In(1)),
    (Admit(31, A, 0), In(2)),
    (Admit(41, B, 0), In(3)),
    (Admit(51, C, 0), In(4)),
    (Admit(61, D, 0), In(5)),
    (Admit(71, E, 0), Refused(6)),
    (Admit(2, E, 0), In(7)),
    (Settled(11, A), Done),
    (Admit(71, E, 0), In(9)),
    (Admit(81, A, 0), Refused(10)),
    (Admit(3, F, 0), In(11)),
];

// The last two of eight places go to domains of which a name was answered, whose keys are over 99.
const ANSWERED: [Row; 10] = [
    (Admit(1, A, 0), In(0)),
    (Admit(2, B, 0), In(1)),
    (Admit(3, C, 0), In(2)),
    (Admit(4, D, 0), In(3)),
    (Admit(5, E, 0), In(4)),
    (Admit(6, F, 0), In(5)),
    (Admit(7, G, 0), Refused(6)),
    (Admit(107, G, 0), In(7)),
    (Admit(108, A, 0), In(8)),
    (Admit(109, B, 0), Refused(9)),
];

// After 12,000 ms an open query leaves, and one that waited for 5,000 ms is dropped. One that enters stays.
const TIMES: [Row; 13] = [
    (Admit(5, A, 0), In(0)),
    (Admit(5, B, 0), In(1)),
    (Opened(5, A, 100), Done),
    (Admit(5, C, 8_000), Waits),
    (Expire(12_099), Expired(false)),
    (Expire(12_100), Expired(true)),
    (Expire(99_000), Expired(false)),
    (Next, Handed(5, C, 8_000, 3)),
    (Admit(5, D, 9_000), Waits),
    (DropLate(13_999), Dropped(0)),
    (DropLate(14_000), Dropped(1)),
    (Settled(5, B), Done),
    (Next, Nobody),
];

// Lists of moves, each with the limits that it is made under.
const LISTS: [(&str, Limits, &[Row]); 9] = [
    ("in order", SMALL, &IN_ORDER),
    ("failed", SMALL, &FAILED),
    ("of one address", SMALL, &OF_ONE_ADDRESS),
    ("reserve", SMALL, &RESERVE),
    ("times", SMALL, &TIMES),
    ("share", WIDE, &SHARE),
    ("front", OF_A_FRONT, &FRONT),
    ("domain", OF_EIGHT, &DOMAIN),
    ("answered", WITH_ANSWERED, &ANSWERED),
];

// The first row that comes out otherwise, and what came.
fn first_wrong<H: Heap>(
    alloc: H,
    limits: Limits,
    rows: &[Row],
) -> Result<Option<(usize, Answer)>, Starved> {
    let mut admission = Admission::new(alloc, limits)?;
    for (place, (step, answer)) in rows.iter().enumerate() {
        let came = made(&mut admission, *step, place as u64);
        if came != *answer {
            return Ok(Some((place, came)));
        }
    }
    Ok(None)
}

// The first list with such a row.
fn first_wrong_list<H: Heap>(alloc: H) -> Result<Option<(&'static str, (usize, Answer))>, Starved> {
    for (list, limits, rows) in LISTS {
        if let Some(wrong) = first_wrong(alloc, limits, rows)? {
            return Ok(Some((list, wrong)));
        }
    }
    Ok(None)
}

#[test]
fn each_move(rt: HostRuntime) -> Result<(), test::Fail> {
    assert_eq!(rt; first_wrong_list(rt.alloc())?, None);
    Ok(())
}

// How many of so many equal queries, each of an address of its own, are admitted, wait and are refused.
fn equal_ones<H: Heap>(alloc: H, count: u64) -> Result<(u64, u64, u64), Starved> {
    let mut admission = Admission::new(alloc, Limits::of_address(256))?;
    let mut counts: (u64, u64, u64) = (0, 0, 0);
    for address in 0..count {
        match made(
            &mut admission,
            Admit(1, address.saturating_mul(65_536), 0),
            0,
        ) {
            In(_) => counts.0 = counts.0.saturating_add(1),
            Waits => counts.1 = counts.1.saturating_add(1),
            _ => counts.2 = counts.2.saturating_add(1),
        }
    }
    Ok(counts)
}

#[test]
fn the_4097th_that_waits_is_refused(rt: HostRuntime) -> Result<(), test::Fail> {
    assert_eq!(rt; equal_ones(rt.alloc(), 4_102)?, (4, 4_096, 2));
    Ok(())
}

// Whether there is memory for an admission and for all that come to it.
fn comes_about<H: Allocator>(heap: &Refusing<H>) -> bool {
    equal_ones(heap, 4_102).is_ok()
}

#[test]
fn an_admission_takes_its_memory_at_once(rt: HostRuntime) -> Result<(), test::Fail> {
    let heap = Refusing::new(rt.alloc());
    assert!(rt; comes_about(&heap));
    assert_eq!(rt; heap.growths(), 4);
    for n in 0..4 {
        heap.refuse_after(n);
        assert!(rt; !comes_about(&heap));
    }
    Ok(())
}
