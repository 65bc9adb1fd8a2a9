use crate::admission_tests::moves::{Answer, Move, made};
use crate::admission_tests::plain::Plain;
use admission::{Admission, Limits};
use memory::Starved;
use rand_chacha::ChaCha8Rng;
use rand_core::{Rng, SeedableRng};
use std::alloc::Global;
use std::test::Fail;

const SMALL: Limits = Limits {
    equal: 2,
    each: 4,
    places: 8,
    reserve: 2,
    answered: 2,
    waiting: 3,
};

// A number below that many.
fn below(words: &mut ChaCha8Rng, many: u32) -> u64 {
    u64::from(words.next_u32().checked_rem(many).unwrap_or(0))
}

// A move with one of four keys in each of three domains, from one of two ports at one of five addresses.
fn drawn(words: &mut ChaCha8Rng, now: u64) -> Move {
    let key = below(words, 2)
        .saturating_mul(100)
        .saturating_add(below(words, 2).saturating_mul(10))
        .saturating_add(below(words, 3));
    let client = (below(words, 5).saturating_add(1))
        .saturating_mul(65_536)
        .saturating_add(below(words, 2));
    match below(words, 16) {
        0..=5 => Move::Admit(key, client, now),
        6 | 7 => Move::Opened(key, client, now),
        8 | 9 => Move::Settled(key, client),
        10 | 11 => Move::Closed(key, client),
        12 => Move::Expire(now),
        13 => Move::Fail(key),
        14 => Move::Next,
        _ => Move::DropLate(now),
    }
}

// The first of 60 moves that is answered otherwise, with both answers.
fn first_wrong(
    alloc: Global,
    words: &mut ChaCha8Rng,
) -> Result<Option<(Move, Answer, Answer)>, Starved> {
    let mut admission = Admission::new(alloc, SMALL)?;
    let mut plain = Plain::new(alloc, SMALL);
    let mut now: u64 = 0;
    for payload in 0..60 {
        now = now.saturating_add(below(words, 2_000));
        let step = drawn(words, now);
        let came = made(&mut admission, step, payload);
        let wanted = plain.made(step, payload)?;
        if came != wanted {
            return Ok(Some((step, came, wanted)));
        }
    }
    Ok(None)
}

// The first of so many lists with a wrong answer.
fn first_wrong_list(alloc: Global, lists: u64) -> Result<Option<u64>, Starved> {
    let mut words = ChaCha8Rng::from_seed([7; 32]);
    for list in 0..lists {
        if first_wrong(alloc, &mut words)?.is_some() {
            return Ok(Some(list));
        }
    }
    Ok(None)
}

#[test]
fn lists_of_moves(rt: HostRuntime) -> Result<(), Fail> {
    assert_eq!(rt; first_wrong_list(rt.alloc(), 10_000)?, None);
    Ok(())
}
