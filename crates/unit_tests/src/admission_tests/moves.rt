//! Moves, and what they answer, as values. The last digit of a key stands for the domain of its name, and of that a name
//! was answered where the key is over 99.
use admission::{Admission, Decision};
use std::alloc::Allocator;

/// A call: with a key, a client and a moment, as far as it takes them.
#[derive(Clone, Copy, Debug)]
pub enum Move {
    Admit(u64, u64, u64),
    Opened(u64, u64, u64),
    Settled(u64, u64),
    Closed(u64, u64),
    Expire(u64),
    Fail(u64),
    Next,
    DropLate(u64),
}

/// What a call answers. Who is handed out is shown by key, client, the moment of his coming and his payload.
#[derive(Clone, Copy, Debug, PartialEq, Eq)]
pub enum Answer {
    In(u64),
    Waits,
    Refused(u64),
    Done,
    Expired(bool),
    Handed(u64, u64, u64, u64),
    Nobody,
    Dropped(usize),
}

/// The domain of a key.
pub fn domain_of(key: u64) -> u64 {
    key % 10
}

/// Whether a name of its domain was answered.
pub fn is_of_answered(key: u64) -> bool {
    key > 99
}

/// Makes the move; the payload of who comes is this one.
pub fn made<A: Allocator>(admission: &mut Admission<u64, A>, step: Move, payload: u64) -> Answer {
    match step {
        Move::Admit(key, client, moment) => {
            let was_answered = is_of_answered(key);
            match admission.admit(key, client, domain_of(key), was_answered, moment, payload) {
                Decision::In(given) => Answer::In(given),
                Decision::Waits => Answer::Waits,
                Decision::Refused(given) => Answer::Refused(given),
            }
        }
        Move::Opened(key, client, moment) => {
            admission.opened(key, client, moment);
            Answer::Done
        }
        Move::Settled(key, client) => {
            admission.settled(key, client);
            Answer::Done
        }
        Move::Closed(key, client) => {
            admission.closed(key, client);
            Answer::Done
        }
        Move::Expire(now) => Answer::Expired(admission.expire(now)),
        Move::Fail(key) => match admission.fail(key) {
            Some(query) => Answer::Handed(query.key, query.client, query.since, query.payload),
            None => Answer::Nobody,
        },
        Move::Next => match admission.next() {
            Some(query) => Answer::Handed(query.key, query.client, query.since, query.payload),
            None => Answer::Nobody,
        },
        Move::DropLate(now) => Answer::Dropped(admission.drop_late(now)),
    }
}
