//! Replies of one and of twenty addresses, decoded, seen in their bytes and encoded.
ghost use Rattle.std.specs.Prelude.{◌<◌};

use crate::done::low;
use crate::names::{addresses, name};
use memory::Heap;
use refusing_alloc::Refusing;
use std::fmt;
use std::rt::Runtime;
use wire::{Message, TCP_LIMIT, View, WireError, decode, encode};

/// A kind of work on messages: replies with so many addresses of one name.
#[derive(Clone, Copy)]
pub enum OnMessages {
    Decode(u8),
    See(u8),
    Encode(u8),
}

/// All of it.
pub const EACH: [OnMessages; 6] = [
    OnMessages::Decode(1),
    OnMessages::See(1),
    OnMessages::Encode(1),
    OnMessages::Decode(20),
    OnMessages::See(20),
    OnMessages::Encode(20),
];

impl fmt::Display for OnMessages {
    fn fmt<W: fmt::Write>(&self, f: &mut fmt::Formatter<W>) -> fmt::Result {
        match self {
            OnMessages::Decode(1) => f.write_str("reply of 45 bytes decoded"),
            OnMessages::See(1) => f.write_str("reply of 45 bytes seen"),
            OnMessages::Encode(1) => f.write_str("reply of 45 bytes encoded"),
            OnMessages::Decode(count) => write!(f, "reply of {count} addresses decoded"),
            OnMessages::See(count) => write!(f, "reply of {count} addresses seen"),
            OnMessages::Encode(count) => write!(f, "reply of {count} addresses encoded"),
        }
    }
}

impl OnMessages {
    /// How often it is done to be measured.
    pub fn rounds(self) -> u64
        ensures { 0 < result }
    {
        match self {
            OnMessages::Decode(1) | OnMessages::See(1) | OnMessages::Encode(1) => 1_000_000,
            OnMessages::Decode(_) | OnMessages::See(_) | OnMessages::Encode(_) => 100_000,
        }
    }

    /// Does it so often.
    pub fn times<A: Heap>(self, alloc: A, rounds: u64) -> Result<u64, WireError> {
        match self {
            OnMessages::Decode(count) => decoded(alloc, &reply_bytes(alloc, count)?, rounds),
            OnMessages::See(count) => seen(alloc, &reply_bytes(alloc, count)?, count, rounds),
            OnMessages::Encode(count) => encoded(alloc, &reply(alloc, count)?, rounds),
        }
    }

    /// How often memory is asked for when it is done once.
    pub fn growths<R: Runtime + AllocGlobal>(self, rt: &R) -> Result<u64, WireError> {
        let before = Refusing::new(rt.alloc());
        self.times(&before, 0)?;
        let once = Refusing::new(rt.alloc());
        self.times(&once, 1)?;
        Ok(once.growths().saturating_sub(before.growths()))
    }
}

// A reply with so many addresses of www.example., as a local zone gives them.
fn reply<A: Heap>(alloc: A, count: u8) -> Result<Message<A>, WireError> {
    let answer = addresses(alloc, &name(alloc, "www.example.")?, count)?;
    let mut reply = decode(
        alloc,
        b"\x124\x85\x80\0\x01\0\0\0\0\0\0\x03www\x07example\0\0\x01\0\x01",
    )?;
    reply.answer = answer;
    Ok(reply)
}

fn reply_bytes<A: Heap>(alloc: A, count: u8) -> Result<Vec<u8, A>, WireError> {
    let reply = reply(alloc, count)?;
    encode(alloc, &reply, TCP_LIMIT)
}

fn decoded<A: Heap>(alloc: A, bytes: &[u8], rounds: u64) -> Result<u64, WireError> {
    let mut sum = 0u64;
    for _ in 0..rounds {
        sum = sum.wrapping_add(low(decode(alloc, bytes)?.answer.len()));
    }
    Ok(sum)
}

// Checked, and each record of its answer passed.
fn seen<A: Heap>(alloc: A, bytes: &[u8], count: u8, rounds: u64) -> Result<u64, WireError> {
    let mut sum = 0u64;
    for _ in 0..rounds {
        let view = View::new(alloc, bytes)?;
        let mut answer = view.answer();
        for _ in 0..count {
            if answer.next().is_some() {
                sum = sum.wrapping_add(1);
            }
        }
    }
    Ok(sum)
}

fn encoded<A: Heap>(alloc: A, reply: &Message<A>, rounds: u64) -> Result<u64, WireError> {
    let mut sum = 0u64;
    for _ in 0..rounds {
        sum = sum.wrapping_add(low(encode(alloc, reply, TCP_LIMIT)?.len()));
    }
    Ok(sum)
}
