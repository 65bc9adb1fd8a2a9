//! Each change of one byte of a reply.
use crate::engine_tests::bytes::{Change, Places, changed, joined, told};
use crate::engine_tests::fixtures::{QUERY, end};
use crate::engine_tests::talks::{Talk, goes_on, renew, waiting};
use engine_fixture::{Out, TestResolver};
use memory::{Heap, Starved};
use rdata::Addr;
use std::test::Fail;

// The reply of the server 192.0.2.1 behind the ID: the address 192.0.2.9, for 300 seconds. What the client gets of it.
const FOUND: &[u8] =
    b"\x84\0\0\x01\0\x01\0\0\0\0\x03www\x07example\0\0\x01\0\x01\xc0\x0c\0\x01\0\x01\0\0\x01\x2c\0\x04\xc0\0\x02\x09";

const REPLY: &[u8] =
    b"\0\x05\x81\x80\0\x01\0\x01\0\0\0\0\x03www\x07example\0\0\x01\0\x01\xc0\x0c\0\x01\0\x01\0\0\x01\x2c\0\x04\xc0\0\x02\x09";

// That before and behind its TTL.
const REPLY_BEFORE: &[u8] =
    b"\0\x05\x81\x80\0\x01\0\x01\0\0\0\0\x03www\x07example\0\0\x01\0\x01\xc0\x0c\0\x01\0\x01";

const REPLY_BEHIND: &[u8] = b"\0\x04\xc0\0\x02\x09";

// Where these begin in both: the question; the record, its TTL, the length of its data, and its address. The end.
const QUESTION: usize = 12;

const RECORD: usize = 29;

const TTL: usize = 35;

const LENGTH: usize = 39;

const ADDRESS: usize = 41;

const WHOLE: usize = 45;

// Client 3 asks for www.example. A, and the server of the root says that.
pub const TALK_OF_ADDRESS: Talk = Talk {
    root: Addr([192, 0, 2, 1]),
    query: QUERY,
    before: &[],
    asked: Out::Asked(1),
    reply: FOUND,
    out: Out::Replied,
    sent: Some(REPLY),
};

// Where one of these bits of one of these bytes is turned, one of these two comes.
type Row = (Places, u8, Out, Out);

const ANY: u8 = 0xff;

// The first row that is of the byte and the bits counts.
const ROWS: &[Row] = &[
    // The header (RFC 1035, section 4.1.1): QR and the operation; TC; AA.
    ((2, 3), 0xf8, Out::Nothing, Out::Nothing),
    ((2, 3), 0x02, Out::AskedOverTcp(1), Out::AskedOverTcp(1)),
    ((2, 3), 0x04, Out::Asked(1), Out::Asked(1)),
    // The RCODE: only for SERVFAIL the server is not asked again (RFC 2308, section 7.1).
    ((3, 4), 0x0f, Out::Asked(1), Out::Failed(7)),
    // RD, RA and the bits that say nothing.
    ((2, 4), ANY, Out::Replied, Out::Replied),
    // The ID and the counts.
    ((0, QUESTION), ANY, Out::Nothing, Out::Nothing),
    // A letter of the question may come as a capital one.
    ((13, 16), 0xdf, Out::Nothing, Out::Nothing),
    ((13, 16), 0x20, Out::Replied, Out::Replied),
    ((17, 24), 0xdf, Out::Nothing, Out::Nothing),
    ((17, 24), 0x20, Out::Replied, Out::Replied),
    ((QUESTION, RECORD), ANY, Out::Nothing, Out::Nothing),
    // The owner, the type and the class: no record of the asked name is left, or no message.
    ((RECORD, TTL), ANY, Out::Nothing, Out::Asked(1)),
    ((TTL, LENGTH), ANY, Out::Replied, Out::Replied),
    // Four bytes of data, and none behind them.
    ((LENGTH, ADDRESS), ANY, Out::Nothing, Out::Nothing),
    ((ADDRESS, WHOLE), ANY, Out::Replied, Out::Replied),
];

fn is_of(row: Row, place: usize, bits: u8) -> bool {
    let ((from, to), mask, _, _) = row;
    from <= place && place < to && bits & mask != 0
}

fn brings(row: Row, out: Out) -> bool {
    let (_, _, one, other) = row;
    out == one || out == other
}

// What a reply may bring with some bits of that byte turned.
fn may_come(out: Out, place: usize, bits: u8) -> bool {
    for row in ROWS {
        if is_of(*row, place, bits) {
            return brings(*row, out);
        }
    }
    false
}

// The TTL of 300 seconds with some bits of one of its bytes turned, as it is taken: 0 where its highest bit is set, and
// a week at most (RFC 2181, section 8).
fn turned_ttl(place: usize, bits: u8) -> u32 {
    let mut bytes = 300u32.to_be_bytes();
    if let Some(byte) = bytes.get_mut(place) {
        *byte ^= bits;
    }
    let said = u32::from_be_bytes(bytes);
    if said >= 0x8000_0000 {
        0
    } else {
        said.min(604_800)
    }
}

// What the client gets with this TTL.
fn reply_with<A: Heap>(alloc: A, ttl: u32) -> Result<Vec<u8, A>, Starved> {
    let ttl = ttl.to_be_bytes();
    joined(alloc, &[REPLY_BEFORE, &ttl, REPLY_BEHIND])
}

// What the client gets where the reply is taken with some bits of that byte turned.
fn wanted<A: Heap>(alloc: A, place: usize, bits: u8) -> Result<Vec<u8, A>, Starved> {
    if place >= ADDRESS {
        changed(alloc, REPLY, Change::Turned(place, bits))
    } else if place >= TTL {
        reply_with(alloc, turned_ttl(place - TTL, bits))
    } else {
        changed(alloc, REPLY, Change::Nothing)
    }
}

fn has_sent_wanted<A: Heap>(
    resolver: &TestResolver<A>,
    place: usize,
    bits: u8,
) -> Result<bool, Starved> {
    let reply = wanted(resolver.heap(), place, bits)?;
    Ok(resolver.has_sent(3, reply.as_slice()))
}

// Whether what was brought is well: where the server is asked again, the whole reply is taken when it comes; where the
// client is answered, what it was sent is right.
fn is_well<A: Heap>(
    resolver: &mut TestResolver<A>,
    talk: Talk,
    out: Out,
    place: usize,
    bits: u8,
) -> Result<bool, Starved> {
    match out {
        Out::Asked(1) => Ok(goes_on(resolver, talk)),
        Out::Failed(7) => Ok(place == 3 && bits & 0x0f == 2),
        Out::Replied => has_sent_wanted(resolver, place, bits),
        _ => Ok(out == Out::AskedOverTcp(1)),
    }
}

// A resolver that waits is told the reply with some bits of that byte turned. Where that brings something, another one
// waits then.
fn stands<A: Heap>(
    resolver: &mut TestResolver<A>,
    talk: Talk,
    place: usize,
    bits: u8,
) -> Result<bool, Starved> {
    let out = told(resolver, talk.reply, Change::Turned(place, bits));
    if !may_come(out, place, bits) {
        return Ok(false);
    }
    if out == Out::Nothing {
        return Ok(true);
    }
    let is_well = is_well(resolver, talk, out, place, bits)?;
    renew(resolver, talk)?;
    Ok(is_well)
}

// The first change of that byte that does not stand; 0 where the whole reply is not taken behind all of them.
fn wrong_turn<A: Heap>(
    resolver: &mut TestResolver<A>,
    talk: Talk,
    place: usize,
) -> Result<Option<u8>, Starved> {
    for bits in 1..=255u8 {
        if !stands(resolver, talk, place, bits)? {
            return Ok(Some(bits));
        }
    }
    Ok(if goes_on(resolver, talk) {
        None
    } else {
        Some(0)
    })
}

fn wrong_bits<A: Heap>(alloc: A, talk: Talk, place: usize) -> Result<Option<u8>, Starved> {
    let mut resolver = waiting(alloc, talk)?;
    let bits = wrong_turn(&mut resolver, talk, place);
    end(resolver);
    bits
}

// The first byte of which a change does not stand, and the bits.
fn first_wrong_byte<A: Heap>(alloc: A, talk: Talk) -> Result<Option<(usize, u8)>, Starved> {
    for place in 0..WHOLE {
        if let Some(bits) = wrong_bits(alloc, talk, place)? {
            return Ok(Some((place, bits)));
        }
    }
    Ok(None)
}

#[test]
fn a_changed_byte_of_a_reply_misleads_nobody(rt: HostRuntime) -> Result<(), Fail> {
    assert_eq!(rt; first_wrong_byte(rt.alloc(), TALK_OF_ADDRESS)?, None);
    Ok(())
}
