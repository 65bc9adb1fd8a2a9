//! One stream of a client: its questions that are under way, and how long it may be silent.
ghost use Rattle.std.specs.Prelude.{◌≡◌, ◌<◌, ◌≤◌, ◌^◌, ◌-◌, IfSome, length};
ghost use Rattle.server.specs.Endings.{ends_by, gives_way_by, has_left_for, IsStateAt};

use crate::framed_stream::{FramedStream, StreamFault};
use dispatch::silence_before_yielding;
use limits::QUERY_LIFETIME_MS;
use rdata::Addr;
use std::alloc::Global;

// How many questions of a stream are under way at most, their replies written included (RFC 7766, section 6.2.1.1).
const MOST_UNDER_WAY: u32 = 16;

// How long a stream stays open on which no whole frame comes and no reply goes, in milliseconds.
const IDLE_MS: u64 = 10_000;

// How long a reply is waited for, in milliseconds: longer than a query stays open, so that its reply comes before, but
// for what was held in admission first.
const REPLY_MS: u64 = 12_000;

const _: () = prove!(QUERY_LIFETIME_MS < REPLY_MS);

// How long a stream may take no byte of a reply, in milliseconds.
const WRITE_MS: u64 = 3_000;

// How long replies are awaited for a client that has ended what it sends, in milliseconds.
const LEFT_MS: u64 = 500;

// What a stream shows at a moment, its times in milliseconds.
#[derive(Clone, Copy)]
struct StreamState {
    failed: bool,
    // Whether bytes of a reply are to be written, and for how long none was taken.
    writes: bool,
    untaken: u64,
    // Whether replies are awaited.
    awaits: bool,
    // For how long no whole frame came and no reply went.
    silence: u64,
    // For how long its client has ended what it sends, if it has.
    left: Option<u64>,
    // Whether no more frames are taken.
    closing: bool,
}

// Whether a stream that shows this is to end: where it failed, where nothing is under way and no more will come, and
// where what is waited for has not come in time.
fn ends_by(state: StreamState) -> bool
    ensures { result ≡ ends_by state }
{
    if state.failed {
        true
    } else if state.writes {
        state.untaken >= WRITE_MS
    } else if state.awaits {
        state.silence >= REPLY_MS || has_left_for(LEFT_MS, state.left)
    } else {
        state.silence >= IDLE_MS || state.closing || state.left.is_some()
    }
}

// Whether its client has ended what it sends for so long.
fn has_left_for(wanted: u64, left: Option<u64>) -> bool
    ensures { result ≡ has_left_for wanted left }
{
    match left {
        Some(left) => left >= wanted,
        None => false,
    }
}

// Whether another may take the place of a stream that shows this, where all of so many places are taken.
fn gives_way_by(state: StreamState, places: u16) -> bool
    ensures { result ≡ gives_way_by state places }
{
    let awaits = state.awaits || state.writes;
    state.left.is_some() || state.silence >= silence_before_yielding(places, awaits)
}

/// One stream of a client.
#[derive(Drop)]
pub(crate) struct ClientStream {
    /// Its number, under which its frames are put.
    pub number: u64,
    /// Who has it.
    pub address: Addr,
    /// Whether there is something to do.
    pub due: bool,
    stream: FramedStream,
    // How many questions have no reply yet, and how many replies are not written.
    awaited: u32,
    unwritten: u32,
    // When the last whole frame came, or the last reply was written.
    since: u64,
    // When a byte of a reply was taken, or the first one was put.
    taken: u64,
    // When the client had ended what it sends.
    left: Option<u64>,
    // Whether no more frames are taken.
    closing: bool,
}

impl ClientStream {
    /// One that has just come.
    pub fn new(stream: FramedStream, number: u64, address: Addr, now: u64) -> ClientStream {
        ClientStream {
            number,
            address,
            due: true,
            stream,
            awaited: 0,
            unwritten: 0,
            since: now,
            taken: now,
            left: None,
            closing: false,
        }
    }

    /// Something changed at the stream.
    pub fn stir(&mut self) {
        self.stream.stir();
        self.due = true;
    }

    /// Writes what it takes, and reads what has come.
    pub fn exchange(&mut self, now: u64, buffer: &mut [u8]) {
        self.due = false;
        self.write(now);
        self.read(now, buffer);
    }

    fn write(&mut self, now: u64) {
        if self.stream.write() {
            self.taken = now;
        }
        if self.unwritten > 0 && self.stream.is_written() {
            self.unwritten = 0;
            self.since = now;
        }
    }

    fn read(&mut self, now: u64, buffer: &mut [u8]) {
        self.stream.read(buffer);
        if self.stream.has_ended() && self.left.is_none() {
            self.left = Some(now);
        }
    }

    /// The next frame, if one has come and another question may be under way.
    pub fn next_question(&mut self, alloc: Global, now: u64, buffer: &mut [u8]) -> Option<Vec<u8>>
        ensures { IfSome result (λ v. length v.items < 2 ^ 16) }
    {
        if self.closing || self.awaited.saturating_add(self.unwritten) >= MOST_UNDER_WAY {
            return None;
        }
        let frame = self.stream.next(alloc, buffer)?;
        self.awaited = self.awaited.saturating_add(1);
        self.since = now;
        Some(frame)
    }

    /// A question has no reply: no more are taken, and the stream ends once the others have theirs.
    pub fn close(&mut self) {
        self.awaited = self.awaited.saturating_sub(1);
        self.closing = true;
    }

    /// Puts a reply behind what is to be written.
    pub fn reply(&mut self, now: u64, bytes: &[u8])
        requires { length bytes.now < 2 ^ 16 }
    {
        if self.stream.is_written() {
            self.taken = now;
        }
        self.awaited = self.awaited.saturating_sub(1);
        self.unwritten = self.unwritten.saturating_add(1);
        self.stream.put(bytes);
        self.due = true;
    }

    // What it shows at this moment.
    fn state_at(&self, now: u64) -> StreamState
        ensures { IsStateAt self.now now result }
    {
        StreamState {
            failed: self.stream.fault().is_some(),
            writes: !self.stream.is_written(),
            untaken: now.saturating_sub(self.taken),
            awaits: self.awaited > 0,
            silence: self.silence(now),
            left: self.left.map(|left| now.saturating_sub(left)),
            closing: self.closing,
        }
    }

    /// Whether the stream is to end.
    pub fn is_over(&self, now: u64) -> bool {
        ends_by(self.state_at(now))
    }

    /// Why it has failed, if it has.
    pub fn fault(&self) -> Option<StreamFault> {
        self.stream.fault()
    }

    /// For how long it has been silent, in milliseconds: a byte that ends no frame counts for nothing.
    pub fn silence(&self, now: u64) -> u64
        ensures { result ≡ now - self.now.since }
    {
        now.saturating_sub(self.since)
    }

    /// Whether another may take its place, where all of so many places are taken.
    pub fn yields(&self, now: u64, places: u16) -> bool {
        gives_way_by(self.state_at(now), places)
    }
}
