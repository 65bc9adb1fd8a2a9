//! What a server counts, where its file asks for it.
ghost use Rattle.std.specs.Prelude.{◌≡◌, ◌<◌, ◌≤◌, ◌⊎◌, MatchOption, [], ◌∷◌, ◌++◌, length, vec_capacity};
ghost use Rattle.std.specs.List.{position};
ghost use Rattle.server.specs.Arrivals.{is_of, may_be_open, staying, IsTaken, IsUnknown};
ghost use Rattle.server.specs.Tallies.{AsksFor, byte_of, id_in, reply_in};

use crate::query::{Asker, Query};
use causes::Cause;
use counters::{COUNTERS, Cells, Counter, Outcome, Reply, Way, count};
use dispatch::question_end;
use events::Action;
use limits::{MAX_OPEN_QUERIES, QUERY_LIFETIME_MS};
use std::alloc::Global;
use std::sync::{Mutex, Wait};

// After so many milliseconds no reply comes any more.
const NOTED_MS: u64 = 12_000;

const _: () = prove!(QUERY_LIFETIME_MS < NOTED_MS);

/// A client's query: whose it is, its ID, and when it came.
#[derive(Clone, Copy)]
pub(crate) struct Arrival {
    asker: Asker,
    id: u16,
    moment: u64,
}

impl Arrival {
    /// The query, which came at that moment.
    pub fn of(query: &Query, moment: u64) -> Arrival {
        Arrival {
            asker: query.asker,
            id: id_of(query.bytes.as_slice()),
            moment,
        }
    }
}

/// The counters, and the queries that wait for other servers.
#[derive(Drop)]
pub(crate) struct Tally {
    cells: Cells,
    open: Mutex<Vec<Arrival>>,
}

impl Tally {
    /// With nothing counted. It takes all memory that it ever wants.
    pub fn new(alloc: Global) -> Option<Tally> {
        Some(Tally {
            cells: Cells::new(alloc).ok()?,
            open: Mutex::new(Vec::with_capacity(alloc, MAX_OPEN_QUERIES).ok()?),
        })
    }

    /// Counts an outcome.
    pub fn count(&self, outcome: Outcome) {
        count(&mut self.cells.adder(), outcome);
    }

    /// Counts a query.
    pub fn count_query(&self, query: &Query) {
        let kind = type_asked(query.bytes.as_slice());
        self.count(Outcome::Query(query.asker.counted_way(), kind));
    }

    /// Counts what a step gave: of the query that came with it, or another one.
    pub fn count_step<R: Wait>(&self, rt: &R, came: Option<Arrival>, now: u64, action: &Action) {
        match action {
            Action::Reply {
                client,
                way,
                bytes,
                cause,
            } => {
                let asker = Asker {
                    client: *client,
                    way: *way,
                };
                let bytes = bytes.as_slice();
                let millis = self.millis_of(rt, came, now, asker, id_of(bytes));
                self.count_reply(bytes, came.is_none(), *cause, millis);
            }
            Action::Send { .. } => self.count_ask(rt, Way::Udp, came, now),
            Action::TcpAsk { .. } => self.count_ask(rt, Way::Tcp, came, now),
        }
    }

    // How many milliseconds ago the query came to which this is the reply: the one that came with the step, or another.
    fn millis_of<R: Wait>(
        &self,
        rt: &R,
        came: Option<Arrival>,
        now: u64,
        asker: Asker,
        id: u16,
    ) -> Option<u64> {
        let moment = match came {
            Some(came) => came.moment,
            None => self.end(rt, asker, id)?,
        };
        Some(now.saturating_sub(moment))
    }

    fn count_reply(&self, bytes: &[u8], asked: bool, cause: Option<Cause>, millis: Option<u64>) {
        self.count(Outcome::Replied(Reply {
            cause,
            ..reply_of(bytes, asked, millis)
        }));
    }

    /// Counts the failure that a query got which was held since then: a copy of another's.
    pub fn count_copy(&self, copy: &Action, since: u64, now: u64) {
        if let Action::Reply { bytes, cause, .. } = copy {
            let millis = now.saturating_sub(since);
            self.count_reply(bytes.as_slice(), true, *cause, Some(millis));
        }
    }

    /// What the counters hold, and how many queries wait for other servers at this moment.
    pub fn values<R: Wait>(&self, rt: &R, now: u64) -> ([u64; COUNTERS], u64) {
        (self.cells.values(), self.open_queries(rt, now))
    }

    /// How many queries wait for other servers at this moment. A query that the resolver dropped, for want of memory,
    /// is not counted once no reply can come to it any more.
    pub fn open_queries<R: Wait>(&self, rt: &R, now: u64) -> u64 {
        let open = self.open.lock(rt);
        open.iter().filter(|query| may_be_open(query, now)).count() as u64
    }

    /// What one counter holds.
    pub fn value(&self, counter: Counter) -> u64 {
        self.cells.value(counter)
    }

    // Counts an ask. Where its query came with the step, it is open from now on.
    fn count_ask<R: Wait>(&self, rt: &R, way: Way, came: Option<Arrival>, now: u64) {
        self.count(Outcome::Asked(way));
        if let Some(came) = came {
            self.begin(rt, came, now);
        }
    }

    // Notes a query that is open. Where too many are noted, those leave whose reply can't come any more; where that
    // makes no room it is not noted, and its time not known.
    fn begin<R: Wait>(&self, rt: &R, came: Arrival, now: u64) {
        note(&mut self.open.lock(rt), came, now);
    }

    // When the query came to which this is the reply.
    fn end<R: Wait>(&self, rt: &R, asker: Asker, id: u16) -> Option<u64> {
        take(&mut self.open.lock(rt), asker, id)
    }
}

// Whether a reply may still come to a query that was noted.
fn may_be_open(query: &Arrival, now: u64) -> bool
    ensures { result ≡ may_be_open now query.now }
{
    now.saturating_sub(query.moment) < NOTED_MS
}

// Where as many are noted as may be, those leave whose reply can't come any more.
fn make_room(open: &mut Vec<Arrival>, now: u64)
    ensures items { «open».new.items ≡ staying now «open».old.items }
    ensures capacity { vec_capacity «open».new ≡ vec_capacity «open».old }
{
    if open.len() >= MAX_OPEN_QUERIES {
        open.retain(|query| may_be_open(query, now));
    }
}

// One query more that is open.
fn note(open: &mut Vec<Arrival>, came: Arrival, now: u64)
    ensures either { («open».new.items ≡ staying now «open».old.items) ⊎ («open».new.items ≡ staying now «open».old.items ++ came ∷ []) }
    ensures full { 1_024 ≤ length (staying now «open».old.items) → «open».new.items ≡ staying now «open».old.items }
    ensures room { length (staying now «open».old.items) < 1_024 → length (staying now «open».old.items) < vec_capacity «open».old → «open».new.items ≡ staying now «open».old.items ++ came ∷ [] }
{
    make_room(open, now);
    if open.len() < MAX_OPEN_QUERIES {
        let _ = open.push(came);
    }
}

// When the query came of this client with this ID, which is open no more.
fn take(open: &mut Vec<Arrival>, asker: Asker, id: u16) -> Option<u64>
    ensures { MatchOption result (IsUnknown asker id «open».old.items «open».new.items) (IsTaken asker id «open».old.items «open».new.items) }
{
    match place_of(open, asker, id) {
        Some(place) => Some(open.swap_remove(place).moment),
        None => None,
    }
}

// Where the first stands of this client with this ID.
fn place_of(open: &Vec<Arrival>, asker: Asker, id: u16) -> Option<usize>
    ensures { result ≡ position (is_of asker id) «open».now.items }
{
    open.iter().position(|query| is_of(query, asker, id))
}

// Whether a query is this client's, with this ID.
fn is_of(query: &Arrival, asker: Asker, id: u16) -> bool
    ensures { result ≡ is_of asker id query.now }
{
    query.asker == asker && query.id == id
}

// What the header of a reply says (RFC 1035, section 4.1.1). Its cause is not in it.
fn reply_of(bytes: &[u8], asked: bool, millis: Option<u64>) -> Reply
    ensures { result ≡ reply_in bytes.now asked millis }
{
    let flags = byte_at(bytes, 2);
    Reply {
        rcode: byte_at(bytes, 3) % 16,
        authoritative: flags / 4 % 2 == 1,
        truncated: flags / 2 % 2 == 1,
        asked,
        cause: None,
        millis,
    }
}

// The byte at a place; 0 where there is none.
fn byte_at(bytes: &[u8], place: usize) -> u8
    ensures { result ≡ byte_of bytes.now place }
{
    match bytes.get(place) {
        Some(byte) => *byte,
        None => 0,
    }
}

// The number under which it was asked.
fn id_of(bytes: &[u8]) -> u16
    ensures { result ≡ id_in bytes.now }
{
    u16::from_be_bytes([byte_at(bytes, 0), byte_at(bytes, 1)])
}

// The type that a message asks for; 0, which is none, where it has no one question.
fn type_asked(message: &[u8]) -> u16
    ensures { AsksFor message.now result }
{
    match question_end(message) {
        Some(end) => u16::from_be_bytes([byte_at(message, end - 4), byte_at(message, end - 3)]),
        None => 0,
    }
}
