//! The loop that asks servers over TCP.
ghost use Rattle.std.specs.Prelude.{◌≡◌, ◌<◌, ◌^◌, IfOk, IfSome, length};
ghost use Rattle.server.specs.Failures.{ask_outcome, failed};

use crate::context::{Bounds, Common, Context};
use crate::crowd::{Crowd, Places, Turn, turn_by};
use crate::ends::{SLICE_MS, address_of, lacks_descriptors};
use crate::framed_stream::{FramedStream, MOST_FRAME_BYTES, StreamFault};
use crate::outbox::StreamAsk;
use crate::poller::Poller;
use crate::worker::Worker;
use book::Answering;
use counters::{AskFault, Outcome, Way};
use dispatch::stream_reply_event;
use limits::TCP_WAIT_MS;
use memory::Starved;
use mio::net::TcpStream;
use mio::{Events, Interest, Poll};
use rdata::Addr;
use slab::Slab;
use std::alloc::Global;
use std::net::Net;
use std::sync::Wait;
use std::sync::ledger::Ledger;
use std::time::Clock;
use typed::{TypedActions, TypedEvent};

// How many asks are under way for each worker of the server's file.
const ASKS_OF_A_WORKER: usize = 16;

// How many sockets are told of at once.
const EVENTS: usize = 256;

// How often it is looked whose time is over, in milliseconds, while asks are under way.
const CHECK_MS: u64 = 100;

// An ask that is under way.
#[derive(Drop)]
struct Talk {
    number: u64,
    server: Addr,
    // When the ask was made.
    moment: u64,
    stream: FramedStream,
    // Whether there is something to do.
    due: bool,
}

impl Talk {
    // Writes and reads what can be. None where it waits on; else it has ended, with the frame that came if one did.
    fn advance(&mut self, alloc: Global, buffer: &mut [u8]) -> Option<Result<Vec<u8>, Outcome>>
        ensures { IfSome result (λ end. IfOk end (λ v. length v.items < 2 ^ 16)) }
    {
        self.due = false;
        self.stream.write();
        if let Some(frame) = self.stream.next(alloc, buffer) {
            return Some(Ok(frame));
        }
        match self.stream.fault() {
            Some(fault) => Some(Err(ask_outcome(fault))),
            None if self.stream.has_ended() => Some(Err(failed(AskFault::Reset))),
            None => None,
        }
    }
}

// The asks that are under way, and those that wait for a place.
#[derive(Drop)]
struct Asking {
    talks: Slab<Talk>,
    crowd: Crowd,
    // How many are under way at most.
    most: usize,
}

impl Asking {
    fn places(&self) -> Places {
        Places {
            most: self.most,
            free: self.most.saturating_sub(self.talks.len()),
        }
    }

    // How many asks of that server are under way.
    fn at_server(&self, server: Addr) -> usize {
        self.talks
            .iter()
            .filter(|(_, talk)| talk.server == server)
            .count()
    }

    // What becomes of an ask now.
    fn turn_of(&self, ask: &StreamAsk, now: u64) -> Turn {
        turn_by(
            now.saturating_sub(ask.moment),
            self.places(),
            self.at_server(ask.to.address),
            self.crowd.waiting(),
        )
    }

    // The servers that are asked now and of which no further ask may begin.
    fn full_servers(&self, alloc: Global) -> Result<Vec<Addr>, Starved> {
        let places = self.places();
        let mut full = Vec::new(alloc);
        for (_, talk) in self.talks.iter() {
            if !full.contains(&talk.server) && !places.admits(self.at_server(talk.server)) {
                full.push(talk.server)?;
            }
        }
        Ok(full)
    }

    // The first that waits and may begin now, which no longer waits. Out of memory it waits on.
    fn next(&mut self, alloc: Global) -> Option<StreamAsk> {
        if self.places().free == 0 {
            return None;
        }
        let full = self.full_servers(alloc).ok()?;
        self.crowd.next(&full)
    }
}

// How an ask counts that has failed so.
fn failed(fault: AskFault) -> Outcome
    ensures { result ≡ failed fault }
{
    Outcome::AskFailed(Way::Tcp, fault)
}

// How an ask counts whose stream failed so.
fn ask_outcome(fault: StreamFault) -> Outcome
    ensures { result ≡ ask_outcome fault }
{
    match fault {
        StreamFault::Memory => Outcome::MemoryRefused,
        StreamFault::Refused => failed(AskFault::Refused),
        StreamFault::Silent => failed(AskFault::Silent),
        StreamFault::Reset => failed(AskFault::Reset),
    }
}

/// Asks servers over TCP, many at a time, until the flag is up. What is no reply is told as a failure, and so is an ask
/// whose time is over, its wait for a stream included.
pub(crate) fn ask_servers<
    M: Answering<Event = TypedEvent, Out = TypedActions>,
    L: Ledger,
    R: Net + Wait + Clock,
>(rt: &R, context: &Context<'_, M, L>, worker: &mut Worker<M, L>) {
    let servers = &context.common.ends.servers;
    let Ok(mut events) = Events::with_capacity(context.common.alloc, EVENTS) else {
        context.common.give_up();
        return;
    };
    let mut poll = servers.poll.lock(rt);
    let mut asking = Asking {
        talks: Slab::new(context.common.alloc),
        crowd: Crowd::new(context.common.alloc),
        most: most_talks(context.common.bounds),
    };
    let mut buffer = [0u8; MOST_FRAME_BYTES];
    let mut checked = 0;
    for _ in rt.forever() {
        if context.common.is_over() {
            break;
        }
        await_talks(context.common, &mut poll, &mut events, &mut asking.talks);
        checked = advance_all(rt, context, worker, &mut asking, checked, &mut buffer);
    }
}

// Waits until there is something to do, and notes at which talks.
fn await_talks(common: &Common<'_>, poll: &mut Poll, events: &mut Events, talks: &mut Slab<Talk>) {
    let servers = &common.ends.servers;
    servers.expect_notice();
    common.wait(
        servers,
        poll,
        events,
        wait_of(talks, !common.asks.is_empty()),
    );
    for event in events.iter() {
        stir(talks, event.token().0);
    }
}

// Takes up new asks, goes on with every talk, and begins others where some have ended; when it was looked last whose
// time is over.
fn advance_all<
    M: Answering<Event = TypedEvent, Out = TypedActions>,
    L: Ledger,
    R: Net + Wait + Clock,
>(
    rt: &R,
    context: &Context<'_, M, L>,
    worker: &mut Worker<M, L>,
    asking: &mut Asking,
    checked: u64,
    buffer: &mut [u8],
) -> u64 {
    take_up_all(rt, context, worker, asking);
    let now = context.common.moment(rt);
    let check = now.saturating_sub(checked) >= CHECK_MS;
    let mut ended = false;
    for key in 0..asking.talks.capacity() {
        ended = advance(rt, context, worker, asking, key, check, buffer) || ended;
    }
    if ended {
        begin_waiting(rt, context, worker, asking);
    }
    if check {
        fail_late(rt, context, worker, &mut asking.crowd, now);
    }
    if check { now } else { checked }
}

// How many asks are under way at most.
fn most_talks(bounds: Bounds) -> usize {
    usize::from(bounds.workers) * ASKS_OF_A_WORKER
}

// How long is waited, in milliseconds, where there are new asks or none.
fn wait_of(talks: &Slab<Talk>, new: bool) -> u64 {
    if new {
        0
    } else if talks.is_empty() {
        SLICE_MS
    } else {
        CHECK_MS
    }
}

// The talk of this key has something to do.
fn stir(talks: &mut Slab<Talk>, key: usize) {
    if let Some(talk) = talks.get_mut(key) {
        talk.stream.stir();
        talk.due = true;
    }
}

// Takes up the asks that were handed on, as many in a row as may be under way.
fn take_up_all<
    M: Answering<Event = TypedEvent, Out = TypedActions>,
    L: Ledger,
    R: Net + Wait + Clock,
>(rt: &R, context: &Context<'_, M, L>, worker: &mut Worker<M, L>, asking: &mut Asking) {
    for _ in 0..asking.most {
        let Ok(ask) = context.common.asks.try_recv(rt) else {
            return;
        };
        take_up(rt, context, worker, asking, ask);
    }
}

// Takes up those that wait for a place and may begin now.
fn begin_waiting<
    M: Answering<Event = TypedEvent, Out = TypedActions>,
    L: Ledger,
    R: Net + Wait + Clock,
>(rt: &R, context: &Context<'_, M, L>, worker: &mut Worker<M, L>, asking: &mut Asking) {
    for _ in 0..asking.crowd.waiting() {
        let Some(ask) = asking.next(context.common.alloc) else {
            return;
        };
        take_up(rt, context, worker, asking, ask);
    }
}

// Takes up an ask: it begins, waits for a place, or has failed.
fn take_up<M: Answering<Event = TypedEvent, Out = TypedActions>, L: Ledger, R: Net + Wait + Clock>(
    rt: &R,
    context: &Context<'_, M, L>,
    worker: &mut Worker<M, L>,
    asking: &mut Asking,
    ask: StreamAsk,
) {
    let number = ask.number;
    if let Err(outcome) = begin_or_keep(rt, context.common, asking, ask) {
        fail(rt, context, worker, number, outcome);
    }
}

// Begins an ask, or keeps it until it has a place.
fn begin_or_keep<R: Net + Clock>(
    rt: &R,
    common: &Common<'_>,
    asking: &mut Asking,
    ask: StreamAsk,
) -> Result<(), Outcome> {
    match asking.turn_of(&ask, common.moment(rt)) {
        Turn::Begins => {
            let begun = begin(
                rt,
                common.alloc,
                &common.ends.servers,
                &mut asking.talks,
                &ask,
            );
            drop(ask);
            begun
        }
        Turn::Waits => match asking.crowd.keep(ask) {
            Ok(()) => Ok(()),
            Err(_) => Err(Outcome::MemoryRefused),
        },
        Turn::Fails(fault) => {
            drop(ask);
            Err(failed(fault))
        }
    }
}

// Those that waited for a place until their time was over have failed.
fn fail_late<M: Answering<Event = TypedEvent, Out = TypedActions>, L: Ledger, R: Wait + Clock>(
    rt: &R,
    context: &Context<'_, M, L>,
    worker: &mut Worker<M, L>,
    crowd: &mut Crowd,
    now: u64,
) {
    for _ in 0..crowd.waiting() {
        let Some(ask) = crowd.late(now) else {
            return;
        };
        let number = ask.number;
        drop(ask);
        fail(rt, context, worker, number, failed(AskFault::Silent));
    }
}

// The ask of this number has failed, which counts so.
fn fail<M: Answering<Event = TypedEvent, Out = TypedActions>, L: Ledger, R: Wait + Clock>(
    rt: &R,
    context: &Context<'_, M, L>,
    worker: &mut Worker<M, L>,
    number: u64,
    outcome: Outcome,
) {
    context.common.ends.count(outcome);
    context.put(
        rt,
        worker,
        stream_reply_event(context.common.moment(rt), number, None),
    );
}

// Begins to connect, and puts down what is to be written. Fails where there is no stream.
fn begin<R: Net>(
    rt: &R,
    alloc: Global,
    servers: &Poller,
    talks: &mut Slab<Talk>,
    ask: &StreamAsk,
) -> Result<(), Outcome> {
    match TcpStream::connect(rt, address_of(ask.to)) {
        Ok(stream) => watch(servers, talks, talk_of(alloc, ask, stream)),
        Err(error) if lacks_descriptors(&error) => Err(failed(AskFault::Descriptors)),
        Err(_) => Err(failed(AskFault::Refused)),
    }
}

// The talk of an ask, at this stream.
fn talk_of(alloc: Global, ask: &StreamAsk, stream: TcpStream) -> Talk {
    let mut stream = FramedStream::new(alloc, stream);
    stream.put(ask.bytes.as_slice());
    Talk {
        number: ask.number,
        server: ask.to.address,
        moment: ask.moment,
        stream,
        due: false,
    }
}

// Takes up a talk, whose stream is waited for from now on.
fn watch(servers: &Poller, talks: &mut Slab<Talk>, talk: Talk) -> Result<(), Outcome> {
    let socket = talk.stream.descriptor();
    match talks.insert(talk) {
        Ok(key) if servers.watch(socket, key, Interest::READABLE | Interest::WRITABLE) => Ok(()),
        Ok(key) => {
            talks.try_remove(key);
            Err(failed(AskFault::Refused))
        }
        Err(_) => Err(Outcome::MemoryRefused),
    }
}

// Goes on with the talk of this key where there is something to do, and ends it where its reply has come, where it has
// failed and, at a check, where its time is over, even if a part of its reply has just come. Whether it has ended.
fn advance<M: Answering<Event = TypedEvent, Out = TypedActions>, L: Ledger, R: Net + Wait + Clock>(
    rt: &R,
    context: &Context<'_, M, L>,
    worker: &mut Worker<M, L>,
    asking: &mut Asking,
    key: usize,
    check: bool,
    buffer: &mut [u8],
) -> bool {
    let Some(talk) = asking.talks.get_mut(key) else {
        return false;
    };
    let number = talk.number;
    let Some(end) = end_of(rt, context.common, talk, check, buffer) else {
        return false;
    };
    asking.talks.try_remove(key);
    match end {
        Ok(frame) => {
            let event = stream_reply_event(context.common.moment(rt), number, Some(frame));
            context.put(rt, worker, event);
        }
        Err(outcome) => fail(rt, context, worker, number, outcome),
    }
    true
}

// How a talk ends, where it does.
fn end_of<R: Wait + Clock>(
    rt: &R,
    common: &Common<'_>,
    talk: &mut Talk,
    check: bool,
    buffer: &mut [u8],
) -> Option<Result<Vec<u8>, Outcome>>
    ensures { IfSome result (λ end. IfOk end (λ v. length v.items < 2 ^ 16)) }
{
    if talk.due
        && let Some(end) = talk.advance(common.alloc, buffer)
    {
        return Some(end);
    }
    if check && common.moment(rt).saturating_sub(talk.moment) >= TCP_WAIT_MS {
        return Some(Err(failed(AskFault::Silent)));
    }
    None
}
