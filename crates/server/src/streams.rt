//! The loop that takes clients' TCP streams.
use crate::client_stream::ClientStream;
use crate::context::{Common, Context};
use crate::ends::{LISTENER, SLICE_MS};
use crate::framed_stream::MOST_FRAME_BYTES;
use crate::outbox::StreamReply;
use crate::places::Places;
use crate::worker::Worker;
use book::Answering;
use mio::{Events, Poll};
use std::sync::Wait;
use std::sync::ledger::Ledger;
use std::time::Clock;
use typed::{TypedActions, TypedEvent};

// How many sockets are told of at once.
const EVENTS: usize = 300;

// How often it is looked whose time is over, in milliseconds, while streams are open.
const CHECK_MS: u64 = 100;

// How often a stream is tried that waits for a place, or could not be taken, in milliseconds.
const RETRY_MS: u64 = 20;

// How many replies are taken in a row.
const REPLIES_IN_A_ROW: u32 = 1_024;

/// Takes the streams of clients, and answers their frames, each as its reply comes, until the flag is up.
pub(crate) fn take_streams<
    M: Answering<Event = TypedEvent, Out = TypedActions>,
    L: Ledger,
    R: Wait + Clock,
>(rt: &R, context: &Context<'_, M, L>, worker: &mut Worker<M, L>) {
    let streams = &context.common.ends.streams;
    let Ok(mut events) = Events::with_capacity(context.common.alloc, EVENTS) else {
        context.common.give_up();
        return;
    };
    let mut poll = streams.poll.lock(rt);
    let mut places = Places::new(context.common.alloc, context.common.bounds.streams);
    let mut buffer = [0u8; MOST_FRAME_BYTES];
    let mut waits = false;
    for _ in rt.forever() {
        if context.common.is_over() {
            break;
        }
        waits = await_streams(context.common, &mut poll, &mut events, &mut places, waits);
        waits = serve_places(rt, context, worker, &mut places, waits, &mut buffer);
    }
}

// Waits until there is something to do, and notes at which streams; whether a stream waits for a place.
fn await_streams(
    common: &Common<'_>,
    poll: &mut Poll,
    events: &mut Events,
    places: &mut Places,
    waited: bool,
) -> bool {
    let streams = &common.ends.streams;
    streams.expect_notice();
    let millis = if common.replies.is_empty() {
        wait_of(places, waited)
    } else {
        0
    };
    common.wait(streams, poll, events, millis);
    let mut waits = waited;
    for event in events.iter() {
        match event.token().0 {
            LISTENER => waits = true,
            key => stir(places, key),
        }
    }
    waits
}

// Hands out the replies, takes the questions, ends what is over, and gives places to those that wait, where some do;
// whether one still waits.
fn serve_places<M: Answering<Event = TypedEvent, Out = TypedActions>, L: Ledger, R: Wait + Clock>(
    rt: &R,
    context: &Context<'_, M, L>,
    worker: &mut Worker<M, L>,
    places: &mut Places,
    waits: bool,
    buffer: &mut [u8],
) -> bool {
    hand_out(rt, context.common, places);
    for key in 0..places.keys() {
        take_questions(rt, context, worker, places, key, buffer);
    }
    let now = context.common.moment(rt);
    places.end_over(context.common.ends, now);
    waits && places.welcome(context.common.ends, now)
}

// How long is waited, in milliseconds.
fn wait_of(places: &Places, waits: bool) -> u64 {
    if waits {
        RETRY_MS
    } else if places.is_empty() {
        SLICE_MS
    } else {
        CHECK_MS
    }
}

// The stream at this key has something to do.
fn stir(places: &mut Places, key: usize) {
    if let Some(client) = places.get_mut(key) {
        client.stir();
    }
}

// Puts the replies that have come on their streams.
fn hand_out<R: Wait + Clock>(rt: &R, common: &Common<'_>, places: &mut Places) {
    let now = common.moment(rt);
    for _ in 0..REPLIES_IN_A_ROW {
        match common.replies.try_recv(rt) {
            Ok(reply) => put_reply(places, now, reply),
            Err(_) => return,
        }
    }
}

// Puts a reply on its stream; where there will be none, that is to end.
fn put_reply(places: &mut Places, now: u64, reply: StreamReply) {
    match &reply.bytes {
        Some(bytes) => places.reply(reply.client, now, bytes.as_slice()),
        None => places.close(reply.client),
    }
}

// Writes and reads the stream at this key where there is something to do, and puts the questions that came. Where it is
// known at once that nothing goes out for one, since it is no query or was dropped in admission, the stream is to end.
fn take_questions<M: Answering<Event = TypedEvent, Out = TypedActions>, L: Ledger, R: Wait + Clock>(
    rt: &R,
    context: &Context<'_, M, L>,
    worker: &mut Worker<M, L>,
    places: &mut Places,
    key: usize,
    buffer: &mut [u8],
) {
    let Some(client) = places.get_mut(key) else {
        return;
    };
    if !client.due {
        return;
    }
    client.exchange(context.common.moment(rt), buffer);
    for _ in rt.forever() {
        if !take_question(rt, context, worker, client, buffer) {
            return;
        }
    }
}

// Puts the next question of a stream; whether one had come.
fn take_question<M: Answering<Event = TypedEvent, Out = TypedActions>, L: Ledger, R: Wait + Clock>(
    rt: &R,
    context: &Context<'_, M, L>,
    worker: &mut Worker<M, L>,
    client: &mut ClientStream,
    buffer: &mut [u8],
) -> bool {
    match client.next_question(context.common.alloc, context.common.moment(rt), buffer) {
        Some(bytes) => {
            if !context.put_frame(rt, worker, client.number, bytes) {
                client.close();
            }
            true
        }
        None => false,
    }
}
