//! The loop that takes other servers' datagrams.
use crate::context::{Common, Context};
use crate::ends::{Ends, MOST_BYTES, SLICE_MS};
use crate::worker::Worker;
use book::Answering;
use counters::{AskFault, Outcome, SocketFault, Way};
use dispatch::datagram_event;
use mio::Events;
use std::sync::Wait;
use std::sync::ledger::Ledger;
use std::time::Clock;
use typed::{TypedActions, TypedEvent};

// How many sockets are told of at once.
const EVENTS: usize = 256;

// How much is counted of what the asks in datagrams note themselves.
#[derive(Clone, Copy)]
struct Counted {
    strange: u64,
    crowded: u64,
    unread: u64,
}

// Counts what came of asks since it was counted last, and those that had no reply in time.
fn count_asks(ends: &Ends, counted: &mut Counted, silent: u64) {
    let asks = &ends.asks;
    let now = Counted {
        strange: asks.strange_datagrams(),
        crowded: asks.crowded_asks(),
        unread: asks.unread_datagrams(),
    };
    for (outcome, times) in [
        (
            Outcome::Foreign,
            now.strange.saturating_sub(counted.strange),
        ),
        (
            Outcome::AskFailed(Way::Udp, AskFault::Crowded),
            now.crowded.saturating_sub(counted.crowded),
        ),
        (
            Outcome::SocketFailed(SocketFault::Receive),
            now.unread.saturating_sub(counted.unread),
        ),
        (Outcome::AskFailed(Way::Udp, AskFault::Silent), silent),
    ] {
        for _ in 0..times {
            ends.count(outcome);
        }
    }
    *counted = now;
}

/// Takes what repeats the asks that are open, each at its own socket, until the flag is up.
pub(crate) fn take_answers<
    M: Answering<Event = TypedEvent, Out = TypedActions>,
    L: Ledger,
    R: Wait + Clock,
>(rt: &R, context: &Context<'_, M, L>, worker: &mut Worker<M, L>) {
    let asks = &context.common.ends.asks;
    let Ok(mut events) = Events::with_capacity(context.common.alloc, EVENTS) else {
        context.common.give_up();
        return;
    };
    let mut poll = asks.poller.poll.lock(rt);
    let mut buffer = [0u8; MOST_BYTES];
    let mut swept = 0;
    let mut counted = Counted {
        strange: 0,
        crowded: 0,
        unread: 0,
    };
    for _ in rt.forever() {
        if context.common.is_over() {
            break;
        }
        context
            .common
            .wait(&asks.poller, &mut poll, &mut events, SLICE_MS);
        for event in events.iter() {
            take_answer(rt, context, worker, event.token().0, &mut buffer);
        }
        swept = sweep(rt, context.common, swept, &mut counted);
    }
}

// Closes the asks whose time is over, and counts what came of asks, once a while; when that was done last.
fn sweep<R: Wait + Clock>(rt: &R, common: &Common<'_>, swept: u64, counted: &mut Counted) -> u64 {
    let now = common.moment(rt);
    if now.saturating_sub(swept) < SLICE_MS {
        return swept;
    }
    let silent = common.ends.asks.close_old(rt, now);
    count_asks(common.ends, counted, silent);
    now
}

// Takes what came for the ask of this key, where it repeats it.
fn take_answer<M: Answering<Event = TypedEvent, Out = TypedActions>, L: Ledger, R: Wait + Clock>(
    rt: &R,
    context: &Context<'_, M, L>,
    worker: &mut Worker<M, L>,
    key: usize,
    buffer: &mut [u8; MOST_BYTES],
) {
    if let Some((count, ask)) = context.common.ends.asks.take(rt, key, buffer) {
        let (number, to) = (ask.number, ask.to);
        drop(ask);
        let event = datagram_event(
            context.common.alloc,
            context.common.moment(rt),
            number,
            to,
            &buffer[..count],
        );
        match event {
            Ok(event) => {
                context.put(rt, worker, event);
            }
            Err(_) => context.common.ends.count(Outcome::MemoryRefused),
        }
    }
}
