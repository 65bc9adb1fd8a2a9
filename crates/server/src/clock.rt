//! The loop that lets time pass, so that queries which are due are served.
use crate::context::{Common, Context};
use crate::ends::Ends;
use crate::log::Log;
use crate::outbox::{StreamReply, hand_back};
use crate::worker::Worker;
use book::Answering;
use counters::Outcome;
use events::Event;
use std::sync::Wait;
use std::sync::ledger::Ledger;
use std::thread;
use std::time::{Clock, Duration};
use typed::{TypedActions, TypedEvent};

// How long a loop rests that has nothing to do, in milliseconds.
const REST_MS: u64 = 50;

// How often a service manager is told that steps come back, in milliseconds.
const WATCHDOG_MS: u64 = 1_000;

/// Lets time pass until the flag is up: every 50 ms, and again at once while another query is due.
pub(crate) fn pass_time<
    M: Answering<Event = TypedEvent, Out = TypedActions>,
    L: Ledger,
    R: Wait + Clock,
>(rt: &R, context: &Context<'_, M, L>, worker: &mut Worker<M, L>) {
    let common = context.common;
    let mut log = Log::of(common.ends);
    let mut told = 0;
    for _ in rt.forever() {
        if common.is_over() {
            return;
        }
        let moment = common.moment(rt);
        drop_late(rt, common, moment);
        let more_due = context.put(rt, worker, Event::Tick { moment }).more_due;
        told = tell(common.ends, told, moment);
        log.look(rt, common, moment);
        if !more_due {
            rest(rt);
        }
    }
}

// Lets time pass in admission. A stream of which a question was dropped there is to end.
fn drop_late<R: Wait>(rt: &R, common: &Common<'_>, moment: u64) {
    let (late, streams) = common.admission.pass_time(rt, moment);
    if late > 0 {
        common.ends.count(Outcome::Dropped(late));
    }
    for client in streams {
        let reply = StreamReply {
            client,
            bytes: None,
        };
        hand_back(rt, common.ends, common.to_streams, reply);
    }
}

// Tells a service manager that steps come back, once a while; when it was told last.
fn tell(ends: &Ends, told: u64, moment: u64) -> u64 {
    if moment.saturating_sub(told) < WATCHDOG_MS {
        return told;
    }
    ends.tell("WATCHDOG=1");
    moment
}

/// Lets 50 ms pass.
pub(crate) fn rest<R: Clock>(rt: &R) {
    let _ = thread::sleep(rt, Duration::from_millis(REST_MS));
}
