//! What the loops share: the machine, the sockets, admission, the channels between the loops, and the flag.
ghost use Rattle.std.specs.Prelude.{◌≡◌, ◌≤◌, length, IfOk, MatchOption, OnErr};
ghost use Rattle.events.specs.Views.{event_view};
ghost use Rattle.pool.specs.Closings.{IsEventRefused};
ghost use Rattle.pool.specs.declared.fault.PoolError.TheVariants.{Memory};
ghost use Rattle.typed.specs.Events.{ReadAs, RepliesToNone};
ghost use Rattle.server.specs.Steps.{IsPut, IsStepped};

use crate::ends::{Ends, address_of};
use crate::moments::Beginning;
use crate::outbox::{Outbox, StreamAsk, StreamReply};
use crate::poller::Poller;
use crate::query::Query;
use crate::shared_admission::SharedAdmission;
use crate::tally::Arrival;
use crate::worker::Worker;
use admission::WAITING;
use book::{Answering, Machine};
use counters::{Outcome, SocketFault};
use crossbeam_channel::{Receiver, Sender};
use dispatch::{Reach, hand_over, stream_reply_event};
use events::{Action, Actions, Event};
use memory::Starved;
use mio::{Events, Poll};
use pool::{Shared, take_step};
use std::alloc::Global;
use std::sync::Wait;
use std::sync::atomic::{AtomicBool, Ordering};
use std::sync::ledger::Ledger;
use std::time::Clock;
use typed::{TypedActions, TypedEvent, read_event, write_actions};

// More asks than one query makes: a query that comes to nothing but refused asks ends before.
const MAX_REFUSED_HANDOVERS: u32 = 64;

/// What came of an event.
#[derive(Clone, Copy)]
pub(crate) struct StepEffect {
    /// Whether a reply or an ask goes out: of a client's bytes, whether they will have a reply.
    pub speaks: bool,
    /// Whether another query is due.
    pub more_due: bool,
}

// What came of an event that is dropped, or that wants memory.
const NOTHING: StepEffect = StepEffect {
    speaks: false,
    more_due: false,
};

// What came of one step, and the number of an ask over TCP that it gives and that can't be made.
#[derive(Clone, Copy)]
struct Step {
    effect: StepEffect,
    refused: Option<u64>,
}

const NO_STEP: Step = Step {
    effect: NOTHING,
    refused: None,
};

/// What a server's file says of its loops.
#[derive(Clone, Copy, Debug, PartialEq, Eq)]
pub struct Bounds {
    /// How many streams of clients are open at once, 1 to 256.
    pub streams: u16,
    /// Sixteen asks over TCP are under way for each of these, 1 to 16.
    pub workers: u16,
    /// At which addresses servers are asked.
    pub reach: Reach,
    /// How many questions one address may have under way, 1 to 1,024.
    pub clients: u16,
    /// How many loops take clients' datagrams, 1 to 16.
    pub loops: u16,
    /// Behind this the questions of clients are hashed.
    pub seed: [u8; 32],
}

/// What the loops share beside the machine.
#[derive(Drop)]
pub(crate) struct Common<'a> {
    pub alloc: Global,
    pub ends: &'a Ends,
    pub bounds: Bounds,
    pub admission: &'a SharedAdmission,
    pub to_servers: &'a Sender<StreamAsk>,
    pub asks: &'a Receiver<StreamAsk>,
    pub to_streams: &'a Sender<StreamReply>,
    pub replies: &'a Receiver<StreamReply>,
    pub stop: &'a AtomicBool,
    /// Whether a loop could not begin for want of memory.
    pub gave_up: &'a AtomicBool,
    pub beginning: Beginning,
}

/// What the loops share.
#[derive(Drop)]
pub(crate) struct Context<'a, M: Machine, L: Ledger> {
    pub shared: &'a Shared<M, L>,
    pub common: &'a Common<'a>,
}

impl Common<'_> {
    /// Whether the flag is up.
    pub fn is_over(&self) -> bool {
        self.stop.load(Ordering::SeqCst)
    }

    /// A loop can't begin for want of memory: all loops end, and the server is refused with `Memory`.
    pub fn give_up(&self) {
        self.ends.count(Outcome::MemoryRefused);
        self.gave_up.store(true, Ordering::SeqCst);
        self.stop.store(true, Ordering::SeqCst);
    }

    /// Milliseconds since the server began.
    pub fn moment<R: Clock>(&self, rt: &R) -> u64 {
        self.beginning.moment(rt)
    }

    /// Waits for a socket or a notice, for so many milliseconds at most, and counts a fault.
    pub fn wait(&self, poller: &Poller, poll: &mut Poll, events: &mut Events, millis: u64) {
        if !poller.wait(poll, events, millis) {
            self.ends.count(Outcome::SocketFailed(SocketFault::Poll));
        }
    }

    /// Counts a query, where queries are counted.
    pub fn count_query(&self, query: &Query) {
        if let Some(tally) = &self.ends.tally {
            tally.count_query(query);
        }
    }

    // Counts what a step gave that came with no question, tells admission of it, and hands it over; what came of it.
    fn hand_out<R: Wait + Clock>(&self, rt: &R, moment: u64, actions: &Actions) -> Step {
        self.count_step(rt, None, actions);
        let Some(action) = &actions.first else {
            return Step {
                effect: StepEffect {
                    speaks: false,
                    more_due: actions.more_due,
                },
                refused: None,
            };
        };
        self.tell_admission(rt, moment, action);
        match self.send_out(rt, moment, action) {
            Some(number) => Step {
                effect: NOTHING,
                refused: Some(number),
            },
            None => Step {
                effect: StepEffect {
                    speaks: true,
                    more_due: actions.more_due,
                },
                refused: None,
            },
        }
    }

    /// The query that came at that moment, where queries are counted.
    pub fn arrival(&self, query: &Query, since: u64) -> Option<Arrival> {
        if self.ends.tally.is_some() {
            Some(Arrival::of(query, since))
        } else {
            None
        }
    }

    /// Counts what came of a step, where it is counted: of the query that came with it, or another one.
    pub fn count_step<R: Wait + Clock>(&self, rt: &R, came: Option<Arrival>, actions: &Actions) {
        if let Some(tally) = &self.ends.tally
            && let Some(action) = &actions.first
        {
            tally.count_step(rt, came, self.moment(rt), action);
        }
    }

    // Tells admission what came of a step that came with no question, before that is handed over. Those who wait for a
    // question that failed get the failure too (RFC 9520, section 3.2).
    fn tell_admission<R: Wait + Clock>(&self, rt: &R, moment: u64, action: &Action) {
        self.fail_others(rt, moment, action);
        self.admission.other_stepped(rt, action);
    }

    // Where a query failed, those held for the same question get that failure.
    fn fail_others<R: Wait + Clock>(&self, rt: &R, moment: u64, failed: &Action) {
        for _ in 0..WAITING {
            if !self.fail_next(rt, moment, failed) {
                return;
            }
        }
    }

    // Counts and sends that failure for the next of them; whether there is one.
    fn fail_next<R: Wait + Clock>(&self, rt: &R, moment: u64, failed: &Action) -> bool {
        match self.admission.next_failed(rt, failed) {
            Some((since, Some(reply))) => {
                if let Some(tally) = &self.ends.tally {
                    tally.count_copy(&reply, since, self.moment(rt));
                }
                self.send_out(rt, moment, &reply);
                drop(reply);
                true
            }
            Some((_, None)) => {
                self.ends.count(Outcome::MemoryRefused);
                true
            }
            None => false,
        }
    }

    /// Hands an action over at its event's moment, to where it goes; the number of an ask over TCP that can't be made.
    pub fn send_out<R: Wait + Clock>(&self, rt: &R, moment: u64, action: &Action) -> Option<u64> {
        let mut outbox = Outbox {
            rt,
            ends: self.ends,
            reach: self.bounds.reach,
            to_streams: self.to_streams,
            to_servers: self.to_servers,
            moment,
        };
        hand_over(&mut outbox, action)
    }
}

impl<M: Answering<Event = TypedEvent, Out = TypedActions>, L: Ledger> Context<'_, M, L> {
    /// Puts an event that is no client's, and hands over what goes out; what came of it. Then who waited is admitted.
    pub fn put<R: Wait + Clock>(
        &self,
        rt: &R,
        worker: &mut Worker<M, L>,
        event: Event,
    ) -> StepEffect {
        let effect = self.step(rt, worker, event);
        self.admit_waiting(rt, worker);
        effect
    }

    /// The same, where nobody is admitted. An ask over TCP that can't be made has failed, which is an event again.
    pub fn step<R: Wait + Clock>(
        &self,
        rt: &R,
        worker: &mut Worker<M, L>,
        event: Event,
    ) -> StepEffect {
        let mut step = self.step_once(rt, worker, event);
        for _ in 1..MAX_REFUSED_HANDOVERS {
            let Some(number) = step.refused else {
                break;
            };
            let event = stream_reply_event(self.common.moment(rt), number, None);
            step = self.step_once(rt, worker, event);
        }
        step.effect
    }

    // The same, where an ask that can't be made is no event yet.
    fn step_once<R: Wait + Clock>(&self, rt: &R, worker: &mut Worker<M, L>, event: Event) -> Step {
        let moment = event.moment();
        match self.read_and_step(rt, worker, event) {
            Ok(Some(actions)) => {
                let step = self.common.hand_out(rt, moment, &actions);
                drop(actions);
                step
            }
            Ok(None) => NO_STEP,
            Err(_) => {
                self.common.ends.count(Outcome::MemoryRefused);
                NO_STEP
            }
        }
    }

    // Reads an event, takes the machine's step, and writes what it gives: the machine is locked for the step alone.
    // Refused out of memory. None for a datagram that replies to no question.
    fn read_and_step<R: Wait>(
        &self,
        rt: &R,
        worker: &mut Worker<M, L>,
        event: Event,
    ) -> Result<Option<Actions>, Starved>
        ensures { IfOk result (λ o. MatchOption o (RepliesToNone (event_view event)) (λ actions. IsPut M.moves M.begins worker.old.ticket (event_view event) actions worker.new.ticket)) }
    {
        let Some(parsed) = read_event(self.common.alloc, &event)? else {
            return Ok(None);
        };
        let actions = self.step_and_write(rt, worker, &parsed);
        drop(parsed);
        Ok(Some(actions?))
    }

    // Takes the machine's step, and writes what it gives. Out of memory, the step may have been taken: the ticket shows
    // whether it was.
    fn step_and_write<R: Wait>(
        &self,
        rt: &R,
        worker: &mut Worker<M, L>,
        parsed: &TypedEvent,
    ) -> Result<Actions, Starved>
        ensures ok { IfOk result (λ actions. IsStepped M.moves M.begins worker.old.ticket parsed.now actions worker.new.ticket) }
        ensures err { OnErr result (IsEventRefused worker.old.ticket worker.new.ticket Memory) }
    {
        match take_step(rt, self.shared, &mut worker.ticket, parsed) {
            Ok(given) => {
                let actions = write_actions(self.common.alloc, &mut worker.writer, &given);
                drop(given);
                actions
            }
            Err(_) => Err(Starved),
        }
    }
}
