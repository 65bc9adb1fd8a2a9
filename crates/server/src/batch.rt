//! Clients' messages put: those that came together step under one lock. Those whose answer is at hand are answered
//! first, under the machine's lock alone; only the others ask for admission.
ghost use Rattle.std.specs.Prelude.{◌≤◌, length};

use crate::context::Context;
use crate::passage::{Passage, Standing};
use crate::query::{Asker, Query};
use crate::shared_admission::Question;
use crate::worker::{MOST_AT_ONCE, Worker};
use admission::Held;
use book::Answering;
use counters::Outcome;
use dispatch::{client_of, stream_reply_event};
use events::{Actions, Bytes, Endpoint};
use std::mem::replace;
use std::sync::Wait;
use std::sync::ledger::Ledger;
use std::time::Clock;
use typed::{TypedActions, TypedEvent};
use wire::Via;

// How many batches of questions are admitted in a row; the others are at the next event, or the next tick.
const MOST_BATCHES: u32 = 32;

impl<M: Answering<Event = TypedEvent, Out = TypedActions>, L: Ledger> Context<'_, M, L> {
    /// A client's datagram that came at this moment joins the batch.
    pub fn take_datagram(
        &self,
        worker: &mut Worker<M, L>,
        moment: u64,
        from: Endpoint,
        bytes: &[u8],
    )
        requires { length bytes.now ≤ 65535 }
    {
        let asker = Asker {
            client: client_of(from),
            way: Via::Udp,
        };
        match worker.in_room(bytes) {
            Ok(bytes) => {
                self.take(worker, moment, asker, bytes);
            }
            Err(_) => self.common.ends.count(Outcome::MemoryRefused),
        }
    }

    /// Puts a frame of the stream of this number; whether it will have a reply, or may have one.
    pub fn put_frame<R: Wait + Clock>(
        &self,
        rt: &R,
        worker: &mut Worker<M, L>,
        number: u64,
        bytes: Vec<u8>,
    ) -> bool
        requires { length bytes.items ≤ 65535 }
    {
        let asker = Asker {
            client: number,
            way: Via::Tcp,
        };
        self.take(worker, self.common.moment(rt), asker, bytes) && self.put_batch(rt, worker)
    }

    // What a client sent joins the batch at this moment; whether it could. A question that equals others which are under
    // way will wait in admission, whether they came in datagrams or on streams, and however they write the name.
    fn take(&self, worker: &mut Worker<M, L>, moment: u64, asker: Asker, bytes: Vec<u8>) -> bool
        requires { length bytes.items ≤ 65535 }
    {
        let query = Query {
            asker,
            bytes: Bytes::new(bytes),
        };
        self.common.count_query(&query);
        self.join(worker, moment, query, None, moment)
    }

    // A message that came then is read, and joins the batch at this moment; whether it could. It may have to ask for
    // admission, unless that question was admitted before.
    fn join(
        &self,
        worker: &mut Worker<M, L>,
        moment: u64,
        query: Query,
        admitted: Option<Question>,
        since: u64,
    ) -> bool {
        let came = self.common.arrival(&query, since);
        let joined = match Passage::read(self.common.alloc, moment, query, admitted, came) {
            Ok(passage) => worker.batch.push(passage).is_ok(),
            Err(_) => false,
        };
        if !joined {
            self.common.ends.count(Outcome::MemoryRefused);
        }
        joined
    }

    /// Puts the batch, and hands over what goes out; whether each message in it will have a reply, or may have one.
    /// Then who waited is admitted.
    pub fn put_batch<R: Wait + Clock>(&self, rt: &R, worker: &mut Worker<M, L>) -> bool {
        let answers = self.pass(rt, worker);
        self.admit_waiting(rt, worker);
        answers
    }

    /// Puts the questions that are called in, some of them.
    pub fn admit_waiting<R: Wait + Clock>(&self, rt: &R, worker: &mut Worker<M, L>) {
        for _ in 0..MOST_BATCHES {
            self.call_in(rt, worker);
            if worker.batch.is_empty() {
                return;
            }
            self.pass(rt, worker);
        }
    }

    // The next questions that are called in join the batch.
    fn call_in<R: Wait + Clock>(&self, rt: &R, worker: &mut Worker<M, L>) {
        for _ in 0..MOST_AT_ONCE {
            match self.common.admission.next(rt) {
                Some(held) => self.rejoin(rt, worker, held),
                None => return,
            }
        }
    }

    // A question that was held joins the batch; where it can't, it leaves admission.
    fn rejoin<R: Wait + Clock>(&self, rt: &R, worker: &mut Worker<M, L>, held: Held<Query>) {
        let Held {
            key,
            client,
            domain,
            since,
            payload,
        } = held;
        // It was admitted, so that nobody asks any more whether its domain was answered.
        let question = Question {
            key,
            client,
            domain,
            was_answered: false,
        };
        let moment = self.common.moment(rt);
        if !self.join(worker, moment, payload, Some(question), since) {
            self.common.admission.settle(rt, question);
        }
    }

    // Takes the batch through the machine; whether each message in it will have a reply, or may have one.
    fn pass<R: Wait + Clock>(&self, rt: &R, worker: &mut Worker<M, L>) -> bool {
        let mut batch = replace(&mut worker.batch, Vec::new(self.common.alloc));
        self.step_all(rt, worker, &mut batch);
        let mut answers = true;
        for passage in batch.iter() {
            answers = self.hand_over(rt, worker, passage) && answers;
        }
        for passage in batch.iter_mut() {
            if let Some(query) = passage.take_query() {
                worker.keep_room(query);
            }
        }
        batch.clear();
        worker.batch = batch;
        answers
    }

    // Takes the steps of the batch. Most answers are at hand: these need neither admission nor its hashes. What the
    // others ask is hashed while no lock is held.
    fn step_all<R: Wait>(&self, rt: &R, worker: &mut Worker<M, L>, batch: &mut [Passage<M>]) {
        if self.answer_all(rt, worker, batch) {
            return;
        }
        for passage in batch.iter_mut() {
            passage.ask(self.common.admission);
        }
        self.enter_all(rt, worker, batch);
    }

    // Answers those whose answer is at hand, under the machine's lock alone; whether all of them are answered. Where each
    // was admitted before, which is so of those that are called in, the lock is not taken.
    fn answer_all<R: Wait>(
        &self,
        rt: &R,
        worker: &mut Worker<M, L>,
        batch: &mut [Passage<M>],
    ) -> bool {
        if !batch
            .iter()
            .any(|passage| matches!(passage.standing, Standing::Comes))
        {
            return false;
        }
        let mut book = self.shared.lock(rt);
        let mut all = true;
        for passage in batch.iter_mut() {
            all = passage.answer(&mut book, &mut worker.ticket) && all;
        }
        drop(book);
        all
    }

    // Takes the steps of those that are admitted, or whose answer the machine holds, under both locks, and tells
    // admission what each gave, before that is handed over: else a reply might come before its question is noted.
    fn enter_all<R: Wait>(&self, rt: &R, worker: &mut Worker<M, L>, batch: &mut [Passage<M>]) {
        let mut admission = self.common.admission.lock(rt);
        let mut book = self.shared.lock(rt);
        for passage in batch.iter_mut() {
            if passage.enter(&mut admission, &book) {
                let _ = passage.step(&mut book, &mut worker.ticket);
                passage.settle(&mut admission);
            }
        }
        drop(book);
        self.common.admission.note_called(&admission);
        drop(admission);
    }

    // Hands over what came of a message; whether it will have a reply, or may have one.
    fn hand_over<R: Wait + Clock>(
        &self,
        rt: &R,
        worker: &mut Worker<M, L>,
        passage: &Passage<M>,
    ) -> bool {
        match passage.standing {
            Standing::Held => {
                self.common.ends.count(Outcome::Held);
                true
            }
            Standing::Dropped => {
                self.common.ends.count(Outcome::Dropped(1));
                false
            }
            Standing::Unseen => {
                self.common.ends.count(Outcome::MemoryRefused);
                false
            }
            _ => self.write_out(rt, worker, passage),
        }
    }

    // Writes what a message's step gave, and hands it over; whether something goes out. Of a step that wants memory
    // nothing is noted, whether it was taken or not.
    fn write_out<R: Wait + Clock>(
        &self,
        rt: &R,
        worker: &mut Worker<M, L>,
        passage: &Passage<M>,
    ) -> bool {
        match passage.write(self.common.alloc, &mut worker.writer) {
            Ok(Some(actions)) => {
                let speaks = self.send(rt, worker, passage, &actions);
                worker.keep_sent(actions);
                speaks
            }
            Ok(None) | Err(_) => {
                self.common.ends.count(Outcome::MemoryRefused);
                false
            }
        }
    }

    // Counts and sends what a message's step gave; whether something goes out. An ask over TCP that can't be made has
    // failed, which is an event.
    fn send<R: Wait + Clock>(
        &self,
        rt: &R,
        worker: &mut Worker<M, L>,
        passage: &Passage<M>,
        actions: &Actions,
    ) -> bool {
        self.common.count_step(rt, passage.came, actions);
        let Some(action) = &actions.first else {
            return false;
        };
        match self.common.send_out(rt, passage.moment(), action) {
            Some(number) => {
                let event = stream_reply_event(self.common.moment(rt), number, None);
                self.step(rt, worker, event).speaks
            }
            None => true,
        }
    }
}
