//! Admission of clients' questions to the resolver: of equal ones few are under way at a time, the others wait.
ghost use Rattle.std.specs.Prelude.{◌≡◌, ◌≤◌, ◌++◌, IfSome, length, map, take, drop};
ghost use Rattle.std.specs.Char.{to_ascii_lowercase};
ghost use Rattle.events.specs.Views.{action_view};
ghost use Rattle.typed.specs.Views.{parsed_view};
ghost use Rattle.server.specs.Askers.{admission_client};
ghost use Rattle.server.specs.Keys.{key_of, query_key, domain_key, IsKeyIn};
ghost use Rattle.server.specs.Entries.{IsFailureFor, IsStanding, failure_copy};

use crate::answered::AnsweredDomains;
use crate::domain::domain_of;
use crate::passage::Standing;
use crate::query::{Asker, Query, asker_of};
use admission::{Admission, Held, Limits, PLACES};
use dispatch::{bytes_of, failure_for, is_failure, question_end};
use dname::{LONGEST_NAME, Name};
use events::{Action, Bytes};
use front::Request;
use std::alloc::Global;
use std::hash::{DefaultHasher, Hasher};
use std::sync::atomic::{AtomicBool, Ordering};
use std::sync::{Mutex, MutexGuard, Wait};
use typed::Parsed;
use wire::Via;

// Bytes of a header, and of a type and a class.
const HEADER: usize = 12;

const TYPE_AND_CLASS: usize = 4;

// The class IN, as it stands in a message (RFC 1035, section 3.2.4).
const IN: [u8; 2] = [0, 1];

/// A question in admission: a hash of what is asked, the number under which its client is counted there, a hash of the
/// domain in which the name lies, and whether a name of that was answered.
#[derive(Clone, Copy)]
pub(crate) struct Question {
    pub key: u64,
    pub client: u64,
    pub domain: u64,
    pub was_answered: bool,
}

// The failure of a query, with these bytes, as the reply to an equal one.
fn copied_failure(failed: &Action, asker: Asker, bytes: Bytes) -> Action
    ensures { action_view result ≡ failure_copy failed.now asker bytes }
{
    let cause = match failed {
        Action::Reply { cause, .. } => *cause,
        Action::Send { .. } | Action::TcpAsk { .. } => None,
    };
    Action::Reply {
        client: asker.client,
        way: asker.way,
        bytes,
        cause,
    }
}

// A failure under the ID of a query. None where that has no ID, or no memory is left.
fn under_id(alloc: Global, failure: &[u8], query: &[u8]) -> Option<Vec<u8>>
    requires { 12 ≤ length failure.now }
    ensures bytes { IfSome result (λ v. v.items ≡ take 2 query.now ++ drop 2 failure.now) }
    ensures long { IfSome result (λ v. length v.items ≡ length failure.now) }
{
    let id = query.get(..2)?;
    let mut bytes = Vec::with_capacity(alloc, failure.len()).ok()?;
    bytes.extend_from_slice(id).ok()?;
    bytes.extend_from_slice(&failure[2..]).ok()?;
    Some(bytes)
}

/// The admission that the loops share, and the hash of what is asked.
#[derive(Drop)]
pub(crate) struct SharedAdmission {
    alloc: Global,
    admission: Mutex<Admission<Query>>,
    // Hashes begin as this one, behind a seed.
    start: DefaultHasher,
    // Whether someone may have been called in.
    called: AtomicBool,
    answered: AnsweredDomains,
}

impl SharedAdmission {
    /// With nobody in it. One address has so many questions under way and waiting at most.
    pub fn new(alloc: Global, seed: &[u8], each: u16) -> Option<SharedAdmission> {
        let admission = Admission::new(alloc, Limits::of_address(usize::from(each))).ok()?;
        let mut start = DefaultHasher::new();
        start.write(seed);
        Some(SharedAdmission {
            alloc,
            admission: Mutex::new(admission),
            start,
            called: AtomicBool::new(false),
            answered: AnsweredDomains::new(alloc).ok()?,
        })
    }

    // A hash of a question: of its name in lower case, of its type and class as they stand in a message, and of RD.
    fn key_of(&self, name: &[u8], type_and_class: [u8; TYPE_AND_CLASS], recursion: u8) -> u64
        ensures { result ≡ key_of self.now.start name.now type_and_class recursion }
    {
        let [high, low, class_high, class_low] = type_and_class;
        let mut hasher = self.start;
        hasher.write(name);
        hasher.write(&[high, low, class_high, class_low, recursion]);
        hasher.finish()
    }

    // The same of a name in any letters. None where it is too long for a name.
    fn key_of_letters(
        &self,
        letters: &[u8],
        type_and_class: [u8; TYPE_AND_CLASS],
        recursion: u8,
    ) -> Option<u64>
        ensures { IfSome result (λ key. key ≡ key_of self.now.start (map to_ascii_lowercase letters.now) type_and_class recursion) }
    {
        let mut room = [0u8; LONGEST_NAME];
        let name = room.get_mut(..letters.len())?;
        name.copy_from_slice(letters);
        name.make_ascii_lowercase();
        Some(self.key_of(&*name, type_and_class, recursion))
    }

    // The same of the question of a message, whose name is not compressed. None where it has no such question.
    fn key_in(&self, message: &[u8]) -> Option<u64>
        ensures room { IfSome result (λ key. 17 ≤ length message.now) }
        ensures key { IfSome result (IsKeyIn self.now.start message.now) }
    {
        let end = question_end(message)?;
        let mut type_and_class = [0u8; TYPE_AND_CLASS];
        type_and_class.copy_from_slice(&message[end - TYPE_AND_CLASS..end]);
        let letters = &message[HEADER..end - TYPE_AND_CLASS];
        self.key_of_letters(letters, type_and_class, message[2] & 1)
    }

    // What a query asks that this client sent. However its bytes write the name, equal questions have one key, that of
    // their replies.
    fn question(&self, asker: Asker, query: &front::Query) -> Question
        ensures key { result.key ≡ query_key self.now.start query.now }
        ensures client { result.client ≡ admission_client asker.way asker.client }
        ensures domain { result.domain ≡ domain_key self.now.start query.now.name }
    {
        let [high, low] = query.kind.number().to_be_bytes();
        let key = self.key_of(
            query.name.wire(),
            [high, low, IN[0], IN[1]],
            u8::from(query.start.wants_recursion()),
        );
        let domain = self.domain_key(&query.name);
        Question {
            key,
            client: asker.admission_client(),
            domain,
            was_answered: self.answered.has(domain),
        }
    }

    // A hash of the domain in which a name lies.
    fn domain_key(&self, name: &Name) -> u64
        ensures { result ≡ domain_key self.now.start name.now }
    {
        let mut hasher = self.start;
        hasher.write(domain_of(name).wire());
        hasher.finish()
    }

    /// How a message that was read stands in admission: each query asks for it, and nothing else does.
    pub fn standing_of(&self, read: &Parsed) -> Standing
        ensures { IsStanding self.now.start (parsed_view read.now) result }
    {
        match read {
            Parsed::Client {
                client,
                way,
                request: Request::Query(query),
                ..
            } => {
                let asker = Asker {
                    client: *client,
                    way: *way,
                };
                Standing::Asks(self.question(asker, query))
            }
            _ => Standing::Free,
        }
    }

    /// Admission for several questions in a row, held until the guard is dropped. Then `note_called` is due before.
    pub fn lock<R: Wait>(&self, rt: &R) -> MutexGuard<'_, Admission<Query>> {
        self.admission.lock(rt)
    }

    /// The step of a question was lost.
    pub fn settle<R: Wait>(&self, rt: &R, question: Question) {
        let Question { key, client, .. } = question;
        let mut admission = self.admission.lock(rt);
        admission.settled(key, client);
        self.note_called(&admission);
    }

    /// Another step gave this. Where it is a reply to a client, its question is no longer open, and what came of its
    /// domain is known.
    pub fn other_stepped<R: Wait>(&self, rt: &R, action: &Action) {
        let reply = bytes_of(action).as_slice();
        if let Some(asker) = asker_of(action)
            && let Some(key) = self.key_in(reply)
            && let Some(domain) = self.close(rt, key, asker)
        {
            self.answered.learn(domain, reply);
        }
    }

    // The question with this key of that client is no longer open; its domain, if it was.
    fn close<R: Wait>(&self, rt: &R, key: u64, asker: Asker) -> Option<u64> {
        let mut admission = self.admission.lock(rt);
        let domain = admission.closed(key, asker.admission_client());
        self.note_called(&admission);
        domain
    }

    /// Puts the flag up where someone is called in, while admission is held: most answers call in nobody, and then no
    /// loop asks for whom.
    pub fn note_called(&self, admission: &Admission<Query>) {
        if 0 < admission.ready() {
            self.called.store(true, Ordering::SeqCst);
        }
    }

    /// The reply to a question that waits for what failed now, and since when that waited; no reply where no memory is
    /// left for it. None where no such question waits.
    pub fn next_failed<R: Wait>(&self, rt: &R, failed: &Action) -> Option<(u64, Option<Action>)> {
        asker_of(failed)?;
        let failure = bytes_of(failed).as_slice();
        if !is_failure(failure) {
            return None;
        }
        let key = self.key_in(failure)?;
        let held = self.admission.lock(rt).fail(key)?;
        let reply = self.failure_of(failure, &held.payload.bytes);
        let (since, asker) = (held.since, held.payload.asker);
        drop(held);
        let copy = match reply {
            Some(bytes) => Some(copied_failure(failed, asker, bytes)),
            None => None,
        };
        Some((since, copy))
    }

    // The bytes of a failure as the reply to this query, with its question as it is spelt there; where its name is
    // compressed there, as the failure has it. None where no memory is left for them.
    fn failure_of(&self, failure: &[u8], query: &Bytes) -> Option<Bytes>
        requires header { 12 ≤ length failure.now }
        requires short { length failure.now ≤ 65535 }
        ensures { IfSome result (IsFailureFor failure.now query.now) }
    {
        let query = query.as_slice();
        if let Some(end) = question_end(query) {
            return failure_for(self.alloc, failure, query, end).ok();
        }
        Some(Bytes::new(under_id(self.alloc, failure, query)?))
    }

    /// A question that is called in.
    pub fn next<R: Wait>(&self, rt: &R) -> Option<Held<Query>> {
        if !self.called.load(Ordering::SeqCst) {
            return None;
        }
        // Before admission is asked: whom another loop calls in behind that puts the flag up again.
        self.called.store(false, Ordering::SeqCst);
        let next = self.admission.lock(rt).next();
        if next.is_some() {
            self.called.store(true, Ordering::SeqCst);
        }
        next
    }

    /// Lets time pass: who is open or waits for too long leaves. How many were dropped that waited, and the streams of
    /// such; where memory is refused, not all of these.
    pub fn pass_time<R: Wait>(&self, rt: &R, now: u64) -> (u64, Vec<u64>) {
        let mut admission = self.admission.lock(rt);
        for _ in 0..PLACES {
            if !admission.expire(now) {
                break;
            }
        }
        let streams = late_streams(self.alloc, &admission, now);
        let late = admission.drop_late(now) as u64;
        self.note_called(&admission);
        (late, streams)
    }
}

// The streams on which those questions came that have waited for too long, one for each question.
fn late_streams(alloc: Global, admission: &Admission<Query>, now: u64) -> Vec<u64> {
    let mut streams = Vec::new(alloc);
    for place in 0..admission.waiting() {
        if let Some(held) = admission.waits_at(place)
            && held.is_late(now)
            && let Asker {
                client,
                way: Via::Tcp,
            } = held.payload.asker
        {
            let _ = streams.push(client);
        }
    }
    streams
}
