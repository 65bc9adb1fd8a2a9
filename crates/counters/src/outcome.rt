//! What comes of an event at a server, as far as it is counted.
ghost use Rattle.counters.specs.Outcomes.{Adds, answers, counted, failures, one, replied, source_of, waits};
ghost use Rattle.std.specs.Prelude.{◌≡◌, [], ◌∷◌, cond};
ghost use Rattle.counters.specs.declared.counter.Counter.TheVariants as counter;

use crate::counter::Counter;
use crate::labels::{AskFault, Bucket, QueryType, Rcode, SocketFault, Source, Way};
use causes::Cause;

/// A reply to a client.
#[derive(Clone, Copy, Debug, PartialEq, Eq)]
pub struct Reply {
    /// Its RCODE (RFC 1035, section 4.1.1).
    pub rcode: u8,
    /// AA: a zone of the server's own says so.
    pub authoritative: bool,
    /// TC: it is cut to fit into a datagram.
    pub truncated: bool,
    /// Whether it did not come of the step that its query came in with, so that servers were asked.
    pub asked: bool,
    /// Why it is a SERVFAIL, where it is one.
    pub cause: Option<Cause>,
    /// Milliseconds since its query came, where that is known.
    pub millis: Option<u64>,
}

/// What comes of an event, as far as it is counted.
#[derive(Clone, Copy, Debug, PartialEq, Eq)]
pub enum Outcome {
    /// A query came by this way, and asks for the type of this number.
    Query(Way, u16),
    /// A reply went to a client.
    Replied(Reply),
    /// A server is asked by this way.
    Asked(Way),
    /// An ask by this way has no reply, for this reason.
    AskFailed(Way, AskFault),
    /// A datagram came to the socket of an ask and did not repeat it.
    Foreign,
    /// A query is held in admission.
    Held,
    /// So many queries are dropped in admission.
    Dropped(u64),
    /// A growth was refused.
    MemoryRefused,
    /// A socket failed.
    SocketFailed(SocketFault),
}

/// What counts: cells of a server, or a list in a test.
pub trait Counting {
    ghost use Rattle.std.specs.Prelude.{List, Option, None, [], ◌∷◌};
    ghost use Rattle.counters.specs.Outcomes.{Addition, Adds};

    // What was added, in its order, where that is known.
    ghost added: { Self → Option (List Addition) } = { λ _. None };

    /// Adds so much to that counter.
    fn add(&mut self, counter: Counter, amount: u64)
        ensures { Adds (added self.old) (record { counter = counter; amount = amount } ∷ []) (added self.new) };
}

/// Counts an outcome: one for each of its counters, and a time in milliseconds.
pub fn count<C: Counting>(counts: &mut C, outcome: Outcome)
    ensures { Adds (C.added counts.old) (counted outcome) (C.added counts.new) }
{
    match outcome {
        Outcome::Query(way, number) => {
            counts.add(Counter::Query(way, QueryType::of_number(number)), 1);
        }
        Outcome::Replied(reply) => count_reply(counts, reply),
        Outcome::Asked(way) => counts.add(Counter::Ask(way), 1),
        Outcome::AskFailed(way, fault) => counts.add(Counter::FailedAsk(way, fault), 1),
        Outcome::Foreign => counts.add(Counter::ForeignDatagram, 1),
        Outcome::Held => counts.add(Counter::HeldQuery, 1),
        Outcome::Dropped(queries) => counts.add(Counter::DroppedQuery, queries),
        Outcome::MemoryRefused => counts.add(Counter::RefusedMemory, 1),
        Outcome::SocketFailed(fault) => counts.add(Counter::FailedSocket(fault), 1),
    }
}

// Counts a reply.
fn count_reply<C: Counting>(counts: &mut C, reply: Reply)
    ensures { Adds (C.added counts.old) (replied reply) (C.added counts.new) }
{
    let rcode = Rcode::of_number(reply.rcode);
    counts.add(Counter::Reply(rcode), 1);
    count_answer(counts, rcode, source_of(reply.authoritative, reply.asked));
    count_failure(counts, reply.cause);
    count_truncated(counts, reply.truncated);
    count_wait(counts, reply.millis);
}

// What a reply was made of.
fn source_of(authoritative: bool, asked: bool) -> Source
    ensures { result ≡ source_of authoritative asked }
{
    match (authoritative, asked) {
        (true, _) => Source::Local,
        (false, true) => Source::Servers,
        (false, false) => Source::Cache,
    }
}

fn count_answer<C: Counting>(counts: &mut C, rcode: Rcode, source: Source)
    ensures { Adds (C.added counts.old) (answers rcode source) (C.added counts.new) }
{
    match rcode {
        Rcode::NoError | Rcode::NxDomain => counts.add(Counter::Answer(source), 1),
        Rcode::FormErr | Rcode::ServFail | Rcode::NotImp | Rcode::Refused | Rcode::Other => {}
    }
}

fn count_failure<C: Counting>(counts: &mut C, cause: Option<Cause>)
    ensures { Adds (C.added counts.old) (failures cause) (C.added counts.new) }
{
    if let Some(cause) = cause {
        counts.add(Counter::Failure(cause), 1);
    }
}

fn count_truncated<C: Counting>(counts: &mut C, truncated: bool)
    ensures { Adds (C.added counts.old) (cond truncated (one counter.Truncated ∷ []) []) (C.added counts.new) }
{
    if truncated {
        counts.add(Counter::Truncated, 1);
    }
}

fn count_wait<C: Counting>(counts: &mut C, millis: Option<u64>)
    ensures { Adds (C.added counts.old) (waits millis) (C.added counts.new) }
{
    if let Some(millis) = millis {
        counts.add(Counter::Waited(Bucket::of_millis(millis)), 1);
        counts.add(Counter::WaitedMillis, millis);
    }
}
