//! The counters.
ghost use Rattle.std.specs.Prelude.{◌≡◌, ◌<◌, ◌++◌, Some, codes};
ghost use Rattle.std.specs.Fmt.{WritesOnOk};
ghost use Rattle.counters.specs.Counters.{counters, place, series};

use crate::labels::{AskFault, Bucket, QueryType, Rcode, SocketFault, Source, Way, cause_word};
use causes::Cause;
use std::fmt;

/// How many counters there are.
pub const COUNTERS: usize = 79;

/// What is counted. Each has a cell of its own.
#[derive(Clone, Copy, Debug, PartialEq, Eq)]
pub enum Counter {
    /// Queries that came, by way and type.
    Query(Way, QueryType),
    /// Replies that went to clients.
    Reply(Rcode),
    /// Replies with TC set, so that the client asks again over TCP.
    Truncated,
    /// Replies with SERVFAIL, by their cause.
    Failure(Cause),
    /// Replies with NOERROR or NXDOMAIN, by what they were made of.
    Answer(Source),
    /// Asks to other servers.
    Ask(Way),
    /// Asks that have no reply which is an event, by way and reason.
    FailedAsk(Way, AskFault),
    /// Datagrams at the socket of an ask which did not repeat it: the trace of a forger.
    ForeignDatagram,
    /// Queries that were held in admission, since equal ones were under way.
    HeldQuery,
    /// Queries that were dropped in admission.
    DroppedQuery,
    /// Growths that were refused: for want of memory something was dropped.
    RefusedMemory,
    /// Sockets that failed, by what failed.
    FailedSocket(SocketFault),
    /// Replies by the time from their query.
    Waited(Bucket),
    /// The times of all those replies together, in milliseconds.
    WaitedMillis,
}

impl Counter {
    /// The number of its cell, below `COUNTERS`.
    pub fn place(self) -> usize
        ensures is { result ≡ place self }
        ensures within { result < counters }
    {
        match self {
            Counter::Query(way, kind) => 11 * way.place() + kind.place(),
            Counter::Reply(rcode) => 22 + rcode.place(),
            Counter::Truncated => 29,
            Counter::Failure(cause) => 29 + usize::from(cause.number()),
            Counter::Answer(source) => 38 + source.place(),
            Counter::Ask(way) => 41 + way.place(),
            Counter::FailedAsk(way, fault) => 43 + 6 * way.place() + fault.place(),
            Counter::ForeignDatagram => 55,
            Counter::HeldQuery => 56,
            Counter::DroppedQuery => 57,
            Counter::RefusedMemory => 58,
            Counter::FailedSocket(fault) => 59 + fault.place(),
            Counter::Waited(bucket) => 65 + bucket.place(),
            Counter::WaitedMillis => 78,
        }
    }
}

// The name and the labels, as they stand before the value.
impl fmt::Display for Counter {
    ghost output = { λ c. Some (series c) };

    fn fmt<W: fmt::Write>(&self, f: &mut fmt::Formatter<W>) -> fmt::Result {
        match self {
            Counter::Query(way, kind) => write_two(
                f,
                "resolverd_queries_total{way=\"",
                way.word(),
                "\",type=\"",
                kind.word(),
            ),
            Counter::Reply(rcode) => {
                write_one(f, "resolverd_replies_total{rcode=\"", rcode.word())
            }
            Counter::Truncated => f.write_str("resolverd_truncated_replies_total"),
            Counter::Failure(cause) => {
                write_one(f, "resolverd_failures_total{cause=\"", cause_word(*cause))
            }
            Counter::Answer(source) => {
                write_one(f, "resolverd_answers_total{source=\"", source.word())
            }
            Counter::Ask(way) => write_one(f, "resolverd_asks_total{way=\"", way.word()),
            Counter::FailedAsk(way, fault) => write_two(
                f,
                "resolverd_failed_asks_total{way=\"",
                way.word(),
                "\",reason=\"",
                fault.word(),
            ),
            Counter::ForeignDatagram => f.write_str("resolverd_foreign_datagrams_total"),
            Counter::HeldQuery => f.write_str("resolverd_held_queries_total"),
            Counter::DroppedQuery => f.write_str("resolverd_dropped_queries_total"),
            Counter::RefusedMemory => f.write_str("resolverd_refused_memory_total"),
            Counter::FailedSocket(fault) => {
                write_one(f, "resolverd_socket_faults_total{kind=\"", fault.word())
            }
            Counter::Waited(bucket) => {
                write_one(f, "resolverd_reply_seconds_bucket{le=\"", bucket.bound())
            }
            Counter::WaitedMillis => f.write_str("resolverd_reply_seconds_sum"),
        }
    }
}

// A name up to the word of its label, and that word.
fn write_one<W: fmt::Write>(f: &mut fmt::Formatter<W>, front: &str, word: &str) -> fmt::Result
    ensures { WritesOnOk W.write_str_gives f.old result (front.now ++ word.now ++ codes "\"}") f.new }
{
    write!(f, "{front}{word}\"}}")
}

// The same of a name with two labels.
fn write_two<W: fmt::Write>(
    f: &mut fmt::Formatter<W>,
    front: &str,
    word: &str,
    middle: &str,
    other: &str,
) -> fmt::Result
    ensures { WritesOnOk W.write_str_gives f.old result (front.now ++ word.now ++ middle.now ++ other.now ++ codes "\"}") f.new }
{
    write!(f, "{front}{word}{middle}{other}\"}}")
}
