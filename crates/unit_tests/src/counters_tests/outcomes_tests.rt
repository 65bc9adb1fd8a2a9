use Outcome::{
    AskFailed, Asked, Dropped, Foreign, Held, MemoryRefused, Query, Replied, SocketFailed,
};
use causes::Cause;
use counters::{AskFault, Counter, Counting, Outcome, Reply, SocketFault, Way, count};
use std::alloc::Global;
use std::test;

// What is added, a line each.
#[derive(Drop)]
struct Lines {
    text: String,
}

impl Counting for Lines {
    fn add(&mut self, counter: Counter, amount: u64) {
        let _ = write!(self.text, "{counter} {amount}\n");
    }
}

fn reply(
    rcode: u8,
    authoritative: bool,
    asked: bool,
    cause: Option<Cause>,
    millis: Option<u64>,
) -> Outcome {
    Replied(Reply {
        rcode,
        authoritative,
        truncated: false,
        asked,
        cause,
        millis,
    })
}

// A reply that is cut.
const CUT: Outcome = Replied(Reply {
    rcode: 0,
    authoritative: false,
    truncated: true,
    asked: false,
    cause: None,
    millis: None,
});

type Row = (Outcome, &'static str);

fn rows() -> [Row; 24] {
    [
        (
            Query(Way::Udp, 1),
            "resolverd_queries_total{way=\"udp\",type=\"A\"} 1\n",
        ),
        (
            Query(Way::Tcp, 28),
            "resolverd_queries_total{way=\"tcp\",type=\"AAAA\"} 1\n",
        ),
        (
            Query(Way::Udp, 65),
            "resolverd_queries_total{way=\"udp\",type=\"HTTPS\"} 1\n",
        ),
        (
            Query(Way::Udp, 33),
            "resolverd_queries_total{way=\"udp\",type=\"SRV\"} 1\n",
        ),
        (
            Query(Way::Udp, 0),
            "resolverd_queries_total{way=\"udp\",type=\"other\"} 1\n",
        ),
        (
            Query(Way::Udp, 65_535),
            "resolverd_queries_total{way=\"udp\",type=\"other\"} 1\n",
        ),
        (
            reply(0, true, false, None, Some(0)),
            "resolverd_replies_total{rcode=\"NOERROR\"} 1\nresolverd_answers_total{source=\"local\"} 1\nresolverd_reply_seconds_bucket{le=\"0.001\"} 1\nresolverd_reply_seconds_sum 0\n",
        ),
        (
            reply(0, true, true, None, None),
            "resolverd_replies_total{rcode=\"NOERROR\"} 1\nresolverd_answers_total{source=\"local\"} 1\n",
        ),
        (
            reply(3, false, false, None, Some(1)),
            "resolverd_replies_total{rcode=\"NXDOMAIN\"} 1\nresolverd_answers_total{source=\"cache\"} 1\nresolverd_reply_seconds_bucket{le=\"0.001\"} 1\nresolverd_reply_seconds_sum 1\n",
        ),
        (
            reply(0, false, true, None, Some(2)),
            "resolverd_replies_total{rcode=\"NOERROR\"} 1\nresolverd_answers_total{source=\"servers\"} 1\nresolverd_reply_seconds_bucket{le=\"0.005\"} 1\nresolverd_reply_seconds_sum 2\n",
        ),
        (
            reply(2, false, true, Some(Cause::DeadlineOver), Some(10_000)),
            "resolverd_replies_total{rcode=\"SERVFAIL\"} 1\nresolverd_failures_total{cause=\"deadline_over\"} 1\nresolverd_reply_seconds_bucket{le=\"10\"} 1\nresolverd_reply_seconds_sum 10000\n",
        ),
        (
            reply(2, false, false, Some(Cause::TooManyOpen), Some(10_001)),
            "resolverd_replies_total{rcode=\"SERVFAIL\"} 1\nresolverd_failures_total{cause=\"too_many_open\"} 1\nresolverd_reply_seconds_bucket{le=\"+Inf\"} 1\nresolverd_reply_seconds_sum 10001\n",
        ),
        (
            reply(1, false, false, None, None),
            "resolverd_replies_total{rcode=\"FORMERR\"} 1\n",
        ),
        (
            reply(5, false, false, None, None),
            "resolverd_replies_total{rcode=\"REFUSED\"} 1\n",
        ),
        (
            reply(15, false, false, None, None),
            "resolverd_replies_total{rcode=\"other\"} 1\n",
        ),
        (
            CUT,
            "resolverd_replies_total{rcode=\"NOERROR\"} 1\nresolverd_answers_total{source=\"cache\"} 1\nresolverd_truncated_replies_total 1\n",
        ),
        (Asked(Way::Tcp), "resolverd_asks_total{way=\"tcp\"} 1\n"),
        (
            AskFailed(Way::Udp, AskFault::Silent),
            "resolverd_failed_asks_total{way=\"udp\",reason=\"silent\"} 1\n",
        ),
        (
            AskFailed(Way::Tcp, AskFault::Reset),
            "resolverd_failed_asks_total{way=\"tcp\",reason=\"reset\"} 1\n",
        ),
        (Foreign, "resolverd_foreign_datagrams_total 1\n"),
        (Held, "resolverd_held_queries_total 1\n"),
        (Dropped(7), "resolverd_dropped_queries_total 7\n"),
        (MemoryRefused, "resolverd_refused_memory_total 1\n"),
        (
            SocketFailed(SocketFault::Descriptors),
            "resolverd_socket_faults_total{kind=\"descriptors\"} 1\n",
        ),
    ]
}

// Whether the outcome adds this.
fn adds(alloc: Global, outcome: Outcome, wanted: &str) -> bool {
    let mut lines = Lines {
        text: String::new(alloc),
    };
    count(&mut lines, outcome);
    lines.text.as_str() == wanted
}

#[test]
fn each_outcome_is_added_to_its_counters(rt: HostRuntime) {
    let mut wrong = None;
    for (place, (outcome, wanted)) in rows().iter().enumerate() {
        if wrong.is_none() && !adds(rt.alloc(), *outcome, *wanted) {
            wrong = Some(place);
        }
    }
    assert_eq!(rt; wrong, None);
}
