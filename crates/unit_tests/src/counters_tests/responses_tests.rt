use counters::{COUNTERS, Cells, Outcome, Reply, StoreSizes, count, is_request, put_response};
use std::alloc::Global;
use std::test;

// The last lines of the text, where two replies came: after 3 ms and after 2 s. Seven queries wait, and the stores have
// 5, 4, 3 and 2 entries.
const LAST: &str =
    "# HELP resolverd_reply_seconds Seconds from query to reply.\n# TYPE resolverd_reply_seconds histogram\nresolverd_reply_seconds_bucket{le=\"0.001\"} 0\nresolverd_reply_seconds_bucket{le=\"0.005\"} 1\nresolverd_reply_seconds_bucket{le=\"0.01\"} 1\nresolverd_reply_seconds_bucket{le=\"0.025\"} 1\nresolverd_reply_seconds_bucket{le=\"0.05\"} 1\nresolverd_reply_seconds_bucket{le=\"0.1\"} 1\nresolverd_reply_seconds_bucket{le=\"0.25\"} 1\nresolverd_reply_seconds_bucket{le=\"0.5\"} 1\nresolverd_reply_seconds_bucket{le=\"1\"} 1\nresolverd_reply_seconds_bucket{le=\"2.5\"} 2\nresolverd_reply_seconds_bucket{le=\"5\"} 2\nresolverd_reply_seconds_bucket{le=\"10\"} 2\nresolverd_reply_seconds_bucket{le=\"+Inf\"} 2\nresolverd_reply_seconds_sum 2003e-3\nresolverd_reply_seconds_count 2\n# HELP resolverd_open_queries Queries that wait for other servers.\n# TYPE resolverd_open_queries gauge\nresolverd_open_queries 7\n# HELP resolverd_store_entries Entries of each store, expired ones among them.\n# TYPE resolverd_store_entries gauge\nresolverd_store_entries{store=\"cache\"} 5\nresolverd_store_entries{store=\"delegations\"} 4\nresolverd_store_entries{store=\"penalties\"} 3\nresolverd_store_entries{store=\"failures\"} 2\n";

// What begins the response, and some of its lines.
const FIRST: &str =
    "HTTP/1.1 200 OK\r\nContent-Type: text/plain; version=0.0.4; charset=utf-8\r\nContent-Length: ";

const SOME: &str =
    "\nresolverd_replies_total{rcode=\"NOERROR\"} 2\nresolverd_replies_total{rcode=\"FORMERR\"} 0\n";

const NOT_FOUND: &str = "HTTP/1.1 404 Not Found\r\nContent-Length: 0\r\nConnection: close\r\n\r\n";

const NOT_ALLOWED: &str =
    "HTTP/1.1 405 Method Not Allowed\r\nAllow: GET\r\nContent-Length: 0\r\nConnection: close\r\n\r\n";

fn replied(millis: u64) -> Outcome {
    Outcome::Replied(Reply {
        rcode: 0,
        authoritative: false,
        truncated: false,
        asked: true,
        cause: None,
        millis: Some(millis),
    })
}

// What the cells hold after two replies.
fn values(alloc: Global) -> Option<[u64; COUNTERS]> {
    let cells = Cells::new(alloc).ok()?;
    count(&mut cells.adder(), replied(3));
    count(&mut cells.adder(), replied(2_000));
    Some(cells.values())
}

// The response to a request.
fn response(alloc: Global, request: &[u8], cells: &[u64; COUNTERS]) -> Option<String> {
    let mut out = String::new(alloc);
    let stores = StoreSizes {
        cache: 5,
        delegations: 4,
        penalties: 3,
        failures: 2,
    };
    put_response(alloc, &mut out, request, cells, 7, stores).ok()?;
    Some(out)
}

#[test]
fn the_text_has_what_was_counted(rt: HostRuntime) {
    let cells = values(rt.alloc()).expect(&rt, "memory");
    let response = response(rt.alloc(), b"GET /metrics HTTP/1.1\r\n\r\n", &cells).expect(
        &rt, "memory",
    );
    let text = response.as_str();
    assert_eq!(rt;
        (
            text.starts_with(FIRST),
            text.contains(SOME),
            text.ends_with(LAST)
        ),
        (true, true, true)
    );
}

#[test]
fn other_requests_get_nothing(rt: HostRuntime) {
    let cells = [0u64; COUNTERS];
    let path = response(rt.alloc(), b"GET /metricsx HTTP/1.1\r\n\r\n", &cells).expect(
        &rt, "memory",
    );
    let method = response(rt.alloc(), b"HEAD /metrics HTTP/1.1\r\n\r\n", &cells).expect(
        &rt, "memory",
    );
    assert_eq!(rt; (path.as_str(), method.as_str()), (NOT_FOUND, NOT_ALLOWED));
}

#[test]
fn a_request_ends_with_an_empty_line(rt: HostRuntime) {
    assert_eq!(rt;
        (
            is_request(b"GET / HTTP/1.1\r\n\r\n"),
            is_request(b"GET / HTTP/1.1\r\n"),
            is_request(b"")
        ),
        (true, false, false)
    );
}
