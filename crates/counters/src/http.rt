//! Requests for the counters, and their responses, over HTTP (RFC 9110, RFC 9112). Of a request its first line counts
//! alone, and each stream has one.
ghost use Rattle.std.specs.Prelude.{◌≡◌, ◌++◌, OnOk, string_bytes};
ghost use Rattle.counters.specs.Responses.{answer_for, is_whole, response, response_by, text_head, text_response};

use crate::counter::COUNTERS;
use crate::exposition::put_metrics;
use crate::stores::StoreSizes;
use memory::{Heap, Starved};
use std::alloc::Allocator;

/// Bytes of a request at most.
pub const MOST_REQUEST: usize = 4_096;

/// What a request comes to.
#[derive(Clone, Copy, Debug, PartialEq, Eq)]
pub enum Answer {
    /// The counters.
    Metrics,
    /// Nothing: 404.
    NotFound,
    /// Nothing: 405.
    NotAllowed,
}

impl Answer {
    /// What a request comes to: the counters for `GET /metrics`.
    pub fn to(request: &[u8]) -> Answer
        ensures { result ≡ answer_for request.now }
    {
        if request.starts_with(b"GET /metrics ") {
            Answer::Metrics
        } else if request.starts_with(b"GET ") {
            Answer::NotFound
        } else {
            Answer::NotAllowed
        }
    }
}

/// Whether a request has come whole, which ends with an empty line.
pub fn is_request(bytes: &[u8]) -> bool
    ensures { result ≡ is_whole bytes.now }
{
    bytes.ends_with(b"\r\n\r\n")
}

/// Appends the response to a request. Where memory is refused, a part of it stands.
pub fn put_response<A: Heap>(
    alloc: A,
    out: &mut String<A>,
    request: &[u8],
    cells: &[u64; COUNTERS],
    waiting: u64,
    stores: StoreSizes,
) -> Result<(), Starved>
    ensures { OnOk result (string_bytes out.new ≡ string_bytes out.old ++ response request.now cells.now waiting stores) }
{
    match Answer::to(request) {
        Answer::Metrics => {
            let mut text = String::new(alloc);
            put_metrics(&mut text, cells, waiting, stores)?;
            put_text(out, text.as_str())
        }
        Answer::NotFound => {
            out.push_str(
                "HTTP/1.1 404 Not Found\r\nContent-Length: 0\r\nConnection: close\r\n\r\n",
            )?;
            Ok(())
        }
        Answer::NotAllowed => {
            out.push_str(
                "HTTP/1.1 405 Method Not Allowed\r\nAllow: GET\r\nContent-Length: 0\r\nConnection: close\r\n\r\n",
            )?;
            Ok(())
        }
    }
}

fn put_text<A: Allocator>(out: &mut String<A>, text: &str) -> Result<(), Starved>
    ensures { OnOk result (string_bytes out.new ≡ string_bytes out.old ++ text_response text.now) }
{
    put_text_head(out, text.len())?;
    out.push_str(text)?;
    Ok(())
}

fn put_text_head<A: Allocator>(out: &mut String<A>, length: usize) -> Result<(), Starved>
    ensures { OnOk result (string_bytes out.new ≡ string_bytes out.old ++ text_head length) }
{
    write!(
        out,
        "HTTP/1.1 200 OK\r\nContent-Type: text/plain; version=0.0.4; charset=utf-8\r\nContent-Length: {length}\r\nConnection: close\r\n\r\n"
    )?;
    Ok(())
}
