//! Reading a client's bytes.
ghost use Rattle.std.specs.Prelude.{◌≡◌, ◌≤◌, ◌<◌, IfOk, IsOk, length, slice_index};
ghost use Rattle.front.specs.Openings.{opening_of};
ghost use Rattle.front.specs.Queries.{IsRequest, by_question};

use crate::queries::{Query, Refusal, Request};
use crate::shared::{SharedEcho, SharedQuery};
use crate::start::Start;
use dname::Name;
use memory::{Heap, Starved};
use rdata::{INTERNET, RType};
use wire::{Echo, WireError, decode_question};

/// The meaning of a client's bytes, by the first of these that fits. Under 12 bytes, or with QR set, they are dropped.
/// No message, or other than one question, is a format error. Another operation than a query, a class other than IN or
/// a type that is not served is not implemented. All others are a query. Under 12 bytes and a reply take no memory.
pub fn read_query<A: Heap>(alloc: A, bytes: &[u8]) -> Result<Request<A>, Starved>
    ensures asked { IfOk result (IsRequest bytes.now) }
    ensures dropped { length bytes.now < 12 → IsOk result }
    ensures replies { 128 ≤ slice_index bytes.now 2 → IsOk result }
{
    if bytes.len() < 12 || bytes[2] >= 128 {
        return Ok(Request::Drop);
    }
    let start = start_at(bytes);
    match decode_question(alloc, bytes) {
        Ok(Some((name, echo))) => Ok(sort_question(alloc, start, name, echo)?),
        Ok(None) => Ok(Request::Refuse(Refusal::FormErr, start, None)),
        Err(WireError::Memory) => Err(Starved),
        Err(_) => Ok(Request::Refuse(Refusal::FormErr, start, None)),
    }
}

fn start_at(bytes: &[u8]) -> Start
    requires { 12 ≤ length bytes.now }
    ensures { result ≡ opening_of bytes.now }
{
    let id = u16::from_be_bytes([bytes[0], bytes[1]]);
    Start::new(id, bytes[2] / 8 % 16, bytes[2] % 2 == 1)
}

// A message of one question: a query, or one that is not served.
fn sort_question<A: Heap>(
    alloc: A,
    start: Start,
    name: Name<A>,
    echo: Echo<A>,
) -> Result<Request<A>, Starved>
    ensures { IfOk result (λ r. r ≡ by_question start (record { name = name; qtype = echo.qtype; qclass = echo.qclass }) echo.name) }
{
    match RType::from_number(echo.qtype) {
        Some(kind) if start.opcode() == 0 && echo.qclass == INTERNET => {
            let query = Query {
                start,
                name,
                kind,
                echo,
            };
            Ok(Request::Query(SharedQuery::new(alloc, query)?))
        }
        _ => {
            let echo = SharedEcho::new(alloc, echo)?;
            Ok(Request::Refuse(Refusal::NotImp, start, Some(echo)))
        }
    }
}
