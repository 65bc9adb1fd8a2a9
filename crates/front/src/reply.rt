//! Writing replies.
ghost use Rattle.std.specs.Prelude.{◌≡◌, false, ◌≤◌, ◌<◌, [], IfOk, IfSome, length, option_copied};
ghost use Rattle.dname.specs.Labels.{wire};
ghost use Rattle.wire.specs.Drafts.{asked_alone};
ghost use Rattle.message_grammar.specs.Compression.{IsCompressed};
ghost use Rattle.message_grammar.specs.Messages.{IsMessage, encoding, folded_message};
ghost use Rattle.front.specs.Replies.{reply_header, whole_reply, truncated_reply, bare, reply_of, failure_of, refusal_reply};
ghost use Rattle.wire.specs.Limits.{limit_of};

use crate::queries::{Outcome, Query, Refusal};
use crate::start::Start;
use causes::Cause;
use memory::{Heap, Starved};
use std::alloc::Allocator;
use wire::{Draft, Echo, Header, TCP_LIMIT, UDP_LIMIT, Via, Writer, rcode};

/// The bytes of the reply, and the cause of a SERVFAIL. A reply over 512 bytes on UDP keeps header and
/// question, with TC set; one over 65,535 bytes on TCP is a SERVFAIL. The bytes are read back as the reply, its
/// question in lower case, and its names are compressed (RFC 1035, section 4.1.4). After a refusal the writer may
/// hold a part of the reply: the next message begins it anew.
pub fn reply_bytes<A: Heap>(
    writer: &mut Writer<A>,
    query: &Query<A>,
    outcome: &Outcome<A>,
    via: Via,
) -> Result<(Vec<u8, A>, Option<Cause>), Starved>
    ensures bytes { IfOk result (λ r. r.0.items ≡ encoding (reply_of via query.now outcome.now).0) }
    ensures message { IfOk result (λ r. IsMessage r.0.items (folded_message (reply_of via query.now outcome.now).0)) }
    ensures compressed { IfOk result (λ r. IsCompressed r.0.items (reply_of via query.now outcome.now).0) }
    ensures cause { IfOk result (λ r. r.1 ≡ (reply_of via query.now outcome.now).1) }
    ensures short { IfOk result (λ r. length r.0.items ≤ limit_of via) }
{
    let cause = cause_in(outcome);
    let whole = draft_of(query, outcome);
    match via {
        Via::Udp => match whole.encode(writer, UDP_LIMIT)? {
            Some(bytes) => Ok((bytes, cause)),
            None => {
                short_law(Some(&query.echo));
                Ok((short_bytes(writer, &truncated(&whole), UDP_LIMIT)?, cause))
            }
        },
        Via::Tcp => match whole.encode(writer, TCP_LIMIT)? {
            Some(bytes) => Ok((bytes, cause)),
            None => {
                short_law(Some(&query.echo));
                let failure = empty_draft(query.start, Some(&query.echo), rcode::SERV_FAIL);
                Ok((
                    short_bytes(writer, &failure, TCP_LIMIT)?,
                    Some(Cause::ReplyTooLarge),
                ))
            }
        },
    }
}

/// The encoding of each reply is that reply, its question in lower case (RFC 1035, section 4.1), before it is written.
pub fn reply_is_message<A: Heap>(query: &Query<A>, outcome: &Outcome<A>, via: Via)
    ensures { IsMessage (encoding (reply_of via query.now outcome.now).0) (folded_message (reply_of via query.now outcome.now).0) }
{
    draft_of(query, outcome).writable_law();
    short_law(Some(&query.echo));
}

/// The encoding of each refusal is that reply, its question in lower case, before it is written.
pub fn refusal_is_message<A: Heap>(refusal: Refusal, start: Start, echo: Option<&Echo<A>>)
    ensures { IsMessage (encoding (refusal_reply refusal start (option_copied echo.entry))) (folded_message (refusal_reply refusal start (option_copied echo.entry))) }
{
    empty_draft(start, echo, refusal.rcode()).writable_law();
    short_law(echo);
}

/// The bytes of the reply to a query that is refused without a look-up: header, and the question if it was read. They
/// are read back as that reply, its question in lower case. Of the writer holds what holds for `reply_bytes`.
pub fn refusal_bytes<A: Heap>(
    writer: &mut Writer<A>,
    refusal: Refusal,
    start: Start,
    echo: Option<&Echo<A>>,
) -> Result<Vec<u8, A>, Starved>
    ensures bytes { IfOk result (λ r. r.items ≡ encoding (refusal_reply refusal start (option_copied echo.entry))) }
    ensures message { IfOk result (λ r. IsMessage r.items (folded_message (refusal_reply refusal start (option_copied echo.entry)))) }
    ensures compressed { IfOk result (λ r. IsCompressed r.items (refusal_reply refusal start (option_copied echo.entry))) }
    ensures short { IfOk result (λ r. length r.items ≤ UDP_LIMIT) }
{
    short_law(echo);
    short_bytes(
        writer,
        &empty_draft(start, echo, refusal.rcode()),
        UDP_LIMIT,
    )
}

// The bytes of a message that is short enough for its limit.
fn short_bytes<A: Heap>(
    writer: &mut Writer<A>,
    draft: &Draft<'_, A>,
    limit: usize,
) -> Result<Vec<u8, A>, Starved>
    requires limit { limit ≤ TCP_LIMIT }
    requires fits { length (encoding draft.now) ≤ limit }
    ensures bytes { IfOk result (λ r. r.items ≡ encoding draft.now) }
    ensures message { IfOk result (λ r. IsMessage r.items (folded_message draft.now)) }
    ensures compressed { IfOk result (λ r. IsCompressed r.items draft.now) }
    ensures short { IfOk result (λ r. length r.items ≤ limit) }
{
    match draft.encode(writer, limit)? {
        Some(bytes) => Ok(bytes),
        None => unreachable!(),
    }
}

// The name of an echo has at most 255 bytes.
fn short_law<A: Allocator>(echo: Option<&Echo<A>>)
    ensures { IfSome (option_copied echo.entry) (λ q. length (wire q.name) ≤ 255) }
{
    if let Some(echo) = echo {
        let _ = echo.spelling.wire();
    }
}

fn cause_in<A: Allocator>(outcome: &Outcome<A>) -> Option<Cause>
    ensures { result ≡ failure_of outcome.now }
{
    match outcome {
        Outcome::Fail(cause) => Some(*cause),
        _ => None,
    }
}

fn header(start: Start, aa: bool, tc: bool, rcode: u8) -> Header
    requires { rcode < 16 }
    ensures { result ≡ reply_header start aa tc rcode }
{
    Header {
        aa,
        tc,
        ra: true,
        rcode,
        ..Header::reply(start.id(), start.opcode(), start.wants_recursion())
    }
}

// A reply without records.
fn empty_draft<'a, A: Allocator>(start: Start, echo: Option<&'a Echo<A>>, rcode: u8) -> Draft<'a, A>
    requires { rcode < 16 }
    ensures { result ≡ bare start (asked_alone (option_copied echo.entry)) false rcode }
{
    Draft {
        header: header(start, false, false, rcode),
        questions: &[],
        echo,
        first: &[],
        second: None,
        authority: &[],
        additional: &[],
    }
}

// The reply without its records, and with TC.
fn truncated<'a, A: Allocator>(whole: &Draft<'a, A>) -> Draft<'a, A>
    ensures { result ≡ truncated_reply whole.now }
{
    let mut header = whole.header;
    header.tc = true;
    Draft {
        header,
        questions: whole.questions,
        echo: whole.echo,
        first: &[],
        second: None,
        authority: &[],
        additional: &[],
    }
}

// The whole reply.
fn draft_of<'a, A: Allocator>(query: &'a Query<A>, outcome: &'a Outcome<A>) -> Draft<'a, A>
    ensures { result ≡ whole_reply query.now outcome.now }
{
    match outcome {
        Outcome::Answer(aa, aliases, end) => Draft {
            header: header(query.start, *aa, false, end.rcode()),
            questions: &[],
            echo: Some(&query.echo),
            first: aliases.as_slice(),
            second: end.found(),
            authority: end.denial(),
            additional: &[],
        },
        Outcome::Referral(ns, glue) => Draft {
            header: header(query.start, false, false, 0),
            questions: &[],
            echo: Some(&query.echo),
            first: &[],
            second: None,
            authority: ns.as_slice(),
            additional: glue.as_slice(),
        },
        Outcome::Refused => empty_draft(query.start, Some(&query.echo), rcode::REFUSED),
        Outcome::Fail(_) => empty_draft(query.start, Some(&query.echo), rcode::SERV_FAIL),
    }
}
