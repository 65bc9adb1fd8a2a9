//! A query and its reply, as bytes.
ghost use Rattle.std.specs.Prelude.{◌≡◌, [], IfOk, string_bytes};
ghost use Rattle.rdata.specs.Types.{type_number};
ghost use Rattle.message_grammar.specs.Messages.{encoding};
ghost use Rattle.front.specs.declared.queries.Request.TheVariants as asked;
ghost use Rattle.front.specs.Replies.{reply_of};
ghost use Rattle.wire.specs.declared.via.Via.TheVariants as via;
ghost use Rattle.reply_lines.specs.Lines.{ArePrinted};
ghost use Rattle.commands.specs.Exchanges.{query_for, AreMessage, AreLinesOf, AreLines};

use authority::Catalog;
use causes::Cause;
use dname::Name;
use front::{
    Outcome, Query, Request, answer_local, lent_echo, read_query, refusal_bytes, reply_bytes,
};
use memory::{Heap, Starved};
use rdata::{INTERNET, RType, Records};
use reply_lines::put_reply_bytes;
use wire::{Header, Message, Question, Questions, UDP_LIMIT, Via, Writer, encode};

// The number of the client in the printed reply.
const CLIENT: u64 = 1;

/// The lines of the reply to a query: its bytes are written, read and answered, and the bytes of the reply
/// are read again.
pub fn exchange<A: Heap>(
    alloc: A,
    catalog: &Catalog<A>,
    name: Name<A>,
    kind: RType,
) -> Result<String<A>, Starved>
    ensures { IfOk result (λ s. AreLines A catalog.now name (type_number kind) (string_bytes s)) }
{
    let query = query_bytes(alloc, name, kind)?;
    let asked = read_query(alloc, &query)?;
    lines_of(alloc, catalog, &asked)
}

// The lines of the reply to what was asked over UDP.
fn lines_of<A: Heap>(
    alloc: A,
    catalog: &Catalog<A>,
    asked: &Request<A>,
) -> Result<String<A>, Starved>
    ensures { IfOk result (λ s. AreLinesOf catalog.now asked.now (string_bytes s)) }
{
    match asked {
        Request::Drop => Ok(String::new(alloc)),
        Request::Refuse(refusal, start, echo) => {
            let reply = refusal_bytes(&mut Writer::new(alloc)?, *refusal, *start, lent_echo(echo))?;
            Ok(printed(alloc, &reply, None)?)
        }
        Request::Query(query) => Ok(answer_lines(alloc, catalog, query)?),
    }
}

// The lines of the reply over UDP to a query.
fn answer_lines<A: Heap>(
    alloc: A,
    catalog: &Catalog<A>,
    query: &Query<A>,
) -> Result<String<A>, Starved>
    ensures { IfOk result (λ s. AreLinesOf catalog.now (asked.Query query.now) (string_bytes s)) }
{
    let outcome = answer_local(alloc, query, catalog)?;
    outcome_lines(alloc, query, &outcome)
}

// The lines of the reply over UDP that says what came of a query.
fn outcome_lines<A: Heap>(
    alloc: A,
    query: &Query<A>,
    outcome: &Outcome<A>,
) -> Result<String<A>, Starved>
    ensures { IfOk result (λ s. ArePrinted (encoding (reply_of via.Udp query.now outcome.now).0) 1 (reply_of via.Udp query.now outcome.now).1 [] (string_bytes s)) }
{
    let (reply, cause) = reply_bytes(&mut Writer::new(alloc)?, query, outcome, Via::Udp)?;
    Ok(printed(alloc, &reply, cause)?)
}

// The lines of a reply's bytes, which are a message.
fn printed<A: Heap>(alloc: A, reply: &[u8], cause: Option<Cause>) -> Result<String<A>, Starved>
    requires { AreMessage reply.now }
    ensures { IfOk result (λ s. ArePrinted reply.now 1 cause [] (string_bytes s)) }
{
    let mut out = String::new(alloc);
    put_reply_bytes(alloc, &mut out, CLIENT, reply, cause)?;
    Ok(out)
}

// The bytes of the query.
fn query_bytes<A: Heap>(alloc: A, name: Name<A>, kind: RType) -> Result<Vec<u8, A>, Starved>
    ensures { IfOk result (λ v. v.items ≡ encoding (query_for name (type_number kind))) }
{
    let mut questions = Questions::new(alloc);
    questions.push(Question {
        name,
        qtype: kind.number(),
        qclass: INTERNET,
    })?;
    let query = Message {
        header: query_header(),
        questions,
        answer: Records::new(alloc),
        authority: Records::new(alloc),
        additional: Records::new(alloc),
    };
    // A header and one question have at most 271 bytes: only memory can be refused.
    match encode(alloc, &query, UDP_LIMIT) {
        Ok(bytes) => Ok(bytes),
        Err(_) => Err(Starved),
    }
}

fn query_header() -> Header
    ensures { result ≡ (query_for [] 0).header }
{
    Header::query(1, false)
}
