//! Writing asks and replies.
ghost use Rattle.std.specs.Prelude.{◌≡◌, ◌≤◌, ◌<◌, IfOk, length, option_copied};
ghost use Rattle.runs.specs.Messages.{AreWritten, asking_header, asking_message, IsSent, IsReply, IsRefusal};
ghost use Rattle.dname.specs.Labels.{wire};
ghost use Rattle.message_grammar.specs.Messages.{IsMessage, encoding, folded_message};
ghost use Rattle.events.specs.Paths.{endpoint_view, path_view, directed};
ghost use Rattle.events.specs.Plain.{plain_outcome};
ghost use Rattle.events.specs.Views.{action_view, bytes_in};
ghost use Rattle.wire.specs.Limits.{limit_of};

use crate::action::Action;
use crate::ask::Ask;
use crate::bytes::Bytes;
use crate::client_query::ClientQuery;
use crate::path::{Endpoint, Path};
use front::{Outcome, Refusal, Start, refusal_bytes, reply_bytes};
use memory::{Heap, Starved};
use rdata::{INTERNET, Records};
use std::alloc::Allocator;
use wire::{Echo, Header, Message, Question, Questions, UDP_LIMIT, Via, WireError, Writer, encode};

/// An iterative query as it goes out on its path, to the server's `port`: one question in class IN, RD clear, at most 512
/// bytes (RFC 1035, sections 2.3.4 and 4.1.2).
pub fn send<A: Heap>(alloc: A, port: u16, ask: &Ask<A>) -> Result<Action<A>, Starved>
    ensures sent { IfOk result (λ a. IsSent port ask.now (action_view a)) }
    ensures short { IfOk result (λ a. length (bytes_in (action_view a)) ≤ UDP_LIMIT) }
{
    let bytes = ask_bytes(alloc, ask)?;
    let to = Endpoint {
        address: ask.server,
        port,
    };
    Ok(on_path(ask.path, to, bytes))
}

fn on_path<A: Heap>(path: Path, to: Endpoint, bytes: Bytes<A>) -> Action<A>
    ensures is { action_view result ≡ directed (path_view path) (endpoint_view to) bytes }
    ensures bytes { bytes_in (action_view result) ≡ bytes }
{
    match path {
        Path::Udp(socket) => Action::Send { socket, to, bytes },
        Path::Tcp(number) => Action::TcpAsk { number, to, bytes },
    }
}

// The bytes of an ask.
fn ask_bytes<A: Heap>(alloc: A, ask: &Ask<A>) -> Result<Bytes<A>, Starved>
    ensures written { IfOk result (λ b. AreWritten b (asking_message ask.now)) }
    ensures short { IfOk result (λ b. length b ≤ UDP_LIMIT) }
{
    let message = ask_message(alloc, ask)?;
    short_law(ask);
    match encode(alloc, &message, UDP_LIMIT) {
        Ok(bytes) => Ok(Bytes::new(bytes)),
        Err(WireError::Memory) => Err(Starved),
        Err(_) => unreachable!(),
    }
}

/// The encoding of each ask is that ask (RFC 1035, section 4.1), before it is written.
pub fn ask_is_message<A: Allocator>(ask: &Ask<A>)
    ensures { IsMessage (encoding (asking_message ask.now)) (folded_message (asking_message ask.now)) }
{
    ask.name.well_formed_law();
    short_law(ask);
    id_law(ask.id);
    let _ = ask.kind.number();
}

// An ID has 16 bits.
fn id_law(id: u16)
    ensures { id < 65536 }
{}

// A name has at most 255 bytes.
fn short_law<A: Allocator>(ask: &Ask<A>)
    ensures { length (wire ask.now.name) ≤ 255 }
{
    let _ = ask.name.size();
}

// An ask as a message.
fn ask_message<A: Heap>(alloc: A, ask: &Ask<A>) -> Result<Message<A>, Starved>
    ensures { IfOk result (λ m. m ≡ asking_message ask.now) }
{
    let mut questions = Questions::new(alloc);
    questions.push(Question {
        name: ask.name.copied(alloc)?,
        qtype: ask.kind.number(),
        qclass: INTERNET,
    })?;
    Ok(Message {
        header: ask_header(ask.id),
        questions,
        answer: Records::new(alloc),
        authority: Records::new(alloc),
        additional: Records::new(alloc),
    })
}

fn ask_header(id: u16) -> Header
    ensures { result ≡ asking_header id }
{
    Header::query(id, false)
}

/// The reply of an outcome to the client who asked, by its way and within its limit, with the cause of a
/// SERVFAIL.
pub fn reply_to<A: Heap>(
    writer: &mut Writer<A>,
    client_query: &ClientQuery<A>,
    outcome: &Outcome<A>,
) -> Result<Action<A>, Starved>
    ensures reply { IfOk result (λ a. IsReply client_query.now (plain_outcome outcome.now) (action_view a)) }
    ensures short { IfOk result (λ a. length (bytes_in (action_view a)) ≤ limit_of client_query.now.way) }
{
    let (bytes, cause) = reply_bytes(writer, &client_query.query, outcome, client_query.way)?;
    Ok(Action::Reply {
        client: client_query.client,
        way: client_query.way,
        bytes: Bytes::new(bytes),
        cause,
    })
}

/// The refusal of bytes that are no query to be answered, to the client who sent them, by its way; with its question,
/// if there is one.
pub fn refuse<A: Heap>(
    writer: &mut Writer<A>,
    client: u64,
    way: Via,
    refusal: Refusal,
    start: Start,
    echo: Option<&Echo<A>>,
) -> Result<Action<A>, Starved>
    ensures reply { IfOk result (λ a. IsRefusal client way refusal start (option_copied echo.entry) (action_view a)) }
    ensures short { IfOk result (λ a. length (bytes_in (action_view a)) ≤ UDP_LIMIT) }
{
    let bytes = refusal_bytes(writer, refusal, start, echo)?;
    Ok(Action::Reply {
        client,
        way,
        bytes: Bytes::new(bytes),
        cause: None,
    })
}
