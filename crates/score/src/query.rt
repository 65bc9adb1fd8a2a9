//! The bytes that clients send.
ghost use Rattle.std.specs.Prelude.{◌≡◌, false, IfOk};
ghost use Rattle.rdata.specs.Types.{type_number};
ghost use Rattle.message_grammar.specs.Messages.{encoding};
ghost use Rattle.score.specs.Clients.{query_for};

use dname::Name;
use events::Bytes;
use memory::{Heap, Starved};
use rdata::{INTERNET, RType, Records};
use wire::{Header, Message, Question, Questions, UDP_LIMIT, encode};

/// The query of a client for a name and a type: its ID is the client's number modulo 65,536, and RD says whether
/// recursion is desired.
pub fn query_bytes<A: Heap>(
    alloc: A,
    client: u64,
    name: Name<A>,
    kind: RType,
    recursive: bool,
) -> Result<Bytes<A>, Starved>
    ensures { IfOk result (λ b. b ≡ encoding (query_for client name (type_number kind) recursive)) }
{
    let mut questions = Questions::new(alloc);
    questions.push(Question {
        name,
        qtype: kind.number(),
        qclass: INTERNET,
    })?;
    let query = Message {
        header: header((client % 65_536) as u16, recursive),
        questions,
        answer: Records::new(alloc),
        authority: Records::new(alloc),
        additional: Records::new(alloc),
    };
    // A header and one question have at most 271 bytes: only memory can be refused.
    match encode(alloc, &query, UDP_LIMIT) {
        Ok(bytes) => Ok(Bytes::new(bytes)),
        Err(_) => Err(Starved),
    }
}

fn header(id: u16, rd: bool) -> Header
    ensures { result ≡ record { id = id; qr = false; opcode = 0; aa = false; tc = false; rd = rd; ra = false; z = 0; rcode = 0 } }
{
    Header::query(id, rd)
}
