//! Whether a datagram repeats the ask for which it came.
ghost use Rattle.std.specs.Prelude.{◌≡◌, ◌↔◌, IfOk, IsTrue, length};
ghost use Rattle.dispatch.specs.Repeats.{Repeats, RepeatsAsk, IsAcceptedFor};

use memory::{Heap, Starved};
use wire::{Message, Question, View, WireError, decode};

/// Whether a message repeats an ask: a reply of operation 0 under its ID, with its one question (RFC 5452, section
/// 9.1). Whatever the resolver accepts for the ask that went out in these bytes repeats it.
pub fn repeats<A: Heap>(alloc: A, ask: &[u8], reply: &[u8]) -> Result<bool, Starved>
    ensures exact { IfOk result (λ b. IsTrue b ↔ Repeats ask.now reply.now) }
    ensures kept { IfOk result (λ b. IsAcceptedFor ask.now reply.now → IsTrue b) }
{
    let asked = match decode(alloc, ask) {
        Ok(asked) => asked,
        Err(WireError::Memory) => return Err(Starved),
        Err(_) => return Ok(false),
    };
    match View::new(alloc, reply) {
        Ok(reply) => Ok(repeats_message(&asked, &reply)),
        Err(_) => Ok(false),
    }
}

fn repeats_message<A: Heap>(asked: &Message<A>, reply: &View<'_, A>) -> bool
    ensures { IsTrue result ↔ RepeatsAsk asked.now reply.now }
{
    let header = reply.header();
    header.qr
        && header.opcode == 0
        && header.id == asked.header.id
        && repeats_question(asked.questions.as_slice(), reply)
}

fn repeats_question<A: Heap>(asked: &[Question<A>], reply: &View<'_, A>) -> bool
    ensures { IsTrue result ↔ ((length asked.now ≡ 1) × (reply.now.questions ≡ asked.now)) }
{
    match asked {
        [question] => reply.asks_for(&question.name, question.qtype, question.qclass),
        _ => false,
    }
}
