//! What comes of an ask that went out.
ghost use Rattle.std.specs.Prelude.{◌≡◌, ◌≤◌, [], ◌∷◌, IfOk, IfSome, length, option_map};
ghost use Rattle.dname.specs.Labels.{IsName};
ghost use Rattle.message_grammar.specs.Messages as layouts;
ghost use Rattle.message_grammar.specs.Messages.{IsMessage};
ghost use Rattle.network.specs.Networks.{truncated, IsGiven, IsTruncatedReply, IsFitReply};
ghost use Rattle.simnet.specs.Replies.{AsksOne};

use crate::sent::Sent;
use events::Bytes;
use front::echo_is_question;
use memory::{Heap, Starved};
use rdata::Records;
use std::alloc::Allocator;
use wire::{Message, UDP_LIMIT, WireError, decode, encode};
use worlds::{World, host_reply};

/// What the server at the address of an ask replies, if anything: a message of one question, of
/// 65,535 bytes at most.
pub fn given<A: Heap>(
    alloc: A,
    world: &World<A>,
    sent: &Sent<A>,
) -> Result<Option<Vec<u8, A>>, Starved>
    ensures is { IfOk result (λ r. IsGiven world.now sent.now (option_map (λ v. v.items) r)) }
    ensures asks { IfOk result (λ r. IfSome r (λ v. AsksOne v.items)) }
    ensures short { IfOk result (λ r. IfSome r (λ v. length v.items ≤ 65535)) }
{
    world.well_formed_law();
    echo_is_question(alloc);
    Ok(host_reply(alloc, world, sent.to.address, sent.bytes.as_slice())?)
}

// The names of a message's questions are names.
fn names_law<A: Allocator>(message: &Message<A>)
    ensures { (q : layouts.Question) → message.now.questions ≡ q ∷ [] → IsName q.name }
{
    if let [question] = message.questions.as_slice() {
        question.name.well_formed_law();
    }
}

// A reply without its records, with TC.
fn without_records<A: Heap>(alloc: A, message: &mut Message<A>)
    ensures { message.new ≡ truncated message.old }
{
    message.header.tc = true;
    message.answer = Records::new(alloc);
    message.authority = Records::new(alloc);
    message.additional = Records::new(alloc);
}

fn written<A: Heap>(alloc: A, message: &Message<A>) -> Result<Bytes<A>, Starved>
    requires { (m : layouts.Message) × (q : layouts.Question) × (message.now ≡ truncated m) × (m.questions ≡ q ∷ []) }
    ensures encoded { IfOk result (λ b. b ≡ layouts.encoding message.now) }
    ensures stands { IfOk result (λ b. IsMessage b message.now) }
{
    names_law(message);
    match encode(alloc, message, UDP_LIMIT) {
        Ok(bytes) => Ok(Bytes::new(bytes)),
        Err(WireError::Memory) => Err(Starved),
        Err(_) => unreachable!(),
    }
}

/// A reply of one question, truncated (RFC 2181, section 9).
pub fn truncated<A: Heap>(alloc: A, given: &[u8]) -> Result<Bytes<A>, Starved>
    requires { AsksOne given.now }
    ensures { IfOk result (λ b. IsTruncatedReply given.now b) }
{
    match decode(alloc, given) {
        Ok(mut message) => {
            without_records(alloc, &mut message);
            Ok(written(alloc, &message)?)
        }
        Err(WireError::Memory) => Err(Starved),
        Err(_) => unreachable!(),
    }
}

/// A reply as a datagram has it: whole with at most 512 bytes, else truncated.
pub fn fit<A: Heap>(alloc: A, given: Vec<u8, A>) -> Result<Bytes<A>, Starved>
    requires { AsksOne given.items }
    ensures { IfOk result (λ b. IsFitReply given.items b) }
{
    if given.len() <= UDP_LIMIT {
        Ok(Bytes::new(given))
    } else {
        Ok(truncated(alloc, &given)?)
    }
}
