//! Bytes read as a message.
ghost use Rattle.std.specs.Prelude.{◌≡◌, ◌≢◌, ◌≤◌, ◌⊎◌, List, length, IfOk, IfErr, IfNone, IsOk, MatchOption};
ghost use Rattle.rdata.specs.Records as plain;
ghost use Rattle.message_grammar.specs.Messages as layouts;
ghost use Rattle.message_grammar.specs.Messages.{IsMessage};
ghost use Rattle.wire.specs.declared.error.WireError.TheVariants.{Memory};
ghost use Rattle.wire.specs.Chains.{AreChainEnds};
ghost use Rattle.wire.specs.Numbers.{two_at};
ghost use Rattle.wire.specs.Entries.{message_first, message_second, message_of};
ghost use Rattle.wire.specs.Heads.{header_of};
ghost use Rattle.wire.specs.Asked.{AreBehind, IsOnlyQuestion, HasNotOne};
ghost use Rattle.wire.specs.Results.{Fails, Gives};

use crate::chains::chain_ends;
use crate::echo::Echo;
use crate::error::WireError;
use crate::fields::two_at;
use crate::header::Header;
use crate::message::Message;
use crate::names::spelling_at;
use crate::records::{questions_at, section_at};
use crate::skips::section_end;
use dname::Name;
use memory::Heap;
use rdata::Records;

// The authority and the additional section from a place on, up to the end of the bytes.
fn last_sections<A: Heap>(
    alloc: A,
    bytes: &[u8],
    ends: &[u16],
    at: usize,
) -> Result<(Records<A>, Records<A>), WireError>
    requires long { 12 ≤ length bytes.now }
    requires known { AreChainEnds bytes.now ends.now }
    ensures { (questions : List layouts.Question) (answer : List plain.Record) → Gives {Y = layouts.Message} (λ r. record { header = header_of bytes.now; questions = questions; answer = answer; authority = r.0; additional = r.1 }) result (message_second bytes.now questions (answer, at)) }
{
    let (authority, at) = section_at(alloc, bytes, ends, two_at(bytes, 8), at)?;
    let (additional, at) = section_at(alloc, bytes, ends, two_at(bytes, 10), at)?;
    if at != bytes.len() {
        return Err(WireError::TrailingBytes);
    }
    Ok((authority, additional))
}

// The message that these bytes are, by the table of its chains of pointers.
fn message_of<A: Heap>(alloc: A, bytes: &[u8], ends: &[u16]) -> Result<Message<A>, WireError>
    requires { AreChainEnds bytes.now ends.now }
    ensures exact { Gives {Y = layouts.Message} (λ m. m) result (message_of bytes.now) }
    ensures read { IfOk result (λ m. IsMessage bytes.now m) }
    ensures refused { IfErr result (λ e. (e ≡ Memory) ⊎ ((m : layouts.Message) → IsMessage bytes.now m → ⊥)) }
{
    if bytes.len() < 12 {
        return Err(WireError::Short);
    }
    let header = Header::read(bytes);
    let (questions, at) = questions_at(alloc, bytes, ends, two_at(bytes, 4), 12)?;
    let (answer, at) = section_at(alloc, bytes, ends, two_at(bytes, 6), at)?;
    let (authority, additional) = last_sections(alloc, bytes, ends, at)?;
    Ok(Message {
        header,
        questions,
        answer,
        authority,
        additional,
    })
}

/// The message that these bytes are (RFC 1035, section 4): of the 29 bytes of the query `www.example. A`, that query.
/// Records of types that are not served and of classes other than IN are left out. Refused by the first fault from the
/// left.
pub fn decode<A: Heap>(alloc: A, bytes: &[u8]) -> Result<Message<A>, WireError>
    ensures exact { Gives {Y = layouts.Message} (λ m. m) result (message_of bytes.now) }
    ensures read { IfOk result (λ m. IsMessage bytes.now m) }
    ensures refused { IfErr result (λ e. (e ≡ Memory) ⊎ ((m : layouts.Message) → IsMessage bytes.now m → ⊥)) }
{
    let ends = chain_ends(alloc, bytes);
    message_of(alloc, bytes, &ends)
}

// Whether the three sections of records stand from a place on, up to the end of the bytes, as `message_of` reads
// them. None is built.
fn check_sections<A: Heap>(alloc: A, bytes: &[u8], at: usize) -> Result<(), WireError>
    requires { 12 ≤ length bytes.now }
    ensures read { IfOk result (λ _. AreBehind bytes.now at) }
    ensures refused { IfErr result (λ e. (questions : List layouts.Question) → message_of bytes.now ≡ message_first bytes.now (questions, at) → Fails e (message_of bytes.now)) }
{
    let ends = chain_ends(alloc, bytes);
    let authority = section_end(bytes, &ends, two_at(bytes, 6), at)?;
    let additional = section_end(bytes, &ends, two_at(bytes, 8), authority)?;
    let end = section_end(bytes, &ends, two_at(bytes, 10), additional)?;
    if end != bytes.len() {
        return Err(WireError::TrailingBytes);
    }
    Ok(())
}

/// The question of a message that has one: its name in lower case, and the question in its own letters, read in one
/// walk. Of a query for `WWW.example.` these are `www.example` and `WWW.example`. None where the header announces none
/// or several: the rest is not looked at then. Refused where there is no header, or one question and bytes that are no
/// message.
pub fn decode_question<A: Heap>(
    alloc: A,
    bytes: &[u8],
) -> Result<Option<(Name<A>, Echo<A>)>, WireError>
    ensures read { IfOk result (λ o. MatchOption o (HasNotOne bytes.now) (λ q. IsOnlyQuestion bytes.now q.0 q.1)) }
    ensures refused { IfErr result (λ e. (e ≡ Memory) ⊎ ((m : layouts.Message) → IsMessage bytes.now m → ⊥)) }
    ensures none { IfOk result (λ o. IfNone o (two_at bytes.now 4 ≢ 1)) }
    ensures passed { 12 ≤ length bytes.now → two_at bytes.now 4 ≢ 1 → IsOk result }
{
    if bytes.len() < 12 {
        return Err(WireError::Short);
    }
    if two_at(bytes, 4) != 1 {
        return Ok(None);
    }
    let (spelling, at) = spelling_at(alloc, bytes, 12)?;
    if bytes.len() - at < 4 {
        return Err(WireError::Short);
    }
    check_sections(alloc, bytes, at + 4)?;
    let name = spelling.name().clone()?;
    let echo = Echo {
        spelling,
        qtype: two_at(bytes, at),
        qclass: two_at(bytes, at + 2),
    };
    Ok(Some((name, echo)))
}
