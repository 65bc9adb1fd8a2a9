//! Questions of clients, by their bytes: which are equal, and the failure of one as the reply to another.
ghost use Rattle.std.specs.Prelude.{◌≡◌, ◌↔◌, ◌++◌, ◌-◌, ℕ, ◌≤◌, IfOk, IfSome, IsTrue, MatchOption, length, take, drop};
ghost use Rattle.dispatch.specs.Questions.{HasQuestion, EndsName, IsFailure, FailureIsServfail};

use events::Bytes;
use memory::{Heap, Starved};

// Bytes of a message's header (RFC 1035, section 4.1.1).
const HEADER: usize = 12;

// Bytes of a name on the wire at most (RFC 1035, section 2.3.4).
const MOST_NAME: usize = 255;

// Bytes of a question's type and class.
const TYPE_AND_CLASS: usize = 4;

/// Where the one question of a message ends, whose name is not compressed: its last four bytes are the type and the
/// class. None where there is no such question.
pub fn question_end(message: &[u8]) -> Option<usize>
    ensures is { MatchOption result ((end : ℕ) → HasQuestion message.now end → ⊥) (HasQuestion message.now) }
    ensures room { IfSome result (λ end. (17 ≤ end) × (end ≤ length message.now)) }
{
    if message.get(4..6)? != [0, 1].as_slice() {
        return None;
    }
    let end = name_end(message)? + TYPE_AND_CLASS;
    if end > message.len() { None } else { Some(end) }
}

// Where the name ends that stands in full behind the header.
fn name_end(message: &[u8]) -> Option<usize>
    ensures is { MatchOption result ((end : ℕ) → EndsName message.now end → ⊥) (EndsName message.now) }
    ensures within { IfSome result (λ end. (13 ≤ end) × (end ≤ 267)) }
{
    let mut at = HEADER;
    while at < HEADER + MOST_NAME && at < message.len() {
        let size = message[at];
        if size == 0 {
            return Some(at + 1);
        }
        if size > 63 {
            return None;
        }
        at += 1 + usize::from(size);
    }
    None
}

/// Whether the RCODE of a reply is SERVFAIL (RFC 1035, section 4.1.1): that it is a reply is the caller's to know.
pub fn is_failure(message: &[u8]) -> bool
    ensures { IsTrue result ↔ IsFailure message.now }
{
    message.get(3).is_some_and(|flags| *flags % 16 == 2)
}

/// What it reads is what a header's field is.
pub fn flags_law()
    ensures { FailureIsServfail }
{}

/// The failure of a query as the reply to an equal one, whose question ends there: under that one's ID, and with its
/// question as it is spelt there.
pub fn failure_for<A: Heap>(
    alloc: A,
    failure: &[u8],
    query: &[u8],
    end: usize,
) -> Result<Bytes<A>, Starved>
    requires query { (17 ≤ end) × (end ≤ length query.now) }
    requires failure { 12 ≤ length failure.now }
    requires short { length query.now ≤ 65535 }
    ensures { IfOk result (λ b. b ≡ take 2 query.now ++ (take 10 (drop 2 failure.now) ++ take (end - 12) (drop 12 query.now))) }
{
    let mut bytes = Vec::from_slice(alloc, &query[..2])?;
    bytes.extend_from_slice(&failure[2..HEADER])?;
    bytes.extend_from_slice(&query[HEADER..end])?;
    Ok(Bytes::new(bytes))
}
