//! A server's message, read before it is known to which ask it replies, if to any.
ghost use Rattle.std.specs.Prelude.{◌≡◌, ℕ, true, [], ◌∷◌, ◌&&◌, not, nat_eq, min, length, IfOk, MatchOption, IsTrue, ◌↔◌};
ghost use Rattle.rdata.specs.Sets.{lowest_ttl};
ghost use Rattle.rdata.specs.Types.{type_number};
ghost use Rattle.message_grammar.specs.Laws.{AreUnderRoot};
ghost use Rattle.classify.specs.Classes as plain;
ghost use Rattle.classify.specs.Narrowed.{IsCut, uncut, class_at_root};
ghost use Rattle.classify.specs.Read.{IsReadingOf, IsNoReply, AreRead};
ghost use Rattle.classify.specs.Views.{class_view, reading_view, read_view};

use crate::class::{Class, Referral};
use crate::sections::all_addresses_in;
use crate::table::classify;
use dname::Name;
use limits::MAX_GLUE;
use memory::{Heap, Starved};
use rdata::{INTERNET, RType};
use std::alloc::{Allocator, Global};
use wire::rcode::SERV_FAIL;
use wire::{Question, Via, View};

/// What is read of a server's message: all by which it is matched with an ask, and all for which it is used.
#[derive(Drop)]
pub struct Reading<A: Allocator = Global> {
    /// The ID of its header, which is that of the ask (RFC 1035, section 4.1.1).
    pub id: u16,
    /// QNAME of its one question.
    pub name: Name<A>,
    /// QTYPE of its one question, whose class is IN.
    pub kind: RType,
    /// Whether the server says that it failed to answer: SERVFAIL, and not truncated (RFC 2308, section 7.1).
    pub failed: bool,
    /// Its class at the root, with all addresses of a referral's servers; `narrow` gives its class at a zone.
    pub class: Class<A>,
}

/// What is read of a server's message that came this way. None where the bytes are no message, and where it is no reply
/// of operation 0 with one question, for a served type in class IN: such a message replies to no ask.
pub fn read<A: Heap>(alloc: A, via: Via, bytes: &[u8]) -> Result<Option<Reading<A>>, Starved>
    ensures { IfOk result (λ o. AreRead via bytes.now (read_view o)) }
{
    match View::new(alloc, bytes) {
        Ok(message) => Ok(read_message(alloc, via, &message)?),
        Err(_) => Ok(None),
    }
}

// What is read of a message.
fn read_message<A: Heap>(
    alloc: A,
    via: Via,
    message: &View<'_, A>,
) -> Result<Option<Reading<A>>, Starved>
    ensures { AreUnderRoot message.now → IfOk result (λ o. MatchOption o (IsNoReply message.now) (λ r. IsReadingOf via message.now (reading_view r))) }
{
    if !is_reply(message) {
        return Ok(None);
    }
    match message.question(alloc)? {
        None => Ok(None),
        Some(question) => Ok(read_reply(alloc, via, message, question)?),
    }
}

// Whether it is a reply to a standard query.
fn is_reply<A: Allocator>(message: &View<'_, A>) -> bool
    ensures { IsTrue result ↔ ((message.now.header.qr ≡ true) × (message.now.header.opcode ≡ 0)) }
{
    let header = message.header();
    header.qr && header.opcode == 0
}

// What is read of a reply to this question.
fn read_reply<A: Heap>(
    alloc: A,
    via: Via,
    message: &View<'_, A>,
    question: Question<A>,
) -> Result<Option<Reading<A>>, Starved>
    requires reply { (message.now.header.qr ≡ true) × (message.now.header.opcode ≡ 0) }
    requires only { message.now.questions ≡ question ∷ [] }
    ensures { AreUnderRoot message.now → IfOk result (λ o. MatchOption o (IsNoReply message.now) (λ r. IsReadingOf via message.now (reading_view r))) }
{
    match RType::from_number(question.qtype) {
        Some(kind) if question.qclass == INTERNET => {
            let class = class_at_root(alloc, &question.name, kind, via, message)?;
            let header = message.header();
            Ok(Some(Reading {
                id: header.id,
                name: question.name,
                kind,
                failed: header.rcode == SERV_FAIL && !header.tc,
                class,
            }))
        }
        _ => Ok(None),
    }
}

// The class of a reply to this question at the root, with all addresses of a referral's servers.
fn class_at_root<A: Heap>(
    alloc: A,
    name: &Name<A>,
    kind: RType,
    via: Via,
    message: &View<'_, A>,
) -> Result<Class<A>, Starved>
    ensures { IfOk result (λ c. class_view c ≡ class_at_root name.now (type_number kind) via message.now) }
{
    let root = Name::root(alloc)?;
    let class = classify(alloc, &root, name, kind, via, message)?;
    Ok(uncut(alloc, &root, message, class)?)
}

// The class with all addresses of a referral's servers.
fn uncut<A: Heap>(
    alloc: A,
    zone: &Name<A>,
    message: &View<'_, A>,
    class: Class<A>,
) -> Result<Class<A>, Starved>
    requires { IsCut zone.now message.now (class_view class) }
    ensures { IfOk result (λ c. class_view c ≡ uncut zone.now message.now (class_view class)) }
{
    match class {
        Class::Answer(link) => Ok(Class::Answer(link)),
        Class::Referral(referral) => Ok(with_all_addresses(alloc, zone, message, referral)?),
        Class::Truncated => Ok(Class::Truncated),
        Class::Failed(failure) => Ok(Class::Failed(failure)),
    }
}

// A referral of fewer addresses than are used at most has all of them. Else the section is walked once more.
fn with_all_addresses<A: Heap>(
    alloc: A,
    zone: &Name<A>,
    message: &View<'_, A>,
    referral: Referral<A>,
) -> Result<Class<A>, Starved>
    requires { IsCut zone.now message.now (plain.Referral referral.owner referral.servers referral.addresses referral.ttl) }
    ensures { IfOk result (λ c. class_view c ≡ uncut zone.now message.now (plain.Referral referral.owner referral.servers referral.addresses referral.ttl)) }
{
    if referral.addresses.len() < MAX_GLUE {
        return Ok(Class::Referral(referral));
    }
    let Referral {
        owner,
        servers,
        addresses,
        ttl: _,
    } = referral;
    drop(addresses);
    let all = all_addresses_in(alloc, message.additional(), zone, servers.as_slice())?;
    Ok(Class::Referral(Referral::new(owner, servers, all)))
}
