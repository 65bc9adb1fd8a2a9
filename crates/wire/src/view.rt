//! A message that is read in its bytes.
ghost use Rattle.std.specs.Prelude.{◌≡◌, ◌≢◌, [], ◌∷◌, ◌↔◌, IfOk, IfErr, IsTrue, MatchOption};
ghost use Rattle.message_grammar.specs.Messages as layouts;
ghost use Rattle.message_grammar.specs.Messages.{IsMessage};
ghost use Rattle.wire.specs.declared.error.WireError.TheVariants.{Memory};
ghost use Rattle.wire.specs.Entries.{message_of};
ghost use Rattle.wire.specs.Results.{Gives};

use crate::chains::chain_ends;
use crate::error::WireError;
use crate::fields::two_at;
use crate::header::Header;
use crate::lent::Walk;
use crate::message::Question;
use crate::names::{is_named, name_at};
use crate::parts::Faults;
use crate::skips::{questions_end, section_end};
use dname::Name;
use memory::{Heap, Starved};
use std::alloc::{Allocator, Global};
use std::marker::Model;

/// A message that is read in its bytes, no further than it is used. Contracts see the message, as `decode` reads it.
#[derive(Drop)]
pub struct View<'a, A: Allocator = Global> {
    bytes: &'a [u8],
    // The table of the chains of pointers in its first bytes, if it has one.
    ends: Vec<u16, A>,
    // Where the sections of records begin.
    answer: usize,
    authority: usize,
    additional: usize,
}

impl<'a, A: Allocator> Model for View<'a, A> {
    ghost use Rattle.message_grammar.specs.Messages.{Message};
    ghost use Rattle.wire.specs.Views.{viewed, IsViewed};

    ghost Value = { Message };

    ghost view = { λ v. viewed v.bytes.now v.answer v.authority v.additional };

    ghost invariant = { λ v. IsViewed v.bytes.now v.ends.items v.answer v.authority v.additional };
}

impl<'a, A: Heap> View<'a, A> {
    /// The message that these bytes are (RFC 1035, section 4): of the 29 bytes of the query `www.example. A`, one whose
    /// sections have no records. Records of types that are not served and of classes other than IN are left out.
    /// Refused by the first fault from the left, and never for want of memory: of more than 512 bytes a table of their
    /// chains of pointers is made where there is memory for it.
    pub fn new(alloc: A, bytes: &'a [u8]) -> Result<View<'a, A>, WireError>
        ensures exact { Gives {Y = layouts.Message} (λ m. m) result (message_of bytes.now) }
        ensures read { IfOk result (λ m. IsMessage bytes.now m) }
        ensures refused { IfErr result (λ e. (m : layouts.Message) → IsMessage bytes.now m → ⊥) }
        ensures quiet { IfErr result (λ e. e ≢ Memory) }
    {
        if bytes.len() < 12 {
            return Err(WireError::Short);
        }
        let ends = chain_ends(alloc, bytes);
        let answer = questions_end(bytes, &ends, two_at(bytes, 4), 12)?;
        let authority = section_end(bytes, &ends, two_at(bytes, 6), answer)?;
        let additional = section_end(bytes, &ends, two_at(bytes, 8), authority)?;
        let end = section_end(bytes, &ends, two_at(bytes, 10), additional)?;
        if end != bytes.len() {
            return Err(WireError::TrailingBytes);
        }
        Ok(View {
            bytes,
            ends,
            answer,
            authority,
            additional,
        })
    }
}

impl<A: Allocator> View<'_, A> {
    /// Its header: that of a query under ID 7 has `id` 7.
    pub fn header(&self) -> Header
        ensures { result ≡ self.now.header }
    {
        Header::read(self.bytes)
    }

    /// Whether its one question is for this name, type and class: true of the query `www.example. A` for `www.example`,
    /// 1 and 1.
    pub fn asks_for<B: Allocator>(&self, name: &Name<B>, qtype: u16, qclass: u16) -> bool
        ensures { IsTrue result ↔ (self.now.questions ≡ record { name = name.now; qtype = qtype; qclass = qclass } ∷ []) }
    {
        if two_at(self.bytes, 4) != 1 {
            return false;
        }
        if two_at(self.bytes, self.answer - 4) != qtype {
            return false;
        }
        if two_at(self.bytes, self.answer - 2) != qclass {
            return false;
        }
        is_named(self.bytes, &self.ends, 12, name)
    }

    /// Its one question, with memory of its own: of the query `www.example. A`, that for `www.example`, 1 and 1. None
    /// where the header announces none or several.
    pub fn question<B: Heap>(&self, alloc: B) -> Result<Option<Question<B>>, Starved>
        ensures { IfOk result (λ o. MatchOption o ((q : layouts.Question) → self.now.questions ≡ q ∷ [] → ⊥) (λ q. self.now.questions ≡ q ∷ [])) }
    {
        let count = two_at(self.bytes, 4);
        if count != 1 {
            return Ok(None);
        }
        let qtype = two_at(self.bytes, self.answer - 4);
        let qclass = two_at(self.bytes, self.answer - 2);
        let faults = Faults::in_message();
        // The name was read before, so only memory can run out.
        match name_at(alloc, self.bytes, &self.ends, faults, self.bytes.len(), 12) {
            Ok((name, _)) => Ok(Some(Question {
                name,
                qtype,
                qclass,
            })),
            Err(_) => Err(Starved),
        }
    }

    /// The records of its answer section, one after the other: in a reply with two addresses, these two.
    pub fn answer(&self) -> Walk<'_>
        ensures { result ≡ self.now.answer }
    {
        Walk {
            bytes: self.bytes,
            ends: &self.ends,
            left: two_at(self.bytes, 6),
            place: self.answer,
        }
    }

    /// The records of its authority section, one after the other: in a referral, the NS records.
    pub fn authority(&self) -> Walk<'_>
        ensures { result ≡ self.now.authority }
    {
        Walk {
            bytes: self.bytes,
            ends: &self.ends,
            left: two_at(self.bytes, 8),
            place: self.authority,
        }
    }

    /// The records of its additional section, one after the other: in a referral, the glue.
    pub fn additional(&self) -> Walk<'_>
        ensures { result ≡ self.now.additional }
    {
        Walk {
            bytes: self.bytes,
            ends: &self.ends,
            left: two_at(self.bytes, 10),
            place: self.additional,
        }
    }
}
