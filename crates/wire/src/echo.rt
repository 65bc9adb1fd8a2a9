//! The question that a reply repeats.
ghost use Rattle.std.specs.Prelude.{◌≡◌};
ghost use Rattle.wire.specs.Echoes.{same_question, same_question_per, same_question_equiv};

use crate::spelling::Spelling;
use memory::Heap;
use std::alloc::{AllocError, Allocator, Global};
use std::cmp::Eq;
use std::marker::Model;

/// A question in the client's own letters.
#[derive(Drop)]
pub struct Echo<A: Allocator = Global> {
    /// QNAME as the client wrote it, and in lower case.
    pub spelling: Spelling<A>,
    /// QTYPE: any number, served or not (RFC 1035, section 3.2.3).
    pub qtype: u16,
    /// QCLASS: 1 is IN (RFC 1035, section 3.2.4).
    pub qclass: u16,
}

impl<A: Allocator> Model for Echo<A> {
    ghost use Rattle.message_grammar.specs.Messages.{Question};

    ghost Value = { Question };

    ghost view = { λ e. record { name = e.spelling; qtype = e.qtype; qclass = e.qclass } };
}

impl<A: Heap> Clone for Echo<A> {
    ghost is_clone = { λ x y. y ≡ x };

    fn clone(&self) -> Result<Echo<A>, AllocError> {
        Ok(Echo {
            spelling: self.spelling.clone()?,
            qtype: self.qtype,
            qclass: self.qclass,
        })
    }
}

impl<A: Allocator> PartialEq for Echo<A> {
    ghost eq = { same_question };

    ghost laws = { same_question_per };

    fn eq(&self, other: &Echo<A>) -> bool {
        self.qtype == other.qtype && self.qclass == other.qclass && self.spelling == other.spelling
    }
}

impl<A: Allocator> Eq for Echo<A> {
    ghost laws = { same_question_equiv };
}
