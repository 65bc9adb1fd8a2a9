//! Messages and questions as values.
ghost use Rattle.std.specs.Prelude.{◌≡◌, [], ◌∷◌, ◌++◌, length, ◌↔◌, IsTrue, OnOk, OnErr};
ghost use Rattle.std.specs.List.{AllByRecursion};
ghost use Rattle.dname.specs.Labels.{IsName};

use crate::header::Header;
use dname::Name;
use memory::{Heap, Starved};
use rdata::Records;
use std::alloc::{Allocator, Global};
use std::marker::Model;

/// A question (RFC 1035, section 4.1.2), of any type and class.
#[derive(Drop)]
pub struct Question<A: Allocator = Global> {
    /// QNAME, in lower case.
    pub name: Name<A>,
    /// QTYPE: any number, served or not (RFC 1035, section 3.2.3).
    pub qtype: u16,
    /// QCLASS: 1 is IN (RFC 1035, section 3.2.4).
    pub qclass: u16,
}

impl<A: Allocator> Model for Question<A> {
    ghost use Rattle.message_grammar.specs.Messages.{Question};

    ghost Value = { Question };

    ghost view = { λ q. record { name = q.name; qtype = q.qtype; qclass = q.qclass } };
}

/// The questions of a message in order. Contracts see their list.
#[derive(Drop)]
pub struct Questions<A: Allocator = Global> {
    items: Vec<Question<A>, A>,
}

impl<A: Allocator> Model for Questions<A> {
    ghost use Rattle.std.specs.Prelude.{List};
    ghost use Rattle.message_grammar.specs.Messages.{Question};

    ghost Value = { List Question };

    ghost view = { λ q. q.items.items };
}

impl<A: Heap> Questions<A> {
    /// No questions: a list of length 0. Takes no memory.
    pub fn new(alloc: A) -> Questions<A>
        ensures { result ≡ [] }
    {
        Questions {
            items: Vec::new(alloc),
        }
    }

    /// Adds a question at the end: behind one it is the second.
    pub fn push(&mut self, added: Question<A>) -> Result<(), Starved>
        ensures ok { OnOk result (self.new ≡ self.old ++ added ∷ []) }
        ensures err { OnErr result (self.new ≡ self.old) }
    {
        self.items.push(added)?;
        Ok(())
    }
}

impl<A: Allocator> Questions<A> {
    /// How many questions there are: 1 after one `push`.
    pub fn len(&self) -> usize
        ensures { result ≡ length self.now }
    {
        self.items.len()
    }

    /// Whether there are no questions: true of a new list, false after a `push`.
    pub fn is_empty(&self) -> bool
        ensures { IsTrue result ↔ (self.now ≡ []) }
    {
        self.items.is_empty()
    }

    /// The questions in order: after `push` of a first and a second one, these two.
    pub fn as_slice(&self) -> &[Question<A>]
        ensures { result.now ≡ self.now }
    {
        &self.items
    }

    /// The name of each question is in lower case (RFC 1035, section 2.3.3).
    pub fn lower_case_law(&self)
        ensures { AllByRecursion (λ q. IsName q.name) self.now }
    {
        let questions = self.as_slice();
        for question in questions {
            question.name.well_formed_law();
        }
    }
}

/// A message (RFC 1035, section 4.1).
#[derive(Drop)]
pub struct Message<A: Allocator = Global> {
    /// The header but for the counts, which are those of the sections (section 4.1.1).
    pub header: Header,
    /// The question section (section 4.1.2).
    pub questions: Questions<A>,
    /// The answer section: records that answer the question, the CNAME chain first (RFC 1034, section 4.3.1).
    pub answer: Records<A>,
    /// The authority section: a zone's NS records at a referral, or the SOA record of a negative answer.
    pub authority: Records<A>,
    /// The additional section: such as the addresses of name servers.
    pub additional: Records<A>,
}

impl<A: Allocator> Model for Message<A> {
    ghost use Rattle.message_grammar.specs.Messages.{Message};

    ghost Value = { Message };

    ghost view = { λ m. record { header = m.header; questions = m.questions; answer = m.answer; authority = m.authority; additional = m.additional } };
}
