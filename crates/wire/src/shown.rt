//! Messages in words, for logs and tests.
ghost use Rattle.std.specs.Prelude.{Some, flat_map};
ghost use Rattle.wire.specs.Shown.{flag_text, header_text, question_text, question_line, record_line, message_text};

use crate::header::Header;
use crate::message::{Message, Question, Questions};
use rdata::Record;
use std::alloc::Allocator;
use std::fmt;

// A flag and its word.
#[derive(Clone, Copy)]
struct Flag(bool, &'static str);

/// The word behind a space, where the flag is set.
impl fmt::Display for Flag {
    ghost output = { λ f. Some (flag_text f.0 f.1.now) };

    #[tactic(auto, unfolding(crate::specs::Shown::flag_text))]
    fn fmt<W: fmt::Write>(&self, f: &mut fmt::Formatter<W>) -> fmt::Result {
        if self.0 {
            return write!(f, " {}", self.1);
        }
        Ok(())
    }
}

/// The numbers, then the flags that are set.
impl fmt::Display for Header {
    ghost output = { λ h. Some (header_text h) };

    #[tactic(auto, unfolding(crate::specs::Shown::header_text))]
    fn fmt<W: fmt::Write>(&self, f: &mut fmt::Formatter<W>) -> fmt::Result {
        let (id, opcode, rcode) = (self.id, self.opcode, self.rcode);
        let (qr, aa, tc) = (
            Flag(self.qr, "qr"),
            Flag(self.aa, "aa"),
            Flag(self.tc, "tc"),
        );
        let (rd, ra) = (Flag(self.rd, "rd"), Flag(self.ra, "ra"));
        write!(f, "id {id} opcode {opcode} rcode {rcode}")?;
        write!(f, "{qr}{aa}{tc}{rd}{ra}")
    }
}

/// Name, class and type.
impl<A: Allocator> fmt::Display for Question<A> {
    ghost output = { λ q. Some (question_text q) };

    fn fmt<W: fmt::Write>(&self, f: &mut fmt::Formatter<W>) -> fmt::Result {
        let (name, qclass, qtype) = (&self.name, self.qclass, self.qtype);
        write!(f, "{name} class {qclass} type {qtype}")
    }
}

/// A line for each question.
impl<A: Allocator> fmt::Display for Questions<A> {
    ghost output = { λ qs. Some (flat_map question_line qs) };

    #[tactic(auto, unfolding(crate::specs::Shown::question_line))]
    fn fmt<W: fmt::Write>(&self, f: &mut fmt::Formatter<W>) -> fmt::Result {
        for question in self.as_slice() {
            write!(f, "\n  qd {question}")?;
        }
        Ok(())
    }
}

// The records of a section, and its word.
#[derive(Drop)]
struct Section<'a, A: Allocator>(&'static str, &'a [Record<A>]);

/// A line for each record.
impl<A: Allocator> fmt::Display for Section<'_, A> {
    ghost output = { λ s. Some (flat_map (record_line s.0.now) s.1.now) };

    #[tactic(auto, unfolding(crate::specs::Shown::record_line))]
    fn fmt<W: fmt::Write>(&self, f: &mut fmt::Formatter<W>) -> fmt::Result {
        for line in self.1 {
            write!(f, "\n  {} {line}", self.0)?;
        }
        Ok(())
    }
}

/// The header, then a line for each question and record.
impl<A: Allocator> fmt::Display for Message<A> {
    ghost output = { λ m. Some (message_text m) };

    fn fmt<W: fmt::Write>(&self, f: &mut fmt::Formatter<W>) -> fmt::Result {
        let (header, questions) = (self.header, &self.questions);
        let answer = Section("an", self.answer.as_slice());
        let authority = Section("ns", self.authority.as_slice());
        let additional = Section("ar", self.additional.as_slice());
        write!(f, "{header}{questions}")?;
        write!(f, "{answer}{authority}{additional}")
    }
}

/// The question, as it is displayed.
impl<A: Allocator> fmt::Debug for Question<A> {
    ghost debug_output = { λ q. Some (question_text q) };

    fn fmt<W: fmt::Write>(&self, f: &mut fmt::Formatter<W>) -> fmt::Result {
        fmt::Display::fmt(self, f)
    }
}

/// The message, as it is displayed.
impl<A: Allocator> fmt::Debug for Message<A> {
    ghost debug_output = { λ m. Some (message_text m) };

    fn fmt<W: fmt::Write>(&self, f: &mut fmt::Formatter<W>) -> fmt::Result {
        fmt::Display::fmt(self, f)
    }
}
