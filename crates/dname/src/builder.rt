//! A name that is written label by label, within its bounds (RFC 1035, section 2.3.4).
ghost use Rattle.std.specs.Prelude.{◌≡◌, ◌+◌, ◌<◌, [], ◌∷◌, ◌++◌, length, Some, Ok, IfOk, OnOk, OnErr, MatchResult};
ghost use Rattle.dname.specs.Labels.{folded};
ghost use Rattle.dname.specs.Draft.{empty_draft, Refuses, pushed, shut};
ghost use Rattle.dname.specs.Overflows.{overflow_number, overflow_text};

use crate::bytes::NameBytes;
use crate::name::{LONGEST_NAME, Name};
use memory::{Heap, Starved};
use std::alloc::{AllocError, AllocFailed, Allocator, Global};
use std::fmt;
use std::marker::Model;

/// Why a byte or a label does not fit a name (RFC 1035, section 2.3.4).
#[derive(Clone, Copy, Debug, PartialEq, Eq)]
pub enum Overflow {
    /// The label would have over 63 bytes.
    LongLabel,
    /// The name would have over 255 bytes, with its length bytes and closing zero.
    LongName,
    /// A growth was refused.
    Memory,
}

impl Overflow {
    /// The refusal's number, 1 to 3 in the order of the variants: `LongName` is 2.
    pub fn number(self) -> u8
        ensures { result ≡ overflow_number self }
    {
        match self {
            Overflow::LongLabel => 1,
            Overflow::LongName => 2,
            Overflow::Memory => 3,
        }
    }
}

impl fmt::Display for Overflow {
    ghost output = { λ e. Some (overflow_text e) };

    fn fmt<W: fmt::Write>(&self, f: &mut fmt::Formatter<W>) -> fmt::Result {
        f.write_str(match self {
            Overflow::LongLabel => "label over 63 bytes",
            Overflow::LongName => "name over 255 bytes",
            Overflow::Memory => "out of memory",
        })
    }
}

impl std::error::Error for Overflow {}

impl From<AllocError> for Overflow {
    ghost use Rattle.dname.specs.declared.builder.Overflow.TheVariants.{Memory};

    ghost from_gives = { λ _ e. e ≡ Memory };

    fn from(_error: AllocError) -> Overflow {
        Overflow::Memory
    }
}

impl<T: Drop> From<AllocFailed<T>> for Overflow {
    ghost use Rattle.dname.specs.declared.builder.Overflow.TheVariants.{Memory};

    ghost from_gives = { λ _ e. e ≡ Memory };

    fn from(_error: AllocFailed<T>) -> Overflow {
        Overflow::Memory
    }
}

impl From<Starved> for Overflow {
    ghost use Rattle.dname.specs.declared.builder.Overflow.TheVariants.{Memory};

    ghost from_gives = { λ _ e. e ≡ Memory };

    fn from(_error: Starved) -> Overflow {
        Overflow::Memory
    }
}

/// A name that is being written, label by label: contracts see its closed labels and its open one.
#[derive(Drop)]
pub struct Builder<A: Allocator = Global> {
    pub(crate) bytes: Vec<u8, A>,
    // Where the open label's length will stand.
    pub(crate) start: usize,
}

impl<A: Allocator> Model for Builder<A> {
    ghost use Rattle.dname.specs.Draft.{Draft};
    ghost use Rattle.dname.specs.Written.{draft_of, IsWritten};

    ghost Value = { Draft };

    ghost view = { λ b. draft_of b.bytes.items b.start };

    ghost invariant = { λ b. IsWritten b.bytes.items b.start };
}

// The byte in lower case where it is a letter from A to Z, else the byte itself.
fn fold(byte: u8) -> u8
    ensures { result ≡ folded byte }
{
    byte.to_ascii_lowercase()
}

impl<A: Heap> Builder<A> {
    /// A draft without labels, and without a byte in its open label: `finish` makes the root of it.
    pub fn new(alloc: A) -> Result<Builder<A>, Starved>
        ensures { IfOk result (λ b. b ≡ empty_draft) }
    {
        let mut bytes = Vec::with_capacity(alloc, 64)?;
        bytes.push(0)?;
        Ok(Builder { bytes, start: 0 })
    }

    /// The number of bytes of the open label: 3 after `www`, and 0 once that is closed.
    pub fn open_len(&self) -> usize
        ensures { result ≡ length self.now.opened }
    {
        self.bytes.len() - self.start - 1
    }

    /// Writes one byte of the open label, in lower case: `W` as `w`. Refused, and nothing changed, where the label or
    /// the name would be too long or a growth is refused: a 64th byte is `LongLabel`.
    pub fn push(&mut self, byte: u8) -> Result<(), Overflow>
        ensures { MatchResult result (λ _. pushed self.old byte ≡ Ok self.new) (λ e. Refuses e (pushed self.old byte) × (self.new ≡ self.old)) }
    {
        if self.open_len() >= 63 {
            return Err(Overflow::LongLabel);
        }
        if self.bytes.len() >= LONGEST_NAME - 1 {
            return Err(Overflow::LongName);
        }
        self.bytes.push(fold(byte))?;
        Ok(())
    }

    /// Closes the open label, so that the next byte begins another one: `www`, `close`, `a` is the label `www` and an
    /// open `a`.
    pub fn close(&mut self) -> Result<(), Starved>
        requires { 0 < length self.old.opened }
        ensures ok { OnOk result (self.new ≡ shut self.old) }
        ensures err { OnErr result (self.new ≡ self.old) }
    {
        let size = self.bytes.len() - self.start - 1;
        self.bytes.push(0)?;
        self.bytes[self.start] = size as u8;
        self.start = self.bytes.len() - 1;
        Ok(())
    }

    /// The name that was written, with the root's label at its end: `www`, `close` is the name `www`.
    pub fn finish(self) -> Name<A>
        requires { self.opened ≡ [] }
        ensures { result ≡ self.closed ++ [] ∷ [] }
    {
        Name::from_wire(NameBytes::of_vec(self.bytes))
    }
}
