//! Why a text of lines is refused.
ghost use Rattle.std.specs.Prelude.{◌≡◌, Some};
ghost use Rattle.text_lines.specs.Faults.{line_fault_number, kind_of_name, kind_text, error_text};
ghost use Rattle.text_lines.specs.declared.fault.LineKind.TheVariants.{Memory};

use dname::NameError;
use memory::Starved;
use std::alloc::{AllocError, AllocFailed};
use std::fmt;

/// What is wrong with a line.
#[derive(Clone, Copy, Debug, PartialEq, Eq)]
pub enum LineKind {
    /// A first word that opens no such line.
    UnknownWord,
    /// A number that is none, or out of its limits.
    BadNumber,
    /// A name that is none.
    BadName,
    /// A type that is not served.
    BadType,
    /// A word missing, or words left over.
    WordCount,
    /// Hexadecimal digits that are none, or not as many as are wanted.
    BadHex,
    /// A block that no line `end` closes.
    OpenBlock,
    /// An address that is none.
    BadAddress,
    /// A growth was refused.
    Memory,
}

impl LineKind {
    /// The number of the refusal.
    pub fn number(self) -> u8
        ensures { result ≡ line_fault_number self }
    {
        match self {
            LineKind::UnknownWord => 1,
            LineKind::BadNumber => 2,
            LineKind::BadName => 3,
            LineKind::BadType => 4,
            LineKind::WordCount => 5,
            LineKind::BadHex => 6,
            LineKind::OpenBlock => 7,
            LineKind::BadAddress => 8,
            LineKind::Memory => 9,
        }
    }
}

impl fmt::Display for LineKind {
    ghost output = { λ k. Some (kind_text k) };

    fn fmt<W: fmt::Write>(&self, f: &mut fmt::Formatter<W>) -> fmt::Result {
        f.write_str(match self {
            LineKind::UnknownWord => "a first word that opens no line",
            LineKind::BadNumber => "a bad number",
            LineKind::BadName => "a bad name",
            LineKind::BadType => "a type that is not served",
            LineKind::WordCount => "a word missing or left over",
            LineKind::BadHex => "bad hexadecimal digits",
            LineKind::OpenBlock => "a block without its end",
            LineKind::BadAddress => "a bad address",
            LineKind::Memory => "out of memory",
        })
    }
}

impl std::error::Error for LineKind {}

impl From<AllocError> for LineKind {
    ghost from_gives = { λ _ e. e ≡ Memory };

    fn from(_error: AllocError) -> LineKind {
        LineKind::Memory
    }
}

impl<T: Drop> From<AllocFailed<T>> for LineKind {
    ghost from_gives = { λ _ e. e ≡ Memory };

    fn from(_error: AllocFailed<T>) -> LineKind {
        LineKind::Memory
    }
}

impl From<Starved> for LineKind {
    ghost from_gives = { λ _ e. e ≡ Memory };

    fn from(_error: Starved) -> LineKind {
        LineKind::Memory
    }
}

impl From<NameError> for LineKind {
    ghost from_gives = { λ error e. e ≡ kind_of_name error };

    fn from(error: NameError) -> LineKind {
        match error {
            NameError::Memory => LineKind::Memory,
            _ => LineKind::BadName,
        }
    }
}

/// The first line of a text that is refused, counted from 1, and what is wrong with it.
#[derive(Clone, Copy, Debug, PartialEq, Eq)]
pub struct LineError {
    /// The number of the line, from 1 on.
    pub line: usize,
    /// What is wrong with it.
    pub kind: LineKind,
}

impl fmt::Display for LineError {
    ghost output = { λ e. Some (error_text e) };

    fn fmt<W: fmt::Write>(&self, f: &mut fmt::Formatter<W>) -> fmt::Result {
        write!(f, "line {}: {}", self.line, self.kind)
    }
}

impl std::error::Error for LineError {}
