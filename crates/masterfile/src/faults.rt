//! Why a text is no master file.
ghost use Rattle.std.specs.Prelude.{◌≡◌, Some};
ghost use Rattle.masterfile.specs.Faults.{kind_number, kind_text, error_text};

use std::alloc::{AllocError, AllocFailed};
use std::fmt;

/// The fault of an entry.
#[derive(Clone, Copy, Debug, PartialEq, Eq)]
pub enum FileKind {
    /// A type that is not served, a second TTL or a second class.
    UnknownType,
    /// A name that is none, or too long with the origin.
    BadName,
    /// A number out of its range.
    BadNumber,
    /// No TTL: none stands here, no `$TTL` before, and no record stated one.
    NoTtl,
    /// A record without an owner, where no entry before it had one.
    NoOwner,
    /// A parenthesis or a quote that is not closed, or a parenthesis that closes none or stands within another.
    OpenText,
    /// A directive other than `$ORIGIN` and `$TTL`.
    UnknownDirective,
    /// A class other than `IN`.
    BadClass,
    /// Data missing, of the wrong form or too long, words left over, or a quote where none may stand.
    BadData,
    /// A growth was refused.
    Memory,
}

impl FileKind {
    /// The kind's number, from 1 on in the order of the variants.
    pub fn number(self) -> u8
        ensures { result ≡ kind_number self }
    {
        match self {
            FileKind::UnknownType => 1,
            FileKind::BadName => 2,
            FileKind::BadNumber => 3,
            FileKind::NoTtl => 4,
            FileKind::NoOwner => 5,
            FileKind::OpenText => 6,
            FileKind::UnknownDirective => 7,
            FileKind::BadClass => 8,
            FileKind::BadData => 9,
            FileKind::Memory => 10,
        }
    }
}

impl fmt::Display for FileKind {
    ghost output = { λ k. Some (kind_text k) };

    fn fmt<W: fmt::Write>(&self, f: &mut fmt::Formatter<W>) -> fmt::Result {
        f.write_str(match self {
            FileKind::UnknownType => "unknown type",
            FileKind::BadName => "bad name",
            FileKind::BadNumber => "number out of range",
            FileKind::NoTtl => "no TTL",
            FileKind::NoOwner => "no owner",
            FileKind::OpenText => "parenthesis or quote without its other half",
            FileKind::UnknownDirective => "unknown directive",
            FileKind::BadClass => "bad class",
            FileKind::BadData => "bad data",
            FileKind::Memory => "out of memory",
        })
    }
}

impl std::error::Error for FileKind {}

impl From<AllocError> for FileKind {
    ghost use Rattle.masterfile.specs.declared.faults.FileKind.TheVariants.{Memory};

    ghost from_gives = { λ _ e. e ≡ Memory };

    fn from(_error: AllocError) -> FileKind {
        FileKind::Memory
    }
}

impl<T: Drop> From<AllocFailed<T>> for FileKind {
    ghost use Rattle.masterfile.specs.declared.faults.FileKind.TheVariants.{Memory};

    ghost from_gives = { λ _ e. e ≡ Memory };

    fn from(_error: AllocFailed<T>) -> FileKind {
        FileKind::Memory
    }
}

impl From<memory::Starved> for FileKind {
    ghost use Rattle.masterfile.specs.declared.faults.FileKind.TheVariants.{Memory};

    ghost from_gives = { λ _ e. e ≡ Memory };

    fn from(_error: memory::Starved) -> FileKind {
        FileKind::Memory
    }
}

/// The first fault of a text: the line on which its entry starts, counted from 1, and the kind of the fault.
#[derive(Clone, Copy, Debug, PartialEq, Eq)]
pub struct FileError {
    /// The number of the line on which the entry starts, from 1 on.
    pub line: usize,
    /// The kind of the fault.
    pub kind: FileKind,
}

impl fmt::Display for FileError {
    ghost output = { λ e. Some (error_text e) };

    fn fmt<W: fmt::Write>(&self, f: &mut fmt::Formatter<W>) -> fmt::Result {
        write!(f, "line {}: {}", self.line, self.kind)
    }
}

impl std::error::Error for FileError {}
