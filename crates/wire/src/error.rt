//! Why bytes are no message.
ghost use Rattle.std.specs.Prelude.{◌≡◌, Some};
ghost use Rattle.wire.specs.Errors.{number_of, fault_text};

use memory::Starved;
use std::alloc::{AllocError, AllocFailed};
use std::fmt;

/// Why bytes are no message, or a message has no bytes.
#[derive(Clone, Copy, Debug, PartialEq, Eq)]
pub enum WireError {
    /// A byte past the message's end.
    Short,
    /// A length byte with the top bits 01 or 10 (RFC 1035, section 4.1.4).
    BadLabel,
    /// A pointer that does not lead strictly before the part of the name that it stands in.
    PointerNotEarlier,
    /// A name of over 255 bytes (RFC 1035, section 2.3.4).
    NameTooLong,
    /// RDATA that ends before or after the end that RDLENGTH gives; a TXT without a string.
    BadRdataLength,
    /// A bad name in RDATA.
    BadRdataName,
    /// Bytes behind the last counted record.
    TrailingBytes,
    /// The message would be longer than the limit.
    OverLimit,
    /// A growth was refused.
    Memory,
}

impl WireError {
    /// Its number, 1 to 9: 2 of `BadLabel`.
    pub fn number(self) -> u8
        ensures { result ≡ number_of self }
    {
        match self {
            WireError::Short => 1,
            WireError::BadLabel => 2,
            WireError::PointerNotEarlier => 3,
            WireError::NameTooLong => 4,
            WireError::BadRdataLength => 5,
            WireError::BadRdataName => 6,
            WireError::TrailingBytes => 7,
            WireError::OverLimit => 8,
            WireError::Memory => 9,
        }
    }
}

impl fmt::Display for WireError {
    ghost output = { λ e. Some (fault_text e) };

    fn fmt<W: fmt::Write>(&self, f: &mut fmt::Formatter<W>) -> fmt::Result {
        f.write_str(match self {
            WireError::Short => "the message ends early",
            WireError::BadLabel => "bad label",
            WireError::PointerNotEarlier => "a pointer leads forward",
            WireError::NameTooLong => "name over 255 bytes",
            WireError::BadRdataLength => "bad length of RDATA",
            WireError::BadRdataName => "bad name in RDATA",
            WireError::TrailingBytes => "bytes behind the message",
            WireError::OverLimit => "message over its limit",
            WireError::Memory => "out of memory",
        })
    }
}

impl std::error::Error for WireError {}

impl From<Starved> for WireError {
    ghost use Rattle.wire.specs.declared.error.WireError.TheVariants.{Memory};

    ghost from_gives = { λ _ e. e ≡ Memory };

    fn from(_error: Starved) -> WireError {
        WireError::Memory
    }
}

impl From<AllocError> for WireError {
    ghost use Rattle.wire.specs.declared.error.WireError.TheVariants.{Memory};

    ghost from_gives = { λ _ e. e ≡ Memory };

    fn from(_error: AllocError) -> WireError {
        WireError::Memory
    }
}

impl<T: Drop> From<AllocFailed<T>> for WireError {
    ghost use Rattle.wire.specs.declared.error.WireError.TheVariants.{Memory};

    ghost from_gives = { λ _ e. e ≡ Memory };

    fn from(_error: AllocFailed<T>) -> WireError {
        WireError::Memory
    }
}
