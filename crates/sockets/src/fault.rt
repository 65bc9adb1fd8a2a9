//! Why a frame is not taken, or not written.
ghost use Rattle.std.specs.Prelude.{◌≡◌, Some};
ghost use Rattle.sockets.specs.Faults.{frame_fault_number, frame_fault_text};
ghost use Rattle.sockets.specs.declared.fault.FrameError.TheVariants.{Memory};

use std::alloc::{AllocError, AllocFailed};
use std::fmt;

/// Why a frame is not taken, or not written.
#[derive(Clone, Copy, Debug, PartialEq, Eq)]
pub enum FrameError {
    /// The stream ends inside a frame.
    Short,
    /// A fault of the reader, an interrupted read too.
    Read,
    /// A fault of the writer, an interrupted write or one that takes no byte too.
    Write,
    /// A growth was refused.
    Memory,
}

impl FrameError {
    /// The number of the refusal.
    pub fn number(self) -> u8
        ensures { result ≡ frame_fault_number self }
    {
        match self {
            FrameError::Short => 1,
            FrameError::Read => 2,
            FrameError::Write => 3,
            FrameError::Memory => 4,
        }
    }
}

impl fmt::Display for FrameError {
    ghost output = { λ e. Some (frame_fault_text e) };

    fn fmt<W: fmt::Write>(&self, f: &mut fmt::Formatter<W>) -> fmt::Result {
        f.write_str(match self {
            FrameError::Short => "the stream ends inside a frame",
            FrameError::Read => "the stream cannot be read",
            FrameError::Write => "the stream cannot be written",
            FrameError::Memory => "out of memory",
        })
    }
}

impl std::error::Error for FrameError {}

impl From<AllocError> for FrameError {
    ghost from_gives = { λ _ e. e ≡ Memory };

    fn from(_error: AllocError) -> FrameError {
        FrameError::Memory
    }
}

impl<T: Drop> From<AllocFailed<T>> for FrameError {
    ghost from_gives = { λ _ e. e ≡ Memory };

    fn from(_error: AllocFailed<T>) -> FrameError {
        FrameError::Memory
    }
}
