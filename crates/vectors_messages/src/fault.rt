//! Why a row has no answer.
use dname::NameError;
use masterfile::{FileError, FileKind};
use memory::Starved;
use std::alloc::{AllocError, AllocFailed};
use wire::WireError;

/// Why a row has no answer.
#[derive(Clone, Copy, Debug, PartialEq, Eq)]
pub enum Fault {
    /// It is no row, or says what no command takes.
    NotUnderstood,
    /// Memory was refused.
    Memory,
}

/// What a command gives, whose words are appended by then.
pub type Answer = Result<(), Fault>;

/// Whether a row was understood.
pub fn is_understood(answer: Answer) -> Result<bool, Starved> {
    match answer {
        Ok(()) => Ok(true),
        Err(Fault::NotUnderstood) => Ok(false),
        Err(Fault::Memory) => Err(Starved),
    }
}

impl From<Starved> for Fault {
    fn from(_error: Starved) -> Fault {
        Fault::Memory
    }
}

impl From<AllocError> for Fault {
    fn from(_error: AllocError) -> Fault {
        Fault::Memory
    }
}

impl<T: Drop> From<AllocFailed<T>> for Fault {
    fn from(_error: AllocFailed<T>) -> Fault {
        Fault::Memory
    }
}

impl From<NameError> for Fault {
    fn from(error: NameError) -> Fault {
        match error {
            NameError::Memory => Fault::Memory,
            _ => Fault::NotUnderstood,
        }
    }
}

impl From<FileError> for Fault {
    fn from(error: FileError) -> Fault {
        match error.kind {
            FileKind::Memory => Fault::Memory,
            _ => Fault::NotUnderstood,
        }
    }
}

impl From<WireError> for Fault {
    fn from(error: WireError) -> Fault {
        match error {
            WireError::Memory => Fault::Memory,
            _ => Fault::NotUnderstood,
        }
    }
}
