//! Why a server does not run.
ghost use Rattle.std.specs.Prelude.{◌≡◌, Some};
ghost use Rattle.server.specs.Faults.{serve_fault_number, serve_fault_text};

use std::alloc::AllocError;
use std::fmt;

/// Why a server does not run.
#[derive(Clone, Copy, Debug, PartialEq, Eq)]
pub enum ServeError {
    /// A growth was refused.
    Memory,
    /// The clock can't be read.
    Clock,
    /// A thread could not be made.
    Threads,
}

impl ServeError {
    /// Its number, 1 to 3.
    pub fn number(self) -> u8
        ensures { result ≡ serve_fault_number self }
    {
        match self {
            ServeError::Memory => 1,
            ServeError::Clock => 2,
            ServeError::Threads => 3,
        }
    }
}

impl fmt::Display for ServeError {
    ghost output = { λ e. Some (serve_fault_text e) };

    fn fmt<W: fmt::Write>(&self, f: &mut fmt::Formatter<W>) -> fmt::Result {
        f.write_str(match self {
            ServeError::Memory => "out of memory",
            ServeError::Clock => "the clock cannot be read",
            ServeError::Threads => "a thread cannot be made",
        })
    }
}

impl std::error::Error for ServeError {}

impl From<AllocError> for ServeError {
    fn from(_error: AllocError) -> ServeError {
        ServeError::Memory
    }
}
