//! Why a shared machine refuses an event, or why its history does not close.
ghost use Rattle.std.specs.Prelude.{◌≡◌, Some};
ghost use Rattle.pool.specs.Faults.{pool_fault_number, pool_fault_text};

use memory::Starved;
use std::alloc::{AllocError, AllocFailed};
use std::fmt;

/// Why a shared machine refuses an event, or why its history does not close.
#[derive(Clone, Copy, Debug, PartialEq, Eq)]
pub enum PoolError {
    /// What a worker kept differs from the history.
    Differs,
    /// The history has more entries than the book keeps.
    Forgot,
    /// A growth was refused.
    Memory,
    /// A ticket whose worker or count is not the book's.
    Stranger,
}

impl PoolError {
    /// The number of the refusal.
    pub fn number(self) -> u8
        ensures { result ≡ pool_fault_number self }
    {
        match self {
            PoolError::Differs => 1,
            PoolError::Forgot => 2,
            PoolError::Memory => 3,
            PoolError::Stranger => 4,
        }
    }
}

impl fmt::Display for PoolError {
    ghost output = { λ e. Some (pool_fault_text e) };

    fn fmt<W: fmt::Write>(&self, f: &mut fmt::Formatter<W>) -> fmt::Result {
        f.write_str(match self {
            PoolError::Differs => "what a worker kept differs from the history",
            PoolError::Forgot => "the history is no longer kept whole",
            PoolError::Memory => "out of memory",
            PoolError::Stranger => "the ticket is not one of the book's",
        })
    }
}

impl std::error::Error for PoolError {}

impl From<Starved> for PoolError {
    ghost use Rattle.pool.specs.declared.fault.PoolError.TheVariants.{Memory};

    ghost from_gives = { λ _ e. e ≡ Memory };

    fn from(_error: Starved) -> PoolError {
        PoolError::Memory
    }
}

impl From<AllocError> for PoolError {
    ghost use Rattle.pool.specs.declared.fault.PoolError.TheVariants.{Memory};

    ghost from_gives = { λ _ e. e ≡ Memory };

    fn from(_error: AllocError) -> PoolError {
        PoolError::Memory
    }
}

impl<T: Drop> From<AllocFailed<T>> for PoolError {
    ghost use Rattle.pool.specs.declared.fault.PoolError.TheVariants.{Memory};

    ghost from_gives = { λ _ e. e ≡ Memory };

    fn from(_error: AllocFailed<T>) -> PoolError {
        PoolError::Memory
    }
}
