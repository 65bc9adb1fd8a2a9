//! Out of memory, as a value: every growth can be refused, and no call aborts for it.
//!
//! `Starved` is the refusal of a call that can fail in no other way; the error enum of a crate has a variant
//! `Memory` for it. `Heap` bounds an allocator that is passed by value: `Global`, or a reference to one that is
//! lent. Public data is generic over it, so that a test refuses each growth in turn (`refusing_alloc`).
//!
//! Promised: the number of the refusal (`Starved::number`) and its words, "out of memory".
//! Not here: what stands after a refusal. The contract of each call says it.
//!
//! ```text
//! fn copy<A: Heap>(alloc: A, bytes: &[u8]) -> Result<Vec<u8, A>, Starved> {
//!     Ok(Vec::from_slice(alloc, bytes)?)      // AllocError becomes Starved
//! }
//! ```
#![tactic(auto)]

ghost use Rattle.std.specs.Prelude.{◌≡◌, Some, codes};

use std::alloc::{AllocError, AllocFailed, Allocator};
use std::fmt;

/// Out of memory: a growth was refused. A call that can fail in no other way answers it.
#[derive(Clone, Copy, Debug, PartialEq, Eq)]
pub struct Starved;

impl Starved {
    /// The number of the refusal.
    pub fn number(self) -> u8
        ensures { result ≡ 1 }
    {
        1
    }
}

impl fmt::Display for Starved {
    ghost output = { λ _. Some (codes "out of memory") };

    fn fmt<W: fmt::Write>(&self, f: &mut fmt::Formatter<W>) -> fmt::Result {
        write!(f, "out of memory")
    }
}

impl std::error::Error for Starved {}

impl From<AllocError> for Starved {
    fn from(_error: AllocError) -> Starved {
        Starved
    }
}

impl<T: Drop> From<AllocFailed<T>> for Starved {
    fn from(_error: AllocFailed<T>) -> Starved {
        Starved
    }
}

/// An allocator that is passed by value: `Global`, or a reference to one that is lent.
pub trait Heap: Allocator + Copy {}

impl<A: Allocator + Copy> Heap for A {}
