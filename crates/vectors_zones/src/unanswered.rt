//! Rows that have no answer, and answers that are refusals.

use memory::Starved;
use std::alloc::{AllocError, AllocFailed};
use std::fmt::Display;
use text_lines::LineKind;

/// Why a row has no answer.
#[derive(Clone, Copy, Debug, PartialEq, Eq)]
pub enum Unanswered {
    /// It is no row of this program.
    NotUnderstood,
    /// A growth was refused.
    Starved,
}

impl From<Starved> for Unanswered {
    fn from(_error: Starved) -> Unanswered {
        Unanswered::Starved
    }
}

impl From<AllocError> for Unanswered {
    fn from(_error: AllocError) -> Unanswered {
        Unanswered::Starved
    }
}

impl<T: Drop> From<AllocFailed<T>> for Unanswered {
    fn from(_error: AllocFailed<T>) -> Unanswered {
        Unanswered::Starved
    }
}

impl From<LineKind> for Unanswered {
    fn from(error: LineKind) -> Unanswered {
        match error {
            LineKind::Memory => Unanswered::Starved,
            _ => Unanswered::NotUnderstood,
        }
    }
}

/// Appends the line of a refusal: whose it is, its number and its words.
pub fn put_fault(
    out: &mut String,
    whose: &str,
    number: u8,
    fault: &impl Display,
) -> Result<(), Unanswered> {
    Ok(write!(out, "fault {whose} {number}: {fault}\n")?)
}
