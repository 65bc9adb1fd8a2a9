//! Why a world text stands for no world.
ghost use Rattle.std.specs.Prelude.{◌≡◌, Some};
ghost use Rattle.world_text.specs.WorldFaults.{line_fault, file_fault, zone_fault, rule_fault, fault_text};
ghost use Rattle.world_text.specs.declared.world_fault.WorldFault.TheVariants.{Memory};

use masterfile::{FileError, FileKind};
use memory::Starved;
use std::alloc::{AllocError, AllocFailed};
use std::fmt;
use text_lines::{LineError, LineKind};
use worlds::WorldError;
use zone::ZoneError;

/// Why a world text stands for no world: the first of its lines, its blocks and its rules that is refused.
#[derive(Clone, Copy, Debug, PartialEq, Eq)]
pub enum WorldFault {
    /// A line outside of blocks.
    Line(LineError),
    /// A block is no master file: the line in the whole text, and what is wrong there.
    File(FileError),
    /// A block is no zone: the line that opens it, and the zone's rule.
    Zone(usize, ZoneError),
    /// The zones and servers are no world.
    World(WorldError),
    /// A growth was refused.
    Memory,
}

impl fmt::Display for WorldFault {
    ghost output = { λ e. Some (fault_text e) };

    fn fmt<W: fmt::Write>(&self, f: &mut fmt::Formatter<W>) -> fmt::Result {
        match self {
            WorldFault::Line(error) => write!(f, "{error}"),
            WorldFault::File(error) => write!(f, "{error}"),
            WorldFault::Zone(line, error) => write!(f, "line {line}: {error}"),
            WorldFault::World(error) => write!(f, "{error}"),
            WorldFault::Memory => write!(f, "out of memory"),
        }
    }
}

impl std::error::Error for WorldFault {}

impl WorldFault {
    /// A block is no zone, or memory was wanting.
    pub(crate) fn of_zone(line: usize, error: ZoneError) -> WorldFault
        ensures { result ≡ zone_fault line error }
    {
        match error {
            ZoneError::Memory => WorldFault::Memory,
            _ => WorldFault::Zone(line, error),
        }
    }
}

impl From<LineError> for WorldFault {
    ghost from_gives = { λ error e. e ≡ line_fault error error.kind };

    fn from(error: LineError) -> WorldFault {
        match error.kind {
            LineKind::Memory => WorldFault::Memory,
            _ => WorldFault::Line(error),
        }
    }
}

impl From<FileError> for WorldFault {
    ghost from_gives = { λ error e. e ≡ file_fault error error.kind };

    fn from(error: FileError) -> WorldFault {
        match error.kind {
            FileKind::Memory => WorldFault::Memory,
            _ => WorldFault::File(error),
        }
    }
}

impl From<WorldError> for WorldFault {
    ghost from_gives = { λ error e. e ≡ rule_fault error };

    fn from(error: WorldError) -> WorldFault {
        match error {
            WorldError::Memory => WorldFault::Memory,
            _ => WorldFault::World(error),
        }
    }
}

impl From<Starved> for WorldFault {
    ghost from_gives = { λ _ e. e ≡ Memory };

    fn from(_error: Starved) -> WorldFault {
        WorldFault::Memory
    }
}

impl From<AllocError> for WorldFault {
    ghost from_gives = { λ _ e. e ≡ Memory };

    fn from(_error: AllocError) -> WorldFault {
        WorldFault::Memory
    }
}

impl<T: Drop> From<AllocFailed<T>> for WorldFault {
    ghost from_gives = { λ _ e. e ≡ Memory };

    fn from(_error: AllocFailed<T>) -> WorldFault {
        WorldFault::Memory
    }
}
