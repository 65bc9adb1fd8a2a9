//! What can go wrong with a command: its line, and the exit status that goes with it.
ghost use Rattle.std.specs.Prelude.{◌≡◌, Some};
ghost use Rattle.commands.specs.Faults.{fault_text, status_of, file_fault, zone_fault, name_fault, line_fault, pool_fault, world_fault};
ghost use Rattle.commands.specs.declared.fault.Fault.TheVariants.{Memory};

use dname::NameError;
use masterfile::{FileError, FileKind};
use memory::Starved;
use pool::PoolError;
use std::alloc::AllocFailed;
use std::fmt;
use text_lines::{LineError, LineKind};
use world_text::WorldFault;
use worlds::WorldError;
use zone::ZoneError;

/// Why a command came to nothing. Running out of memory is `Memory`, wherever it was met.
#[derive(Clone, Copy, Debug)]
pub enum Fault<'a> {
    /// The text at this path is no master file.
    File(&'a str, FileError),
    /// The records at this path are no zone.
    Zone(&'a str, ZoneError),
    /// A line of the world or of the script at this path can't be read.
    Script(&'a str, LineError),
    /// The records of a block of the world at this path are no zone; with the line that opens the block.
    Block(&'a str, usize, ZoneError),
    /// The zones and servers at this path are no world.
    World(&'a str, WorldError),
    /// Nothing can be read at this path, or it is not UTF-8.
    Unreadable(&'a str),
    /// A word is no name.
    BadName(NameError),
    /// A word is no served type.
    BadType,
    /// The resolver refuses what the file of a server sets, whose lines are held to the same limits before.
    Settings,
    /// A growth was refused.
    Memory,
    /// What the workers of a storm did does not close.
    Pool(PoolError),
    /// An address can't be bound.
    Socket,
    /// A thread can't be made, or the clock can't be read.
    Threads,
    /// The output could not be written.
    Output,
}

impl<'a> Fault<'a> {
    /// What the reader of a master file refused.
    pub fn of_file(path: &'a str, error: FileError) -> Fault<'a>
        ensures { result ≡ file_fault path.entry error }
    {
        match error.kind {
            FileKind::Memory => Fault::Memory,
            _ => Fault::File(path, error),
        }
    }

    /// What the rules of a zone refused.
    pub fn of_zone(path: &'a str, error: ZoneError) -> Fault<'a>
        ensures { result ≡ zone_fault path.entry error }
    {
        match error {
            ZoneError::Memory => Fault::Memory,
            _ => Fault::Zone(path, error),
        }
    }

    /// What the reader of a script refused.
    pub fn of_line(path: &'a str, error: LineError) -> Fault<'a>
        ensures { result ≡ line_fault path.entry error }
    {
        match error.kind {
            LineKind::Memory => Fault::Memory,
            _ => Fault::Script(path, error),
        }
    }

    /// What the reader of a world refused.
    pub fn of_world(path: &'a str, error: WorldFault) -> Fault<'a>
        ensures { result ≡ world_fault path.entry error }
    {
        match error {
            WorldFault::Line(error) => Fault::of_line(path, error),
            WorldFault::File(error) => Fault::of_file(path, error),
            WorldFault::Zone(_, ZoneError::Memory) => Fault::Memory,
            WorldFault::Zone(line, error) => Fault::Block(path, line, error),
            WorldFault::World(WorldError::Memory) => Fault::Memory,
            WorldFault::World(error) => Fault::World(path, error),
            WorldFault::Memory => Fault::Memory,
        }
    }

    /// What the workers of a storm refused.
    pub fn of_pool(error: PoolError) -> Fault<'a>
        ensures { result ≡ pool_fault error }
    {
        match error {
            PoolError::Memory => Fault::Memory,
            _ => Fault::Pool(error),
        }
    }

    /// The exit status: 1 where the input is refused, 3 when out of memory, 4 for an unreadable file, an address
    /// that can't be bound, a thread that can't be made, a clock that can't be read or failed output.
    pub fn status(&self) -> u8
        ensures { result ≡ status_of self.now }
    {
        match self {
            Fault::File(_, _) | Fault::Zone(_, _) | Fault::BadName(_) | Fault::BadType => 1,
            Fault::Script(_, _) | Fault::Block(_, _, _) | Fault::World(_, _) => 1,
            Fault::Settings | Fault::Pool(_) => 1,
            Fault::Memory => 3,
            Fault::Socket | Fault::Threads => 4,
            Fault::Unreadable(_) | Fault::Output => 4,
        }
    }
}

impl fmt::Display for Fault<'_> {
    ghost output = { λ f. Some (fault_text f) };

    fn fmt<W: fmt::Write>(&self, f: &mut fmt::Formatter<W>) -> fmt::Result {
        match self {
            Fault::File(path, error) => {
                let line = error.line;
                let kind = error.kind.number();
                write!(f, "{path}:{line}: file {kind}")
            }
            Fault::Zone(path, error) => {
                let number = error.number();
                write!(f, "{path}: zone {number}")
            }
            Fault::Script(path, error) => {
                let line = error.line;
                let kind = error.kind.number();
                write!(f, "{path}:{line}: script {kind}")
            }
            Fault::Block(path, line, error) => {
                let number = error.number();
                write!(f, "{path}:{line}: zone {number}")
            }
            Fault::World(path, error) => {
                let number = error.number();
                write!(f, "{path}: world {number}")
            }
            Fault::Unreadable(path) => write!(f, "{path}: unreadable"),
            Fault::BadName(error) => {
                let number = error.number();
                write!(f, "name {number}")
            }
            Fault::BadType => write!(f, "type"),
            Fault::Settings => write!(f, "settings"),
            Fault::Memory => write!(f, "memory"),
            Fault::Pool(error) => {
                let number = error.number();
                write!(f, "pool {number}")
            }
            Fault::Socket => write!(f, "socket"),
            Fault::Threads => write!(f, "threads"),
            Fault::Output => write!(f, "output"),
        }
    }
}

impl From<NameError> for Fault<'_> {
    ghost from_gives = { λ error f. f ≡ name_fault error };

    fn from(error: NameError) -> Self {
        match error {
            NameError::Memory => Fault::Memory,
            _ => Fault::BadName(error),
        }
    }
}

impl From<Starved> for Fault<'_> {
    ghost from_gives = { λ _ f. f ≡ Memory };

    fn from(_error: Starved) -> Self {
        Fault::Memory
    }
}

impl<T: Drop> From<AllocFailed<T>> for Fault<'_> {
    ghost from_gives = { λ _ f. f ≡ Memory };

    fn from(_error: AllocFailed<T>) -> Self {
        Fault::Memory
    }
}
