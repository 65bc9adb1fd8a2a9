//! Why there is no such world.
ghost use Rattle.std.specs.Prelude.{◌≡◌, Some};
ghost use Rattle.worlds.specs.Refusals.{world_fault_number, world_fault_text};

use memory::Starved;
use std::alloc::AllocError;
use std::fmt;

/// Why zones, servers, hints and local names are no world.
#[derive(Clone, Copy, Debug, PartialEq, Eq)]
pub enum WorldError {
    /// No zone has the root as origin (RFC 1034, section 3.1).
    NoRoot,
    /// A zone cut is not the origin of any zone (RFC 1034, section 4.2).
    LooseCut,
    /// An origin neither root nor local is not a cut of the zone right above (RFC 1034, section 4.2.1).
    Undelegated,
    /// A lame delegation: an address of a server of a zone cut does not serve it, or a server names an origin
    /// without a zone (RFC 1034, section 4.2.2).
    Lame,
    /// A hint does not serve the root, or there is none and the root is not local (RFC 1034, section 5.3.2).
    NoStart,
    /// A growth was refused.
    Memory,
    /// Two zones have one origin.
    Twins,
}

impl WorldError {
    /// Its number, 1 to 7. Where several refusals hold, the first in the order 7, 1, 2, 3, 4, 5 is answered.
    pub fn number(self) -> u8
        ensures { result ≡ world_fault_number self }
    {
        match self {
            WorldError::NoRoot => 1,
            WorldError::LooseCut => 2,
            WorldError::Undelegated => 3,
            WorldError::Lame => 4,
            WorldError::NoStart => 5,
            WorldError::Memory => 6,
            WorldError::Twins => 7,
        }
    }
}

impl fmt::Display for WorldError {
    ghost output = { λ e. Some (world_fault_text e) };

    fn fmt<W: fmt::Write>(&self, f: &mut fmt::Formatter<W>) -> fmt::Result {
        f.write_str(match self {
            WorldError::NoRoot => "no zone at the root",
            WorldError::LooseCut => "a cut without a zone",
            WorldError::Undelegated => "a zone that the zone above does not delegate",
            WorldError::Lame => "a server without its zone",
            WorldError::NoStart => "no hint that serves the root",
            WorldError::Memory => "out of memory",
            WorldError::Twins => "two zones have one origin",
        })
    }
}

impl std::error::Error for WorldError {}

impl From<AllocError> for WorldError {
    ghost use Rattle.worlds.specs.declared.fault.WorldError.TheVariants.{Memory};

    ghost from_gives = { λ _ e. e ≡ Memory };

    fn from(_error: AllocError) -> WorldError {
        WorldError::Memory
    }
}

impl From<Starved> for WorldError {
    ghost use Rattle.worlds.specs.declared.fault.WorldError.TheVariants.{Memory};

    ghost from_gives = { λ _ e. e ≡ Memory };

    fn from(_error: Starved) -> WorldError {
        WorldError::Memory
    }
}
