//! Why there is no network.
ghost use Rattle.std.specs.Prelude.{◌≡◌, Some};
ghost use Rattle.simnet.specs.Beginnings.{sim_fault_number, sim_fault_text};

use memory::Starved;
use std::alloc::AllocError;
use std::fmt;

/// Why there is no network of a world and those settings.
#[derive(Clone, Copy, Debug, PartialEq, Eq)]
pub enum SimError {
    /// A setting is out of its limits.
    Setting,
    /// A growth was refused.
    Memory,
}

impl SimError {
    /// The number of the refusal.
    pub fn number(self) -> u8
        ensures { result ≡ sim_fault_number self }
    {
        match self {
            SimError::Setting => 1,
            SimError::Memory => 2,
        }
    }
}

impl fmt::Display for SimError {
    ghost output = { λ e. Some (sim_fault_text e) };

    fn fmt<W: fmt::Write>(&self, f: &mut fmt::Formatter<W>) -> fmt::Result {
        f.write_str(match self {
            SimError::Setting => "a setting is out of its limits",
            SimError::Memory => "out of memory",
        })
    }
}

impl std::error::Error for SimError {}

impl From<Starved> for SimError {
    ghost use Rattle.simnet.specs.declared.fault.SimError.TheVariants.{Memory};

    ghost from_gives = { λ _ e. e ≡ Memory };

    fn from(_error: Starved) -> SimError {
        SimError::Memory
    }
}

impl From<AllocError> for SimError {
    ghost use Rattle.simnet.specs.declared.fault.SimError.TheVariants.{Memory};

    ghost from_gives = { λ _ e. e ≡ Memory };

    fn from(_error: AllocError) -> SimError {
        SimError::Memory
    }
}
