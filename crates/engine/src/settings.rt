//! Zones, hints and settings of a resolver, and the limits of the settings.
ghost use Rattle.std.specs.Prelude.{◌≡◌, Some, MatchOption};
ghost use Rattle.std.specs.NonZero.{non_zero_usize_get};
ghost use Rattle.engine.specs.Beginnings.{IsRoom, IsAllowed, core_fault_number, core_fault_text};

use authority::CatalogError;
use limits::{MAX_ENTRIES, MAX_SOCKETS};
use lookup::Capacities;
use memory::Starved;
use rdata::Addr;
use std::alloc::{Allocator, Global};
use std::fmt;
use std::num::NonZeroUsize;
use zone::Zone;

/// The settings of an operator.
#[derive(Clone, Copy)]
pub struct Settings {
    /// The capacity of the cache: 1 to 1,000,000 links.
    pub cache: usize,
    /// The capacity of the delegations: 1 to 1,000,000.
    pub delegations: usize,
    /// The capacity of the penalties: 1 to 1,000,000 servers that did not answer.
    pub penalties: usize,
    /// The capacity of the failures: 1 to 1,000,000 questions that a server failed to answer.
    pub failures: usize,
    /// The number of sockets that servers are asked from: 1 to 16.
    pub sockets: u16,
    /// The port at which servers are asked.
    pub port: u16,
    /// The seed of the generator that gives IDs and sockets.
    pub seed: [u8; 32],
}

impl Settings {
    /// The capacities of the stores, where every setting is within its limits.
    pub fn room(&self) -> Option<Capacities>
        ensures { MatchOption result (IsAllowed self.now → ⊥) (λ c. IsAllowed self.now × (non_zero_usize_get c.links ≡ self.now.cache) × (non_zero_usize_get c.cuts ≡ self.now.delegations) × (non_zero_usize_get c.servers ≡ self.now.penalties) × (non_zero_usize_get c.failures ≡ self.now.failures)) }
    {
        if self.sockets == 0 || self.sockets > MAX_SOCKETS {
            return None;
        }
        Some(Capacities {
            links: entries(self.cache)?,
            cuts: entries(self.delegations)?,
            servers: entries(self.penalties)?,
            failures: entries(self.failures)?,
        })
    }
}

// This capacity, if it is allowed.
fn entries(count: usize) -> Option<NonZeroUsize>
    ensures { MatchOption result (IsRoom count → ⊥) (λ n. IsRoom count × (non_zero_usize_get n ≡ count)) }
{
    if count > MAX_ENTRIES {
        return None;
    }
    NonZeroUsize::new(count)
}

/// The local zones, addresses of servers of the root, and the settings.
#[derive(Drop)]
pub struct Config<A: Allocator = Global> {
    /// The local zones.
    pub local: Vec<Zone<A>, A>,
    /// Addresses of servers of the root (RFC 1034, section 5.3.2, SBELT).
    pub hints: Vec<Addr, A>,
    /// The settings.
    pub settings: Settings,
}

/// Why a resolver is refused.
#[derive(Clone, Copy, Debug, PartialEq, Eq)]
pub enum CoreError {
    /// A setting is out of its limits.
    Setting,
    /// Two local zones have one origin.
    Twins,
    /// A growth was refused.
    Memory,
}

impl CoreError {
    /// The number of the refusal.
    pub fn number(self) -> u8
        ensures { result ≡ core_fault_number self }
    {
        match self {
            CoreError::Setting => 1,
            CoreError::Twins => 2,
            CoreError::Memory => 3,
        }
    }
}

impl fmt::Display for CoreError {
    ghost output = { λ e. Some (core_fault_text e) };

    fn fmt<W: fmt::Write>(&self, f: &mut fmt::Formatter<W>) -> fmt::Result {
        f.write_str(match self {
            CoreError::Setting => "a setting is out of its limits",
            CoreError::Twins => "two zones have one origin",
            CoreError::Memory => "out of memory",
        })
    }
}

impl std::error::Error for CoreError {}

impl From<Starved> for CoreError {
    ghost use Rattle.engine.specs.declared.settings.CoreError.TheVariants.{Memory};

    ghost from_gives = { λ _ e. e ≡ Memory };

    fn from(_error: Starved) -> CoreError {
        CoreError::Memory
    }
}

impl From<CatalogError> for CoreError {
    ghost use Rattle.engine.specs.Beginnings.{core_fault};

    ghost from_gives = { λ x e. e ≡ core_fault x };

    fn from(error: CatalogError) -> CoreError {
        match error {
            CatalogError::Twins => CoreError::Twins,
            CatalogError::Memory => CoreError::Memory,
        }
    }
}
