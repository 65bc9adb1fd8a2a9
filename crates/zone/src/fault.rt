//! Why records are no zone: the rules by number.
ghost use Rattle.std.specs.Prelude.{◌≡◌, Some};
ghost use Rattle.zone.specs.Faults.{fault_number, fault_text};

use memory::Starved;
use std::alloc::{AllocError, AllocFailed};
use std::fmt;

/// Why records are no zone.
#[derive(Clone, Copy, Debug, PartialEq, Eq)]
pub enum ZoneError {
    /// SOA records are other than exactly one, owned by the origin (RFC 1034, section 4.2.1).
    Soa,
    /// No NS record at the origin (RFC 1034, section 4.2.1).
    NoServers,
    /// An owner out of the zone: not at or under the origin.
    ForeignOwner,
    /// A CNAME beside any other record than its own repeat (RFC 1034, section 3.6.2).
    CnameClash,
    /// TTLs differ in a set (RFC 2181, section 5.2).
    MixedTtls,
    /// Beneath a cut other data than A and AAAA, or at a cut other data than NS, A and AAAA (RFC 1034,
    /// section 4.2.1).
    DataAtCut,
    /// A label `*` stands in an owner other than as its first.
    InnerStar,
    /// NS or SOA at an owner whose first label is `*`.
    WildcardAuthority,
    /// An owner whose first label is `*` beneath a cut.
    WildcardBeneathCut,
    /// A growth was refused.
    Memory,
}

impl ZoneError {
    /// Its number, 1 to 10: 2 of `NoServers`. Where several refusals hold, the one with the lowest number is answered.
    pub fn number(self) -> u8
        ensures { result ≡ fault_number self }
    {
        match self {
            ZoneError::Soa => 1,
            ZoneError::NoServers => 2,
            ZoneError::ForeignOwner => 3,
            ZoneError::CnameClash => 4,
            ZoneError::MixedTtls => 5,
            ZoneError::DataAtCut => 6,
            ZoneError::InnerStar => 7,
            ZoneError::WildcardAuthority => 8,
            ZoneError::WildcardBeneathCut => 9,
            ZoneError::Memory => 10,
        }
    }
}

impl fmt::Display for ZoneError {
    ghost output = { λ e. Some (fault_text e) };

    fn fmt<W: fmt::Write>(&self, f: &mut fmt::Formatter<W>) -> fmt::Result {
        f.write_str(match self {
            ZoneError::Soa => "not exactly one SOA record, at the origin",
            ZoneError::NoServers => "no NS record at the origin",
            ZoneError::ForeignOwner => "an owner outside the zone",
            ZoneError::CnameClash => "a CNAME beside other records",
            ZoneError::MixedTtls => "different TTLs in a record set",
            ZoneError::DataAtCut => "other data than glue at or beneath a cut",
            ZoneError::InnerStar => "a label `*` that is not the first of its owner",
            ZoneError::WildcardAuthority => "NS or SOA at a wildcard",
            ZoneError::WildcardBeneathCut => "a wildcard beneath a cut",
            ZoneError::Memory => "out of memory",
        })
    }
}

impl std::error::Error for ZoneError {}

impl From<AllocError> for ZoneError {
    ghost use Rattle.zone.specs.declared.fault.ZoneError.TheVariants.{Memory};

    ghost from_gives = { λ _ e. e ≡ Memory };

    fn from(_error: AllocError) -> ZoneError {
        ZoneError::Memory
    }
}

impl<T: Drop> From<AllocFailed<T>> for ZoneError {
    ghost use Rattle.zone.specs.declared.fault.ZoneError.TheVariants.{Memory};

    ghost from_gives = { λ _ e. e ≡ Memory };

    fn from(_error: AllocFailed<T>) -> ZoneError {
        ZoneError::Memory
    }
}

impl From<Starved> for ZoneError {
    ghost use Rattle.zone.specs.declared.fault.ZoneError.TheVariants.{Memory};

    ghost from_gives = { λ _ e. e ≡ Memory };

    fn from(_error: Starved) -> ZoneError {
        ZoneError::Memory
    }
}
