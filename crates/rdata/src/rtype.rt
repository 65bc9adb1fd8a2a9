//! Types, by number and by word.
ghost use Rattle.std.specs.Prelude.{◌≡◌, ◌↔◌, IsTrue, IsSome, IfSome, Some};
ghost use Rattle.rdata.specs.Types.{type_number, type_word, type_by, is_served, same_word, type_named};

use std::fmt;

/// The class of every record, IN (RFC 1035, section 3.2.4).
pub const INTERNET: u16 = 1;

/// A served record type (RFC 1035, section 3.2.2; AAAA: RFC 3596; SRV: RFC 2782).
#[derive(Clone, Copy, Debug, PartialEq, Eq, Hash)]
pub enum RType {
    /// A host's IPv4 address.
    A,
    /// A name server of a zone.
    Ns,
    /// The canonical name of an alias.
    Cname,
    /// The start of a zone of authority.
    Soa,
    /// A pointer to another name.
    Ptr,
    /// A mail exchange.
    Mx,
    /// Text strings.
    Txt,
    /// A host's IPv6 address.
    Aaaa,
    /// Where a service is offered.
    Srv,
}

impl RType {
    /// Its number in messages: 1 of A, 28 of AAAA.
    pub fn number(self) -> u16
        ensures { result ≡ type_number self }
    {
        match self {
            RType::A => 1,
            RType::Ns => 2,
            RType::Cname => 5,
            RType::Soa => 6,
            RType::Ptr => 12,
            RType::Mx => 15,
            RType::Txt => 16,
            RType::Aaaa => 28,
            RType::Srv => 33,
        }
    }

    /// The type of a number: AAAA of 28; none of 65, as HTTPS is not served.
    pub fn from_number(number: u16) -> Option<RType>
        ensures exact { result ≡ type_by number }
        ensures served { IsSome result ↔ IsTrue (is_served number) }
        ensures value { IfSome result (λ t. type_number t ≡ number) }
    {
        match number {
            1 => Some(RType::A),
            2 => Some(RType::Ns),
            5 => Some(RType::Cname),
            6 => Some(RType::Soa),
            12 => Some(RType::Ptr),
            15 => Some(RType::Mx),
            16 => Some(RType::Txt),
            28 => Some(RType::Aaaa),
            33 => Some(RType::Srv),
            _ => None,
        }
    }

    /// The type that a word of a master file names, in letters of either case (RFC 1035, section 5.1): `Aaaa` is AAAA.
    #[tactic(auto, unfolding(crate::specs::Types::type_named))]
    pub fn from_word(word: &[u8]) -> Option<RType>
        ensures { result ≡ type_named word.now }
    {
        for kind in [
            RType::A,
            RType::Ns,
            RType::Cname,
            RType::Soa,
            RType::Ptr,
            RType::Mx,
            RType::Txt,
            RType::Aaaa,
            RType::Srv,
        ] {
            if is_same_word(word, kind.word().as_bytes()) {
                return Some(kind);
            }
        }
        None
    }

    /// Its word in master files, in capitals: `AAAA`.
    pub fn word(self) -> &'static str
        ensures { result.now ≡ type_word self }
    {
        match self {
            RType::A => "A",
            RType::Ns => "NS",
            RType::Cname => "CNAME",
            RType::Soa => "SOA",
            RType::Ptr => "PTR",
            RType::Mx => "MX",
            RType::Txt => "TXT",
            RType::Aaaa => "AAAA",
            RType::Srv => "SRV",
        }
    }
}

/// Whether two words are the same without regard to case (RFC 1035, section 5.1): `In` and `IN` are.
pub fn is_same_word(word: &[u8], other: &[u8]) -> bool
    ensures { result ≡ same_word word.now other.now }
{
    word.eq_ignore_ascii_case(other)
}

impl fmt::Display for RType {
    ghost output = { λ t. Some (type_word t) };

    fn fmt<W: fmt::Write>(&self, f: &mut fmt::Formatter<W>) -> fmt::Result {
        f.write_str(self.word())
    }
}
