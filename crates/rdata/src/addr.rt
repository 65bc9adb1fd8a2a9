//! An IPv4 address: the data of an A record (RFC 1035, section 3.4.1).
ghost use Rattle.std.specs.Prelude.{Some};
ghost use Rattle.rdata.specs.Text.{ipv4_text};

use std::fmt;

/// An IPv4 address: its four bytes, the first one first.
#[derive(Clone, Copy, Debug, PartialEq, Eq, Hash)]
pub struct Addr(pub [u8; 4]);

impl fmt::Display for Addr {
    ghost output = { λ a. Some (ipv4_text a.0) };

    fn fmt<W: fmt::Write>(&self, f: &mut fmt::Formatter<W>) -> fmt::Result {
        let [a, b, c, d] = self.0;
        write!(f, "{a}.{b}.{c}.{d}")
    }
}
