//! The fields of a query's header that its reply repeats.
ghost use Rattle.std.specs.Prelude.{◌≡◌, ◌<◌};

use std::marker::Model;

/// The fields of a query's header that its reply repeats (RFC 1035, section 4.1.1). Its opcode is at most 15.
#[derive(Clone, Copy, PartialEq, Eq)]
pub struct Start {
    id: u16,
    opcode: u8,
    rd: bool,
}

impl Model for Start {
    ghost use Rattle.std.specs.Prelude.{◌<◌};
    ghost use Rattle.front.specs.Openings.{Opening};

    ghost Value = { Opening };

    ghost view = { λ s. record { id = s.id; opcode = s.opcode; rd = s.rd } };

    ghost invariant = { λ s. s.opcode < 16 };

    ghost inverse = { λ s. record { id = s.id; opcode = s.opcode; rd = s.rd } };
}

impl Start {
    /// The fields of a query with this ID, operation and RD.
    pub fn new(id: u16, opcode: u8, rd: bool) -> Start
        requires { opcode < 16 }
        ensures { result ≡ record { id = id; opcode = opcode; rd = rd } }
    {
        Start { id, opcode, rd }
    }

    /// The ID.
    pub fn id(self) -> u16
        ensures { result ≡ self.id }
    {
        self.id
    }

    /// The operation: 0 is a query.
    pub fn opcode(self) -> u8
        ensures is { result ≡ self.opcode }
        ensures fits { result < 16 }
    {
        self.opcode
    }

    /// Whether recursion is desired (RD).
    pub fn wants_recursion(self) -> bool
        ensures { result ≡ self.rd }
    {
        self.rd
    }
}
