//! The header (RFC 1035, section 4.1.1).
ghost use Rattle.std.specs.Prelude.{◌≡◌, ◌≤◌, ◌<◌, length};
ghost use Rattle.wire.specs.Heads.{header_of, blank_query, blank_reply};

use crate::fields::two_at;
use crate::rcode;
use std::marker::Model;

/// A message's header without the counts (RFC 1035, section 4.1.1). Opcode and RCODE are at most 15, Z is at
/// most 7.
#[derive(Clone, Copy, Debug, PartialEq, Eq)]
pub struct Header {
    /// ID: chosen by the sender of the query, and repeated in the reply.
    pub id: u16,
    /// QR: whether this is a reply.
    pub qr: bool,
    /// OPCODE: the kind of query, 0 a standard one.
    pub opcode: u8,
    /// AA: whether the server has authority over the name that was asked for.
    pub aa: bool,
    /// TC: whether records were left out, as the message was too long for its way.
    pub tc: bool,
    /// RD: whether the client desires recursion; repeated in the reply.
    pub rd: bool,
    /// RA: whether the server offers recursion.
    pub ra: bool,
    /// Z: three bits that are reserved: 0 in every query and reply.
    pub z: u8,
    /// RCODE: one of `rcode`, or a number of a later RFC.
    pub rcode: u8,
}

impl Model for Header {
    ghost use Rattle.std.specs.Prelude.{◌<◌};
    ghost use Rattle.message_grammar.specs.Messages.{Header};

    ghost Value = { Header };

    ghost view = { λ h. record { id = h.id; qr = h.qr; opcode = h.opcode; aa = h.aa; tc = h.tc; rd = h.rd; ra = h.ra; z = h.z; rcode = h.rcode } };

    ghost invariant = { λ h. (h.opcode < 16) × (h.z < 8) × (h.rcode < 16) };

    ghost inverse = { λ h. record { id = h.id; qr = h.qr; opcode = h.opcode; aa = h.aa; tc = h.tc; rd = h.rd; ra = h.ra; z = h.z; rcode = h.rcode } };
}

impl Header {
    /// The header of a standard query under this ID, with RD or without: `query(7, true)` has ID 7 and RD, and no other
    /// flag.
    pub fn query(id: u16, rd: bool) -> Header
        ensures { result ≡ blank_query id rd }
    {
        Header {
            id,
            qr: false,
            opcode: 0,
            aa: false,
            tc: false,
            rd,
            ra: false,
            z: 0,
            rcode: rcode::NO_ERROR,
        }
    }

    /// The header of a reply to a message of this ID, opcode (at most 15) and RD: `reply(7, 0, true)` has ID 7, QR and
    /// RD, and no other flag.
    pub fn reply(id: u16, opcode: u8, rd: bool) -> Header
        requires { opcode < 16 }
        ensures { result ≡ blank_reply id opcode rd }
    {
        Header {
            qr: true,
            opcode,
            ..Header::query(id, rd)
        }
    }

    // The header in the first bytes of a message.
    pub(crate) fn read(bytes: &[u8]) -> Header
        requires { 12 ≤ length bytes.now }
        ensures { result ≡ header_of bytes.now }
    {
        let high = bytes[2];
        let low = bytes[3];
        Header {
            id: two_at(bytes, 0),
            qr: high >> 7 == 1,
            opcode: (high >> 3) & 0x0f,
            aa: (high >> 2) & 1 == 1,
            tc: (high >> 1) & 1 == 1,
            rd: high & 1 == 1,
            ra: low >> 7 == 1,
            z: (low >> 4) & 7,
            rcode: low & 0x0f,
        }
    }
}
