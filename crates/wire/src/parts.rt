//! One part of a name that is read: a label, a pointer or its end.
ghost use Rattle.std.specs.Prelude.{◌≡◌, ◌≤◌, ◌<◌, length, IfOk};
ghost use Rattle.wire.specs.Parts.{part_at, message_faults, rdata_faults};
ghost use Rattle.wire.specs.Shapes.{IsPart};

use crate::error::WireError;

// A part of a name in a message (RFC 1035, section 4.1.4): the root's zero, a label's length, a pointer.
#[derive(Clone, Copy)]
pub enum Part {
    /// The root's zero.
    End,
    /// A label of that many bytes, 1 to 63.
    Label(usize),
    /// A pointer to that offset from the start of the message.
    Pointer(usize),
}

// The refusals of a name, which differ by where it stands.
#[derive(Clone, Copy)]
pub struct Faults {
    /// The name's own part runs over its border.
    pub border: WireError,
    /// A length byte is neither a label's nor a pointer's.
    pub bad_label: WireError,
    /// A pointer leads to no earlier place.
    pub not_earlier: WireError,
    /// The name has over 255 bytes.
    pub too_long: WireError,
}

impl Faults {
    // The refusals of a name in a question or an owner: its `bad_label` is `BadLabel`.
    pub fn in_message() -> Faults
        ensures { result ≡ message_faults }
    {
        Faults {
            border: WireError::Short,
            bad_label: WireError::BadLabel,
            not_earlier: WireError::PointerNotEarlier,
            too_long: WireError::NameTooLong,
        }
    }

    // The refusals of a name in RDATA, whose end is the border: its `bad_label` is `BadRdataName`.
    pub fn in_rdata() -> Faults
        ensures { result ≡ rdata_faults }
    {
        Faults {
            border: WireError::BadRdataLength,
            bad_label: WireError::BadRdataName,
            not_earlier: WireError::BadRdataName,
            too_long: WireError::BadRdataName,
        }
    }
}

// The part of a name at a place before the limit: 3 is a label of three bytes, 0 the end, and 192, 12 a pointer to 12.
pub fn part_at(
    bytes: &[u8],
    limit: usize,
    border: WireError,
    bad_label: WireError,
    at: usize,
) -> Result<Part, WireError>
    requires { limit ≤ length bytes.now }
    ensures is { result ≡ part_at bytes.now limit border bad_label at }
    ensures shape { IfOk result (λ p. IsPart limit at p) }
{
    if limit <= at {
        return Err(border);
    }
    let first = bytes[at];
    if first == 0 {
        return Ok(Part::End);
    }
    if first < 64 {
        return Ok(Part::Label(usize::from(first)));
    }
    if first < 192 {
        return Err(bad_label);
    }
    if limit <= at + 1 {
        return Err(border);
    }
    Ok(Part::Pointer(usize::from(first - 192) * 256 + usize::from(bytes[at + 1])))
}
