//! Numbers at a place of a message, the high byte first.
ghost use Rattle.std.specs.Prelude.{◌≡◌, ◌+◌, ◌≤◌, length};
ghost use Rattle.wire.specs.Numbers.{two_at, four_at};

use byteorder::{BigEndian, ByteOrder};

// The number of 16 bits at a place: 258 of the bytes 1, 2.
pub fn two_at(bytes: &[u8], at: usize) -> u16
    requires { at + 2 ≤ length bytes.now }
    ensures { result ≡ two_at bytes.now at }
{
    BigEndian::read_u16(&bytes[at..])
}

// The number of 32 bits at a place: 256 of the bytes 0, 0, 1, 0.
pub fn four_at(bytes: &[u8], at: usize) -> u32
    requires { at + 4 ≤ length bytes.now }
    ensures { result ≡ four_at bytes.now at }
{
    BigEndian::read_u32(&bytes[at..])
}
