//! The ID of a message, before it is read.
ghost use Rattle.std.specs.Prelude.{◌≡◌, ◌≤◌, length};
ghost use Rattle.runs.specs.Messages.{id_in};

/// The ID that bytes begin with (RFC 1035, section 4.1.1).
pub fn id_in(bytes: &[u8]) -> u16
    requires { 2 ≤ length bytes.now }
    ensures { result ≡ id_in bytes.now }
{
    u16::from_be_bytes([bytes[0], bytes[1]])
}
