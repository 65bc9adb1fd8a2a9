//! Frames written to a stream.
ghost use Rattle.std.specs.Prelude.{◌≡◌, ◌+◌, ◌<◌, ◌≤◌, ◌^◌, ◌++◌, length, take, drop, MatchResult};
ghost use Rattle.std.specs.Io.KnownBytes.{Appends};
ghost use Rattle.sockets.specs.Frames.{frame, IsNotWritten};

use crate::fault::FrameError;
use byteorder::{BigEndian, ByteOrder};
use std::io::Write;

// How many bytes go out with the first write: what a segment of TCP mostly holds.
const FIRST_WRITE_BYTES: usize = 1_460;

/// Writes the bytes as one frame of a stream. Refused with `Write` at a fault of the writer; what was written before it
/// stands. The length and the first bytes go out in one write (RFC 7766, section 8).
#[tactic(auto, using(crate::proofs::Streams::frame_begun))]
pub fn write_framed<W: Write>(writer: &mut W, bytes: &[u8]) -> Result<(), FrameError>
    requires { length bytes.now < 2 ^ 16 }
    ensures { MatchResult result
        (λ _. Appends (W.contents writer.old) (W.contents writer.new) (frame bytes.now))
        (IsNotWritten (W.contents writer.old) (W.contents writer.new) (frame bytes.now)) }
{
    let mut first = [0u8; FIRST_WRITE_BYTES];
    let count = begin_frame(&mut first, bytes);
    put(writer, &first[..2 + count])?;
    put(writer, &bytes[count..])
}

// Puts the length into `first`, and behind it as many of the bytes as there is room for: their count.
fn begin_frame(first: &mut [u8], bytes: &[u8]) -> usize
    requires room { 2 ≤ length first.old }
    requires few { length bytes.now < 2 ^ 16 }
    ensures within { 2 + result ≤ length first.new }
    ensures front { result ≤ length bytes.now }
    ensures frame { take (2 + result) first.new ++ drop result bytes.now ≡ frame bytes.now }
{
    BigEndian::write_u16(first, bytes.len() as u16);
    let count = bytes.len().min(first.len() - 2);
    first[2..2 + count].copy_from_slice(&bytes[..count]);
    count
}

// Writes all of the bytes, or up to a fault.
fn put<W: Write>(writer: &mut W, bytes: &[u8]) -> Result<(), FrameError>
    ensures { MatchResult result
        (λ _. Appends (W.contents writer.old) (W.contents writer.new) bytes.now)
        (IsNotWritten (W.contents writer.old) (W.contents writer.new) bytes.now) }
{
    let mut rest = bytes;
    while !rest.is_empty() {
        match writer.write(rest) {
            Ok(0) | Err(_) => return Err(FrameError::Write),
            Ok(count) => rest = &rest[count..],
        }
    }
    Ok(())
}
