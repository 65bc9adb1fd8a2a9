//! Frames taken from a stream.
ghost use Rattle.std.specs.Prelude.{◌≡◌, ◌+◌, ◌<◌, ◌≤◌, length, take, IfOk, IfErr, MatchResult, MatchOption};
ghost use Rattle.std.specs.Io.KnownBytes.{Consumes, IsAtEnd};
ghost use Rattle.byteorder.specs.Endian.{big_bytes};
ghost use Rattle.sockets.specs.declared.fault.FrameError.TheVariants.{Read};
ghost use Rattle.sockets.specs.Frames.{IsOver, IsTaken, IsNotTaken, IsLacking};

use crate::fault::FrameError;
use byteorder::{BigEndian, ByteOrder};
use memory::Heap;
use std::io::Read;

/// Takes one frame of a stream and leaves the rest unread: its bytes, or `None` where the stream ends before a frame.
/// Refused with `Short` where it ends inside a frame, with `Read` at a fault of the reader, with `Memory` where the
/// room for the bytes is refused (RFC 1035, section 4.2.2).
pub fn read_framed<A: Heap, R: Read>(
    alloc: A,
    reader: &mut R,
) -> Result<Option<Vec<u8, A>>, FrameError>
    ensures { MatchResult result
        (λ r. MatchOption r (IsOver (R.remaining reader.old) (R.remaining reader.new)) (λ v. IsTaken (R.remaining reader.old) (R.remaining reader.new) v.items))
        (IsNotTaken (R.remaining reader.old) (R.remaining reader.new)) }
{
    let Some(count) = read_length(reader)? else {
        return Ok(None);
    };
    Ok(Some(read_bytes(alloc, reader, usize::from(count))?))
}

// The length at the head of a frame; `None` where the stream ends before it.
fn read_length<R: Read>(reader: &mut R) -> Result<Option<u16>, FrameError>
    ensures { MatchResult result
        (λ r. MatchOption r (IsOver (R.remaining reader.old) (R.remaining reader.new)) (λ n. Consumes (R.remaining reader.old) (R.remaining reader.new) (big_bytes 2 n)))
        (IsNotTaken (R.remaining reader.old) (R.remaining reader.new)) }
{
    let mut head = [0u8; 2];
    match fill(reader, &mut head)? {
        0 => Ok(None),
        1 => Err(FrameError::Short),
        _ => Ok(Some(length_in(&head))),
    }
}

/// The length in these two bytes, the higher first.
pub(crate) fn length_in(head: &[u8]) -> u16
    requires { length head.now ≡ 2 }
    ensures { head.now ≡ big_bytes 2 result }
{
    BigEndian::read_u16(head)
}

// So many bytes of a stream.
fn read_bytes<A: Heap, R: Read>(
    alloc: A,
    reader: &mut R,
    count: usize,
) -> Result<Vec<u8, A>, FrameError>
    ensures { MatchResult result
        (λ v. (length v.items ≡ count) × Consumes (R.remaining reader.old) (R.remaining reader.new) v.items)
        (IsLacking (R.remaining reader.old) (R.remaining reader.new) count) }
{
    let mut bytes = vec![in alloc; 0u8; count]?;
    if fill(reader, &mut bytes)? < count {
        return Err(FrameError::Short);
    }
    Ok(bytes)
}

// Reads until the buffer is full or the stream ends: how many bytes were read.
fn fill<R: Read>(reader: &mut R, buf: &mut [u8]) -> Result<usize, FrameError>
    ensures within { IfOk result (λ n. n ≤ length buf.new) }
    ensures bytes { IfOk result (λ n. Consumes (R.remaining reader.old) (R.remaining reader.new) (take n buf.new)) }
    ensures end { IfOk result (λ n. n < length buf.new → IsAtEnd (R.remaining reader.new)) }
    ensures fault { IfErr result (λ e. e ≡ Read) }
{
    let mut at = 0;
    while at < buf.len() {
        match reader.read(&mut buf[at..]) {
            Ok(0) => break,
            Ok(count) => at += count,
            Err(_) => return Err(FrameError::Read),
        }
    }
    Ok(at)
}
