//! Frames over readers and writers that end or fault at each byte.
use memory::Heap;
use refusing_alloc::Refusing;
use sockets::{FrameError, framed, read_framed, write_framed};
use std::alloc::Global;
use std::io;
use std::io::{ErrorKind, Read, Write};
use std::test::Fail;

// A frame of three bytes, and what stands behind it.
const STREAM: [u8; 7] = [0, 3, 0xaa, 0xbb, 0xcc, 0, 9];

// How many bytes of a stream came of which another frame is told: three of five bytes and more, and none of fewer.
fn first_mistold() -> Option<usize> {
    for count in 0..8 {
        let wanted = if count < 5 { None } else { Some(&STREAM[2..5]) };
        if framed(&STREAM[..count]) != wanted {
            return Some(count);
        }
    }
    None
}

#[test]
fn the_first_frame_that_came_is_told(rt: HostRuntime) -> Result<(), Fail> {
    assert_eq!(rt; first_mistold(), None);
    assert!(rt; framed(&[0, 0]) == Some(&[]));
    Ok(())
}

// A stream that gives its bytes two at a time, and then ends or faults.
#[derive(Drop)]
struct Source<'a> {
    bytes: &'a [u8],
    fault: Option<ErrorKind>,
}

fn ending(bytes: &[u8]) -> Source<'_> {
    Source { bytes, fault: None }
}

impl<'a> Read for Source<'a> {
    fn read(&mut self, buf: &mut [u8]) -> io::Result<usize> {
        if self.bytes.is_empty()
            && let Some(kind) = self.fault
        {
            return Err(io::Error::from(kind));
        }
        let count = buf.len().min(self.bytes.len()).min(2);
        buf[..count].copy_from_slice(&self.bytes[..count]);
        self.bytes = &self.bytes[count..];
        Ok(count)
    }
}

// A stream that takes so many bytes, two at a time, and then faults or takes none.
#[derive(Drop)]
struct Sink {
    bytes: Vec<u8>,
    room: usize,
    fault: Option<ErrorKind>,
}

impl Write for Sink {
    fn write(&mut self, buf: &[u8]) -> io::Result<usize> {
        if self.room == 0
            && let Some(kind) = self.fault
        {
            return Err(io::Error::from(kind));
        }
        let count = buf.len().min(self.room).min(2);
        self.bytes.extend_from_slice(&buf[..count])?;
        self.room -= count;
        Ok(count)
    }

    fn flush(&mut self) -> io::Result<()> {
        Ok(())
    }
}

fn fault_of<A: Heap>(alloc: A, mut source: Source<'_>) -> Option<FrameError> {
    read_framed(alloc, &mut source).err()
}

// Whether a frame that meets a sink of this room is refused, and so much of it stands.
fn stops_at(alloc: Global, room: usize, fault: Option<ErrorKind>) -> bool {
    let bytes = Vec::new(alloc);
    let mut sink = Sink { bytes, room, fault };
    let written = write_framed(&mut sink, &STREAM[2..5]);
    written == Err(FrameError::Write)
        && sink.bytes.len() == room
        && STREAM.starts_with(sink.bytes.as_slice())
}

#[test]
fn a_frame_is_taken_and_the_rest_is_left(rt: HostRuntime) -> Result<(), Fail> {
    let mut source = ending(&STREAM);
    match read_framed(rt.alloc(), &mut source) {
        Ok(Some(bytes)) => assert_eq!(rt; bytes.as_slice(), &STREAM[2..5]),
        _ => assert!(rt; false, "a frame stands there"),
    }
    assert_eq!(rt; source.bytes, &STREAM[5..]);
    Ok(())
}

#[test]
fn a_stream_may_end_before_a_frame(rt: HostRuntime) -> Result<(), Fail> {
    let mut source = ending(&[]);
    assert!(rt; matches!(read_framed(rt.alloc(), &mut source), Ok(None)));
    Ok(())
}

// After how many bytes, from this many up to four, the end or a fault of the stream is told by another number.
fn first_other<A: Heap>(
    alloc: A,
    fault: Option<ErrorKind>,
    from: usize,
    number: u8,
) -> Option<usize> {
    for end in from..5 {
        let bytes = &STREAM[..end];
        let told = fault_of(alloc, Source { bytes, fault });
        if told.map(FrameError::number) != Some(number) {
            return Some(end);
        }
    }
    None
}

#[test]
fn a_stream_that_ends_inside_is_short(rt: HostRuntime) -> Result<(), Fail> {
    assert_eq!(rt; first_other(rt.alloc(), None, 1, 1), None);
    Ok(())
}

#[test]
fn an_interrupted_read_is_a_fault(rt: HostRuntime) -> Result<(), Fail> {
    let fault = Some(ErrorKind::Interrupted);
    assert_eq!(rt; first_other(rt.alloc(), fault, 0, 2), None);
    Ok(())
}

#[test]
fn a_frame_is_written(rt: HostRuntime) -> Result<(), Fail> {
    let (room, fault) = (9, None);
    let bytes = Vec::new(rt.alloc());
    let mut sink = Sink { bytes, room, fault };
    assert!(rt; write_framed(&mut sink, &STREAM[2..5]).is_ok());
    assert_eq!(rt; sink.bytes.as_slice(), &STREAM[..5]);
    Ok(())
}

// The first room at which a frame does not stop so.
fn first_unstopped(alloc: Global, fault: Option<ErrorKind>) -> Option<usize> {
    for room in 0..5 {
        if !stops_at(alloc, room, fault) {
            return Some(room);
        }
    }
    None
}

#[test]
fn what_was_written_before_a_fault_stands(rt: HostRuntime) -> Result<(), Fail> {
    let fault = Some(ErrorKind::Interrupted);
    assert_eq!(rt; first_unstopped(rt.alloc(), fault), None);
    assert_eq!(rt; first_unstopped(rt.alloc(), None), None);
    Ok(())
}

#[test]
fn room_for_a_frame_may_be_refused(rt: HostRuntime) -> Result<(), Fail> {
    let heap = Refusing::new(rt.alloc());
    heap.refuse_after(0);
    let fault = fault_of(&heap, ending(&STREAM));
    assert_eq!(rt; fault.map(FrameError::number), Some(4));
    Ok(())
}
