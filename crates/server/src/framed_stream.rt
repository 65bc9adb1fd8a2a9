//! Streams of frames that are not waited for.
ghost use Rattle.std.specs.Prelude.{◌<◌, ◌^◌, IfOk, IfSome, length};

use crate::ends::is_early;
use mio::net::TcpStream;
use sockets::{framed, write_framed};
use std::alloc::{AllocError, Global};
use std::io;
use std::io::{ErrorKind, Read, Write};
use std::os::fd::{AsRawFd, RawFd};

/// Bytes of a frame at most, with the two of its length: so much is held of what came and is no whole frame yet.
pub(crate) const MOST_FRAME_BYTES: usize = 65_537;

/// Why a stream has failed.
#[derive(Clone, Copy, PartialEq, Eq)]
pub(crate) enum StreamFault {
    /// A growth was refused.
    Memory,
    /// The other side refused it, or can't be reached.
    Refused,
    /// The other side said nothing for as long as the system waits.
    Silent,
    /// It was reset, or takes nothing more.
    Reset,
}

/// Why a stream has failed that gave this error (connect(2), tcp(7)).
fn fault_of(error: &io::Error) -> StreamFault {
    match error.kind() {
        ErrorKind::ConnectionRefused
        | ErrorKind::HostUnreachable
        | ErrorKind::NetworkUnreachable
        | ErrorKind::NetworkDown => StreamFault::Refused,
        ErrorKind::TimedOut => StreamFault::Silent,
        _ => StreamFault::Reset,
    }
}

/// A stream of frames that is not waited for: what came of the next frames, and what is still to be written.
pub(crate) struct FramedStream {
    stream: TcpStream,
    got: Vec<u8>,
    // How much of `got` was taken out, frame by frame: it goes before more is read.
    taken: usize,
    out: Vec<u8>,
    // How much of `out` was written.
    written: usize,
    // Whether something may have come, or may be written, since the last time that there was nothing to do.
    readable: bool,
    writable: bool,
    // Whether the other side has ended what it sends.
    ended: bool,
    fault: Option<StreamFault>,
}

// By hand, so that whatever drops it calls this.
impl Drop for FramedStream {
    fn drop(self) {
        let FramedStream {
            stream,
            got,
            taken: _,
            out,
            written: _,
            readable: _,
            writable: _,
            ended: _,
            fault: _,
        } = self;
        drop(stream);
        drop(got);
        drop(out);
    }
}

impl FramedStream {
    /// One on which nothing came yet. What is written goes out at once.
    pub fn new(alloc: Global, stream: TcpStream) -> FramedStream {
        let _ = stream.set_nodelay(true);
        FramedStream {
            stream,
            got: Vec::new(alloc),
            taken: 0,
            out: Vec::new(alloc),
            written: 0,
            readable: true,
            writable: true,
            ended: false,
            fault: None,
        }
    }

    /// Its descriptor.
    pub fn descriptor(&self) -> RawFd {
        self.stream.as_raw_fd()
    }

    /// Something changed: it is to be read and written again.
    pub fn stir(&mut self) {
        self.readable = true;
        self.writable = true;
    }

    /// Whether all that was put has been written.
    pub fn is_written(&self) -> bool {
        self.out.is_empty()
    }

    /// Whether the other side has ended what it sends, and all of that was read.
    pub fn has_ended(&self) -> bool {
        self.ended
    }

    /// Why it has failed, if it has.
    pub fn fault(&self) -> Option<StreamFault> {
        self.fault
    }

    /// Puts a frame behind what is to be written.
    pub fn put(&mut self, bytes: &[u8])
        requires { length bytes.now < 2 ^ 16 }
    {
        if write_framed(&mut self.out, bytes).is_err() {
            self.fault = Some(StreamFault::Memory);
        }
    }

    /// Writes what it takes; whether it took a byte.
    pub fn write(&mut self) -> bool {
        let mut took = false;
        for _ in 0..u64::MAX {
            if !self.writable || self.fault.is_some() || self.written >= self.out.len() {
                break;
            }
            match self.stream.write(&self.out[self.written..]) {
                Ok(0) => self.fault = Some(StreamFault::Reset),
                Ok(count) => {
                    self.written = self.written.saturating_add(count);
                    took = true;
                }
                Err(error) if is_early(&error) => {
                    self.writable = error.kind() != ErrorKind::WouldBlock;
                    break;
                }
                Err(error) => self.fault = Some(fault_of(&error)),
            }
        }
        if self.written >= self.out.len() {
            self.clear_out();
        }
        took
    }

    // All that was put has been written: its room is kept, unless it is more than one frame has.
    fn clear_out(&mut self) {
        if self.out.capacity() > MOST_FRAME_BYTES {
            self.out = Vec::new(*self.out.allocator());
        } else {
            self.out.clear();
        }
        self.written = 0;
    }

    /// The next frame, of what came before or comes now. None where all of it is not there.
    pub fn next(&mut self, alloc: Global, buffer: &mut [u8]) -> Option<Vec<u8>>
        ensures { IfSome result (λ v. length v.items < 2 ^ 16) }
    {
        if framed(self.rest()).is_none() && !self.read(buffer) {
            return None;
        }
        self.take_frame(alloc)
    }

    // What came and was not taken out yet.
    fn rest(&self) -> &[u8] {
        self.got.get(self.taken..).unwrap_or(&[])
    }

    // The frame that stands in front, which is taken out.
    fn take_frame(&mut self, alloc: Global) -> Option<Vec<u8>>
        ensures { IfSome result (λ v. length v.items < 2 ^ 16) }
    {
        let frame = framed(self.rest())?;
        let count = frame.len() + 2;
        let frame: Result<_, _> = Vec::from_slice(alloc, frame);
        self.taken = self.taken.saturating_add(count);
        self.kept(frame)
    }

    // Frees the room of the frames that were taken out.
    fn make_room(&mut self) {
        if self.taken >= self.got.len() {
            self.got.clear();
        } else {
            self.got.drain(..self.taken);
        }
        self.taken = 0;
    }

    // A frame, where there was memory for it; else the stream has failed.
    fn kept(&mut self, frame: Result<Vec<u8>, AllocError>) -> Option<Vec<u8>>
        requires { IfOk frame (λ v. length v.items < 2 ^ 16) }
        ensures { IfSome result (λ v. length v.items < 2 ^ 16) }
    {
        if frame.is_err() {
            self.fault = Some(StreamFault::Memory);
        }
        frame.ok()
    }

    /// Reads what has come, as much as it holds; whether a byte came.
    pub fn read(&mut self, buffer: &mut [u8]) -> bool {
        let mut came = false;
        self.make_room();
        for _ in 0..u64::MAX {
            if !self.readable || self.ended || self.fault.is_some() {
                break;
            }
            let room = MOST_FRAME_BYTES
                .saturating_sub(self.got.len())
                .min(buffer.len());
            if room == 0 {
                break;
            }
            match self.stream.read(&mut buffer[..room]) {
                Ok(0) => self.ended = true,
                Ok(count) => {
                    came = true;
                    if self.got.extend_from_slice(&buffer[..count]).is_err() {
                        self.fault = Some(StreamFault::Memory);
                    }
                }
                Err(error) if is_early(&error) => {
                    self.readable = error.kind() != ErrorKind::WouldBlock;
                    break;
                }
                Err(error) => self.fault = Some(fault_of(&error)),
            }
        }
        came
    }
}
