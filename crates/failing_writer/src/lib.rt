//! A writer for tests, which keeps what is written until it is full, and then fails as a full disk does.
//!
//! `FailingWriter::new` makes an empty writer with room for so many bytes, `AMPLE` for a writer that no test fills. It
//! takes three bytes of a write at most, so that a call which hands on what it writes has to come back for the rest.
//! `holds` says whether a text is all that was written, and `bytes` are what was. Tests of the program lend two of them
//! for its output and its faults, and see that a full writer is a fault and no loss.
//!
//! Promised: nothing; the module `failing_writer_tests` shows what a writer takes.
//! Not here: memory that is refused (`refusing_alloc`).
//!
//! ```text
//! let mut writer = FailingWriter::new(rt.alloc(), 4);
//! assert!(rt; writer.write_all(b"ok\n").is_ok());      // in one piece: three bytes
//! assert!(rt; writer.write_all(b"no\n").is_err());     // takes one byte more
//! assert!(rt; writer.holds("ok\nn"));
//! ```
#![tactic(auto)]

use std::alloc::Global;
use std::io;
use std::io::{ErrorKind, Write};

/// A writer that takes so many bytes, three at a time, and fails at the next.
#[derive(Drop)]
pub struct FailingWriter {
    /// What was written.
    pub bytes: Vec<u8>,
    room: usize,
}

impl FailingWriter {
    /// Whether this was written.
    pub fn holds(&self, text: &str) -> bool {
        self.bytes.as_slice() == text.as_bytes()
    }

    /// An empty writer with room for so many bytes.
    pub fn new(alloc: Global, room: usize) -> FailingWriter {
        FailingWriter {
            bytes: Vec::new(alloc),
            room,
        }
    }
}

impl Write for FailingWriter {
    fn write(&mut self, buf: &[u8]) -> io::Result<usize> {
        let taken = buf.len().min(self.room).min(3);
        if taken == 0 && !buf.is_empty() {
            return Err(io::Error::from(ErrorKind::StorageFull));
        }
        self.bytes.extend_from_slice(&buf[..taken])?;
        self.room -= taken;
        Ok(taken)
    }

    fn flush(&mut self) -> io::Result<()> {
        Ok(())
    }
}

/// The room of a writer that is never full in a test, in bytes.
pub const AMPLE: usize = 1_000_000;
