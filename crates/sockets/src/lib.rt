//! The frames of a TCP stream of messages (RFC 1035, section 4.2.2): a length in two bytes, the higher first, and
//! then so many bytes, 65,535 at most.
//!
//! `read_framed` takes one frame off a stream and leaves the rest unread, or says that the stream is at its end.
//! `write_framed` writes the bytes of a message as one frame, its length and its first bytes in one write (RFC
//! 7766, section 8). `framed` is the frame that stands first among bytes that came, for streams that are not waited
//! for.
//!
//! Promised: the frame that stood first, and what is left of the stream (`IsTaken`, `IsOver`), or why none was
//! taken (`FrameError`, `IsNotTaken`); what was written (`frame`, `IsNotWritten`); which frame came (`BeginsWith`).
//! Not here: connections, time-outs and threads (`server`).
//!
//! ```text
//! write_framed(writer, b"www")?;                  // 0, 3, then these three bytes
//! let bytes = read_framed(alloc, reader)?;        // none where the stream ends before a frame
//! ```
#![tactic(auto)]

mod fault;
mod framing;
mod reading;
mod writing;

pub use fault::FrameError;
pub use framing::framed;
pub use reading::read_framed;
pub use writing::write_framed;
