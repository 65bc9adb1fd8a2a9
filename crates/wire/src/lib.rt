//! Messages read from bytes and written as bytes (RFC 1035, section 4).
//!
//! `decode` reads a `Message`: its `Header`, its questions, and the records of its three sections; names are unfolded
//! from their pointers, and records of types and classes that are not served are left out. A `View` is a message that
//! is read in its bytes, record after record, without memory. `decode_question` reads the one question of a query
//! alone, with its own letters. `encode` writes a message with compression, `Draft::encode` one of borrowed parts and
//! with its question in its own letters; `Via::limit` is what a datagram or a stream allows.
//!
//! Promised: a message that is read is the one that the bytes are, and every message is read (`decoding_is_message`,
//! over `message_grammar`'s `IsMessage`); other bytes are refused by the first fault from the left (`WireError`). The
//! bytes that are written are `encoding`, and are read back (`encoding_is_read_back`). A `View` is the message that
//! `decode` reads.
//! Not here: the meaning of a message (`front`, `events`, `classify`); EDNS (RFC 6891).
//!
//! ```text
//! let message = decode(alloc, bytes)?;
//! for asked in message.questions.as_slice() { /* asked.name, asked.qtype, asked.qclass */ }
//! let bytes = encode(alloc, &message, UDP_LIMIT)?;
//! ```
#![tactic(auto)]

mod chains;
mod echo;
mod encoder;
mod error;
mod fields;
mod header;
mod laws;
mod lent;
mod message;
mod names;
mod parts;
pub mod rcode;
mod reader;
mod records;
mod served;
mod sets;
mod shown;
mod skips;
mod spelling;
mod values;
mod via;
mod view;
mod writable;
mod writer;

pub use echo::Echo;
pub use encoder::{Draft, encode};
pub use error::WireError;
pub use header::Header;
pub use laws::{decoding_is_message, encoding_is_read_back};
pub use lent::{Lent, Walk};
pub use message::{Message, Question, Questions};
pub use reader::{decode, decode_question};
pub use spelling::Spelling;
pub use via::{TCP_LIMIT, UDP_LIMIT, Via};
pub use view::View;
pub use writer::Writer;
