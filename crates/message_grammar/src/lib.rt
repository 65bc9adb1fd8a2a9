//! The grammar of messages (RFC 1035, section 4.1): which bytes are which message, and the one encoding of a
//! message, its names compressed (section 4.1.4). Definitions, in `specs`, and laws: nothing here runs.
//!
//! `IsMessage bytes m` says that these bytes are this message, `NameAt` and `SpeltAt` which name stands at a place,
//! and `encoding m` are the bytes that a message is written as. Records of other types and classes are stepped
//! over. `wire` reads and writes by these words, and the contracts of replies speak in them.
//!
//! Promised: bytes are one message at most (`one_message_law`), with one name at each place (`one_name_law`,
//! `one_spelling_law`). The encoding of a message is that message (`encoding_is_message`), and its names are
//! compressed as far as they can be (`encoding_is_compressed`): `IsCompressed bytes m` speaks of bytes, places and
//! pointers alone. The letters of a question's name change nothing else (`letters_stay_in_question`,
//! `letters_keep_length`).
//!
//! ```text
//! ghost use Rattle.message_grammar.specs.Messages.{IsMessage};
//!
//! pub fn decode<A: Heap>(alloc: A, bytes: &[u8]) -> Result<Message<A>, WireError>
//!     ensures read { IfOk result (λ m. IsMessage bytes.now m) }
//! ```
#![tactic(auto)]

mod laws;

pub use laws::{
    encoding_is_compressed, encoding_is_message, full_name_law, letters_keep_length,
    letters_stay_in_question, name_is_spelt, names_end_in_root, one_message_law, one_name_law,
    one_spelling_law, spelling_is_name,
};
