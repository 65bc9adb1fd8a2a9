//! Master files parted into entries of raw words (RFC 1035, section 5.1): comments, quotes, parentheses and line
//! ends are read here, and nothing else.
//!
//! `Words` is a cursor over a text: an iterator of the words of the open entry, as slices of the text with their escapes
//! unread; `next_entry` opens the entry behind it, with its line and how that line begins (`Lead`:
//! with a word, with a blank, or past its margin). No memory is taken.
//!
//! Promised: the entries that the cursor shows are the text's parts by those rules, and every text that parts so is
//! shown so (`parts_both_ways`); words written as a line are read back (`line_is_read_back`,
//! `lines_are_read_back`).
//! Not here: what a word means (`masterfile`); `$INCLUDE`.
//!
//! ```text
//! let mut words = Words::new(text, 1);
//! let lead = Lead::of_line(text); // how the first line begins
//! match words.next() {
//!     Some(Word::Plain(bytes)) => { /* as it was written */ }
//!     Some(Word::Quoted(bytes)) => { /* what stands between the quotes */ }
//!     Some(Word::Broken) => { /* a fault: nothing after it is read */ }
//!     None => { /* the entry has no words */ }
//! }
//! if words.is_at_end() {
//!     let entry = words.next_entry(); // the line on which it starts, and how that begins
//! }
//! ```
#![tactic(auto)]

mod cursor;
mod laws;
mod lexemes;

pub use cursor::{Lead, Words};
pub use laws::{line_is_read_back, lines_are_read_back, parts_both_ways};
pub use lexemes::Word;
