//! Texts of lines: the lines of a text, the words of a line, and what a word says. Server files, scripts and world
//! texts are read by it.
//!
//! `TextLines` gives the lines one by one, `LineWords` the words of a line, parted by spaces and tabs;
//! `LineWords::stated` has none of a line that begins with a semicolon. `number`, `address`, `name`, `bytes` and
//! `rtype` read a word, as functions and as the next word of a line; `end` refuses words that are left over.
//!
//! Promised: each word and each value exactly (`lines`, `words`, `number_of`, `name_of`); a refusal is the first
//! line's that is at fault, with its number and kind (`LineError`).
//! Not here: which words a text may have (`config`, `script`, `world_text`); master files (`master_lexer`).
//!
//! ```text
//! let mut words = LineWords::stated("listen 127.0.0.1 5300");
//! assert_eq!(rt; words.word()?, "listen");
//! assert_eq!(rt; words.address()?, Addr([127, 0, 0, 1]));
//! assert_eq!(rt; words.number(0, 65_535)?, 5300);
//! words.end()?;
//! ```
#![tactic(auto)]

mod fault;
mod line;
mod text;
mod word;

pub use fault::{LineError, LineKind};
pub use line::LineWords;
pub use text::{TextLines, first_line};
pub use word::{address, bytes, name, number, rtype};
