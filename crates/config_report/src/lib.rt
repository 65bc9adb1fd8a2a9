//! What an operator is told of a server's file, in sentences: why it is refused, and what it may not be meant to say.
//!
//! `line_report` is of a line of the server's file, `file_report` of a line of a zone file, `zone_report` of records
//! that are no zone: of the first that breaks the rule. `notes` is what a server's file says that is taken and may not
//! be meant, and `put_total` the line of what it makes.
//!
//! Promised: each text exactly, with the line of the file or the record that it is about (`line_report_text`,
//! `file_report_text`, `zone_report_text`, `notes_text`). No byte of a file rules a terminal: of one that is not
//! printed the number stands (`shown_text`).
//! Not here: reading files and trying sockets (`commands`).
//!
//! ```text
//! if let Err(error) = read_config(alloc, text) {
//!     let report = line_report(alloc, "resolverd.conf", text, error)?;
//!     // resolverd.conf:12: cache 0: a number from 1 to 1000000 stands there
//! }
//! ```
#![tactic(auto)]

mod findings;
mod lines;
mod rules;
mod sentences;
mod shown;

pub use findings::{notes, put_total};
pub use lines::{file_report, line_report};
pub use rules::zone_report;
