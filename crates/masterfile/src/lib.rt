//! Zone texts, read and printed (RFC 1035, section 5.1; `$TTL`: RFC 2308, section 4).
//!
//! `read` gives the records of a text in order, `read_block` those of a text that stands in a larger one. A
//! relative name is under the origin in force, an entry without owner or TTL takes the ones before it. `print`
//! writes records as a zone text of absolute names, `put_record` one line of it.
//!
//! Promised: a text is read as records exactly where it has them by the RFC's rules (`reads_both_ways`,
//! `IsMasterText`), else refused with the line and the kind of its first fault (`FileError`). A text of `print` is read
//! back as the same records, whatever the reader's origin (`printed_is_read_back`).
//! Not here: the rules of a zone (`zone`); `$INCLUDE`, TTL units (`1h`), classes other than IN, types other than
//! those of `rdata`: each is refused.
//!
//! ```text
//! let origin = Name::from_text(alloc, "example.")?;
//! let records = read(alloc, &origin, "$TTL 300\nwww IN A 192.0.2.1\n")?;
//! let text = print(alloc, &origin, records.as_slice())?;
//! assert_eq!(rt; text.as_str(), "$ORIGIN example.\nwww.example. 300 IN A 192.0.2.1\n");
//! ```
#![tactic(auto)]

mod addresses;
mod entries;
mod faults;
mod fields;
mod files;
mod laws;
mod numbers;
mod printed;
mod sound;
mod strings;

pub use faults::{FileError, FileKind};
pub use files::{read, read_block};
pub use laws::{printed_is_read_back, reads_both_ways};
pub use printed::{print, put_record};
