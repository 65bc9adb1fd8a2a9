//! Domain names (RFC 1034, section 3.1; RFC 1035, sections 2.3.4, 3.1 and 5.1), stored in lower case: names that differ
//! in the case of letters alone are equal.
//!
//! `Name::from_text` reads a name that stands alone, `Name::under` one of a master file, relative to its origin;
//! `Display` and `Debug` write it, `to_text` and `put_name` into a string. `Builder` makes a name label by label.
//! `iter` gives its labels; `wire` is its wire form, over which `next_label` walks. Zones and bailiwick use
//! `is_at_or_under`, `parent` and `ascend`, wildcards (RFC 4592) `is_wildcard` and `is_wildcard_of`. A `Suffix` is a
//! name that borrows its bytes from one at or under it. `Ord` is the order of RFC 4034, section 6.1. A name of at most
//! `INLINE_NAME` bytes lies in its value, and takes no other memory.
//!
//! Promised: a name has labels of 1 to 63 bytes, at most 255 bytes on the wire (`well_formed_law`, `IsName`). A text is
//! read exactly where it writes a name (`text_writes_name`), else refused by its first fault (`first_fault_counts`).
//! The text of a name is read back as that name (`text_is_read_back`).
//! Not here: compression pointers (`wire`, `suffixes`), the case of a question's letters (`wire::Spelling`).
//!
//! ```text
//! let origin = Name::from_text(alloc, "Example.")?;
//! let name = Name::under(alloc, b"www", &origin)?;
//! assert!(rt; name.is_at_or_under(&origin) && name.labels() == 2);
//! assert_eq!(rt; name.to_text()?.as_str(), "www.example.");
//! ```
#![tactic(auto)]

mod allocated;
mod builder;
mod bytes;
mod labels;
mod name;
mod order;
mod stars;
mod suffix;
mod text;
mod walk;

pub use builder::{Builder, Overflow};
pub use bytes::INLINE_NAME;
pub use labels::Labels;
pub use name::{LONGEST_NAME, Name};
pub use suffix::Suffix;
pub use text::{
    NameError, escape, first_fault_counts, put_name, text_is_read_back, text_writes_name,
    write_number,
};
pub use walk::next_label;
