//! The earlier names of a message, for compression (RFC 1035, section 4.1.4): a name is written as its first labels
//! and a pointer to the longest suffix of it that stands in the message already.
//!
//! The writer of a message calls `longest` before it writes a name, and `note` behind it: every suffix that begins
//! with a label that was written, and that a pointer can reach (places below 16,384), is noted with its place.
//! A suffix is compared with noted ones of its own length alone, and of these with those on its path: two bits of
//! it tell at each of them which one is next. So a look-up compares four for each byte of the suffix at most, however
//! many names a message has and whatever they are.
//!
//! Promised: `longest` gives the longest suffix that was noted, at its earliest place, and never the root
//! (`longest`, in `specs`); what is noted is exactly what was written (`first_notes`); after a refusal nothing is.
//! Not here: the bytes of the message (`wire`).
//!
//! ```text
//! let mut seen = Suffixes::new(alloc)?;
//! let www = Name::from_text(alloc, "www.example.")?;
//! seen.note(&www, 2, 12)?;                        // www.example. stands at 12, example. at 16
//! let ftp = Name::from_text(alloc, "ftp.example.")?;
//! let found = seen.longest(&ftp);                 // one label, then the pointer
//! assert!(rt; matches!(found, Some(Found { labels: 1, place: 16, .. })));
//! ```
#![tactic(auto)]

mod earlier;

pub use earlier::{Found, POINTER_LIMIT, Suffixes};
