//! The client side (RFC 1035, section 4.1): queries read from bytes, answers from local zones alone, replies
//! written.
//!
//! `read_query` reads a client's bytes: they are dropped, refused (FORMERR, or NOTIMP with the question to repeat,
//! `SharedEcho`), or a `Query`, shared by count (`SharedQuery`). `answer_local` answers a query with RD clear from a
//! catalog: the CNAME chain through local zones, at most eight long, and its end; a referral at a zone cut; or REFUSED.
//! `reply_bytes` writes the reply of an `Outcome`, truncated over UDP where it is longer than 512 bytes;
//! `refusal_bytes` that of a refusal.
//!
//! Promised: the meaning of bytes (`IsRequest`, one at most: `reading_is_one`), the answer of local zones
//! (`AnswersLocally`, `local_answer_is_one`), and the reply to the byte (`reply_of`), which repeats the client's
//! question in its own letters (`echo_is_question`). Its bytes are read back as the reply, which is known before they
//! are written (`reply_is_message`, `refusal_is_message`). Reading a reply, or fewer than 12 bytes, takes no memory.
//! Not here: recursion (`iterate`, `engine`); sockets (`server`).
//!
//! ```text
//! let mut writer = Writer::new(alloc)?;
//! if let Request::Query(query) = read_query(alloc, bytes)? {
//!     let outcome = answer_local(alloc, &query, catalog)?;
//!     let (reply, cause) = reply_bytes(&mut writer, &query, &outcome, Via::Udp)?;
//! }
//! ```
#![tactic(auto)]

mod copies;
mod equality;
mod follow;
mod laws;
mod queries;
mod read;
mod reply;
mod shared;
mod start;

pub use equality::same_echo;
pub use follow::{Step, alias_target, answer_local};
pub use laws::{echo_is_question, local_answer_is_one, reading_is_one};
pub use queries::{End, Outcome, Query, Refusal, Request};
pub use read::read_query;
pub use reply::{refusal_bytes, refusal_is_message, reply_bytes, reply_is_message};
pub use shared::{SharedEcho, SharedQuery, lent_echo};
pub use start::Start;
