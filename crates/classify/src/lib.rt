//! The class of a reply from a server, by what it is used for (RFC 1034, section 5.3.3, step 4; RFC 2308, section 2;
//! RFC 2181, section 5.4.1): an answer, a referral, a truncated reply, or one of no use.
//!
//! `classify` takes the zone whose server was asked, the question, the way and the message, and gives the `Class`: the
//! first line that fits of a short table. Of a referral the first 64 NS records are read, and only glue in bailiwick is
//! used, the first 256 A records at or under the zone that was asked. `received` bounds the TTLs of an answer (a week;
//! a negative answer three hours), `lifetime` and `Referral::lifetime` say for how long it is cached.
//! `Referral::into_cut` makes the cut that a referral leads to.
//!
//! `read` reads a message before it is known which zone's server sent it: a `Reading` has its ID, its question, and its
//! class at the root, which `narrow` narrows to a zone.
//!
//! Promised: the class, exactly (`class_of`). A reply that is used is an answer or a referral in the RFC's words
//! (`answer_law`, `referral_law`, `root_law`), and one that is so is used (`use_law`, `found_law`). An ask is sent
//! again over TCP just where its reply over UDP is truncated (`truncated_law`). Bounds change TTLs alone
//! (`received_law`). The class at a zone is that at the root, narrowed (`narrow_law`), but for why a message is of no
//! use.
//! Not here: whether the message is the reply to an ask at all (`engine`).
//!
//! ```text
//! let message = View::new(alloc, bytes)?;
//! match classify(alloc, zone, name, RType::A, Via::Udp, &message)? {
//!     Class::Answer(link) => { let link = received(link); let seconds = lifetime(&link); }
//!     Class::Referral(referral) => { let seconds = referral.lifetime(); let cut = referral.into_cut(alloc)?; }
//!     Class::Truncated => { /* ask the same server over TCP */ }
//!     Class::Failed(failure) => { /* ask the next server */ }
//! }
//! ```
#![tactic(auto)]

mod class;
mod copies;
mod equality;
mod laws;
mod lifetimes;
mod narrowing;
mod reading;
mod sections;
mod table;
mod targets;

pub use class::{Class, Failure, Referral};
pub use laws::{answer_law, found_law, referral_law, root_law, truncated_law, use_law};
pub use lifetimes::{lifetime, received, received_law, referral_lifetime};
pub use narrowing::{narrow, narrow_law};
pub use reading::{Reading, read};
pub use table::classify;
