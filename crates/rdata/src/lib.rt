//! Resource records of class IN and of nine types (RFC 1035, sections 3.2 and 3.3): A, NS, CNAME, SOA, PTR, MX,
//! TXT, AAAA (RFC 3596) and SRV (RFC 2782); and RRsets (RFC 2181, section 5).
//!
//! `Record` is an owner, a TTL and `RData`; `Records` lists them, and a `RecordSet` is those of one owner and one
//! TTL. Its data lie once for all clones of it (`Values`): a clone counts up, and copies its owner alone. `RType` is a served type, by number (`from_number`, `number`) or by word (`from_word`, `word`). `set_at` picks
//! the RRset of an owner and a type: repeats dropped, all TTLs the lowest. `Display` writes a record, and its RDATA, as
//! a master file has them; `put_data` does so into a string.
//!
//! Promised: each result, exactly, by the functions of `specs` (`one_set`, `type_by`, `data_text`); the test for equal
//! data holds for equal data alone (`same_data_law`); each type is named by its number and its word
//! (`number_names_type_law`, `word_names_type_law`).
//! Not here: other types and classes, which the readers of messages and of master files leave out or refuse.
//!
//! ```text
//! let mut records = Records::new(alloc);
//! records.push(Record { owner: name.clone()?, ttl: 300, value: RData::A(Addr([192, 0, 2, 1])) })?;
//! let set = set_at(alloc, records.as_slice(), name, RType::A)?;
//! assert!(rt; set.is_some_and(|set| set.len() == 1 && set.ttl() == 300));
//! ```
#![tactic(auto)]

mod addr;
mod data;
mod equality;
mod laws;
mod order;
mod record_set;
mod records;
mod rtype;
mod sets;
mod shared;
mod soa;
mod srv;
mod text;
mod texts;
mod ttl;

pub use addr::Addr;
pub use data::RData;
pub use laws::{number_names_type_law, same_data_law, word_names_type_law};
pub use record_set::RecordSet;
pub use records::{GREATEST_TTL, Record, Records};
pub use rtype::{INTERNET, RType, is_same_word};
pub use sets::{Later, dedup_set, lowest_ttl, put_once, same_set, set_at};
pub use shared::{Place, Shared, Values};
pub use soa::Soa;
pub use srv::Srv;
pub use text::{put_data, put_ipv4};
pub use texts::{CharacterString, Texts, next_string};
pub use ttl::{cap_ttl, is_young, seconds_left};
