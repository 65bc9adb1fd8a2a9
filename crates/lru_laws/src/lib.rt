//! What the crate `lru` does to the list of its entries, in exact words, for keys whose equality is exact: laws for
//! the stores that stand on it.
//!
//! `kept` and `used` (`specs`) are the list after an entry was put and after one was looked up; `KeepsOnly` and
//! `LosesOnly` say what may be new in it and what may be gone. The contracts of `retry`, `cache` and `referral`
//! speak in these words.
//!
//! Promised: a put brings its own entry alone and loses the old one of its key, or what stood past the capacity
//! (`kept_law`). A look-up changes the order alone (`used_law`). A removal loses the entry of one key (`removed_law`).
//! An entry goes down by one place at most with each call (`places_law`). No key stands twice, and there are no more
//! entries than the capacity (`keys_law`).
//! Not here: how long what is kept lives (`rdata`), and what is done with what no longer lives (`cache`, `referral`).
//!
//! ```text
//! pub fn timed_out(&mut self, addr: Addr) -> Result<(), Starved>
//!     ensures only { KeepsOnly self.old.entries (λ e. e ≡ (addr, raised addr self.old.entries)) self.new.entries }
//!     ensures gone { LosesOnly self.old.entries (MayGo same_addr self.old.cap addr self.old.entries)
//!         self.new.entries }
//! ```
#![tactic(auto)]

mod laws;
mod store;

pub use laws::{kept_law, keys_law, mapped_law, places_law, removed_law, used_law};
pub use store::keep_for;
