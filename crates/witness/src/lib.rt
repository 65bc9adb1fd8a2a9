//! The premises of the laws over runs can be met: a run that meets them, in `specs` and `proofs`. Nothing here
//! runs.
//!
//! `LawsStand` has a well formed world, a site, and an honest run from a new resolver: a client asks, the server of
//! the root refers the resolver to another, and that one's answer goes to the client. In others servers are silent, a
//! server fails, memory is refused, the cache answers, an answer comes over TCP, an alias is followed, a server's name
//! is looked up, and a query fails since too many are.
//!
//! Promised: there are such runs (`laws_stand`), so that no law of `laws` is of nothing.
//! Not here: the laws themselves (`laws`).
//!
//! ```text
//! pub fn laws_stand()
//!     ensures { LawsStand }
//! {}
//! ```
#![tactic(auto)]

mod standing;

pub use standing::laws_stand;
