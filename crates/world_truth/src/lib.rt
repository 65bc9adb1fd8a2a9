//! What is true in a world of zones, servers and hints (RFC 1034, sections 4.2 and 4.3.2): definitions, in `specs`,
//! and laws. Nothing here runs.
//!
//! A `World` is zones, the servers that serve them, the zones that the resolver holds, and hints; `IsWorld` says
//! when it is well formed. `Truth` is the CNAME chain of a question and its end, `MayServe` what an honest server
//! at an address may reply, `IsRight` which bytes are the right reply. `IsAnswer` and `IsReferralTo` say what a
//! message is taken for, `MayAsk` and `IsFrame` whose servers may be asked for a name.
//!
//! Promised: a name has one zone in charge and a question one truth (`charge_law`, `one_truth_law`). A right reply is
//! right for one truth alone (`one_reply_law`). What an honest server answers is true, and where it refers may be
//! followed (`honest_answer_law`, `honest_referral_law`, `frame_law`). An NXDOMAIN is true of all names beneath
//! (`beneath_law`, RFC 8020). The premises can be met (`sample_law`).
//! Not here: caches, retries, identifiers and time (`resolution`, `runs`, `laws`).
//!
//! ```text
//! ghost use Rattle.world_truth.specs.Replies.{IsRight};
//!
//! pub fn judge<A: Heap>(world: &World<A>, name: &Name<A>, kind: RType, bytes: &[u8]) -> Result<bool, Starved>
//!     ensures { IfOk result (λ b. IsTrue b ↔ IsRight world.now name.now (type_number kind) bytes.now) }
//! ```
#![tactic(auto)]

mod laws;

pub use laws::{
    beneath_law, chain_law, charge_law, delegation_law, entry_law, frame_law, honest_answer_law,
    honest_referral_law, local_law, once_law, one_reply_law, one_truth_law, same_law, sample_law,
};
