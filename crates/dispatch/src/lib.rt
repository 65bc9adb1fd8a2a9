//! What comes at a server's sockets, as events; where its actions go; and what its loops decide without a socket.
//!
//! `datagram_event` and `stream_reply_event` make an `events::Event` of what other servers sent. `hand_over` gives an
//! action to a `Carrier`, sockets and channels or a list in a test, by its `destination_of`. A client's number is its
//! address and port (`client_of`, `sender_of`), so that nothing is kept of it; that of a stream holds its address and
//! its place (`stream_number`, `stream_client`, `place_of`). `repeats` says which datagrams are for an ask, `Reach`
//! which servers are asked, `role_of` what each loop does, and `loop_count` how many there are.
//!
//! Promised: each event and each target exactly (`target`, `Adds`). A reply goes back to the address and the port that
//! its query came from (`replies_go_back`), and to nobody else. Which messages repeat an ask (`Repeats`), and which
//! addresses are asked (`reaches`), exactly.
//! Not here: the sockets themselves (`server`).
//!
//! ```text
//! let event = datagram_event(alloc, moment, socket, from, bytes)?;
//! if let Some(number) = hand_over(&mut carrier, &action) {
//!     let failed: Event<A> = stream_reply_event(moment, number, None);       // it can't be asked over TCP
//! }
//! ```
#![tactic(auto)]

mod blocks;
mod carrier;
mod destinations;
mod incoming;
mod matching;
mod places;
mod questions;
mod roles;
mod senders;

pub use blocks::{Block, Reach, block_of};
pub use carrier::{Carrier, hand_over};
pub use destinations::{Destination, bytes_of, destination_of};
pub use incoming::{datagram_event, stream_reply_event};
pub use matching::repeats;
pub use places::{
    place_of, places_are_kept, silence_before_yielding, stream_client, stream_number,
};
pub use questions::{failure_for, flags_law, is_failure, question_end};
pub use roles::{Role, loop_count, role_of};
pub use senders::{client_of, replies_go_back, sender_of};
