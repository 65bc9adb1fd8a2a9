//! Events that were read and actions that are not written yet, so that a resolver neither reads nor writes bytes while
//! it holds its lock.
//!
//! `read_event` makes a `TypedEvent` of an event's bytes: a client's request (`front`), or the reading of a server's
//! message (`classify`), in memory of its own (`BoxedReading`). A `TypedAction` is a reply by its query and outcome, a
//! refusal, or an ask. `reply_to`, `refuse` and `send` make one, and `write_action` writes the `events::Action` of it.
//!
//! Promised: a typed event is one of some bytes (`ReadAs`, the invariant of `TypedEvent`): `read_event` makes it, or it
//! is a copy of one. What is written of a typed action is the one action that contracts see it as (`said_view`), which
//! is the reply, the refusal or the ask before it is written (`reply_law`, `refusal_law`, `ask_law`). A copy is equal,
//! and `same` is exact: of events by what was read, of actions by their parts.
//! Not here: which query an event is for (`engine`).
//!
//! ```text
//! let Some(event) = read_event(alloc, &event)? else { return Ok(()) };   // a datagram that is for no query
//! match event.parsed() {
//!     Parsed::Client { client, way, request, .. } => { /* answer it under the lock */ }
//!     Parsed::Datagram { reading, .. } => { /* find the ask under the lock */ }
//!     _ => {}
//! }
//! let action = write_action(alloc, &mut writer, &reply_to(client_query, outcome))?;
//! ```
#![tactic(auto)]

mod action;
mod boxed;
mod copies;
mod equality;
mod event;
mod laws;
mod say;
mod write;

pub use action::{TypedAction, TypedActions};
pub use boxed::{BoxedReading, lent_reading};
pub use event::{Parsed, TypedEvent, read_event};
pub use laws::{ask_law, refusal_law, reply_law};
pub use say::{refuse, reply_to, send};
pub use write::{write_action, write_actions};
