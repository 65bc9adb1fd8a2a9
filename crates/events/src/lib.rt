//! Events and actions of the resolver as plain values, and the bytes of both.
//!
//! An `Event` comes in and `Actions` go out. `read_asked` reads a client's bytes, `reply_to` and `refuse` write the
//! reply to the client; `send` writes an ask of a server, one question with RD clear.
//!
//! Promised: the bytes that go out are those of the ask (`IsSent`) or the reply (`IsReply`), within its way's limit.
//! Not here: which ask is open (`asks`, `open_queries`), and which message is accepted for it (`engine`).
//!
//! ```text
//! let ask = Ask { path: Path::Udp(7), server: Addr([192, 0, 2, 1]), id: 4660, name, kind: RType::A };
//! let action = send(alloc, 53, &ask)?;
//! let from = Endpoint { address: Addr([192, 0, 2, 1]), port: 53 };
//! let event = Event::Datagram { moment: 20, socket: 7, from, bytes };
//! ```
#![tactic(auto)]

mod action;
mod ask;
mod bytes;
mod client_query;
mod event;
mod laws;
mod message_id;
mod path;
mod read;
mod say;

pub use action::{Action, Actions};
pub use ask::Ask;
pub use bytes::Bytes;
pub use client_query::ClientQuery;
pub use event::Event;
pub use laws::{id_is_in_message, local_answer_is_plain};
pub use message_id::id_in;
pub use path::{Endpoint, Path};
pub use read::read_asked;
pub use say::{ask_is_message, refuse, reply_to, send};
