//! The resolver as a machine of one thread: events in, actions out.
//!
//! `Core::new` makes a resolver of a `Config`: local zones, hints, and the `Settings` of an operator. `Core::step`
//! takes one `events::Event` and gives one action at most, a reply or an ask, and whether another query is due.
//! `Core::step_typed` is the same step where messages are read before it and written after it (`typed`). `Core::answer`
//! takes it only where the answer to a query is at hand, and that shows at once. `Core` is a `book::Machine`, so that
//! many workers can share one.
//!
//! Promised: a step is one of `runs`, and each law of `laws` is kept by it, whatever run led there (`Steps`). The
//! history of a shared resolver is a run (`history_is_run`, `typed_history_is_run`). Where `Core::holds` says that the
//! answer to a query is at hand, its step asks no server (`at_hand_law`). A new resolver is the one of its `Config`
//! (`IsMade`), or is refused for one of three reasons (`CoreError`). Events that are for no query take no
//! memory (clause `quiet`).
//! Not here: sockets and clocks (`server`); the file of a server (`config`, `server_start`).
//!
//! ```text
//! let hints = Vec::from_slice(alloc, &[Addr([198, 41, 0, 4])])?;
//! let mut core = Core::new(alloc, Config { local: Vec::new(alloc), hints, settings })?;
//! let actions = core.step(&Event::Client { moment: 0, client: 3, way: Via::Udp, bytes })?;
//! match &actions.first {
//!     Some(Action::Reply { .. }) => { /* bytes to a client */ }
//!     Some(Action::Send { .. }) => { /* bytes to a server */ }
//!     _ => {}
//! }
//! ```
#![tactic(auto)]

mod accept;
mod admit;
mod advance;
mod answer;
mod ask;
mod at_once;
mod booked;
mod client;
mod datagram;
mod handle;
mod hashing;
mod held;
mod machine;
mod settings;
mod state;
mod stream;
mod tick;
mod withdraw;

pub use booked::{TypedCore, at_hand_law, history_is_run, typed_history_is_run};
pub use machine::Core;
pub use settings::{Config, CoreError, Settings};
