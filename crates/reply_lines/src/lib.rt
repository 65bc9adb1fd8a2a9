//! The lines that the program prints: what a resolver does at an event, its replies and its asks of servers.
//!
//! `put_reply` appends the lines of a message: `reply CLIENT RCODE` with the flags `aa` and `tc` and the cause of a
//! SERVFAIL, then a line for each record under its section, `an`, `ns` or `ar`. `put_reply_bytes` does so from a
//! reply's bytes; `put_ask_bytes` writes the line of an ask. `put_action` writes any of them, and `drop CLIENT`, `due`
//! and `starved`.
//!
//! Promised: the text, byte by byte (`reply_text`, `ArePrinted`, `IsAskPrinted`, `IsPrinted`); bytes that are no
//! message print nothing (`AreNone`). Where memory is refused, the text is as before.
//! Not here: what a resolver answers (`front`, `engine`); the lines of a script's other events (`play`).
//!
//! ```text
//! let mut out = String::new(alloc);
//! put_reply_bytes(alloc, &mut out, 1, reply, None)?;
//! // reply 1 NOERROR aa
//! //   an www.example. 300 A 192.0.2.1
//! ```
#![tactic(auto)]

mod action;
mod ask;
mod reply;

pub use action::{Action, put_action};
pub use ask::put_ask_bytes;
pub use reply::{put_reply, put_reply_bytes};
