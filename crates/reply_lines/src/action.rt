//! What a resolver does at an event, as lines.
ghost use Rattle.std.specs.Prelude.{◌≡◌, ◌++◌, OnOk, OnErr, string_bytes};
ghost use Rattle.reply_lines.specs.Actions.{IsPrinted, drop_line};

use crate::ask::put_ask_bytes;
use crate::reply::put_reply_bytes;
use causes::Cause;
use memory::{Heap, Starved};
use rdata::Addr;
use wire::Via;

/// What comes out of a resolver's step.
#[derive(Clone, Copy)]
pub enum Action<'a> {
    /// A reply to a client, and the cause of a SERVFAIL.
    Reply {
        client: u64,
        bytes: &'a [u8],
        cause: Option<Cause>,
    },
    /// The ask of a server, under its number.
    Ask {
        number: u64,
        way: Via,
        server: Addr,
        bytes: &'a [u8],
    },
    /// The bytes of a client are dropped.
    Drop {
        client: u64,
    },
    /// Another query is due at the same moment.
    Due,
    /// Memory was wanting in the step.
    Starved,
}

/// Appends the lines of an action: of a reply and of an ask those of `put_reply_bytes` and `put_ask_bytes`, else
/// `drop CLIENT`, `due` or `starved`. Where memory is refused, nothing is appended.
pub fn put_action<A: Heap, B: Heap>(
    alloc: A,
    out: &mut String<B>,
    action: Action<'_>,
) -> Result<(), Starved>
    ensures ok { OnOk result (IsPrinted action.entry (string_bytes out.old) (string_bytes out.new)) }
    ensures err { OnErr result (string_bytes out.new ≡ string_bytes out.old) }
{
    match action {
        Action::Reply {
            client,
            bytes,
            cause,
        } => put_reply_bytes(alloc, out, client, bytes, cause),
        Action::Ask {
            number,
            way,
            server,
            bytes,
        } => put_ask_bytes(alloc, out, number, way, server, bytes),
        Action::Drop { client } => put_drop(out, client),
        Action::Due => Ok(out.push_str("due\n")?),
        Action::Starved => Ok(out.push_str("starved\n")?),
    }
}

fn put_drop<B: Heap>(out: &mut String<B>, client: u64) -> Result<(), Starved>
    ensures ok { OnOk result (string_bytes out.new ≡ string_bytes out.old ++ drop_line client) }
    ensures err { OnErr result (string_bytes out.new ≡ string_bytes out.old) }
{
    let mut text = String::new(*out.allocator());
    write!(&mut text, "drop {client}\n")?;
    Ok(out.push_str(&text)?)
}
