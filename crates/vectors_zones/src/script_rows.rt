//! Rows of scripts: `script TEXT` and `asks TEXT`.

use crate::notation;
use crate::unanswered::{Unanswered, put_fault};
use dname::{Name, put_name};
use rdata::RType;
use script::{Order, read_asks, read_script};
use std::alloc::Global;
use text_lines::LineError;
use vectors::put_bytes;
use wire::Via;

/// `TEXT`: the orders of a script, or its first line that is refused.
pub fn put_script(alloc: Global, said: &str, out: &mut String) -> Result<(), Unanswered> {
    let text = notation::text(alloc, said)?;
    put_read(read_script(alloc, text.as_str()), out)
}

/// `TEXT`: the same of a script that may only ask.
pub fn put_asks(alloc: Global, said: &str, out: &mut String) -> Result<(), Unanswered> {
    let text = notation::text(alloc, said)?;
    put_read(read_asks(alloc, text.as_str()), out)
}

fn put_read(read: Result<Vec<Order>, LineError>, out: &mut String) -> Result<(), Unanswered> {
    match read {
        Ok(orders) => put_orders(out, &orders),
        Err(error) => put_fault(out, "line", error.kind.number(), &error),
    }
}

fn put_orders(out: &mut String, orders: &[Order]) -> Result<(), Unanswered> {
    for order in orders {
        put_order(out, order)?;
        out.push('\n')?;
    }
    Ok(())
}

fn put_order(out: &mut String, order: &Order) -> Result<(), Unanswered> {
    match order {
        Order::At(moment) => put_number(out, "at", *moment),
        Order::Ask {
            name,
            kind,
            via,
            recursive,
        } => put_ask(out, name, *kind, *via, *recursive),
        Order::Raw { bytes, via } => put_raw(out, bytes, *via),
        Order::Carry(send) => put_number(out, "carry", *send),
        Order::Truncate(send) => put_number(out, "truncate", *send),
        Order::Lose(send) => put_number(out, "lose", *send),
        Order::Run => Ok(out.push_str("run")?),
        Order::Tick => Ok(out.push_str("tick")?),
    }
}

fn put_number(out: &mut String, word: &str, number: u64) -> Result<(), Unanswered> {
    Ok(write!(out, "{word} {number}")?)
}

fn put_ask(
    out: &mut String,
    asked: &Name,
    kind: RType,
    via: Via,
    recursive: bool,
) -> Result<(), Unanswered> {
    out.push_str("ask ")?;
    put_name(out, asked)?;
    let word = kind.word();
    write!(out, " {word} {}", way(via))?;
    Ok(out.push_str(if recursive { " recursive" } else { "" })?)
}

fn put_raw(out: &mut String, bytes: &[u8], via: Via) -> Result<(), Unanswered> {
    out.push_str("raw ")?;
    put_bytes(out, bytes)?;
    Ok(write!(out, " {}", way(via))?)
}

fn way(via: Via) -> &'static str {
    match via {
        Via::Udp => "udp",
        Via::Tcp => "tcp",
    }
}
