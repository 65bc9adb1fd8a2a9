//! What one line of a script orders.
ghost use Rattle.std.specs.Prelude.{◌≡◌, Ok, Err, MatchResult};
ghost use Rattle.text_lines.specs.Faults.{IsLineFault};
ghost use Rattle.text_lines.specs.Words.{ended};
ghost use Rattle.script.specs.Orders.{order_seen, number_in, ask_in, raw_in, marks_in, recursion_in, way_in, ordered_by};

use crate::keyword::Keyword;
use crate::mark::Mark;
use dname::Name;
use limits::LATEST_MOMENT;
use memory::Heap;
use rdata::RType;
use std::alloc::{Allocator, Global};
use text_lines::{LineKind, LineWords};
use wire::Via;

/// What one line of a script orders.
#[derive(Drop)]
pub enum Order<A: Allocator = Global> {
    /// The moment of what follows, in milliseconds.
    At(u64),
    /// A client's query.
    Ask {
        /// The name that it asks for.
        name: Name<A>,
        /// The type that it asks for.
        kind: RType,
        /// How it comes.
        via: Via,
        /// Whether recursion is desired.
        recursive: bool,
    },
    /// These bytes from a client.
    Raw {
        /// A datagram's bytes, or those of a message on a stream; any are allowed.
        bytes: Vec<u8, A>,
        /// How they come.
        via: Via,
    },
    /// The reply to the send of this number comes.
    Carry(u64),
    /// It comes truncated.
    Truncate(u64),
    /// It never comes.
    Lose(u64),
    /// The reply comes to each send that was not carried, truncated or lost, until none is left.
    Run,
    /// Time is looked at.
    Tick,
}

/// What the words behind a keyword order.
pub(crate) fn order_of<A: Heap>(
    alloc: A,
    keyword: Keyword,
    words: LineWords<'_>,
) -> Result<Order<A>, LineKind>
    ensures { MatchResult result (λ o. ordered_by keyword words.entry ≡ Ok (order_seen o)) (λ e. IsLineFault e (ordered_by keyword words.entry)) }
{
    match keyword {
        Keyword::At => Ok(Order::At(number(words, LATEST_MOMENT)?)),
        Keyword::Ask => ask(alloc, words),
        Keyword::Raw => raw(alloc, words),
        Keyword::Carry => Ok(Order::Carry(number(words, u64::MAX)?)),
        Keyword::Truncate => Ok(Order::Truncate(number(words, u64::MAX)?)),
        Keyword::Lose => Ok(Order::Lose(number(words, u64::MAX)?)),
        Keyword::Run => {
            no_more(words)?;
            Ok(Order::Run)
        }
        Keyword::Tick => {
            no_more(words)?;
            Ok(Order::Tick)
        }
    }
}

fn number(mut words: LineWords<'_>, most: u64) -> Result<u64, LineKind>
    ensures { MatchResult result (λ n. number_in most words.entry ≡ Ok n) (λ e. number_in most words.entry ≡ Err e) }
{
    let number = words.number(0, most)?;
    words.end()?;
    Ok(number)
}

fn no_more(mut words: LineWords<'_>) -> Result<(), LineKind>
    ensures { result ≡ ended tt words.entry }
{
    words.end()
}

fn ask<A: Heap>(alloc: A, mut words: LineWords<'_>) -> Result<Order<A>, LineKind>
    ensures { MatchResult result (λ o. ask_in words.entry ≡ Ok (order_seen o)) (λ e. IsLineFault e (ask_in words.entry)) }
{
    let name = words.name(alloc)?;
    let kind = words.rtype()?;
    let (via, recursive) = marks(words)?;
    Ok(Order::Ask {
        name,
        kind,
        via,
        recursive,
    })
}

fn raw<A: Heap>(alloc: A, mut words: LineWords<'_>) -> Result<Order<A>, LineKind>
    ensures { MatchResult result (λ o. raw_in words.entry ≡ Ok (order_seen o)) (λ e. IsLineFault e (raw_in words.entry)) }
{
    let bytes = words.bytes(alloc)?;
    let via = way(words)?;
    Ok(Order::Raw { bytes, via })
}

// How the query goes, and whether recursion is desired: `tcp` and then `norec`, each if wanted.
fn marks(mut words: LineWords<'_>) -> Result<(Via, bool), LineKind>
    ensures { result ≡ marks_in words.entry }
{
    let Some(first) = words.next() else {
        return Ok((Via::Udp, true));
    };
    match Mark::of_word(first) {
        Some(Mark::Tcp) => recursion(words),
        Some(Mark::Norec) => last(words, (Via::Udp, false)),
        None => Err(LineKind::UnknownWord),
    }
}

// Whether recursion is desired, over TCP.
fn recursion(mut words: LineWords<'_>) -> Result<(Via, bool), LineKind>
    ensures { result ≡ recursion_in words.entry }
{
    let Some(second) = words.next() else {
        return Ok((Via::Tcp, true));
    };
    match Mark::of_word(second) {
        Some(Mark::Tcp) => Err(LineKind::WordCount),
        Some(Mark::Norec) => last(words, (Via::Tcp, false)),
        None => Err(LineKind::UnknownWord),
    }
}

fn last(mut words: LineWords<'_>, found: (Via, bool)) -> Result<(Via, bool), LineKind>
    ensures { result ≡ ended found words.entry }
{
    match words.next() {
        None => Ok(found),
        Some(_) => Err(LineKind::WordCount),
    }
}

// How bytes go: `tcp`, if wanted.
fn way(mut words: LineWords<'_>) -> Result<Via, LineKind>
    ensures { result ≡ way_in words.entry }
{
    let Some(first) = words.next() else {
        return Ok(Via::Udp);
    };
    match (Mark::of_word(first), words.next()) {
        (Some(Mark::Tcp), None) => Ok(Via::Tcp),
        (Some(Mark::Tcp), Some(_)) => Err(LineKind::WordCount),
        _ => Err(LineKind::UnknownWord),
    }
}
