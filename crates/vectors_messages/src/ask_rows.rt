//! Rows of queries that wait for asks.
use crate::fault::{Answer, Fault};
use asks::{AskIndex, AskKey};
use rdata::Addr;
use std::alloc::Global;
use vectors::{number, words};

/// `asks STEP | STEP..`: `set QUERY SOCKET SERVER ID DUE` lets a query wait for an ask to 192.0.2.SERVER, `wait QUERY
/// DUE` for none, `clear QUERY` ends it; `find SOCKET SERVER ID` prints whose an ask is, `earliest` what is due first.
pub fn put_steps(alloc: Global, rest: &str, out: &mut String) -> Answer {
    let mut asks = AskIndex::new(alloc);
    for step in rest.split(" | ") {
        take(alloc, &mut asks, step, out)?;
    }
    Ok(())
}

fn take(alloc: Global, asks: &mut AskIndex, step: &str, out: &mut String) -> Answer {
    match words(alloc, step)?.as_slice() {
        ["set", query, socket, server, id, due] => {
            let key = key_of(*socket, *server, *id)?;
            set(asks, long(*query)?, key, long(*due)?)
        }
        ["wait", query, due] => Ok(asks.set(long(*query)?, None, long(*due)?)?),
        ["clear", query] => {
            asks.clear(long(*query)?);
            Ok(())
        }
        ["find", socket, server, id] => put_whose(asks, key_of(*socket, *server, *id)?, out),
        ["earliest"] => put_earliest(asks, out),
        _ => Err(Fault::NotUnderstood),
    }
}

fn long(word: &str) -> Result<u64, Fault> {
    number(word).ok_or(Fault::NotUnderstood)
}

fn short(word: &str) -> Result<u16, Fault> {
    u16::try_from(long(word)?).map_err(|_| Fault::NotUnderstood)
}

fn key_of(socket: &str, server: &str, id: &str) -> Result<AskKey, Fault> {
    let last = u8::try_from(long(server)?).map_err(|_| Fault::NotUnderstood)?;
    Ok(AskKey {
        socket: short(socket)?,
        server: Addr([192, 0, 2, last]),
        id: short(id)?,
    })
}

fn whose(asks: &AskIndex, key: AskKey) -> Option<u64> {
    asks.find(key.socket, key.server, key.id)
}

// An ask that another query has is not understood.
fn set(asks: &mut AskIndex, query: u64, key: AskKey, due: u64) -> Answer {
    match asks.find(key.socket, key.server, key.id) {
        None => Ok(asks.set(query, Some(key), due)?),
        Some(other) => {
            if other == query {
                Ok(asks.set(query, Some(key), due)?)
            } else {
                Err(Fault::NotUnderstood)
            }
        }
    }
}

fn put_whose(asks: &AskIndex, key: AskKey, out: &mut String) -> Answer {
    match whose(asks, key) {
        Some(query) => Ok(writeln!(out, "query {query}")?),
        None => Ok(out.push_str("no query\n")?),
    }
}

fn put_earliest(asks: &AskIndex, out: &mut String) -> Answer {
    match asks.earliest() {
        Some((due, query)) => Ok(writeln!(out, "{due} query {query}")?),
        None => Ok(out.push_str("nothing due\n")?),
    }
}
