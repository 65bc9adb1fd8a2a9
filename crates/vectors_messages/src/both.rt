//! Bytes read as a message in both ways: whole by `decode`, and in their place by `View`.
use crate::fault::Fault;
use rdata::Record;
use std::alloc::Global;
use wire::{Message, Question, View, Walk, WireError, decode};

/// What comes of bytes in both ways.
#[derive(Clone, Copy, PartialEq, Eq)]
pub enum Outcome {
    /// Both read one message.
    Read,
    /// Both refuse them so.
    Refused(WireError),
    /// One reads or refuses what the other does not.
    Differ,
}

/// What comes of these bytes in both ways.
pub fn outcome_of(alloc: Global, bytes: &[u8]) -> Result<Outcome, Fault> {
    match decode(alloc, bytes) {
        Ok(message) => Ok(seen(alloc, bytes, &message)?),
        Err(WireError::Memory) => Err(Fault::Memory),
        Err(error) => Ok(refused(alloc, bytes, error)),
    }
}

fn refused(alloc: Global, bytes: &[u8], error: WireError) -> Outcome {
    match View::new(alloc, bytes) {
        Err(other) if other == error => Outcome::Refused(error),
        _ => Outcome::Differ,
    }
}

// What comes of bytes that are read as this message.
fn seen(alloc: Global, bytes: &[u8], message: &Message) -> Result<Outcome, Fault> {
    let Ok(view) = View::new(alloc, bytes) else {
        return Ok(Outcome::Differ);
    };
    if is_seen(alloc, &view, message)? {
        Ok(Outcome::Read)
    } else {
        Ok(Outcome::Differ)
    }
}

fn is_seen(alloc: Global, view: &View<'_>, message: &Message) -> Result<bool, Fault> {
    if view.header() != message.header || !is_asked_for(view, message.questions.as_slice()) {
        return Ok(false);
    }
    Ok(
        are_lent(alloc, view.answer(), message.answer.as_slice())?
            && are_lent(alloc, view.authority(), message.authority.as_slice())?
            && are_lent(alloc, view.additional(), message.additional.as_slice())?,
    )
}

// Whether the view asks for the one question and for no other class; for none where there are several.
fn is_asked_for(view: &View<'_>, questions: &[Question]) -> bool {
    match questions {
        [] => true,
        [q] => {
            let other = q.qclass ^ 2;
            view.asks_for(&q.name, q.qtype, q.qclass) && !view.asks_for(&q.name, q.qtype, other)
        }
        [q, ..] => !view.asks_for(&q.name, q.qtype, q.qclass),
    }
}

// Whether these records are lent, one after the other, and no others.
fn are_lent(alloc: Global, mut section: Walk<'_>, records: &[Record]) -> Result<bool, Fault> {
    for record in records {
        if !is_lent(alloc, &mut section, record)? {
            return Ok(false);
        }
    }
    Ok(section.next().is_none())
}

// Whether the next record is lent.
fn is_lent(alloc: Global, section: &mut Walk<'_>, record: &Record) -> Result<bool, Fault> {
    let Some(lent) = section.next() else {
        return Ok(false);
    };
    let is_of_owner = lent.owner_is(&record.owner);
    let is_alike = (lent.kind(), lent.ttl()) == (record.value.kind(), record.ttl);
    Ok(is_of_owner && is_alike && lent.record(alloc)?.repeats(record))
}
