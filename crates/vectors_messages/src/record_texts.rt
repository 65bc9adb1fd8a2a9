//! Records of rows, as lines of a zone text.
use crate::fault::{Answer, Fault};
use dname::{Name, put_name};
use rdata::{RType, Record, Records, put_data};
use std::alloc::Global;

/// The records of a row: lines of a zone text with a stroke between them. Names are under the root.
pub fn read_records(alloc: Global, rest: &str) -> Result<Records, Fault> {
    let mut text = String::new(alloc);
    for line in rest.split('|') {
        text.push_str(line.trim())?;
        text.push('\n')?;
    }
    let root = Name::root(alloc)?;
    Ok(masterfile::read(alloc, &root, text.as_str())?)
}

/// What stands before the first stroke, and the records behind it.
pub fn before_records(alloc: Global, rest: &str) -> Result<(&str, Records), Fault> {
    let (before, lines) = rest.split_once(" | ").ok_or(Fault::NotUnderstood)?;
    Ok((before, read_records(alloc, lines)?))
}

/// The type of a word.
pub fn read_type(word: &str) -> Result<RType, Fault> {
    RType::from_word(word.as_bytes()).ok_or(Fault::NotUnderstood)
}

/// A record in a line.
pub fn put_record(out: &mut String, record: &Record) -> Answer {
    put_name(out, &record.owner)?;
    write!(out, " {} ", record.ttl)?;
    put_data(out, &record.value)?;
    Ok(out.push('\n')?)
}
