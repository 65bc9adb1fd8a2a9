//! Rows of types and data.
use crate::fault::{Answer, Fault};
use crate::name_rows::sign;
use crate::record_texts::read_records;
use memory::Starved;
use rdata::{RData, RType, Record, Records, put_data};
use std::alloc::Global;
use vectors::number;

/// Answers a command of types or data.
pub fn answer(alloc: Global, command: &str, rest: &str, out: &mut String) -> Answer {
    match command {
        "type" => put_type(out, numbered(rest)?),
        "type-word" => put_type(out, RType::from_word(rest.as_bytes())),
        "data" => put_datum(alloc, rest, out),
        "data-order" => put_order(alloc, rest, out),
        _ => Err(Fault::NotUnderstood),
    }
}

fn numbered(word: &str) -> Result<Option<RType>, Fault> {
    let number = number(word).ok_or(Fault::NotUnderstood)?;
    let number = u16::try_from(number).map_err(|_| Fault::NotUnderstood)?;
    Ok(RType::from_number(number))
}

// Its number and its word, and how it is displayed.
fn put_type(out: &mut String, kind: Option<RType>) -> Answer {
    match kind {
        Some(kind) => Ok(writeln!(out, "{} {} {kind}", kind.number(), kind.word())?),
        None => Ok(out.push_str("not served\n")?),
    }
}

// Records of the root with these data.
fn data_of(alloc: Global, rest: &str) -> Result<Records, Fault> {
    let mut text = String::new(alloc);
    for said in rest.split('|') {
        write!(text, ". 0 {}|", said.trim())?;
    }
    read_records(alloc, text.as_str())
}

// `data TYPE TEXT`: as it is written in a master file.
fn put_datum(alloc: Global, rest: &str, out: &mut String) -> Answer {
    for record in data_of(alloc, rest)?.as_slice() {
        put_data(out, &record.value)?;
        out.push('\n')?;
    }
    Ok(())
}

// `data-order DATUM | DATUM..`: how each is to a copy of the next, in a line for each.
fn put_order(alloc: Global, rest: &str, out: &mut String) -> Answer {
    put_pairs(data_of(alloc, rest)?.as_slice(), out)
}

fn put_pairs(all: &[Record], out: &mut String) -> Answer {
    for pair in all.windows(2) {
        if let [low, high] = pair {
            put_pair(&low.value, &high.value, out)?;
        }
    }
    Ok(())
}

fn put_pair(low: &RData, high: &RData, out: &mut String) -> Answer {
    put_data(out, low)?;
    out.push_str(sign_before_copy(low, high)?)?;
    put_data(out, high)?;
    Ok(out.push('\n')?)
}

fn sign_before_copy(low: &RData, high: &RData) -> Result<&'static str, Starved> {
    let copy = high.clone()?;
    Ok(sign(*low < copy, low.cmp(&copy)))
}
