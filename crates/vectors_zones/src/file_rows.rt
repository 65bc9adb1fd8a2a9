//! Rows of master files: `master-file ORIGIN TEXT` and the like, and `tokens TEXT`.

use crate::notation;
use crate::unanswered::{Unanswered, put_fault};
use dname::Name;
use master_lexer::{Lead, Word, Words};
use masterfile::{print, read_block};
use memory::Starved;
use rdata::Record;
use std::alloc::Global;
use text_lines::name;
use vectors::{bytes, first_word};

/// What is shown of the records of a text.
#[derive(Clone, Copy)]
pub enum Shown {
    /// Each, on a line.
    Records,
    /// How many there are.
    Count,
    /// The text that is printed of them.
    Printed,
}

/// `ORIGIN TEXT`: what the text says, or its first fault.
pub fn put_file(
    alloc: Global,
    shown: Shown,
    said: &str,
    out: &mut String,
) -> Result<(), Unanswered> {
    let (origin, text) = first_word(said);
    put_text(alloc, shown, origin, text, 1, out)
}

/// `LINE ORIGIN TEXT`: the same of a text that stands in a larger one, where its first line has that number.
pub fn put_block(alloc: Global, said: &str, out: &mut String) -> Result<(), Unanswered> {
    let (line, said) = first_word(said);
    let (origin, text) = first_word(said);
    let Ok(line) = line.parse::<u16>() else {
        return Err(Unanswered::NotUnderstood);
    };
    put_text(alloc, Shown::Records, origin, text, line, out)
}

/// `ORIGIN BYTES`: the same of a text that is given in hexadecimal, since its bytes are no UTF-8.
pub fn put_bytes(alloc: Global, said: &str, out: &mut String) -> Result<(), Unanswered> {
    let (origin, digits) = first_word(said);
    let text = bytes(alloc, digits)?.ok_or(Unanswered::NotUnderstood)?;
    put_read(alloc, Shown::Records, origin, &text, 1, out)
}

fn put_text(
    alloc: Global,
    shown: Shown,
    origin: &str,
    written: &str,
    line: u16,
    out: &mut String,
) -> Result<(), Unanswered> {
    let text = notation::text(alloc, written)?;
    put_read(alloc, shown, origin, text.as_bytes(), line, out)
}

fn put_read(
    alloc: Global,
    shown: Shown,
    origin: &str,
    text: &[u8],
    line: u16,
    out: &mut String,
) -> Result<(), Unanswered> {
    let origin = name(alloc, origin)?;
    match read_block(alloc, &origin, text, usize::from(line)) {
        Ok(records) => put_shown(alloc, shown, &origin, records.as_slice(), out),
        Err(fault) => put_fault(out, "file", fault.kind.number(), &fault),
    }
}

fn put_shown(
    alloc: Global,
    shown: Shown,
    origin: &Name,
    records: &[Record],
    out: &mut String,
) -> Result<(), Unanswered> {
    match shown {
        Shown::Records => put_records(out, "", records),
        Shown::Count => {
            let count = records.len();
            Ok(write!(out, "records {count}\n")?)
        }
        Shown::Printed => Ok(out.push_str(print(alloc, origin, records)?.as_str())?),
    }
}

/// Appends records, each on a line behind these words.
pub fn put_records(out: &mut String, head: &str, records: &[Record]) -> Result<(), Unanswered> {
    for record in records {
        write!(out, "{head}{record}\n")?;
    }
    Ok(())
}

// Entries and words of a text, at most: more than any row has.
const MOST: usize = 1_000;

/// `TEXT`: the words of each of its entries, behind the entry's line and how that begins.
pub fn put_tokens(alloc: Global, said: &str, out: &mut String) -> Result<(), Unanswered> {
    let text = notation::text(alloc, said)?;
    Ok(put_entries(text.as_bytes(), out)?)
}

fn put_entries(text: &[u8], out: &mut String) -> Result<(), Starved> {
    let mut words = Words::new(text, 1);
    let mut entry = Some((1, Lead::of_line(text)));
    for _ in 0..MOST {
        let Some((line, lead)) = entry else {
            break;
        };
        put_entry(line, lead, &mut words, out)?;
        if !words.is_at_end() {
            break;
        }
        entry = words.next_entry();
    }
    Ok(())
}

fn put_entry(
    line: usize,
    lead: Lead,
    words: &mut Words<'_>,
    out: &mut String,
) -> Result<(), Starved> {
    let begins = match lead {
        Lead::Margin => "margin",
        Lead::Blank => "blank",
        Lead::Shifted => "shifted",
    };
    write!(out, "line {line} {begins}:")?;
    for word in words.by_ref().take(MOST) {
        put_word(out, word)?;
    }
    Ok(out.push('\n')?)
}

fn put_word(out: &mut String, word: Word<'_>) -> Result<(), Starved> {
    match word {
        Word::Plain(bytes) => put_between(out, " ", bytes, ""),
        Word::Quoted(bytes) => put_between(out, " \"", bytes, "\""),
        Word::Broken => Ok(out.push_str(" (broken)")?),
    }
}

fn put_between(out: &mut String, head: &str, bytes: &[u8], end: &str) -> Result<(), Starved> {
    out.push_str(head)?;
    for byte in bytes {
        out.push(char::from(*byte))?;
    }
    Ok(out.push_str(end)?)
}
