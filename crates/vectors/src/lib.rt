//! Test vectors: a program reads rows of text and prints what comes of each, so that a case is a line of a file.
//!
//! `run` reads the rows of standard input and asks `Answers` for what comes of each, a line or several.
//! `first_word` and `words` take a row apart, `number` reads a word, `bytes` and `put_bytes` read and write bytes in
//! hexadecimal. What answers is lent the allocator, and keeps a runtime of its own where it needs one.
//!
//! Promised: nothing; a program's `stdout` holds what must be printed.
//! Not here: what the rows say, which each program knows.
//!
//! ```text
//! # A label has 63 bytes at most (RFC 1035, section 2.3.4).
//! name WWW.Example.
//!   www.example.
//! ```
#![tactic(auto)]

use hex::FromHexError;
use memory::Starved;
use std::alloc::Global;
use std::io;
use std::io::{BufRead, BufReader};
use std::process::ExitCode;

/// What a program of test vectors does with its rows.
pub trait Answers {
    /// Appends what comes of a row to `out`, a line or several, each ended; false where the row is not understood.
    fn answer(&mut self, alloc: Global, row: &str, out: &mut String) -> Result<bool, Starved>;
}

/// Reads all rows of standard input. A blank line and one that begins with `#` is printed as it stands; any other is
/// a row, printed and followed by what comes of it, indented by two spaces. The status is 1 where a row is not
/// understood, which the line `  not understood` says, or input, output or memory is refused.
pub fn run<R: Input + Print + AllocGlobal, V: Answers>(rt: &R, answers: &mut V) -> ExitCode {
    match answer_all(rt, answers) {
        Ok(true) => ExitCode::SUCCESS,
        _ => ExitCode::FAILURE,
    }
}

// Whether each row is understood.
fn answer_all<R: Input + Print + AllocGlobal, V: Answers>(
    rt: &R,
    answers: &mut V,
) -> io::Result<bool> {
    let mut all = true;
    for line in BufReader::new(rt.alloc(), rt.reader())?.lines(rt.alloc()) {
        all = answer_line(rt, answers, line?.as_str())? && all;
    }
    Ok(all)
}

fn answer_line<R: Print + AllocGlobal, V: Answers>(
    rt: &R,
    answers: &mut V,
    line: &str,
) -> io::Result<bool> {
    rt.println(line)?;
    if line.is_empty() || line.starts_with('#') {
        return Ok(true);
    }
    let mut out = String::new(rt.alloc());
    let answered = answers.answer(rt.alloc(), line, &mut out);
    for said in out.as_str().lines() {
        println!(rt; "  {said}")?;
    }
    match answered {
        Ok(true) => Ok(true),
        Ok(false) => not_understood(rt),
        Err(Starved) => Err(io::Error::from(io::ErrorKind::OutOfMemory)),
    }
}

fn not_understood<R: Print>(rt: &R) -> io::Result<bool> {
    rt.println("  not understood")?;
    Ok(false)
}

/// The first word of a row, and what stands behind the space after it: nothing where there is no space.
pub fn first_word(row: &str) -> (&str, &str) {
    row.split_once(' ').unwrap_or((row, ""))
}

/// The words of a row, parted by spaces; none of an empty row.
pub fn words(alloc: Global, row: &str) -> Result<Vec<&str>, Starved> {
    Ok(
        row.split(' ')
            .filter(|word| !word.is_empty())
            .collect(alloc)?,
    )
}

/// The number that a word says in decimal digits.
pub fn number(word: &str) -> Option<u64> {
    word.parse::<u64>().ok()
}

/// The bytes of a word of hexadecimal digits; none where it is no such word. A single `-` says no bytes.
pub fn bytes(alloc: Global, word: &str) -> Result<Option<Vec<u8>>, Starved> {
    match hex::decode(alloc, if word == "-" { "" } else { word }) {
        Ok(bytes) => Ok(Some(bytes)),
        Err(FromHexError::OutOfMemory) => Err(Starved),
        Err(_) => Ok(None),
    }
}

/// Appends bytes as `bytes` reads them.
pub fn put_bytes(out: &mut String, bytes: &[u8]) -> Result<(), Starved> {
    if bytes.is_empty() {
        out.push('-')?;
    }
    for byte in bytes {
        write!(out, "{byte:02x}")?;
    }
    Ok(())
}
