//! How a row writes a text of several lines, of bytes that can't be seen, and of runs that are too long to write out.
//!
//! `|` ends a line, and `<09>` is the character of these two hexadecimal digits. `[3*ab]` is `ababab`, and `[3*a#]` is
//! `a0a1a2`. `{3*a%}` says the same around brackets, so that `{2*[2*%.# ]}` is `0.0 0.1 1.0 1.1 `.

use crate::unanswered::Unanswered;
use std::alloc::Global;
use vectors::number;

// What encloses a run, and what stands in it for the number of the repeat.
struct Marks {
    open: char,
    close: char,
    place: char,
}

const OUTER: Marks = Marks {
    open: '{',
    close: '}',
    place: '%',
};

const INNER: Marks = Marks {
    open: '[',
    close: ']',
    place: '#',
};

/// The text that a row writes so.
pub fn text(alloc: Global, written: &str) -> Result<String, Unanswered> {
    let inner = repeated(alloc, written, &INNER)?;
    let outer = repeated(alloc, inner.as_str(), &OUTER)?;
    lines(alloc, outer.as_str())
}

// The text with its runs written out.
fn repeated(alloc: Global, written: &str, marks: &Marks) -> Result<String, Unanswered> {
    let mut out = String::new(alloc);
    let mut pieces = written.split(marks.open);
    out.push_str(pieces.next().unwrap_or(""))?;
    for piece in pieces {
        put_piece(&mut out, piece, marks)?;
    }
    Ok(out)
}

// A run, and what stands behind it.
fn put_piece(out: &mut String, piece: &str, marks: &Marks) -> Result<(), Unanswered> {
    let (run, behind) = split_at(piece, marks.close)?;
    let (count, repeat) = split_at(run, '*')?;
    for place in 0..number(count).ok_or(Unanswered::NotUnderstood)? {
        put_repeat(out, repeat, marks.place, place)?;
    }
    Ok(out.push_str(behind)?)
}

fn put_repeat(out: &mut String, repeat: &str, mark: char, place: u64) -> Result<(), Unanswered> {
    let mut parts = repeat.split(mark);
    out.push_str(parts.next().unwrap_or(""))?;
    for part in parts {
        write!(out, "{place}{part}")?;
    }
    Ok(())
}

fn split_at(text: &str, mark: char) -> Result<(&str, &str), Unanswered> {
    text.split_once(mark).ok_or(Unanswered::NotUnderstood)
}

fn lines(alloc: Global, written: &str) -> Result<String, Unanswered> {
    let mut out = String::new(alloc);
    let mut lines = written.split('|');
    put_line(&mut out, lines.next().unwrap_or(""))?;
    for line in lines {
        out.push('\n')?;
        put_line(&mut out, line)?;
    }
    Ok(out)
}

fn put_line(out: &mut String, line: &str) -> Result<(), Unanswered> {
    let mut pieces = line.split('<');
    out.push_str(pieces.next().unwrap_or(""))?;
    for piece in pieces {
        let (digits, behind) = split_at(piece, '>')?;
        out.push(character(digits)?)?;
        out.push_str(behind)?;
    }
    Ok(())
}

fn character(digits: &str) -> Result<char, Unanswered> {
    match u8::from_str_radix(digits, 16) {
        Ok(byte) => Ok(char::from(byte)),
        Err(_) => Err(Unanswered::NotUnderstood),
    }
}
