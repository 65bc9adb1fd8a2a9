//! The words of a line.
ghost use Rattle.std.specs.Prelude.{◌≡◌, ◌<◌, ◌≤◌, length, slice_index, Ok, Err, IfOk, MatchResult};
ghost use Rattle.std.specs.Str.{IsUtf8};
ghost use Rattle.std.specs.List.{before_first, after_first, position_or_len};
ghost use Rattle.text_lines.specs.Faults.{IsLineFault};
ghost use Rattle.text_lines.specs.Lines.{is_blank as blank_test, words};
ghost use Rattle.text_lines.specs.Texts.{stated_words};
ghost use Rattle.text_lines.specs.Words.{number_of, address_of, name_of, bytes_of, type_of, next, ended};

use crate::fault::LineKind;
use crate::word;
use dname::Name;
use memchr::memchr2;
use memory::Heap;
use rdata::{Addr, RType};
use std::marker::Model;

/// The words of a line that are still to be read: what stands between spaces and tabs.
#[derive(Drop)]
pub struct LineWords<'t> {
    rest: &'t str,
}

impl<'t> Model for LineWords<'t> {
    ghost use Rattle.std.specs.Prelude.{ℕ, List};
    ghost use Rattle.text_lines.specs.Lines.{words};

    ghost Value = { List (List ℕ) };

    ghost view = { λ w. words w.rest.now };
}

impl<'t> LineWords<'t> {
    /// The words of this line.
    pub fn new(line: &'t str) -> LineWords<'t>
        ensures { result ≡ words line.entry.now }
    {
        LineWords { rest: line }
    }

    /// The words of this line, of which one that begins with `;` has none.
    pub fn stated(line: &'t str) -> LineWords<'t>
        ensures { result ≡ stated_words line.entry.now }
    {
        match line.as_bytes() {
            [b';', ..] => LineWords { rest: "" },
            _ => LineWords { rest: line },
        }
    }

    /// The next word, which has to be there.
    pub fn word(&mut self) -> Result<&'t str, LineKind>
        ensures { MatchResult result (λ w. next Ok self.old ≡ Ok (w.now, self.new)) (λ e. next Ok self.old ≡ Err e) }
    {
        self.next().ok_or(LineKind::WordCount)
    }

    /// The next word as a number within its limits.
    pub fn number(&mut self, low: u64, high: u64) -> Result<u64, LineKind>
        ensures limits { IfOk result (λ n. (low ≤ n) × (n ≤ high)) }
        ensures value { MatchResult result (λ n. next (number_of low high) self.old ≡ Ok (n, self.new)) (λ e. next (number_of low high) self.old ≡ Err e) }
    {
        word::number(self.word()?, low, high)
    }

    /// The next word as an address.
    pub fn address(&mut self) -> Result<Addr, LineKind>
        ensures { MatchResult result (λ a. next address_of self.old ≡ Ok (a.0, self.new)) (λ e. next address_of self.old ≡ Err e) }
    {
        word::address(self.word()?)
    }

    /// The next word as bytes in hexadecimal digits.
    pub fn bytes<A: Heap>(&mut self, alloc: A) -> Result<Vec<u8, A>, LineKind>
        ensures { MatchResult result (λ v. next bytes_of self.old ≡ Ok (v.items, self.new)) (λ e. IsLineFault e (next bytes_of self.old)) }
    {
        word::bytes(alloc, self.word()?)
    }

    /// The next word as a type that is served.
    pub fn rtype(&mut self) -> Result<RType, LineKind>
        ensures { MatchResult result (λ t. next type_of self.old ≡ Ok (t, self.new)) (λ e. next type_of self.old ≡ Err e) }
    {
        word::rtype(self.word()?)
    }

    /// The next word as a name.
    pub fn name<A: Heap>(&mut self, alloc: A) -> Result<Name<A>, LineKind>
        ensures { MatchResult result (λ n. next name_of self.old ≡ Ok (n, self.new)) (λ e. IsLineFault e (next name_of self.old)) }
    {
        word::name(alloc, self.word()?)
    }

    /// No word may be left.
    pub fn end(&mut self) -> Result<(), LineKind>
        ensures { result ≡ ended tt self.old }
    {
        match self.next() {
            None => Ok(()),
            Some(_) => Err(LineKind::WordCount),
        }
    }
}

impl<'t> Iterator for LineWords<'t> {
    ghost use Rattle.std.specs.Iterator.{YieldsFirstRef, item_count};

    type Item = &'t str;

    ghost next_gives = { YieldsFirstRef (λ words. words) };

    ghost remaining = { item_count (λ words. words) };

    fn next(&mut self) -> Option<&'t str> {
        let mut rest = self.rest;
        while !rest.is_empty() {
            let (piece, behind) = first_piece(rest);
            rest = behind;
            if !piece.is_empty() {
                self.rest = rest;
                return Some(piece);
            }
        }
        self.rest = rest;
        None
    }
}

// What stands before the first blank, and what stands behind it.
fn first_piece(text: &str) -> (&str, &str)
    ensures piece { result.0.now ≡ before_first blank_test text.now }
    ensures behind { result.1.now ≡ after_first blank_test text.now }
    ensures text { IsUtf8 result.1.now }
{
    let size = piece_len(text.as_bytes());
    if size < text.len() {
        (&text[..size], &text[size + 1..])
    } else {
        (text, "")
    }
}

// How many bytes stand before the first blank.
fn piece_len(text: &[u8]) -> usize
    ensures size { result ≡ position_or_len blank_test text.now }
    ensures within { result ≤ length text.now }
    ensures plain { result < length text.now → slice_index text.now result < 128 }
{
    memchr2(b' ', b'\t', text).unwrap_or(text.len())
}
