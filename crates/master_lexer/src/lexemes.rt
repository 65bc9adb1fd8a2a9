//! The lexemes of a text: what it begins with, and the text after that.
ghost use Rattle.std.specs.Prelude.{◌≡◌, ◌<◌, ◌≤◌, false, length, MatchOption, [], Option};
ghost use Rattle.master_lexer.specs.Lexemes.{ends_word, word_size, quote_size, line_size, first as first_of};
ghost use Rattle.master_lexer.specs.Views.{lexeme_of};

use memchr::memchr;

/// A word of a master file in its raw bytes: escapes stand as they were written.
#[derive(Clone, Copy, Drop)]
pub enum Word<'a> {
    /// A run of bytes without quotes.
    Plain(&'a [u8]),
    /// What stands between two quotes.
    Quoted(&'a [u8]),
    /// A quote that its line does not close, or a parenthesis that opens or closes none. Nothing after it is read.
    Broken,
}

/// What a text begins with.
#[derive(Clone, Copy, Drop)]
pub(crate) enum Lexeme<'a> {
    /// Blanks or a comment.
    Gap,
    LineEnd,
    Open,
    Close,
    Item(Word<'a>),
}

/// How many bytes of a word stand at the head of `text`.
fn word_len(text: &[u8]) -> usize
    ensures value { result ≡ word_size false text.now }
    ensures within { result ≤ length text.now }
{
    let mut size = 0;
    let mut escaped = false;
    while size < text.len() {
        let byte = text[size];
        if byte == b'\n' || !escaped && is_word_end(byte) {
            return size;
        }
        escaped = !escaped && byte == b'\\';
        size += 1;
    }
    size
}

/// Whether a plain word ends before this byte, where it is not escaped.
fn is_word_end(byte: u8) -> bool
    ensures { result ≡ ends_word byte }
{
    matches!(
        byte,
        b' ' | b'\t' | b'\r' | b'\n' | b'"' | b'(' | b')' | b';'
    )
}

/// How many bytes stand before the quote that closes; `None` where the line ends first.
fn quote_len(text: &[u8]) -> Option<usize>
    ensures value { result ≡ quote_size false text.now }
    ensures within { MatchOption result (Unit {0}) (λ n. n < length text.now) }
{
    let mut size = 0;
    let mut escaped = false;
    while size < text.len() {
        let byte = text[size];
        if byte == b'\n' {
            return None;
        }
        if byte == b'"' && !escaped {
            return Some(size);
        }
        escaped = !escaped && byte == b'\\';
        size += 1;
    }
    None
}

/// How many bytes stand before the line's end.
fn line_len(text: &[u8]) -> usize
    ensures value { result ≡ line_size text.now }
    ensures within { result ≤ length text.now }
{
    memchr(b'\n', text).unwrap_or(text.len())
}

/// What `text` begins with, and the text after it; `None` at its end.
pub(crate) fn first(text: &[u8]) -> Option<(Lexeme<'_>, &[u8])>
    ensures value { MatchOption result (text.now ≡ []) (λ r. (lexeme_of r.0 ≡ (first_of text.now).lexeme) × (r.1.now ≡ (first_of text.now).after)) }
    ensures shorter { MatchOption result (Unit {0}) (λ r. length r.1.now < length text.now) }
{
    match text {
        [] => None,
        [b'\n', rest @ ..] => Some((Lexeme::LineEnd, rest)),
        [b'(', rest @ ..] => Some((Lexeme::Open, rest)),
        [b')', rest @ ..] => Some((Lexeme::Close, rest)),
        [b';', rest @ ..] => Some((Lexeme::Gap, &rest[line_len(rest)..])),
        [b'"', rest @ ..] => match quote_len(rest) {
            Some(size) => Some((Lexeme::Item(Word::Quoted(&rest[..size])), &rest[size + 1..])),
            None => Some((Lexeme::Item(Word::Broken), &rest[rest.len()..])),
        },
        [b' ' | b'\t' | b'\r', rest @ ..] => Some((Lexeme::Gap, rest)),
        _ => {
            let size = word_len(text);
            Some((Lexeme::Item(Word::Plain(&text[..size])), &text[size..]))
        }
    }
}
