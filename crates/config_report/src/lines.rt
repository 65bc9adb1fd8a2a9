//! What is said of a line that is refused.
ghost use Rattle.std.specs.Prelude.{◌≡◌, IfOk, length, nat_eq, option_map, string_bytes};
ghost use Rattle.text_lines.specs.Lines.{lines};
ghost use Rattle.text_lines.specs.Texts.{stated_words};
ghost use Rattle.config_report.specs.Reports.{file_report_text, first_or_none, line_at, line_report_text, line_sentence_of, no_listen_text, report_text};

use crate::sentences::{file_sentence, line_sentence, word_count};
use crate::shown::Shown;
use masterfile::FileError;
use memory::{Heap, Starved};
use text_lines::{LineError, LineKind, LineWords, TextLines};

/// `PATH:LINE: WORDS: SENTENCE` of a line of a server's file that is refused: of the line that stands there, and what
/// may stand there. Behind the last line: that none says where to listen. Of a byte that is not printed, as an escape
/// that would rule a terminal, the number stands behind a backslash.
pub fn line_report<A: Heap>(
    alloc: A,
    path: &str,
    text: &str,
    error: LineError,
) -> Result<String<A>, Starved>
    ensures { IfOk result (λ s. string_bytes s ≡ line_report_text path.now text.now error) }
{
    match line_at(text, error.line) {
        Some(line) => report(alloc, path, error.line, line, sentence_of(line, error.kind)),
        None => no_listen(alloc, path),
    }
}

/// The same of a line of a zone file; behind its last line without the words.
pub fn file_report<A: Heap>(
    alloc: A,
    path: &str,
    text: &str,
    error: FileError,
) -> Result<String<A>, Starved>
    ensures { IfOk result (λ s. string_bytes s ≡ file_report_text path.now text.now error) }
{
    let line = line_at(text, error.line).unwrap_or("");
    report(alloc, path, error.line, line, file_sentence(error.kind))
}

fn no_listen<A: Heap>(alloc: A, path: &str) -> Result<String<A>, Starved>
    ensures { IfOk result (λ s. string_bytes s ≡ no_listen_text path.now) }
{
    let path = Shown(path);
    Ok(format!(in alloc; "{path}: no line listen ADDRESS PORT says where to serve\n")?)
}

fn report<A: Heap>(
    alloc: A,
    path: &str,
    number: usize,
    line: &str,
    sentence: &str,
) -> Result<String<A>, Starved>
    ensures { IfOk result (λ s. string_bytes s ≡ report_text path.now number line.now sentence.now) }
{
    let (path, line) = (Shown(path), Shown(line));
    Ok(format!(in alloc; "{path}:{number}: {line}: {sentence}\n")?)
}

// What is wrong with this line.
fn sentence_of(line: &str, kind: LineKind) -> &'static str
    ensures { result.now ≡ line_sentence_of line.now kind }
{
    let word = first_word(line);
    line_sentence(kind, word, has_words(line, word_count(word)))
}

fn first_word(line: &str) -> &str
    ensures { result.now ≡ first_or_none (stated_words line.now) }
{
    match LineWords::stated(line).next() {
        Some(word) => word,
        None => "",
    }
}

// Whether a line has so many words.
fn has_words(line: &str, count: usize) -> bool
    ensures { result ≡ nat_eq (length (stated_words line.now)) count }
{
    let mut left = count;
    for _ in LineWords::stated(line) {
        if left == 0 {
            return false;
        }
        left -= 1;
    }
    left == 0
}

// The line of this number, counted from 1.
fn line_at(text: &str, number: usize) -> Option<&str>
    ensures { option_map (λ s. s.now) result ≡ line_at number (lines text.now) }
{
    let mut left = number;
    for line in TextLines::new(text) {
        if 1 < left {
            left -= 1;
        } else {
            return Some(line);
        }
    }
    None
}
