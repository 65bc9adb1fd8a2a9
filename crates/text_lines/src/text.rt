//! The lines of a text.
ghost use Rattle.std.specs.Prelude.{◌≡◌, [], MatchOption};
ghost use Rattle.text_lines.specs.Lines.{lines, is_line_end, IsFirstLine};
ghost use Rattle.std.specs.List.{before_first, after_first};

use std::marker::Model;

/// The lines of a text that are still to be read. A line's end opens no line behind it.
#[derive(Drop)]
pub struct TextLines<'t> {
    rest: &'t str,
}

impl<'t> Model for TextLines<'t> {
    ghost use Rattle.std.specs.Prelude.{ℕ, List};
    ghost use Rattle.text_lines.specs.Lines.{lines};

    ghost Value = { List (List ℕ) };

    ghost view = { λ t. lines t.rest.now };
}

impl<'t> TextLines<'t> {
    /// The lines of this text.
    pub fn new(text: &'t str) -> TextLines<'t>
        ensures { result ≡ lines text.entry.now }
    {
        TextLines { rest: text }
    }
}

impl<'t> Iterator for TextLines<'t> {
    ghost use Rattle.std.specs.Iterator.{YieldsFirstRef, item_count};

    type Item = &'t str;

    ghost next_gives = { YieldsFirstRef (λ lines. lines) };

    ghost remaining = { item_count (λ lines. lines) };

    fn next(&mut self) -> Option<&'t str> {
        let (line, behind) = first_line(self.rest)?;
        self.rest = behind;
        Some(line)
    }
}

/// The first line of a text, and the text behind it; none of an empty text.
pub fn first_line(text: &str) -> Option<(&str, &str)>
    ensures { MatchOption result (text.now ≡ []) (λ r. IsFirstLine text.now r.0.now r.1.now) }
{
    if text.is_empty() {
        return None;
    }
    Some(parted(text))
}

// What stands before the first end of a line, and what stands behind it.
fn parted(text: &str) -> (&str, &str)
    ensures piece { result.0.now ≡ before_first is_line_end text.now }
    ensures behind { result.1.now ≡ after_first is_line_end text.now }
{
    match text.split_once('\n') {
        Some(parts) => parts,
        None => (text, ""),
    }
}
