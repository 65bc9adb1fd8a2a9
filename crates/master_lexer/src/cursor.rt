//! The cursor over a text's words.
ghost use Rattle.std.specs.Prelude.{◌≡◌, ◌+◌, ◌<◌, ◌≤◌, ◌^◌, length, [], ◌∷◌, MatchOption, false, IsTrue, ◌↔◌};
ghost use Rattle.master_lexer.specs.Entries.{lead, text_from, broken_off as broken_text};
ghost use Rattle.master_lexer.specs.Views.{lead_of};
ghost use Rattle.master_lexer.specs.Steps.{text_at, IsStep};

use crate::lexemes::{Lexeme, Word, first};
use std::marker::Model;

/// How the first line of an entry begins (RFC 1035, section 5.1).
#[derive(Clone, Copy, Drop)]
pub enum Lead {
    /// The entry's first word, if it has one, stands at the line's start.
    Margin,
    /// A space or tab: the owner is left out.
    Blank,
    /// A carriage return or `(`: an owner may follow, but it does not stand at the line's start.
    Shifted,
}

impl Lead {
    /// How the line at the head of `text` begins.
    pub fn of_line(text: &[u8]) -> Lead
        ensures { lead_of result ≡ lead text.now }
    {
        match text {
            [b' ' | b'\t', ..] => Lead::Blank,
            [b'\r' | b'(', ..] => Lead::Shifted,
            _ => Lead::Margin,
        }
    }
}

/// A place in a text: what is left of it, the number of the line, whether a parenthesis is open.
#[derive(Clone, Copy, Drop)]
struct Place<'a> {
    text: &'a [u8],
    line: usize,
    bracketed: bool,
}

/// What stands at a place, blanks, comments and parentheses aside.
#[derive(Clone, Copy, Drop)]
enum Step<'a> {
    Word(Word<'a>),
    /// The entry ends here, and the next line begins so.
    Line(Lead),
    Nothing,
}

/// The step at a place, and the place behind it.
#[tactic(auto, using(crate::proofs::Fuel::text_steps))]
fn advance<'a>(from: Place<'a>) -> (Step<'a>, Place<'a>)
    requires { from.line + length from.text.now < 2 ^ 64 }
    ensures room { result.1.line + length result.1.text.now ≤ from.entry.line + length from.entry.text.now }
    ensures step { IsStep result.0 (text_at from.entry) result.1 }
{
    let mut place = from;
    while let Some((lexeme, after)) = first(place.text) {
        place.text = after;
        match lexeme {
            Lexeme::Gap => {}
            Lexeme::LineEnd => {
                place.line += 1;
                if !place.bracketed {
                    return (Step::Line(Lead::of_line(after)), place);
                }
            }
            Lexeme::Open if !place.bracketed => place.bracketed = true,
            Lexeme::Close if place.bracketed => place.bracketed = false,
            Lexeme::Item(word @ (Word::Plain(_) | Word::Quoted(_))) => return (
                Step::Word(word),
                place,
            ),
            Lexeme::Open | Lexeme::Close | Lexeme::Item(Word::Broken) => return broken_off(place),
        }
    }
    if place.bracketed {
        return broken_off(place);
    }
    (Step::Nothing, place)
}

/// Nothing counts after a fault of form.
#[tactic(auto, using(crate::proofs::Fuel::text_steps))]
fn broken_off<'a>(place: Place<'a>) -> (Step<'a>, Place<'a>)
    ensures room { result.1.line + length result.1.text.now ≤ place.entry.line + length place.entry.text.now }
    ensures step { IsStep result.0 broken_text result.1 }
{
    (
        Step::Word(Word::Broken),
        Place {
            text: &[],
            line: place.line,
            bracketed: false,
        },
    )
}

/// A cursor over the words of a text, entry by entry. It shows the words that the open entry still has, and the
/// entries after it.
#[derive(Drop)]
pub struct Words<'a> {
    place: Place<'a>,
}

impl<'a> Model for Words<'a> {
    ghost use Rattle.std.specs.Prelude.{◌+◌, ◌<◌, ◌^◌, length};
    ghost use Rattle.master_lexer.specs.Entries.{Text};

    ghost Value = { Text };

    ghost use Rattle.master_lexer.specs.Steps.{text_at};

    ghost view = { λ w. text_at w.place };

    ghost invariant = { λ w. w.place.line + length w.place.text.now < 2 ^ 64 };
}

impl<'a> Words<'a> {
    /// A cursor at the head of `text`, whose first line has the number `line`: within its first entry.
    pub fn new(text: &'a [u8], line: usize) -> Words<'a>
        requires { line + length text.now < 2 ^ 64 }
        ensures { result ≡ text_from line false text.entry.now }
    {
        Words {
            place: Place {
                text,
                line,
                bracketed: false,
            },
        }
    }

    /// Whether the open entry has no more words.
    pub fn is_at_end(&self) -> bool
        ensures { IsTrue result ↔ (self.now.words ≡ []) }
    {
        let (step, _) = advance(self.place);
        !matches!(step, Step::Word(_))
    }

    /// Opens the next entry: the line on which it starts, and how that line begins. `None` where there is none.
    pub fn next_entry(&mut self) -> Option<(usize, Lead)>
        requires { self.old.words ≡ [] }
        ensures { MatchOption result ((self.old.later ≡ []) × (self.new ≡ self.old)) (λ e. self.old.later ≡ record { line = e.0; lead = lead_of e.1; words = self.new.words } ∷ self.new.later) }
    {
        let (step, place) = advance(self.place);
        match step {
            Step::Line(lead) => {
                self.place = place;
                Some((place.line, lead))
            }
            _ => None,
        }
    }
}

// The words of the open entry; `None` at the entry's end, where the cursor stays.
impl<'a> Iterator for Words<'a> {
    ghost use Rattle.std.specs.Iterator.{item_count};
    ghost use Rattle.master_lexer.specs.Steps.{IsNextWord};

    type Item = Word<'a>;

    ghost next_gives = { IsNextWord };

    ghost remaining = { item_count (λ t. t.words) };

    fn next(&mut self) -> Option<Word<'a>> {
        let (step, place) = advance(self.place);
        match step {
            Step::Word(word) => {
                self.place = place;
                Some(word)
            }
            _ => None,
        }
    }
}
