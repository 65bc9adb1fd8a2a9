//! Character-strings of TXT records, read: quotes and escapes.
ghost use Rattle.std.specs.Prelude.{◌≡◌, ◌<◌, [], length, None, Ok, IfOk, MatchOption, MatchResult};
ghost use Rattle.masterfile.specs.declared.faults.FileKind.TheVariants.{BadData};
ghost use Rattle.masterfile.specs.Strings.{unescaped, byte_onto, string_of};
ghost use Rattle.masterfile.specs.Faults.{FaultIn};

use crate::faults::FileKind;
use dname::escape;
use memory::Heap;
use rdata::CharacterString;

/// The first byte that a text writes, and the text behind it; `None` at its end.
fn next_byte(text: &[u8]) -> Result<Option<(u8, &[u8])>, FileKind>
    ensures value { MatchResult result (λ o. MatchOption o (text.now ≡ []) (λ p. unescaped text.now ≡ byte_onto p.0 (unescaped p.1.now))) (λ e. (e ≡ BadData) × (unescaped text.now ≡ None)) }
    ensures shorter { IfOk result (λ o. MatchOption o (Unit {0}) (λ p. length p.1.now < length text.now)) }
{
    match text {
        [] => Ok(None),
        [b'\\', rest @ ..] => match escape(rest) {
            Some(found) => Ok(Some(found)),
            None => Err(FileKind::BadData),
        },
        [byte, rest @ ..] => Ok(Some((*byte, rest))),
    }
}

/// The string that a word writes.
#[tactic(auto, using(crate::proofs::Fronts::bytes_front))]
pub(crate) fn string<A: Heap>(alloc: A, word: &[u8]) -> Result<CharacterString<A>, FileKind>
    ensures { MatchResult result (λ s. string_of word.now ≡ Ok s) (λ e. FaultIn e (string_of word.now)) }
{
    let mut bytes = Vec::with_capacity(alloc, word.len())?;
    let mut rest = word;
    'bytes: while let Some((byte, after)) = next_byte(rest)? {
        bytes.push(byte)?;
        rest = after;
    }
    if bytes.len() > 255 {
        return Err(FileKind::BadData);
    }
    Ok(CharacterString::new(bytes))
}
