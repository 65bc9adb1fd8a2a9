//! Decimal numbers, read within their bounds: TTLs, preferences, the fields of an SOA.
ghost use Rattle.std.specs.Prelude.{◌≡◌};
ghost use Rattle.masterfile.specs.Numbers.{is_number as number_test, number_of};

use crate::faults::FileKind;

/// Whether a word is one digit or more.
pub(crate) fn is_number(word: &[u8]) -> bool
    ensures { result ≡ number_test word.now }
{
    !word.is_empty() && decimal::are_digits(word)
}

/// The number that a word writes, up to `limit`.
pub(crate) fn number(word: &[u8], limit: u32) -> Result<u32, FileKind>
    ensures { result ≡ number_of limit word.now }
{
    if !is_number(word) {
        return Err(FileKind::BadData);
    }
    match decimal::value(word, u64::from(limit)) {
        Some(value) => Ok(value as u32),
        None => Err(FileKind::BadNumber),
    }
}
