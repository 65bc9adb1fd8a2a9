//! Decimal numbers in a text: words of digits, read up to a limit.
//!
//! `are_digits` tells whether a word has digits alone, and `value` is the number that they write, or none where it is
//! over the limit that its reader names: of a TTL, a preference, a port, a number in a line of a script. Zeros in front
//! are digits like others. No memory is taken, and no digits are too many.
//!
//! Promised: the number is the digits' value (`value_from`), exactly where that is within the limit.
//! Not here: whether a word may be empty, which fault a bad word is (`masterfile`, `text_lines`); signs.
//!
//! ```text
//! assert_eq!(rt; decimal::value(b"0053", 65_535), Some(53));
//! assert_eq!(rt; decimal::value(b"65536", 65_535), None);
//! assert!(rt; !decimal::are_digits(b"5x"));
//! ```
#![tactic(auto)]

ghost use Rattle.std.specs.Prelude.{◌≡◌, ◌<◌, nat_le, cond, true, Some, None};
ghost use Rattle.decimal.specs.Digits.{is_digit as digit_test, are_digits as digits_test, value_from};

fn is_digit(byte: u8) -> bool
    ensures { result ≡ digit_test byte }
{
    byte >= b'0' && byte <= b'9'
}

/// Whether a word has digits alone: true of `0053`, and of the empty word.
pub fn are_digits(word: &[u8]) -> bool
    ensures { result ≡ digits_test word.now }
{
    for byte in word {
        if !is_digit(*byte) {
            return false;
        }
    }
    true
}

/// The number that digits write, 53 of `0053` and 0 of none; `None` where it is over `limit`.
#[tactic(auto, using(crate::proofs::Values::value_grows))]
pub fn value(digits: &[u8], limit: u64) -> Option<u64>
    requires { digits_test digits.now ≡ true }
    ensures { result ≡ cond (nat_le (value_from 0 digits.now) limit) (Some (value_from 0 digits.now)) None }
{
    let mut value: u64 = 0;
    for byte in digits {
        let next = u128::from(value) * 10 + u128::from(*byte - b'0');
        if next > u128::from(limit) {
            return None;
        }
        value = next as u64;
    }
    Some(value)
}
