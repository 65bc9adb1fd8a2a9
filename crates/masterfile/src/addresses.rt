//! Addresses of A and AAAA records, read (RFC 1035, section 3.4.1; RFC 4291, section 2.2).
ghost use Rattle.std.specs.Prelude.{◌≡◌, ◌<◌, length, MatchOption, MatchResult, Ok, Err};
ghost use Rattle.masterfile.specs.Addresses.{fields, is_decimal as decimal_test, octet as octet_of, octets, octets_after, after_octet, surplus_kind, IsFirstField, ipv4_of, ipv6_of};

use crate::faults::FileKind;
use crate::numbers::is_number;
use memchr::memchr;
use std::net::Ipv6Addr;

/// The bytes before the first dot, and those behind it.
fn first_field(word: &[u8]) -> (&[u8], Option<&[u8]>)
    ensures value { IsFirstField word.now result.0.now result.1 }
    ensures shorter { MatchOption result.1 (Unit {0}) (λ r. length r.now < length word.now) }
{
    match memchr(b'.', word) {
        Some(size) => (&word[..size], Some(&word[size + 1..])),
        None => (word, None),
    }
}

/// Whether a field is a number without a zero in front.
fn is_decimal(field: &[u8]) -> bool
    ensures { result ≡ decimal_test field.now }
{
    match field {
        [b'0', _, ..] => false,
        _ => is_number(field),
    }
}

fn octet(field: &[u8]) -> Result<u8, FileKind>
    ensures { result ≡ octet_of field.now }
{
    if !is_decimal(field) {
        return Err(FileKind::BadData);
    }
    match decimal::value(field, 255) {
        Some(value) => Ok(value as u8),
        None => Err(FileKind::BadNumber),
    }
}

/// The number of the first field, and the bytes behind it.
fn next_octet(word: &[u8]) -> Result<(u8, Option<&[u8]>), FileKind>
    ensures value { MatchResult result (λ r. octets (fields word.now) ≡ after_octet r.0 (octets_after r.1)) (λ e. octets (fields word.now) ≡ Err e) }
    ensures shorter { MatchResult result (λ r. MatchOption r.1 (Unit {0}) (λ rest. length rest.now < length word.now)) (λ e. Unit {0}) }
{
    let (field, rest) = first_field(word);
    let number = octet(field)?;
    Ok((number, rest))
}

/// The fault of a word that goes on behind its fourth number.
fn surplus(word: &[u8]) -> FileKind
    ensures { result ≡ surplus_kind (octets (fields word.now)) }
{
    let mut rest = word;
    loop {
        match next_octet(rest) {
            Err(kind) => return kind,
            Ok((_, None)) => return FileKind::BadData,
            Ok((_, Some(after))) => rest = after,
        }
    }
}

/// The address that a word writes: four numbers up to 255 parted by dots.
pub(crate) fn ipv4(word: &[u8]) -> Result<[u8; 4], FileKind>
    ensures { MatchResult result (λ a. ipv4_of word.now ≡ Ok a) (λ e. ipv4_of word.now ≡ Err e) }
{
    let (a, behind) = next_octet(word)?;
    let Some(second) = behind else {
        return Err(FileKind::BadData);
    };
    let (b, behind) = next_octet(second)?;
    let Some(third) = behind else {
        return Err(FileKind::BadData);
    };
    let (c, behind) = next_octet(third)?;
    let Some(fourth) = behind else {
        return Err(FileKind::BadData);
    };
    let (d, behind) = next_octet(fourth)?;
    match behind {
        None => Ok([a, b, c, d]),
        Some(rest) => Err(surplus(rest)),
    }
}

/// The address that a word writes: groups of hexadecimal digits, with no IPv4 address at the end.
pub(crate) fn ipv6(word: &[u8]) -> Result<[u8; 16], FileKind>
    ensures { MatchResult result (λ a. ipv6_of word.now ≡ Ok a) (λ e. ipv6_of word.now ≡ Err e) }
{
    if word.contains(&b'.') {
        return Err(FileKind::BadData);
    }
    match Ipv6Addr::parse_ascii(word) {
        Ok(address) => Ok(address.octets()),
        Err(_) => Err(FileKind::BadData),
    }
}
