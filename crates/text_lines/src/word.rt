//! Words of a line read as numbers, addresses, names, bytes and types.
ghost use Rattle.std.specs.Prelude.{◌≡◌, ◌≤◌, Ok, Err, IfOk, MatchResult};
ghost use Rattle.text_lines.specs.Faults.{IsLineFault};
ghost use Rattle.text_lines.specs.Words.{number_of, address_of, name_of, bytes_of, type_of};

use crate::fault::LineKind;
use dname::Name;
use hex::FromHexError;
use memory::Heap;
use rdata::{Addr, RType};
use std::net::Ipv4Addr;

/// The number that a word of digits writes, within its limits.
pub fn number(word: &str, low: u64, high: u64) -> Result<u64, LineKind>
    ensures limits { IfOk result (λ n. (low ≤ n) × (n ≤ high)) }
    ensures value { result ≡ number_of low high word.now }
{
    let digits = word.as_bytes();
    if !decimal::are_digits(digits) {
        return Err(LineKind::BadNumber);
    }
    match decimal::value(digits, high) {
        Some(value) if value >= low => Ok(value),
        _ => Err(LineKind::BadNumber),
    }
}

/// The address that a word writes, as the data of an A record does (RFC 1035, section 3.4.1).
pub fn address(word: &str) -> Result<Addr, LineKind>
    ensures { MatchResult result (λ a. address_of word.now ≡ Ok a.0) (λ e. address_of word.now ≡ Err e) }
{
    match Ipv4Addr::parse_ascii(word.as_bytes()) {
        Ok(address) => Ok(Addr(address.octets())),
        Err(_) => Err(LineKind::BadAddress),
    }
}

/// The name that a word writes.
pub fn name<A: Heap>(alloc: A, word: &str) -> Result<Name<A>, LineKind>
    ensures { MatchResult result (λ n. name_of word.now ≡ Ok n) (λ e. IsLineFault e (name_of word.now)) }
{
    match Name::from_text(alloc, word) {
        Ok(name) => Ok(name),
        Err(error) => Err(LineKind::from(error)),
    }
}

/// The bytes that a word writes, two hexadecimal digits each.
pub fn bytes<A: Heap>(alloc: A, word: &str) -> Result<Vec<u8, A>, LineKind>
    ensures { MatchResult result (λ v. bytes_of word.now ≡ Ok v.items) (λ e. IsLineFault e (bytes_of word.now)) }
{
    match hex::decode(alloc, word) {
        Ok(bytes) => Ok(bytes),
        Err(FromHexError::OutOfMemory) => Err(LineKind::Memory),
        Err(_) => Err(LineKind::BadHex),
    }
}

/// The type that a word names, in letters of either case.
pub fn rtype(word: &str) -> Result<RType, LineKind>
    ensures { result ≡ type_of word.now }
{
    RType::from_word(word.as_bytes()).ok_or(LineKind::BadType)
}
