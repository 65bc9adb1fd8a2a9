//! How much memory the program holds.
use std::fs;
use std::rt::Runtime;

/// The bytes of resident memory, by the second word of Linux's `/proc/self/statm`, which counts pages of 4,096
/// bytes; 0 where there is none.
pub fn resident<R: Runtime + AllocGlobal>(rt: &R) -> u64 {
    let Ok(text) = fs::read_to_string(rt, "/proc/self/statm") else {
        return 0;
    };
    let pages = text
        .split_ascii_whitespace()
        .nth(1)
        .and_then(|word| word.parse::<u64>().ok());
    pages.unwrap_or(0).saturating_mul(4_096)
}
