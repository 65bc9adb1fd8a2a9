//! Times to live, in seconds (RFC 1035, section 3.2.1; RFC 2181, section 8): whether one has ended, and what is left.
ghost use Rattle.std.specs.Prelude.{◌≡◌, ◌≤◌};
ghost use Rattle.rdata.specs.Caps.{capped};
ghost use Rattle.rdata.specs.Ages.{is_young, seconds_left};

use crate::records::Record;
use std::alloc::Allocator;

/// Whether what began at the moment `since` has not ended at the moment `now`, both in milliseconds, where it lives for
/// `ttl` seconds: one of 0 for 300 has not at 299,999, and has at 300,000. What begins in the future has not ended.
pub fn is_young(ttl: u32, since: u64, now: u64) -> bool
    ensures { result ≡ is_young now ttl since }
{
    now.saturating_sub(since) < 1_000 * u64::from(ttl)
}

/// How many seconds are left at the moment `now` of a TTL that began at the moment `since`, both in milliseconds: 290
/// for 300, 0 and 10,000; 0 where it is over.
pub fn seconds_left(ttl: u32, since: u64, now: u64) -> u32
    ensures value { result ≡ seconds_left now ttl since }
    ensures most { result ≤ ttl }
{
    let age = now.saturating_sub(since) / 1_000;
    u64::from(ttl).saturating_sub(age) as u32
}

/// The record with a TTL of at most `most` seconds: of `a.example. 604801 A 192.0.2.1` and a week, one with 604,800.
/// Takes no memory.
pub fn cap_ttl<A: Allocator>(mut rr: Record<A>, most: u32) -> Record<A>
    ensures { result ≡ capped most rr }
{
    rr.ttl = rr.ttl.min(most);
    rr
}
