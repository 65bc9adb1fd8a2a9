//! RRsets with more than one TTL (RFC 2181, section 5.2).
ghost use Rattle.std.specs.Prelude.{◌≡◌, IfOk, OnOk};
ghost use Rattle.std.specs.HashMap as hash;
ghost use Rattle.zone.specs.Last.{SetKey, same_key, set_of, ttl_of, kept_after, is_other_ttl};
ghost use Rattle.zone.specs.Rules.{has_mixed_ttls};
ghost use Rattle.zone.specs.Kept.{zone_with};

use dname::Name;
use memory::{Heap, Starved};
use rdata::Record;
use std::collections::HashMap;
use std::hash::{BuildHasherDefault, FoldHasher};

// RRsets by owner and type number, each with the TTL of the last record that was seen.
type Ttls<A> = HashMap<(Name<A>, u16), u32, BuildHasherDefault<FoldHasher>, A>;

// The owner and the type number of a record, by which its RRset is found (RFC 2181, section 5).
fn set_of<A: Heap>(rr: &Record<A>) -> Result<(Name<A>, u16), Starved>
    ensures { IfOk result (λ k. k ≡ set_of rr.now) }
{
    Ok((rr.owner.clone()?, rr.value.kind().number()))
}

// Notes the record's TTL for its set, and gives that of the last record of the same set before it.
fn note_ttl<A: Heap>(ttls: &mut Ttls<A>, rr: &Record<A>) -> Result<Option<u32>, Starved>
    ensures noted { OnOk result ((q : SetKey) → hash.get same_key ttls.new q ≡ kept_after (same_key (set_of rr.now) q) (ttl_of rr.now) (hash.get same_key ttls.old q)) }
    ensures last { IfOk result (λ last. last ≡ hash.get same_key ttls.old (set_of rr.now)) }
{
    Ok(ttls.insert(set_of(rr)?, rr.ttl)?)
}

// Whether the last record of the same set, where there is one, has another TTL.
fn is_other_ttl(ttl: u32, last: Option<u32>) -> bool
    ensures { result ≡ is_other_ttl ttl last }
{
    match last {
        None => false,
        Some(last) => ttl != last,
    }
}

// Whether TTLs differ in a set (RFC 2181, section 5.2): of `a.example. 300 A 192.0.2.1` and `a.example. 60 A 192.0.2.2`
// they do.
pub fn has_mixed_ttls<A: Heap>(origin: &Name<A>, records: &[Record<A>]) -> Result<bool, Starved>
    ensures { IfOk result (λ b. b ≡ has_mixed_ttls (zone_with origin.now records.now)) }
{
    let mut ttls = HashMap::new(origin.allocator());
    for rr in records {
        let last = note_ttl(&mut ttls, rr)?;
        if is_other_ttl(rr.ttl, last) {
            return Ok(true);
        }
    }
    Ok(false)
}
