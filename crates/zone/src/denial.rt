//! The SOA that negative answers carry (RFC 2308, section 3).
ghost use Rattle.std.specs.Prelude.{◌≡◌, IfOk, find};
ghost use Rattle.rdata.specs.Kept.{datum};
ghost use Rattle.zone.specs.Zones.{soa_type};
ghost use Rattle.zone.specs.Links.{counted, denial_ttl, lessened};
ghost use Rattle.zone.specs.Look.{is_type, denial_by};

use crate::scan::is_type;
use memory::{Heap, Starved};
use rdata::{GREATEST_TTL, RData, RType, Record};
use std::alloc::Allocator;

// A MINIMUM with its top bit set counts as 0 (RFC 2181, section 8).
fn counted(minimum: u32) -> u32
    ensures { result ≡ counted minimum }
{
    if minimum > GREATEST_TTL { 0 } else { minimum }
}

/// The TTL of a negative answer by its SOA's TTL and data, the lesser of the TTL and MINIMUM, in seconds (RFC 2308,
/// section 3): 300 of TTL 3,600 and MINIMUM 300. With data of another type it is the TTL.
pub fn denial_ttl<A: Allocator>(ttl: u32, value: &RData<A>) -> u32
    ensures { result ≡ denial_ttl ttl (datum value.now) }
{
    match value {
        RData::Soa(soa) => ttl.min(counted(soa.minimum)),
        _ => ttl,
    }
}

// The SOA as a negative answer has it: with the lesser of its TTL and MINIMUM (RFC 2308, section 3).
fn lessened<A: Heap>(soa: &Record<A>) -> Result<Record<A>, Starved>
    ensures { IfOk result (λ d. d ≡ lessened soa.now) }
{
    Ok(Record {
        owner: soa.owner.clone()?,
        ttl: denial_ttl(soa.ttl, &soa.value),
        value: soa.value.clone()?,
    })
}

// The SOA of negative answers, made of the first SOA record: with TTL 3,600 and MINIMUM 300 it has TTL 300. None
// without such a record.
pub fn denial_in<A: Heap>(records: &[Record<A>]) -> Result<Option<Record<A>>, Starved>
    ensures { IfOk result (λ d. d ≡ denial_by (find (is_type soa_type) records.now)) }
{
    match records.iter().find(|record| is_type(record, RType::Soa)) {
        None => Ok(None),
        Some(soa) => Ok(Some(lessened(soa)?)),
    }
}
