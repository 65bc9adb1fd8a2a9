//! The rules of a zone, tried in the order of their numbers.
ghost use Rattle.std.specs.Prelude.{◌≡◌, IfOk, None, MatchResult};
ghost use Rattle.std.specs.List.{list_any};
ghost use Rattle.dname.specs.Stars.{has_inner_star};
ghost use Rattle.zone.specs.Rules.{lacks_soa, lacks_servers, has_foreign_owner, is_out_of_place, is_wildcard_authority, is_wildcard_beneath};
ghost use Rattle.zone.specs.Faults.{fault_of, IsFault};
ghost use Rattle.zone.specs.Kept.{zone_with};

use crate::aliases::has_cname_clash;
use crate::cuts::Cuts;
use crate::fault::ZoneError;
use crate::scan::{count_of_type, is_address, is_type, owns};
use crate::ttls::has_mixed_ttls;
use dname::Name;
use memory::{Heap, Starved};
use rdata::{RType, Record};
use std::alloc::Allocator;

// Whether SOA records are other than exactly one, owned by the origin.
fn lacks_soa<A: Allocator>(origin: &Name<A>, records: &[Record<A>]) -> bool
    ensures { result ≡ lacks_soa (zone_with origin.now records.now) }
{
    if count_of_type(records, RType::Soa) != 1 {
        return true;
    }
    !owns(records, origin, RType::Soa)
}

// Whether the origin has no NS record.
fn lacks_servers<A: Allocator>(origin: &Name<A>, records: &[Record<A>]) -> bool
    ensures { result ≡ lacks_servers (zone_with origin.now records.now) }
{
    !owns(records, origin, RType::Ns)
}

// Whether an owner is not at or under the origin.
fn has_foreign_owner<A: Allocator>(origin: &Name<A>, records: &[Record<A>]) -> bool
    ensures { result ≡ has_foreign_owner (zone_with origin.now records.now) }
{
    records
        .iter()
        .any(|record| !record.owner.is_at_or_under(origin))
}

// Whether the record stands beneath a cut and is no address, or at a cut and is neither NS nor an address.
fn is_out_of_place<A: Heap>(cuts: &Cuts<A>, rr: &Record<A>) -> Result<bool, Starved>
    ensures { IfOk result (λ b. b ≡ is_out_of_place cuts.now rr.now) }
{
    if is_address(rr) {
        return Ok(false);
    }
    if cuts.is_cut(&rr.owner) && !is_type(rr, RType::Ns) {
        return Ok(true);
    }
    cuts.is_beneath_cut(&rr.owner)
}

fn some_is_out_of_place<A: Heap>(cuts: &Cuts<A>, records: &[Record<A>]) -> Result<bool, Starved>
    ensures { IfOk result (λ b. b ≡ list_any (is_out_of_place cuts.now) records.now) }
{
    for record in records {
        if is_out_of_place(cuts, record)? {
            return Ok(true);
        }
    }
    Ok(false)
}

// Whether a label `*` stands in an owner other than as its first.
fn some_has_inner_star<A: Allocator>(records: &[Record<A>]) -> bool
    ensures { result ≡ list_any (λ r. has_inner_star r.owner) records.now }
{
    records.iter().any(|record| record.owner.has_inner_star())
}

fn is_wildcard_authority<A: Allocator>(rr: &Record<A>) -> bool
    ensures { result ≡ is_wildcard_authority rr.now }
{
    rr.owner.is_wildcard() && (is_type(rr, RType::Ns) || is_type(rr, RType::Soa))
}

// Whether NS or SOA stands at a wildcard.
fn some_is_wildcard_authority<A: Allocator>(records: &[Record<A>]) -> bool
    ensures { result ≡ list_any is_wildcard_authority records.now }
{
    records.iter().any(|record| is_wildcard_authority(record))
}

// Whether the record's owner is a wildcard beneath a cut.
fn is_wildcard_beneath<A: Heap>(cuts: &Cuts<A>, rr: &Record<A>) -> Result<bool, Starved>
    ensures { IfOk result (λ b. b ≡ is_wildcard_beneath cuts.now rr.now) }
{
    if !rr.owner.is_wildcard() {
        return Ok(false);
    }
    cuts.is_beneath_cut(&rr.owner)
}

// Whether a wildcard stands beneath a cut.
fn some_wildcard_is_beneath<A: Heap>(cuts: &Cuts<A>, records: &[Record<A>]) -> Result<bool, Starved>
    ensures { IfOk result (λ b. b ≡ list_any (is_wildcard_beneath cuts.now) records.now) }
{
    for record in records {
        if is_wildcard_beneath(cuts, record)? {
            return Ok(true);
        }
    }
    Ok(false)
}

/// Whether the records are a zone, or the rule of the lowest number that they break: without a record it is
/// `ZoneError::Soa`.
pub fn check<A: Heap>(origin: &Name<A>, records: &[Record<A>]) -> Result<(), ZoneError>
    ensures { MatchResult result (λ _. fault_of (zone_with origin.now records.now) ≡ None) (λ e. IsFault e (fault_of (zone_with origin.now records.now))) }
{
    if lacks_soa(origin, records) {
        return Err(ZoneError::Soa);
    }
    if lacks_servers(origin, records) {
        return Err(ZoneError::NoServers);
    }
    if has_foreign_owner(origin, records) {
        return Err(ZoneError::ForeignOwner);
    }
    if has_cname_clash(origin, records)? {
        return Err(ZoneError::CnameClash);
    }
    if has_mixed_ttls(origin, records)? {
        return Err(ZoneError::MixedTtls);
    }
    let cuts = Cuts::new(origin, records)?;
    if some_is_out_of_place(&cuts, records)? {
        return Err(ZoneError::DataAtCut);
    }
    if some_has_inner_star(records) {
        return Err(ZoneError::InnerStar);
    }
    if some_is_wildcard_authority(records) {
        return Err(ZoneError::WildcardAuthority);
    }
    if some_wildcard_is_beneath(&cuts, records)? {
        return Err(ZoneError::WildcardBeneathCut);
    }
    Ok(())
}
