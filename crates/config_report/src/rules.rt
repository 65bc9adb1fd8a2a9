//! What is said of records that are no zone.
ghost use Rattle.std.specs.Prelude.{◌≡◌, ◌&&◌, IfOk, find, string_bytes};
ghost use Rattle.std.specs.List.{list_any};
ghost use Rattle.std.specs.Option.{option_copied};
ghost use Rattle.rdata.specs.Data.{type_of};
ghost use Rattle.rdata.specs.Types.{type_number};
ghost use Rattle.zone.specs.Kept.{zone_with};
ghost use Rattle.zone.specs.Zones.{ns_type};
ghost use Rattle.zone.specs.Look.{is_beneath_cut, is_cut, is_owned, is_type, owns};
ghost use Rattle.zone.specs.Rules.{clashes, differs, is_out_of_place, is_wildcard_authority};
ghost use Rattle.config_report.specs.Culprits.{breaks, rule_type, rule_text, zone_report_text};

use crate::sentences::rule_sentence;
use crate::shown::Shown;
use dname::{Name, Suffix};
use memory::{Heap, Starved};
use rdata::{RType, Record};
use std::alloc::Allocator;
use zone::ZoneError;

/// `PATH: OWNER TYPE: SENTENCE` of records that break a rule of zones: of the first record that does, or of what is
/// missing at the origin. For some rules it takes time as the square of how many records there are.
pub fn zone_report<A: Heap>(
    alloc: A,
    path: &str,
    origin: &Name<A>,
    records: &[Record<A>],
    error: ZoneError,
) -> Result<String<A>, Starved>
    ensures { IfOk result (λ s. string_bytes s ≡ zone_report_text path.now (zone_with origin.now records.now) error) }
{
    match culprit(error, origin, records) {
        Some(record) => record_line(alloc, path, record, error),
        None => rule_line(alloc, path, origin, rule_type(error), error),
    }
}

// The first record that breaks the rule.
fn culprit<'a, A: Allocator>(
    error: ZoneError,
    origin: &Name<A>,
    records: &'a [Record<A>],
) -> Option<&'a Record<A>>
    ensures { option_copied result ≡ find (breaks (zone_with origin.now records.now) error) records.now }
{
    records
        .iter()
        .find(|record| breaks(error, origin, records, *record))
}

fn record_line<A: Heap>(
    alloc: A,
    path: &str,
    record: &Record<A>,
    error: ZoneError,
) -> Result<String<A>, Starved>
    ensures { IfOk result (λ s. string_bytes s ≡ rule_text path.now «record».now.owner (type_of «record».now.value) error) }
{
    rule_line(alloc, path, &record.owner, record.value.kind(), error)
}

fn rule_line<A: Heap>(
    alloc: A,
    path: &str,
    owner: &Name<A>,
    kind: RType,
    error: ZoneError,
) -> Result<String<A>, Starved>
    ensures { IfOk result (λ s. string_bytes s ≡ rule_text path.now owner.now (type_number kind) error) }
{
    let (path, sentence) = (Shown(path), rule_sentence(error));
    Ok(format!(in alloc; "{path}: {owner} {kind}: {sentence}\n")?)
}

// The type of what is missing at the origin.
fn rule_type(error: ZoneError) -> RType
    ensures { type_number result ≡ rule_type error }
{
    match error {
        ZoneError::NoServers => RType::Ns,
        _ => RType::Soa,
    }
}

// Whether the record is one that breaks the rule, beside these.
fn breaks<A: Allocator>(
    error: ZoneError,
    origin: &Name<A>,
    records: &[Record<A>],
    record: &Record<A>,
) -> bool
    ensures { result ≡ breaks (zone_with origin.now records.now) error «record».now }
{
    match error {
        ZoneError::Soa => record.is(RType::Soa) && record.owner != *origin,
        ZoneError::NoServers | ZoneError::Memory => false,
        ZoneError::ForeignOwner => !record.owner.is_at_or_under(origin),
        ZoneError::CnameClash => record.is(RType::Cname) && has_company(record, records),
        ZoneError::MixedTtls => has_other_ttl(record, records),
        ZoneError::DataAtCut => is_out_of_place(origin, records, record),
        ZoneError::InnerStar => record.owner.has_inner_star(),
        ZoneError::WildcardAuthority => is_wildcard_authority(record),
        ZoneError::WildcardBeneathCut => {
            record.owner.is_wildcard() && is_beneath_cut(origin, records, &record.owner)
        }
    }
}

// Whether another record than its own repeat stands at the record's name.
fn has_company<A: Allocator>(record: &Record<A>, records: &[Record<A>]) -> bool
    ensures { result ≡ list_any (λ s. clashes «record».now s) records.now }
{
    records.iter().any(|other| clashes(record, other))
}

// Whether the other record stands at the record's name, and is not its repeat.
fn clashes<A: Allocator>(record: &Record<A>, other: &Record<A>) -> bool
    ensures { result ≡ clashes «record».now other.now }
{
    other.owner == record.owner && !record.value.is_same(&other.value)
}

// Whether a record of the same set has another TTL.
fn has_other_ttl<A: Allocator>(record: &Record<A>, records: &[Record<A>]) -> bool
    ensures { result ≡ list_any (λ s. differs «record».now s) records.now }
{
    records.iter().any(|other| differs(record, other))
}

// Whether both are of one set, with different TTLs. The TTLs are compared first, which is the least work.
fn differs<A: Allocator>(record: &Record<A>, other: &Record<A>) -> bool
    ensures { result ≡ differs «record».now other.now }
{
    record.ttl != other.ttl
        && record.value.kind() == other.value.kind()
        && record.owner == other.owner
}

// Beneath a cut anything but an address, or at a cut anything but NS and addresses.
fn is_out_of_place<A: Allocator>(
    origin: &Name<A>,
    records: &[Record<A>],
    record: &Record<A>,
) -> bool
    ensures { result ≡ is_out_of_place (zone_with origin.now records.now) «record».now }
{
    if record.is(RType::A) || record.is(RType::Aaaa) {
        return false;
    }
    is_beneath_cut(origin, records, &record.owner)
        || (is_cut(origin, records, &record.owner.suffix()) && !record.is(RType::Ns))
}

fn is_wildcard_authority<A: Allocator>(record: &Record<A>) -> bool
    ensures { result ≡ is_wildcard_authority «record».now }
{
    record.owner.is_wildcard() && (record.is(RType::Ns) || record.is(RType::Soa))
}

// Whether the name is strictly under a cut.
fn is_beneath_cut<A: Allocator>(origin: &Name<A>, records: &[Record<A>], name: &Name<A>) -> bool
    ensures { result ≡ is_beneath_cut (zone_with origin.now records.now) name.now }
{
    let mut above = name.suffix();
    'up: while above.ascend() {
        if is_cut(origin, records, &above) {
            return true;
        }
    }
    false
}

// Whether the name is a cut: an owner of NS records other than the origin.
fn is_cut<A: Allocator>(origin: &Name<A>, records: &[Record<A>], name: &Suffix<'_>) -> bool
    ensures { result ≡ is_cut (zone_with origin.now records.now) name.now }
{
    !name.is(origin) && owns_ns(records, name)
}

// Whether NS records stand at the name.
fn owns_ns<A: Allocator>(records: &[Record<A>], name: &Suffix<'_>) -> bool
    ensures { result ≡ owns ns_type name.now records.now }
{
    records.iter().any(|record| is_ns_of(record, name))
}

fn is_ns_of<A: Allocator>(record: &Record<A>, name: &Suffix<'_>) -> bool
    ensures { result ≡ (is_owned name.now «record».now && is_type ns_type «record».now) }
{
    is_at(record, name) && record.is(RType::Ns)
}

fn is_at<A: Allocator>(record: &Record<A>, name: &Suffix<'_>) -> bool
    ensures { result ≡ is_owned name.now «record».now }
{
    name.is(&record.owner)
}
