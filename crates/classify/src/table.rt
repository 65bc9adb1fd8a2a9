//! The table by which a reply is used: its first line that fits.
ghost use Rattle.std.specs.Prelude.{◌≡◌, ℕ, Some, List, ◌||◌, nat_eq, take, IfOk};
ghost use Rattle.limits.specs.Limits.{max_referral_servers};
ghost use Rattle.rdata.specs.Rows.{in_set};
ghost use Rattle.rdata.specs.Selected.{records_at};
ghost use Rattle.rdata.specs.Sets.{one_set};
ghost use Rattle.rdata.specs.Types.{type_number};
ghost use Rattle.zone.specs.Zones.{ns_type, cname_type, soa_type};
ghost use Rattle.zone.specs.Views.{link_view};
ghost use Rattle.classify.specs.Classes.{first_of, answer_by, refer_by, leads_down, by_cut, by_servers, denial_by, denies, by_denial, by_alias, by_set, by_code, truncated_over, class_of};
ghost use Rattle.classify.specs.Views.{class_view};

use crate::class::{Class, Failure, Referral};
use crate::sections::{addresses_in, first_in, first_set_in, set_in};
use dname::Name;
use limits::MAX_REFERRAL_SERVERS;
use memory::{Heap, Starved};
use rdata::{RType, Record, RecordSet, Records};
use std::alloc::Allocator;
use wire::rcode::{NO_ERROR, NX_DOMAIN};
use wire::{Via, View, Walk};
use zone::Link;

/// The class of a reply to the question for this name and type, which came this way from a server of the zone: the
/// first line that fits of
/// - TC set: to be asked for again over TCP; of no use where it came over TCP;
/// - an RCODE other than 0 and 3: of no use;
/// - records of the name and the type: the RRset, each record once and all with the lowest TTL;
/// - a CNAME of the name: the alias, the first of several with the lowest TTL, with RCODE 0 and 3 alike;
/// - RCODE 3 or an SOA: NXDOMAIN or NODATA by the first SOA, which is over the name and at or under the zone;
/// - an NS record: the referral to its owner, strictly under the zone and over the name; the first
///   `MAX_REFERRAL_SERVERS` NS records of that owner count, and of their glue the first `MAX_GLUE`;
/// - nothing of these: of no use.
/// Answers, negative ones too, are used with the bit AA alone.
pub fn classify<A: Heap>(
    alloc: A,
    zone: &Name<A>,
    name: &Name<A>,
    kind: RType,
    via: Via,
    message: &View<'_, A>,
) -> Result<Class<A>, Starved>
    ensures { IfOk result (λ c. class_view c ≡ class_of zone.now name.now (type_number kind) via message.now) }
{
    if message.header().tc {
        return Ok(truncated_over(via));
    }
    Ok(by_code(alloc, zone, name, kind, message)?)
}

// Line 1, TC set. What was truncated over UDP is asked for again over TCP.
fn truncated_over<A: Allocator>(via: Via) -> Class<A>
    ensures { class_view result ≡ truncated_over via }
{
    match via {
        Via::Udp => Class::Truncated,
        Via::Tcp => Class::Failed(Failure::TruncatedOverTcp),
    }
}

// Line 2, an RCODE other than 0 and 3: of no use (RFC 1035, section 4.1.1). Else the lines behind it.
fn by_code<A: Heap>(
    alloc: A,
    zone: &Name<A>,
    name: &Name<A>,
    kind: RType,
    message: &View<'_, A>,
) -> Result<Class<A>, Starved>
    ensures { IfOk result (λ c. class_view c ≡ by_code zone.now name.now (type_number kind) message.now) }
{
    if !is_told(message) {
        return Ok(Class::Failed(Failure::BadCode));
    }
    let set = set_in(alloc, message.answer(), name, kind)?;
    Ok(by_set(alloc, zone, name, message, set)?)
}

// Whether the RCODE says that the name is there, or that it is not.
fn is_told<A: Allocator>(message: &View<'_, A>) -> bool
    ensures { result ≡ (nat_eq message.now.header.rcode 0 || nat_eq message.now.header.rcode 3) }
{
    message.header().rcode == NO_ERROR || message.header().rcode == NX_DOMAIN
}

fn is_name_error<A: Allocator>(message: &View<'_, A>) -> bool
    ensures { result ≡ nat_eq message.now.header.rcode 3 }
{
    message.header().rcode == NX_DOMAIN
}

// Line 3, records of the name and the type: the RRset. Else the lines behind it.
fn by_set<A: Heap>(
    alloc: A,
    zone: &Name<A>,
    name: &Name<A>,
    message: &View<'_, A>,
    set: Option<RecordSet<A>>,
) -> Result<Class<A>, Starved>
    ensures { IfOk result (λ c. class_view c ≡ by_set zone.now name.now message.now (in_set set)) }
{
    match set {
        Some(set) => Ok(by_records(message, set)),
        None => Ok(by_alias(alloc, zone, name, message)?),
    }
}

// Records of the name and type asked for: the answer, unless the RCODE says that the name does not exist.
fn by_records<A: Heap>(message: &View<'_, A>, set: RecordSet<A>) -> Class<A>
    ensures { (f q : List (List ℕ)) → class_view result ≡ by_set f q message.now set }
{
    let _ = set.len();
    if is_name_error(message) {
        return Class::Failed(Failure::BadCode);
    }
    answer_by(message, Link::Found(set))
}

// Line 4, a CNAME of the name: the alias (RFC 1034, section 5.3.3). Else the lines behind it.
fn by_alias<A: Heap>(
    alloc: A,
    zone: &Name<A>,
    name: &Name<A>,
    message: &View<'_, A>,
) -> Result<Class<A>, Starved>
    ensures { IfOk result (λ c. class_view c ≡ by_alias zone.now name.now message.now (one_set (records_at name.now cname_type message.now.answer))) }
{
    match set_in(alloc, message.answer(), name, RType::Cname)? {
        Some(aliases) => {
            let first = aliases.first();
            drop(aliases);
            Ok(answer_by(message, Link::Alias(first?)))
        }
        None => Ok(by_denial(alloc, zone, name, message)?),
    }
}

// Line 5, an SOA in the authority section: a negative answer (RFC 2308, section 2). Else the lines behind it.
fn by_denial<A: Heap>(
    alloc: A,
    zone: &Name<A>,
    name: &Name<A>,
    message: &View<'_, A>,
) -> Result<Class<A>, Starved>
    ensures { IfOk result (λ c. class_view c ≡ by_denial zone.now name.now message.now (first_of soa_type message.now.authority)) }
{
    match first_in(message.authority(), RType::Soa) {
        Some(soa) => Ok(by_soa(zone, name, message, soa.record(alloc)?)),
        None if is_name_error(message) => Ok(Class::Failed(Failure::Empty)),
        None => Ok(by_servers(alloc, zone, name, message)?),
    }
}

// A negative answer, if its SOA is of a zone that may deny the name.
fn by_soa<A: Allocator>(
    zone: &Name<A>,
    name: &Name<A>,
    message: &View<'_, A>,
    soa: Record<A>,
) -> Class<A>
    ensures { class_view result ≡ by_denial zone.now name.now message.now (Some soa) }
{
    if denies(zone, name, &soa.owner) {
        answer_by(message, denial_by(message.header().rcode, soa))
    } else {
        Class::Failed(Failure::Foreign)
    }
}

// Line 6, an NS record: the referral to its owner. Line 7, nothing of these: of no use.
fn by_servers<A: Heap>(
    alloc: A,
    zone: &Name<A>,
    name: &Name<A>,
    message: &View<'_, A>,
) -> Result<Class<A>, Starved>
    ensures { IfOk result (λ c. class_view c ≡ by_servers zone.now name.now message.now (first_of ns_type message.now.authority)) }
{
    match first_in(message.authority(), RType::Ns) {
        Some(first) => Ok(by_cut(alloc, zone, name, message, first.owner(alloc)?)?),
        None => Ok(Class::Failed(Failure::Empty)),
    }
}

// Line 6: a cut is followed if it is strictly under the zone and over the name.
fn by_cut<A: Heap>(
    alloc: A,
    zone: &Name<A>,
    name: &Name<A>,
    message: &View<'_, A>,
    cut: Name<A>,
) -> Result<Class<A>, Starved>
    ensures { IfOk result (λ c. class_view c ≡ by_cut zone.now name.now message.now cut) }
{
    if !leads_down(zone, name, &cut) {
        return Ok(Class::Failed(Failure::Foreign));
    }
    match servers_in(alloc, message.authority(), &cut) {
        Err(starved) => {
            drop(cut);
            Err(starved)
        }
        Ok(servers) => refer(alloc, zone, cut, servers, message),
    }
}

// The referral to these servers.
fn refer<A: Heap>(
    alloc: A,
    zone: &Name<A>,
    at: Name<A>,
    servers: Records<A>,
    message: &View<'_, A>,
) -> Result<Class<A>, Starved>
    ensures { IfOk result (λ c. class_view c ≡ refer_by zone.now at servers message.now) }
{
    match addresses_in(alloc, message.additional(), zone, servers.as_slice()) {
        Err(starved) => {
            drop(at);
            drop(servers);
            Err(starved)
        }
        Ok(addresses) => Ok(Class::Referral(Referral::new(at, servers, addresses))),
    }
}

// A link is an answer only with the bit AA.
fn answer_by<A: Allocator>(message: &View<'_, A>, link: Link<A>) -> Class<A>
    ensures { class_view result ≡ answer_by message.now (link_view link) }
{
    if message.header().aa {
        Class::Answer(link)
    } else {
        Class::Failed(Failure::NoAuthority)
    }
}

fn denial_by<A: Allocator>(rcode: u8, soa: Record<A>) -> Link<A>
    ensures { link_view result ≡ denial_by rcode soa }
{
    if rcode == NX_DOMAIN {
        Link::NxDomain(soa)
    } else {
        Link::NoData(soa)
    }
}

// The NS set of a cut, of its first `MAX_REFERRAL_SERVERS` records; no records where there is none.
fn servers_in<A: Heap>(alloc: A, authority: Walk<'_>, cut: &Name<A>) -> Result<Records<A>, Starved>
    ensures { IfOk result (λ rs. rs ≡ one_set (take max_referral_servers (records_at cut.now ns_type authority.entry))) }
{
    match first_set_in(alloc, authority, cut, RType::Ns, MAX_REFERRAL_SERVERS)? {
        Some(set) => Ok(set.to_records(alloc)?),
        None => Ok(Records::new(alloc)),
    }
}

// Whether a zone of that origin may deny the name in the reply of a server of `zone`.
fn denies<A: Allocator>(zone: &Name<A>, name: &Name<A>, origin: &Name<A>) -> bool
    ensures { result ≡ denies zone.now name.now origin.now }
{
    name.is_at_or_under(origin) && origin.is_at_or_under(zone)
}

// Whether a cut is strictly under the zone and over the name.
fn leads_down<A: Allocator>(zone: &Name<A>, name: &Name<A>, cut: &Name<A>) -> bool
    ensures { result ≡ leads_down zone.now name.now cut.now }
{
    cut.is_at_or_under(zone) && *cut != *zone && name.is_at_or_under(cut)
}
