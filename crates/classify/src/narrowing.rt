//! The class of a message at the root, narrowed to the zone whose server was asked.
ghost use Rattle.std.specs.Prelude.{◌≡◌, [], ◌∷◌, ◌++◌, filter, IfOk, OnOk};
ghost use Rattle.dname.specs.Labels.{is_under};
ghost use Rattle.rdata.specs.Records.{Record as RecordSpec};
ghost use Rattle.zone.specs.Views.{link_view};
ghost use Rattle.classify.specs.Classes as plain;
ghost use Rattle.classify.specs.Narrowed.{link_within, leads_within, addresses_within, narrowed, may_stand, ZoneNarrows};
ghost use Rattle.classify.specs.Views.{class_view};

use crate::class::{Class, Failure, Referral};
use dname::Name;
use limits::MAX_GLUE;
use memory::{Heap, Starved};
use rdata::{Record, Records};
use std::alloc::Allocator;
use zone::Link;

/// The class at a zone of a message whose class at the root this is, as `read` gives it. A negative answer of another
/// zone and a referral that leads to none beneath are of no use; of the addresses the first `MAX_GLUE` at or under the
/// zone are used, and what stands behind them is not looked at. Takes memory for what it keeps alone.
pub fn narrow<A: Heap>(alloc: A, zone: &Name<A>, class: &Class<A>) -> Result<Class<A>, Starved>
    ensures { IfOk result (λ c. class_view c ≡ narrowed zone.now (class_view class.now)) }
{
    match class {
        Class::Answer(link) => Ok(narrow_link(zone, link)?),
        Class::Referral(referral) => Ok(narrow_referral(alloc, zone, referral)?),
        Class::Truncated => Ok(Class::Truncated),
        Class::Failed(failure) => Ok(Class::Failed(*failure)),
    }
}

// An answer of the zone's server. A negative one is of no use where its SOA stands beside the zone.
fn narrow_link<A: Heap>(zone: &Name<A>, link: &Link<A>) -> Result<Class<A>, Starved>
    ensures { IfOk result (λ c. class_view c ≡ link_within zone.now (link_view link.now)) }
{
    if may_say(zone, link) {
        Ok(Class::Answer(link.clone()?))
    } else {
        Ok(Class::Failed(Failure::Foreign))
    }
}

// Whether a server of the zone may say so: all but a denial by the SOA of a zone that is not at or under it.
fn may_say<A: Allocator>(zone: &Name<A>, link: &Link<A>) -> bool
    ensures { result ≡ may_stand zone.now (link_view link.now) }
{
    match link {
        Link::Found(_) | Link::Alias(_) => true,
        Link::NoData(soa) | Link::NxDomain(soa) => soa.owner.is_at_or_under(zone),
    }
}

// A referral of the zone's server. It is of no use where it does not lead beneath the zone.
fn narrow_referral<A: Heap>(
    alloc: A,
    zone: &Name<A>,
    referral: &Referral<A>,
) -> Result<Class<A>, Starved>
    ensures { IfOk result (λ c. class_view c ≡ narrowed zone.now (plain.Referral referral.now.owner referral.now.servers referral.now.addresses referral.now.ttl)) }
{
    if !leads_within(zone, &referral.owner) {
        return Ok(Class::Failed(Failure::Foreign));
    }
    let owner = referral.owner.clone()?;
    let servers = referral.servers.clone()?;
    let addresses = addresses_within(alloc, zone, referral.addresses.as_slice())?;
    Ok(Class::Referral(Referral::new(owner, servers, addresses)))
}

fn leads_within<A: Allocator>(zone: &Name<A>, cut: &Name<A>) -> bool
    ensures { result ≡ leads_within zone.now cut.now }
{
    cut.is_at_or_under(zone) && *cut != *zone
}

// The first addresses at or under the zone.
fn addresses_within<A: Heap>(
    alloc: A,
    zone: &Name<A>,
    addresses: &[Record<A>],
) -> Result<Records<A>, Starved>
    ensures { IfOk result (λ rs. rs ≡ addresses_within zone.now addresses.now) }
{
    let mut kept = Records::with_capacity(alloc, addresses.len().min(MAX_GLUE))?;
    for address in addresses {
        if kept.len() >= MAX_GLUE {
            return Ok(kept);
        }
        put_within(&mut kept, zone, address)?;
    }
    Ok(kept)
}

// Adds an address, where it is at or under the zone.
fn put_within<A: Heap>(
    kept: &mut Records<A>,
    zone: &Name<A>,
    address: &Record<A>,
) -> Result<(), Starved>
    ensures { OnOk result (kept.new ≡ kept.old ++ filter (λ (r : RecordSpec). is_under r.owner zone.now) (address.now ∷ [])) }
{
    if address.owner.is_at_or_under(zone) {
        kept.push(address.clone()?)?;
    }
    Ok(())
}

/// The class of each message at the zone is its class at the root, narrowed to the zone: a message may be read before
/// it is known which zone's server sent it (RFC 1034, section 4.3.2, step 3b; RFC 2181, section 5.4.1).
pub fn narrow_law<A: Allocator>(zone: &Name<A>)
    ensures { ZoneNarrows zone.now }
{
    zone.well_formed_law();
}
