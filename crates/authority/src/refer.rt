//! The result for a name at or under a cut.
ghost use Rattle.std.specs.Prelude.{◌≡◌, filter, fold, IfOk, OnOk};
ghost use Rattle.zone.specs.Look.{ns_of, glue_of, add_glue, is_address, addresses_of, Cut};
ghost use Rattle.authority.specs.Answers.{local_view};

use crate::answer::Local;
use crate::gather::records_in;
use crate::held::set_of;
use crate::plain::{is_kind, put_glue};
use dname::Name;
use memory::{Heap, Starved};
use rdata::{RData, RType, Record, Records};
use std::alloc::Allocator;
use zone::{Held, Zone, zone_keeps_rules};

fn is_address<A: Allocator>(rr: &Record<A>) -> bool
    ensures { result ≡ is_address rr.now }
{
    is_kind(rr, RType::A) || is_kind(rr, RType::Aaaa)
}

// Adds the addresses among the records of a name.
fn put_addresses<A: Heap>(set: &mut Records<A>, held: &Held<'_, A>) -> Result<(), Starved>
    ensures { OnOk result (set.new ≡ fold add_glue set.old (filter is_address held.now)) }
{
    for index in 0..held.len() {
        let rr = held.get(index);
        if is_address(rr) {
            put_glue(set, rr)?;
        }
    }
    Ok(())
}

// Adds the addresses that the zone has of a server.
fn put_server<A: Heap>(
    set: &mut Records<A>,
    zone: &Zone<A>,
    server: &Record<A>,
) -> Result<(), Starved>
    ensures { OnOk result (set.new ≡ fold add_glue set.old (addresses_of zone.now.records server.now.value)) }
{
    if let RData::Ns(name) = &server.value {
        if let Some(stand) = zone.stand(name) {
            put_addresses(set, &stand.own)?;
        }
    }
    Ok(())
}

// The addresses of an NS set's servers, server by server.
fn glue<A: Heap>(alloc: A, zone: &Zone<A>, servers: &[Record<A>]) -> Result<Records<A>, Starved>
    ensures { IfOk result (λ set. set ≡ glue_of zone.now.records servers.now) }
{
    let mut set = Records::new(alloc);
    for server in servers {
        put_server(&mut set, zone, server)?;
    }
    Ok(set)
}

// The NS set at a cut.
fn servers<A: Heap>(alloc: A, zone: &Zone<A>, cut: &Name<A>) -> Result<Records<A>, Starved>
    ensures { IfOk result (λ set. set ≡ ns_of zone.now cut.now) }
{
    zone_keeps_rules(zone);
    match zone.stand(cut) {
        Some(stand) => {
            let set = set_of(alloc, &stand.own, cut, RType::Ns)?;
            Ok(records_in(alloc, set)?)
        }
        None => Ok(Records::new(alloc)),
    }
}

// The referral to a cut.
pub(crate) fn refer<A: Heap>(alloc: A, zone: &Zone<A>, cut: Name<A>) -> Result<Local<A>, Starved>
    ensures { IfOk result (λ l. local_view l ≡ Cut cut (ns_of zone.now cut) (glue_of zone.now.records (ns_of zone.now cut))) }
{
    let servers = servers(alloc, zone, &cut)?;
    let addresses = glue(alloc, zone, servers.as_slice())?;
    Ok(Local::Cut(cut, servers, addresses))
}
