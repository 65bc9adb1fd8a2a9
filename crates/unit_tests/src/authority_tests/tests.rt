use crate::authority_tests::made::known;
use authority::{Catalog, CatalogError};
use memory::{Heap, Starved};
use rdata::{RType, Records};
use record_fixtures::{Value, name, record, records};
use refusing_alloc::Refusing;
use std::alloc::Allocator;
use std::test::Fail;
use zone::Zone;

fn built<A: Heap>(alloc: A, origin: &str, records: Records<A>) -> Result<Zone<A>, Starved> {
    match Zone::build(name(alloc, origin)?, records) {
        Ok(zone) => Ok(zone),
        Err(_) => Err(Starved),
    }
}

// One zone more, of that origin.
fn put_zone<A: Heap>(
    alloc: A,
    zones: &mut Vec<Zone<A>, A>,
    origin: &str,
    records: Records<A>,
) -> Result<(), Starved> {
    let zone = built(alloc, origin, records)?;
    Ok(zones.push(zone)?)
}

// The zone of an origin, with nothing in it.
fn put_bare<A: Heap>(alloc: A, zones: &mut Vec<Zone<A>, A>, origin: &str) -> Result<(), Starved> {
    let rows = [
        (origin, 3600, Value::Soa(60)),
        (origin, 3600, Value::Ns("ns.example")),
    ];
    let records = records(alloc, &rows)?;
    put_zone(alloc, zones, origin, records)
}

fn put_numbered<A: Heap>(
    alloc: A,
    zones: &mut Vec<Zone<A>, A>,
    number: u32,
) -> Result<(), Starved> {
    let origin = format!(in alloc; "zone-{number}.example")?;
    put_bare(alloc, zones, origin.as_str())
}

fn put_many_zones<A: Heap>(
    alloc: A,
    zones: &mut Vec<Zone<A>, A>,
    more: &[&str],
) -> Result<(), Starved> {
    for number in 0..10_000_u32 {
        put_numbered(alloc, zones, number)?;
    }
    for origin in more {
        put_bare(alloc, zones, *origin)?;
    }
    Ok(())
}

// Ten thousand zones of different origins, and behind them the zones of these.
fn many_zones<A: Heap>(alloc: A, more: &[&str]) -> Result<Vec<Zone<A>, A>, Starved> {
    let mut zones = Vec::new(alloc);
    put_many_zones(alloc, &mut zones, more)?;
    Ok(zones)
}

// Why many zones and these are no catalog, if they are none.
fn refusal_of_many<A: Heap>(alloc: A, more: &[&str]) -> Result<Option<CatalogError>, Starved> {
    let zones = many_zones(alloc, more)?;
    Ok(Catalog::new(zones).err())
}

// Two zones of one origin are refused, also where they are the first and the last of many.
#[test]
fn twins_are_refused(rt: HostRuntime) -> Result<(), Fail> {
    let of_none = refusal_of_many(rt.alloc(), &[])?;
    assert_eq!(rt; of_none, None);
    let of_ends = refusal_of_many(rt.alloc(), &["ZONE-0.example"])?;
    assert_eq!(rt; of_ends, Some(CatalogError::Twins));
    Ok(())
}

// The zone of `example`, in which `many.example` has twenty addresses.
fn twenty_addresses<A: Heap>(alloc: A) -> Result<Vec<Zone<A>, A>, Starved> {
    let mut records = records(
        alloc,
        &[
            ("example", 3600, Value::Soa(60)),
            ("example", 3600, Value::Ns("ns.example")),
        ],
    )?;
    for last in 0..20_u8 {
        records.push(record(alloc, ("many.example", 60, Value::A(last)))?)?;
    }
    let mut zones = Vec::new(alloc);
    put_zone(alloc, &mut zones, "example", records)?;
    Ok(zones)
}

// How often memory is asked for by a look-up of these addresses.
fn growths_of_look<B: Allocator>(heap: &Refusing<B>) -> Result<u64, Starved> {
    let catalog = known(twenty_addresses(heap)?)?;
    let asked = name(heap, "many.example")?;
    let before = heap.growths();
    let local = catalog.look(heap, &asked, RType::A)?;
    let growths = heap.growths().saturating_sub(before);
    drop(local);
    Ok(growths)
}

// An answer shares the data of its set with the zone, and its name is short.
#[test]
fn answers_share_the_sets_of_a_zone(rt: HostRuntime) -> Result<(), Fail> {
    let heap = Refusing::new(rt.alloc());
    assert_eq!(rt; growths_of_look(&heap)?, 0);
    Ok(())
}
