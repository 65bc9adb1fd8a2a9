//! Look-up by the tree of a zone's names, beside a walk over the list of its records: the same answers.

use crate::authority_tests::made::{Maker, known};
use authority::{Catalog, Local, look_in};
use dname::Name;
use memory::{Heap, Starved};
use rdata::{RType, Record, Values};
use std::alloc::Allocator;
use std::test::Fail;
use zone::{Link, Zone, zone_keeps_rules};

fn is_same<A: Allocator>(one: &Record<A>, other: &Record<A>) -> bool {
    one.owner == other.owner && one.ttl == other.ttl && one.value == other.value
}

// The same records in the same order.
fn are_same<A: Allocator>(these: &[Record<A>], those: &[Record<A>]) -> bool {
    for (one, other) in these.iter().zip(those) {
        if !is_same(one, other) {
            return false;
        }
    }
    these.len() == those.len()
}

// The same data in the same order.
fn are_same_data<A: Allocator>(these: &Values<A>, those: &Values<A>) -> bool {
    if these.len() != those.len() {
        return false;
    }
    for index in 0..these.len() {
        if !these.get(index).is_same(those.get(index)) {
            return false;
        }
    }
    true
}

fn is_same_link<A: Allocator>(one: &Link<A>, other: &Link<A>) -> bool {
    match (one, other) {
        (Link::Found(these), Link::Found(those)) => {
            these.owner == those.owner
                && these.ttl == those.ttl
                && are_same_data(&these.values, &those.values)
        }
        (Link::Alias(one), Link::Alias(other)) => is_same(one, other),
        (Link::NoData(one), Link::NoData(other)) => is_same(one, other),
        (Link::NxDomain(one), Link::NxDomain(other)) => is_same(one, other),
        _ => false,
    }
}

fn says_same<A: Allocator>(one: &Local<A>, other: &Local<A>) -> bool {
    match (one, other) {
        (Local::Link(one), Local::Link(other)) => is_same_link(one, other),
        (Local::Cut(cut, these, glue), Local::Cut(at, those, addresses)) => {
            *cut == *at
                && are_same(these.as_slice(), those.as_slice())
                && are_same(glue.as_slice(), addresses.as_slice())
        }
        _ => false,
    }
}

// What the list of the zone's records says.
fn by_list<A: Heap>(
    alloc: A,
    zone: &Zone<A>,
    asked: &Name<A>,
    kind: RType,
) -> Result<Local<A>, Starved> {
    zone_keeps_rules(zone);
    let (origin, soa, records) = (zone.origin(), zone.denial(), zone.records());
    look_in(alloc, origin, soa, records, asked, kind)
}

// Whether the list says the same as the tree.
fn list_says<A: Heap>(
    alloc: A,
    zone: &Zone<A>,
    asked: &Name<A>,
    kind: RType,
    by_tree: &Local<A>,
) -> Result<bool, Starved> {
    let by_list = by_list(alloc, zone, asked, kind)?;
    Ok(says_same(by_tree, &by_list))
}

// Whether the tree and the list answer a question alike.
fn answers_alike<A: Heap>(
    alloc: A,
    catalog: &Catalog<A>,
    zone: &Zone<A>,
    asked: &Name<A>,
    kind: RType,
) -> Result<bool, Starved> {
    let by_tree = catalog.look(alloc, asked, kind)?;
    list_says(alloc, zone, asked, kind, &by_tree)
}

// The same of the next question.
fn asked_alike<A: Heap>(
    maker: &mut Maker<A>,
    alloc: A,
    catalog: &Catalog<A>,
    zone: &Zone<A>,
) -> Result<bool, Starved> {
    let (asked, kind) = maker.question()?;
    answers_alike(alloc, catalog, zone, &asked, kind)
}

fn catalog_of<A: Heap>(alloc: A, zone: &Zone<A>) -> Result<Catalog<A>, Starved> {
    let mut zones = Vec::new(alloc);
    put_copy(&mut zones, zone)?;
    known(zones)
}

fn put_copy<A: Heap>(zones: &mut Vec<Zone<A>, A>, zone: &Zone<A>) -> Result<(), Starved> {
    let copy = zone.clone()?;
    Ok(zones.push(copy)?)
}

// How many of forty questions they answer alike.
fn count_alike<A: Heap>(
    maker: &mut Maker<A>,
    alloc: A,
    catalog: &Catalog<A>,
    zone: &Zone<A>,
) -> Result<u32, Starved> {
    let mut count = 0u32;
    for _ in 0..40 {
        let alike = asked_alike(maker, alloc, catalog, zone)?;
        count = count.saturating_add(alike as u32);
    }
    Ok(count)
}

// The same of questions to a zone.
fn alike_of<A: Heap>(maker: &mut Maker<A>, alloc: A, zone: &Zone<A>) -> Result<u32, Starved> {
    let catalog = catalog_of(alloc, zone)?;
    count_alike(maker, alloc, &catalog, zone)
}

// The same of questions to the maker's next zone.
fn alike_in_next<A: Heap>(maker: &mut Maker<A>, alloc: A) -> Result<u32, Starved> {
    let zone = maker.zone()?;
    alike_of(maker, alloc, &zone)
}

// The same of questions to the zone of a seed.
fn alike_in<A: Heap>(alloc: A, seed: u8) -> Result<u32, Starved> {
    let mut maker = Maker::new(alloc, seed);
    alike_in_next(&mut maker, alloc)
}

#[test]
fn the_tree_answers_as_the_list_does(rt: HostRuntime) -> Result<(), Fail> {
    for seed in 0..50 {
        assert_eq!(rt; alike_in(rt.alloc(), seed)?, 40, "of seed {seed}");
    }
    Ok(())
}
