//! Rows of zones: `zone ORIGIN TEXT`, `catalog ORIGIN=TEXT ..`, `look NAME TYPE` and `look-among NAME TYPE ORIGIN ..`.

use crate::named_texts::NamedTexts;
use crate::notation;
use crate::unanswered::{Unanswered, put_fault};
use authority::{Catalog, Local};
use dname::{Name, put_name};
use rdata::Records;
use std::alloc::Global;
use text_lines::{LineWords, name};
use vectors::first_word;
use zone::{Link, Zone};

/// `ORIGIN NAME ..: TEXT`: the zone of these lines, in short, or why it is none.
pub fn put_zone(
    texts: &NamedTexts,
    alloc: Global,
    said: &str,
    out: &mut String,
) -> Result<(), Unanswered> {
    let (origin, said) = first_word(said);
    let text = texts.made(alloc, said)?;
    match zone_in(alloc, origin, text.as_str(), out)? {
        Some(zone) => put_summary(out, &zone),
        None => Ok(()),
    }
}

// The zone of a text; where there is none, the refusal is appended.
fn zone_in(
    alloc: Global,
    origin: &str,
    text: &str,
    out: &mut String,
) -> Result<Option<Zone>, Unanswered> {
    let origin = name(alloc, origin)?;
    match masterfile::read(alloc, &origin, text) {
        Ok(records) => zone_of(origin, records, out),
        Err(fault) => {
            put_fault(out, "file", fault.kind.number(), &fault)?;
            Ok(None)
        }
    }
}

fn zone_of(origin: Name, records: Records, out: &mut String) -> Result<Option<Zone>, Unanswered> {
    match Zone::build(origin, records) {
        Ok(zone) => Ok(Some(zone)),
        Err(fault) => {
            put_fault(out, "zone", fault.number(), &fault)?;
            Ok(None)
        }
    }
}

fn put_summary(out: &mut String, zone: &Zone) -> Result<(), Unanswered> {
    out.push_str("zone ")?;
    put_name(out, zone.origin())?;
    let count = zone.records().len();
    let ttl = zone.denial().ttl;
    Ok(write!(out, " records {count} denials {ttl}\n")?)
}

/// `ORIGIN=NAME ..`: the catalog of the zones of these texts, which `look` then asks, or why it is none.
pub fn put_catalog(
    texts: &NamedTexts,
    kept: &mut Option<Catalog>,
    alloc: Global,
    said: &str,
    out: &mut String,
) -> Result<(), Unanswered> {
    let said = notation::text(alloc, said)?;
    let zones = zones(texts, alloc, said.as_str(), out)?;
    keep(kept, zones, out)
}

fn zones(
    texts: &NamedTexts,
    alloc: Global,
    said: &str,
    out: &mut String,
) -> Result<Vec<Zone>, Unanswered> {
    let mut zones = Vec::new(alloc);
    for word in LineWords::new(said) {
        put_named(&mut zones, texts, alloc, word, out)?;
    }
    Ok(zones)
}

fn put_named(
    zones: &mut Vec<Zone>,
    texts: &NamedTexts,
    alloc: Global,
    word: &str,
    out: &mut String,
) -> Result<(), Unanswered> {
    let (origin, of) = word.split_once('=').ok_or(Unanswered::NotUnderstood)?;
    match zone_in(alloc, origin, texts.named(of)?, out)? {
        Some(zone) => Ok(zones.push(zone)?),
        None => Err(Unanswered::NotUnderstood),
    }
}

fn keep(kept: &mut Option<Catalog>, zones: Vec<Zone>, out: &mut String) -> Result<(), Unanswered> {
    match Catalog::new(zones) {
        Ok(catalog) => {
            let count = catalog.zones().len();
            *kept = Some(catalog);
            Ok(write!(out, "catalog of {count}\n")?)
        }
        Err(fault) => put_fault(out, "catalog", fault.number(), &fault),
    }
}

/// `NAME TYPE`: what the zones say.
pub fn put_look(
    catalog: &Catalog,
    alloc: Global,
    said: &str,
    out: &mut String,
) -> Result<(), Unanswered> {
    let mut words = LineWords::new(said);
    let asked = words.name(alloc)?;
    let kind = words.rtype()?;
    let local = catalog.look(alloc, &asked, kind)?;
    put_local(out, &local)
}

/// `NAME TYPE ORIGIN ..`: what the zones of these origins say.
pub fn put_look_among(
    catalog: &Catalog,
    alloc: Global,
    said: &str,
    out: &mut String,
) -> Result<(), Unanswered> {
    let mut words = LineWords::new(said);
    let asked = words.name(alloc)?;
    let kind = words.rtype()?;
    let origins = names(alloc, words)?;
    let local = catalog.look_among(alloc, &origins, &asked, kind)?;
    put_local(out, &local)
}

fn names(alloc: Global, words: LineWords<'_>) -> Result<Vec<Name>, Unanswered> {
    let mut names = Vec::new(alloc);
    for word in words {
        names.push(name(alloc, word)?)?;
    }
    Ok(names)
}

fn put_local(out: &mut String, said: &Local) -> Result<(), Unanswered> {
    match said {
        Local::Link(link) => put_link(out, link),
        Local::Cut(cut, servers, glue) => {
            put_answer(out, "cut ", cut)?;
            let servers = servers.len();
            let addresses = glue.len();
            Ok(write!(out, " servers {servers} addresses {addresses}\n")?)
        }
        Local::NotHere => Ok(out.push_str("not here\n")?),
    }
}

fn put_link(out: &mut String, link: &Link) -> Result<(), Unanswered> {
    match link {
        Link::Found(set) => {
            put_answer(out, "found ", &set.owner)?;
            let count = set.len();
            write!(out, " records {count}")?;
        }
        Link::Alias(alias) => put_answer(out, "alias ", &alias.owner)?,
        Link::NoData(soa) => put_answer(out, "no data, SOA of ", &soa.owner)?,
        Link::NxDomain(soa) => put_answer(out, "no name, SOA of ", &soa.owner)?,
    }
    Ok(out.push('\n')?)
}

fn put_answer(out: &mut String, answer: &str, of: &Name) -> Result<(), Unanswered> {
    out.push_str(answer)?;
    Ok(put_name(out, of)?)
}
