//! `settings LINKS DELEGATIONS PENALTIES FAILURES SOCKETS ZONES`: whether a resolver is made that keeps so many of each,
//! has so many sockets and so many zones, all of them of one origin.
use crate::row::Row;
use crate::shown::put_number;
use dname::Name;
use engine::{Config, Core, Settings};
use std::alloc::Global;
use text_lines::LineKind;
use zone::Zone;

const LAB: &str = "$TTL 300\n@ SOA ns h 1 2 3 4 60\n@ NS ns\n";

fn zone(alloc: Global) -> Result<Zone, LineKind> {
    let origin = text_lines::name(alloc, "lab.example.")?;
    zone_of(alloc, origin)
}

fn zone_of(alloc: Global, origin: Name) -> Result<Zone, LineKind> {
    let Ok(records) = masterfile::read(alloc, &origin, LAB) else {
        return Err(LineKind::BadName);
    };
    match Zone::build(origin, records) {
        Ok(zone) => Ok(zone),
        Err(_) => Err(LineKind::BadName),
    }
}

// So many zones, all of them the same.
fn zones(alloc: Global, count: usize) -> Result<Vec<Zone>, LineKind> {
    let mut zones = Vec::new(alloc);
    for _ in 0..count {
        zones.push(zone(alloc)?)?;
    }
    Ok(zones)
}

fn settings(row: &mut Row<'_>) -> Result<Settings, LineKind> {
    Ok(Settings {
        cache: row.count()?,
        delegations: row.count()?,
        penalties: row.count()?,
        failures: row.count()?,
        sockets: row.short()?,
        port: 53,
        seed: [7; 32],
    })
}

fn config(row: &mut Row<'_>) -> Result<Config, LineKind> {
    let settings = settings(row)?;
    let count = row.count()?;
    Ok(Config {
        local: zones(row.alloc, count)?,
        hints: Vec::new(row.alloc),
        settings,
    })
}

/// What comes of a row.
pub fn show_settings(row: &mut Row<'_>, out: &mut String) -> Result<(), LineKind> {
    let config = config(row)?;
    match Core::new(row.alloc, config) {
        Ok(core) => {
            drop(core);
            out.push_str("made\n")?;
        }
        Err(error) => put_number(out, "refused ", u64::from(error.number()))?,
    }
    Ok(())
}
