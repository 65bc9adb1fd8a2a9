//! `ask`: one query, to one zone.
ghost use Rattle.std.specs.Prelude.{◌≡◌, [], ◌∷◌, IfOk, IfErr, string_bytes};
ghost use Rattle.rdata.specs.Types.{type_number};
ghost use Rattle.commands.specs.Asks.{IsAskFault};
ghost use Rattle.commands.specs.Exchanges.{AreLines, PrintsAnswer};

use crate::answering::exchange;
use crate::fault::Fault;
use crate::texts::Texts;
use crate::zones::read_zone;
use authority::{Catalog, CatalogError};
use dname::Name;
use memory::{Heap, Starved};
use rdata::RType;
use zone::Zone;

/// The lines of the reply that the zone in a file gives to a query for a name and a type: one over UDP, with
/// RD clear. The words are read in this order: the origin, the name, the type; then the file.
pub fn ask<'a, A: Heap, T: Texts>(
    alloc: A,
    texts: &mut T,
    origin: &str,
    file: &'a str,
    name: &str,
    kind: &str,
) -> Result<String<A>, Fault<'a>>
    ensures ok { IfOk result (λ s. PrintsAnswer A (T.held texts.old file.entry.now) origin.now name.now kind.now (string_bytes s)) }
    ensures err { IfErr result (IsAskFault (T.held texts.old) file.entry.now origin.now name.now kind.now) }
{
    let origin = Name::from_text(alloc, origin)?;
    let name = Name::from_text(alloc, name)?;
    let kind = RType::from_word(kind.as_bytes()).ok_or(Fault::BadType)?;
    let zone = read_zone(alloc, texts, origin, file)?;
    Ok(zone_lines(alloc, zone, name, kind)?)
}

// The lines of the reply that a zone gives.
fn zone_lines<A: Heap>(
    alloc: A,
    zone: Zone<A>,
    name: Name<A>,
    kind: RType,
) -> Result<String<A>, Starved>
    ensures { IfOk result (λ s. AreLines A (zone ∷ []) name (type_number kind) (string_bytes s)) }
{
    let catalog = catalog_of(alloc, zone)?;
    Ok(exchange(alloc, &catalog, name, kind)?)
}

// The catalog of one zone.
fn catalog_of<A: Heap>(alloc: A, zone: Zone<A>) -> Result<Catalog<A>, Starved>
    ensures { IfOk result (λ c. c ≡ zone ∷ []) }
{
    let mut zones = Vec::new(alloc);
    zones.push(zone)?;
    match Catalog::new(zones) {
        Ok(catalog) => Ok(catalog),
        Err(CatalogError::Memory) => Err(Starved),
        Err(CatalogError::Twins) => unreachable!(),
    }
}
