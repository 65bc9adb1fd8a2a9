//! Records and zones, read from texts.
ghost use Rattle.std.specs.Prelude.{◌≡◌, IfOk, IfErr};
ghost use Rattle.commands.specs.Zones.{HoldsRecords, HoldsNoRecords, HoldsZone, HoldsNoZone};

use crate::fault::Fault;
use crate::texts::{Texts, text_at};
use dname::Name;
use memory::Heap;
use rdata::Records;
use zone::Zone;

/// The records in the text at a path, which begins under that origin.
pub fn read_records<'a, A: Heap, T: Texts>(
    alloc: A,
    texts: &mut T,
    origin: &Name<A>,
    file: &'a str,
) -> Result<Records<A>, Fault<'a>>
    ensures ok { IfOk result (HoldsRecords (T.held texts.old file.entry.now) origin.now) }
    ensures err { IfErr result (HoldsNoRecords (T.held texts.old) file.entry.now origin.now) }
    ensures keeps { T.held texts.new ≡ T.held texts.old }
{
    let text = text_at(alloc, texts, file)?;
    match masterfile::read(alloc, origin, text.as_str()) {
        Ok(records) => Ok(records),
        Err(error) => Err(Fault::of_file(file, error)),
    }
}

/// The zone of that origin in the text at a path.
pub fn read_zone<'a, A: Heap, T: Texts>(
    alloc: A,
    texts: &mut T,
    origin: Name<A>,
    file: &'a str,
) -> Result<Zone<A>, Fault<'a>>
    ensures ok { IfOk result (HoldsZone (T.held texts.old file.entry.now) origin) }
    ensures err { IfErr result (HoldsNoZone (T.held texts.old) file.entry.now origin) }
    ensures keeps { T.held texts.new ≡ T.held texts.old }
{
    let records = read_records(alloc, texts, &origin, file)?;
    match Zone::build(origin, records) {
        Ok(zone) => Ok(zone),
        Err(error) => Err(Fault::of_zone(file, error)),
    }
}
