//! `check` and `dump`: what a zone file holds.
ghost use Rattle.std.specs.Prelude.{◌≡◌, ◌++◌, IfOk, IfErr, codes, decimal, string_bytes};
ghost use Rattle.commands.specs.Files.{CountsRecords, PrintsRecords, IsNoZone, IsNoFile};

use crate::fault::Fault;
use crate::texts::Texts;
use crate::zones::{read_records, read_zone};
use dname::Name;
use memory::{Heap, Starved};

/// `ok N records`, where the text at a path is a zone of that origin.
pub fn check<'a, A: Heap, T: Texts>(
    alloc: A,
    texts: &mut T,
    origin: &str,
    file: &'a str,
) -> Result<String<A>, Fault<'a>>
    ensures ok { IfOk result (λ s. CountsRecords (T.held texts.old file.entry.now) origin.now (string_bytes s)) }
    ensures err { IfErr result (IsNoZone (T.held texts.old) file.entry.now origin.now) }
{
    let origin = Name::from_text(alloc, origin)?;
    let count = read_zone(alloc, texts, origin, file)?.records().len();
    Ok(count_line(alloc, count)?)
}

fn count_line<A: Heap>(alloc: A, count: usize) -> Result<String<A>, Starved>
    ensures { IfOk result (λ s. string_bytes s ≡ codes "ok " ++ (decimal count ++ codes " records\n")) }
{
    Ok(format!(in alloc; "ok {count} records\n")?)
}

/// The records in the text at a path, printed as a master file: a line for the origin, then one a record.
pub fn dump<'a, A: Heap, T: Texts>(
    alloc: A,
    texts: &mut T,
    origin: &str,
    file: &'a str,
) -> Result<String<A>, Fault<'a>>
    ensures ok { IfOk result (λ s. PrintsRecords (T.held texts.old file.entry.now) origin.now (string_bytes s)) }
    ensures err { IfErr result (IsNoFile (T.held texts.old) file.entry.now origin.now) }
{
    let origin = Name::from_text(alloc, origin)?;
    let records = read_records(alloc, texts, &origin, file)?;
    Ok(masterfile::print(alloc, &origin, records.as_slice())?)
}
