//! Records printed as a zone text.
ghost use Rattle.std.specs.Prelude.{◌≡◌, ◌++◌, IfOk, OnOk, OnErr, string_bytes};
ghost use Rattle.rdata.specs.Text.{record_text};
ghost use Rattle.masterfile.specs.Printed.{line_text, file_text};
ghost use Rattle.masterfile.specs.ReadBack.{FitMessages, IsReadAs};

use crate::sound::record_is_sound;
use dname::{Name, put_name};
use memory::{Heap, Starved};
use rdata::Record;
use std::alloc::Allocator;

/// The records as a zone text: a line `$ORIGIN NAME`, then a line `OWNER TTL IN TYPE DATA` for each record, with one
/// space between words and every name absolute. It is read back as these records, where no TXT is over 65,535 bytes in
/// a message.
pub fn print<A: Heap, B: Allocator>(
    alloc: A,
    origin: &Name<B>,
    records: &[Record<B>],
) -> Result<String<A>, Starved>
    ensures text { IfOk result (λ s. string_bytes s ≡ file_text origin.now records.now) }
    ensures back { IfOk result (λ s. FitMessages records.now → IsReadAs (string_bytes s) records.now) }
{
    origin.well_formed_law();
    let mut out = String::new(alloc);
    out.push_str("$ORIGIN ")?;
    put_name(&mut out, origin)?;
    out.push('\n')?;
    for record in records {
        record_is_sound(record);
        put_line(&mut out, record)?;
    }
    Ok(out)
}

fn put_line<A: Allocator, B: Heap>(out: &mut String<B>, record: &Record<A>) -> Result<(), Starved>
    ensures { OnOk result (string_bytes out.new ≡ string_bytes out.old ++ line_text «record».now) }
{
    put_record(out, record)?;
    out.push('\n')?;
    Ok(())
}

/// Appends a record as it is displayed, `OWNER TTL IN TYPE DATA`. Where memory is refused, nothing is appended: the
/// text is written apart first.
pub fn put_record<A: Allocator, B: Heap>(
    out: &mut String<B>,
    record: &Record<A>,
) -> Result<(), Starved>
    ensures ok { OnOk result (string_bytes out.new ≡ string_bytes out.old ++ record_text «record».now) }
    ensures err { OnErr result (string_bytes out.new ≡ string_bytes out.old) }
{
    let text = record.to_string(*out.allocator())?;
    Ok(out.push_str(&text)?)
}
