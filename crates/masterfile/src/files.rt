//! A whole text read, up to its first fault.
ghost use Rattle.std.specs.Prelude.{◌≡◌, ◌+◌, ◌<◌, ◌^◌, ◌++◌, length, Ok, IfOk, OnOk, MatchResult};
ghost use Rattle.masterfile.specs.Files.{listed, read_lines, read_text, IsFirstFault};
ghost use Rattle.masterfile.specs.MasterText.{IsMasterText};

use crate::entries::Context;
use crate::faults::{FileError, FileKind};
use dname::Name;
use master_lexer::{Lead, Words};
use memory::{Heap, Starved};
use rdata::{Record, Records};

/// The records of a zone text, in order (RFC 1035, section 5.1; `$TTL`: RFC 2308, section 4). A name that no dot ends is
/// relative to `origin`, until an `$ORIGIN` line. Refused by the first fault, at the line on which its entry starts, or
/// where memory is refused.
pub fn read<A: Heap>(alloc: A, origin: &Name<A>, text: &str) -> Result<Records<A>, FileError>
    ensures reads { MatchResult result (λ v. read_text origin.now text.now ≡ Ok v) (λ e. IsFirstFault e.kind e (read_text origin.now text.now)) }
    ensures stands { IfOk result (λ v. IsMasterText origin.now text.now v) }
{
    read_block(alloc, origin, text.as_bytes(), 1)
}

/// The records of a zone text that stands in a larger text, where its first line has the number `line`.
pub fn read_block<A: Heap>(
    alloc: A,
    origin: &Name<A>,
    text: &[u8],
    line: usize,
) -> Result<Records<A>, FileError>
    requires { line + length text.now < 2 ^ 64 }
    ensures { MatchResult result (λ v. read_lines origin.now line text.now ≡ Ok v) (λ e. IsFirstFault e.kind e (read_lines origin.now line text.now)) }
{
    let starved = FileError {
        line,
        kind: FileKind::Memory,
    };
    let Ok(own) = origin.copied(alloc) else {
        return Err(starved);
    };
    let mut context = Context::new(own);
    let mut records = Records::new(alloc);
    let mut words = Words::new(text, line);
    let mut place = line;
    let mut lead = Lead::of_line(text);
    'entries: loop {
        let found = match context.entry(alloc, lead, &mut words) {
            Ok(found) => found,
            Err(kind) => return Err(FileError { line: place, kind }),
        };
        match keep(&mut records, found) {
            Ok(()) => {}
            Err(_) => return Err(starved),
        }
        match words.next_entry() {
            Some((line, begins)) => {
                place = line;
                lead = begins;
            }
            None => return Ok(records),
        }
    }
}

/// Adds the record of an entry, if it has one, to those before.
fn keep<A: Heap>(records: &mut Records<A>, found: Option<Record<A>>) -> Result<(), Starved>
    ensures { OnOk result (records.new ≡ records.old ++ listed found) }
{
    match found {
        None => Ok(()),
        Some(record) => records.push(record),
    }
}
