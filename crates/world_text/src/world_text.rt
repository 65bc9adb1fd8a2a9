//! World texts: which zones a world has, who serves them, and where a resolver starts.
//!
//! `zone ORIGIN` and `local ORIGIN` open a block of master file text, up to a line that is exactly `end`.
//! `host ADDRESS ORIGIN ..` names a server and the zones that it serves, `hint ADDRESS` a server of the root. Outside
//! of blocks, blank lines and lines that begin with `;` are skipped. Words are parted by spaces and tabs.
ghost use Rattle.std.specs.Prelude.{◌≡◌, Ok, MatchResult};
ghost use Rattle.text_lines.specs.Texts.{IsTextFault};
ghost use Rattle.world_text.specs.Readings.{said_in};
ghost use Rattle.world_text.specs.Seen.{said_seen};

use crate::reader::Reader;
use dname::Name;
use memory::Heap;
use rdata::Addr;
use std::alloc::{Allocator, Global};
use std::marker::Model;
use text_lines::{LineError, first_line};
use worlds::Host;

/// A zone's block in a world text.
#[derive(Drop)]
pub struct Block<'t, A: Allocator = Global> {
    /// The origin in the line that opens the block; relative owner names of the text are beneath it.
    pub origin: Name<A>,
    /// Whether the resolver itself serves the zone.
    pub is_local: bool,
    /// The line that opens the block, counted from 1.
    pub line: usize,
    /// The master file text between that line and the line `end`.
    pub text: &'t [u8],
}

impl<'t, A: Allocator> Model for Block<'t, A> {
    ghost use Rattle.std.specs.Prelude.{◌<◌, ◌^◌};
    ghost use Rattle.world_text.specs.WorldTexts.{Block as BlockSpec};

    ghost Value = { BlockSpec };

    ghost view = { λ b. record { origin = b.origin; is_local = b.is_local; line = b.line; text = b.text.now } };

    // A text has no more lines than bytes.
    ghost invariant = { λ b. b.line < 2 ^ 63 };
}

/// What the lines of a world text say, in their order; the lines of one server are one.
#[derive(Drop)]
pub struct WorldText<'t, A: Allocator = Global> {
    /// The zones' blocks, their master file text not yet read.
    pub blocks: Vec<Block<'t, A>, A>,
    /// The servers, each address once.
    pub hosts: Vec<Host<A>, A>,
    /// The addresses of root servers that the resolver starts from.
    pub hints: Vec<Addr, A>,
}

/// The blocks, hosts and hints of a world text. Refused by its first bad line; a block without `end` at the line
/// that opens it.
pub fn read_world<'t, A: Heap>(alloc: A, text: &'t str) -> Result<WorldText<'t, A>, LineError>
    ensures { MatchResult result (λ w. said_in text.entry.now ≡ Ok (said_seen w)) (λ e. IsTextFault e (said_in text.entry.now)) }
{
    let mut reader = Reader::new(alloc);
    let mut left = text;
    let mut number = 1usize;
    while let Some((line, behind)) = first_line(left) {
        match reader.take_line(alloc, number, left, line, behind) {
            Ok(()) => {}
            Err(kind) => {
                return Err(LineError { line: number, kind });
            }
        }
        left = behind;
        number = number.saturating_add(1);
    }
    reader.end()
}
