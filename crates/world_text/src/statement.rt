//! What a line of a world text says, outside of blocks.
ghost use Rattle.std.specs.Prelude.{◌≡◌, Ok, Err, option_map, MatchResult};
ghost use Rattle.worlds.specs.Kept.{bytes_of};
ghost use Rattle.text_lines.specs.Faults.{IsLineFault};
ghost use Rattle.text_lines.specs.Texts.{stated_words};
ghost use Rattle.world_text.specs.Statements.{statement_seen, origin_in, names_in, host_in, hint_in, stated_by, stated};

use crate::keyword::Keyword;
use dname::Name;
use memory::Heap;
use rdata::Addr;
use std::alloc::{Allocator, Global};
use text_lines::{LineKind, LineWords, name};
use worlds::Host;

/// What a line says, outside of blocks.
#[derive(Drop)]
pub(crate) enum Statement<A: Allocator = Global> {
    /// A block begins: whether its zone is local, and the zone's origin.
    Opens(bool, Name<A>),
    /// A server and zones that it serves.
    Serves(Host<A>),
    /// A server of the root.
    Starts(Addr),
}

/// What a line says, if it has words.
pub(crate) fn statement_in<A: Heap>(alloc: A, line: &str) -> Result<Option<Statement<A>>, LineKind>
    ensures { MatchResult result (λ s. stated (stated_words line.now) ≡ Ok (option_map statement_seen s)) (λ e. IsLineFault e (stated (stated_words line.now))) }
{
    let mut words = LineWords::stated(line);
    let Some(first) = words.next() else {
        return Ok(None);
    };
    match Keyword::of_word(first) {
        None => Err(LineKind::UnknownWord),
        Some(keyword) => Ok(Some(statement_of(alloc, keyword, words)?)),
    }
}

// What the words behind a keyword say.
fn statement_of<A: Heap>(
    alloc: A,
    keyword: Keyword,
    words: LineWords<'_>,
) -> Result<Statement<A>, LineKind>
    ensures { MatchResult result (λ s. stated_by keyword words.entry ≡ Ok (statement_seen s)) (λ e. IsLineFault e (stated_by keyword words.entry)) }
{
    match keyword {
        Keyword::Zone => Ok(Statement::Opens(false, origin(alloc, words)?)),
        Keyword::Local => Ok(Statement::Opens(true, origin(alloc, words)?)),
        Keyword::Host => Ok(Statement::Serves(host(alloc, words)?)),
        Keyword::Hint => Ok(Statement::Starts(hint(words)?)),
    }
}

fn origin<A: Heap>(alloc: A, mut words: LineWords<'_>) -> Result<Name<A>, LineKind>
    ensures { MatchResult result (λ n. origin_in words.entry ≡ Ok n) (λ e. IsLineFault e (origin_in words.entry)) }
{
    let origin = words.name(alloc)?;
    words.end()?;
    Ok(origin)
}

fn host<A: Heap>(alloc: A, mut words: LineWords<'_>) -> Result<Host<A>, LineKind>
    ensures { MatchResult result (λ h. host_in words.entry ≡ Ok h) (λ e. IsLineFault e (host_in words.entry)) }
{
    let address = words.address()?;
    let origins = origins(alloc, words)?;
    Ok(Host { address, origins })
}

// The names of these words, of which there is one at least.
fn origins<A: Heap>(alloc: A, mut words: LineWords<'_>) -> Result<Vec<Name<A>, A>, LineKind>
    ensures { MatchResult result (λ v. names_in words.entry ≡ Ok v.items) (λ e. IsLineFault e (names_in words.entry)) }
{
    let mut origins = Vec::new(alloc);
    origins.push(words.name(alloc)?)?;
    for word in words {
        origins.push(name(alloc, word)?)?;
    }
    Ok(origins)
}

fn hint(mut words: LineWords<'_>) -> Result<Addr, LineKind>
    ensures { MatchResult result (λ a. hint_in words.entry ≡ Ok (bytes_of a)) (λ e. hint_in words.entry ≡ Err e) }
{
    let address = words.address()?;
    words.end()?;
    Ok(address)
}
