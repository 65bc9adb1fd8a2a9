//! A world text as it is read, line by line.
ghost use Rattle.std.specs.Prelude.{◌≡◌, ◌<◌, ◌^◌, false, [], None, Ok, Err, option_map, OnOk, MatchResult};
ghost use Rattle.std.specs.Option.{is_some};
ghost use Rattle.std.specs.List.{position};
ghost use Rattle.text_lines.specs.Lines.{IsFirstLine};
ghost use Rattle.text_lines.specs.Texts.{IsTextFault, line_behind};
ghost use Rattle.world_text.specs.Places.{has_address, joined, with_host};
ghost use Rattle.world_text.specs.Statements.{statement_seen};
ghost use Rattle.world_text.specs.Readings.{nothing_yet, outside, after, finished};
ghost use Rattle.world_text.specs.Seen.{said_seen, block_seen, reading_seen, closed, says_from, IsTail, IsLeftBehind};

use crate::open_block::OpenBlock;
use crate::statement::{Statement, statement_in};
use crate::world_text::{Block, WorldText};
use memory::{Heap, Starved};
use rdata::Addr;
use std::alloc::Allocator;
use text_lines::{LineError, LineKind};
use worlds::Host;

impl<'t, A: Allocator> OpenBlock<'t, A> {
    // Its block, which ends before the text that is left.
    fn block(self, left: &str) -> Block<'t, A>
        requires { IsTail left.now self.behind.now }
        ensures { result ≡ block_seen left.now self.entry }
    {
        let text = self.behind.as_bytes();
        Block {
            origin: self.origin,
            is_local: self.is_local,
            line: self.line,
            text: &text[..text.len() - left.len()],
        }
    }
}

/// What a world text said so far, and the block that is open.
#[derive(Drop)]
pub(crate) struct Reader<'t, A: Allocator> {
    opening: Option<OpenBlock<'t, A>>,
    world: WorldText<'t, A>,
}

impl<'t, A: Heap> Reader<'t, A> {
    /// Nothing read yet.
    pub(crate) fn new(alloc: A) -> Reader<'t, A>
        ensures opening { result.opening ≡ None }
        ensures world { said_seen result.world ≡ nothing_yet }
    {
        Reader {
            opening: None,
            world: WorldText {
                blocks: Vec::new(alloc),
                hosts: Vec::new(alloc),
                hints: Vec::new(alloc),
            },
        }
    }

    /// One line more, the first of the text that is left.
    pub(crate) fn take_line(
        &mut self,
        alloc: A,
        number: usize,
        left: &'t str,
        line: &'t str,
        behind: &'t str,
    ) -> Result<(), LineKind>
        requires number { number < 2 ^ 63 }
        requires line { IsFirstLine left.now line.now behind.now }
        requires left { IsLeftBehind left.now self.old.opening }
        ensures says { MatchResult result (λ _. says_from number self.old left.entry.now ≡ says_from (line_behind number) self.new behind.entry.now) (λ e. IsTextFault (record { line = number; kind = e }) (says_from number self.old left.entry.now)) }
        ensures left { OnOk result (IsLeftBehind behind.entry.now self.new.opening) }
    {
        if self.opening.is_none() {
            let statement = statement_in(alloc, line)?;
            return Ok(self.state(number, statement, behind)?);
        }
        if line == "end" {
            return Ok(self.close(left)?);
        }
        Ok(())
    }

    // What a line says, outside of blocks.
    fn state(
        &mut self,
        number: usize,
        statement: Option<Statement<A>>,
        behind: &'t str,
    ) -> Result<(), Starved>
        requires outside { is_some self.old.opening ≡ false }
        requires number { number < 2 ^ 63 }
        ensures says { OnOk result (reading_seen behind.entry.now self.new ≡ after number (said_seen self.old.world) (option_map statement_seen statement)) }
        ensures left { OnOk result (IsLeftBehind behind.entry.now self.new.opening) }
    {
        match statement {
            None => {}
            Some(Statement::Opens(is_local, origin)) => {
                self.opening = Some(OpenBlock {
                    origin,
                    is_local,
                    line: number,
                    behind,
                });
            }
            Some(Statement::Serves(host)) => self.world.add(host)?,
            Some(Statement::Starts(address)) => self.world.hints.push(address)?,
        }
        Ok(())
    }

    // The open block ends before the text that is left.
    fn close(&mut self, left: &str) -> Result<(), Starved>
        requires { IsLeftBehind left.now self.old.opening }
        ensures opening { OnOk result (self.new.opening ≡ None) }
        ensures says { OnOk result (outside (said_seen self.new.world) ≡ closed (reading_seen left.now self.old)) }
    {
        if let Some(opening) = self.opening.take() {
            self.world.blocks.push(opening.block(left))?;
        }
        Ok(())
    }

    /// What the text said, once nothing of it is left.
    pub(crate) fn end(self) -> Result<WorldText<'t, A>, LineError>
        ensures { MatchResult result (λ w. finished (reading_seen [] self.entry) ≡ Ok (said_seen w)) (λ e. finished (reading_seen [] self.entry) ≡ Err e) }
    {
        let Self { opening, world } = self;
        match opening {
            None => Ok(world),
            Some(opening) => Err(LineError {
                line: opening.line,
                kind: LineKind::OpenBlock,
            }),
        }
    }
}

impl<'t, A: Heap> WorldText<'t, A> {
    // What is said of a server that has a line already adds to it.
    fn add(&mut self, host: Host<A>) -> Result<(), Starved>
        ensures { OnOk result (said_seen self.new ≡ record (said_seen self.old) { hosts = with_host host self.old.hosts.items }) }
    {
        match place_of(&self.hosts, host.address) {
            Some(place) => join(&mut self.hosts[place], host)?,
            None => self.hosts.push(host)?,
        }
        Ok(())
    }
}

// The place of the server of that address.
fn place_of<A: Allocator>(hosts: &[Host<A>], address: Addr) -> Option<usize>
    ensures { result ≡ position (has_address address.0) hosts.now }
{
    hosts.iter().position(|host| host.address.0 == address.0)
}

fn join<A: Heap>(host: &mut Host<A>, mut other: Host<A>) -> Result<(), Starved>
    ensures { OnOk result (host.new ≡ joined host.old other) }
{
    host.origins.append(&mut other.origins)?;
    Ok(())
}
