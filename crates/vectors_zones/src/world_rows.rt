//! Rows of worlds: `world NAME ..: TEXT` and `world-text TEXT`.

use crate::named_texts::NamedTexts;
use crate::notation;
use crate::unanswered::{Unanswered, put_fault};
use dname::{Name, put_name};
use rdata::{Addr, put_ipv4};
use std::alloc::Global;
use text_lines::LineError;
use world_text::{Block, WorldFault, WorldText, read_world, world_in};
use worlds::{Host, World};

/// `NAME ..: TEXT`: the world of these lines, in short, which `ask`, `hear` and `judge` then speak of, or why it is
/// none.
pub fn put_world(
    texts: &NamedTexts,
    kept: &mut Option<World>,
    alloc: Global,
    said: &str,
    out: &mut String,
) -> Result<(), Unanswered> {
    let text = texts.made(alloc, said)?;
    match world_in(alloc, text.as_str()) {
        Ok(world) => keep(kept, world, out),
        Err(fault) => put_world_fault(out, fault),
    }
}

fn keep(kept: &mut Option<World>, world: World, out: &mut String) -> Result<(), Unanswered> {
    let put = put_summary(out, &world);
    *kept = Some(world);
    put
}

// The zones that a resolver in the world holds itself, and how many hints it has.
fn put_summary(out: &mut String, world: &World) -> Result<(), Unanswered> {
    out.push_str("world")?;
    put_held(out, world)?;
    let hints = world.hints().len();
    Ok(write!(out, " hints {hints}\n")?)
}

fn put_held(out: &mut String, world: &World) -> Result<(), Unanswered> {
    let held = world.held()?;
    for zone in &held {
        out.push_str(" holds ")?;
        put_name(out, zone.origin())?;
    }
    Ok(())
}

fn put_world_fault(out: &mut String, fault: WorldFault) -> Result<(), Unanswered> {
    let (whose, number) = match fault {
        WorldFault::Line(error) => ("line", error.kind.number()),
        WorldFault::File(error) => ("file", error.kind.number()),
        WorldFault::Zone(_, error) => ("zone", error.number()),
        WorldFault::World(error) => ("world", error.number()),
        WorldFault::Memory => return Err(Unanswered::Starved),
    };
    put_fault(out, whose, number, &fault)
}

/// `TEXT`: what the lines of a world text say, or the first that is refused.
pub fn put_world_text(alloc: Global, said: &str, out: &mut String) -> Result<(), Unanswered> {
    let text = notation::text(alloc, said)?;
    put_read(read_world(alloc, text.as_str()), out)
}

fn put_read(read: Result<WorldText<'_>, LineError>, out: &mut String) -> Result<(), Unanswered> {
    match read {
        Ok(world) => put_parts(out, &world),
        Err(error) => put_fault(out, "line", error.kind.number(), &error),
    }
}

fn put_parts(out: &mut String, world: &WorldText<'_>) -> Result<(), Unanswered> {
    for block in &world.blocks {
        put_block(out, block)?;
    }
    for host in &world.hosts {
        put_host(out, host)?;
    }
    for hint in &world.hints {
        put_address(out, "hint ", hint)?;
        out.push('\n')?;
    }
    Ok(())
}

// The text of a block as a row writes it.
fn put_block(out: &mut String, block: &Block<'_>) -> Result<(), Unanswered> {
    out.push_str(if block.is_local { "local " } else { "zone " })?;
    put_name(out, &block.origin)?;
    let line = block.line;
    write!(out, " line {line} text [")?;
    for byte in block.text {
        out.push(if *byte == b'\n' {
            '|'
        } else {
            char::from(*byte)
        })?;
    }
    Ok(out.push_str("]\n")?)
}

fn put_host(out: &mut String, host: &Host) -> Result<(), Unanswered> {
    put_address(out, "host ", &host.address)?;
    put_origins(out, &host.origins)?;
    Ok(out.push('\n')?)
}

fn put_origins(out: &mut String, origins: &[Name]) -> Result<(), Unanswered> {
    for origin in origins {
        out.push(' ')?;
        put_name(out, origin)?;
    }
    Ok(())
}

fn put_address(out: &mut String, head: &str, address: &Addr) -> Result<(), Unanswered> {
    out.push_str(head)?;
    Ok(put_ipv4(out, &address.0)?)
}
