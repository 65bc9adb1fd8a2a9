//! Worlds made of their texts.
ghost use Rattle.std.specs.Prelude.{◌≡◌, Ok, IfOk, MatchResult};
ghost use Rattle.world_text.specs.WorldTexts.{zone_of, zones_of, locals_of, IsFaultOf};
ghost use Rattle.world_text.specs.Worlds.{IsSaidWorld, IsNoSaidWorld, IsWorldOf, IsNoWorld};
ghost use Rattle.world_text.specs.Seen.{said_seen};

use crate::world_fault::WorldFault;
use crate::world_text::{Block, WorldText, read_world};
use dname::Name;
use masterfile::read_block;
use memory::{Heap, Starved};
use worlds::World;
use zone::Zone;

impl<'t, A: Heap> Block<'t, A> {
    // The zone of the block's records.
    fn zone(&self, alloc: A) -> Result<Zone<A>, WorldFault>
        ensures { MatchResult result (λ z. zone_of self.now ≡ Ok z) (λ e. IsFaultOf e (zone_of self.now)) }
    {
        let records = read_block(alloc, &self.origin, self.text, self.line + 1)?;
        match Zone::build(self.origin.clone()?, records) {
            Ok(zone) => Ok(zone),
            Err(error) => Err(WorldFault::of_zone(self.line, error)),
        }
    }
}

// The zones of the blocks, one by one.
fn zones<'t, A: Heap>(alloc: A, blocks: &[Block<'t, A>]) -> Result<Vec<Zone<A>, A>, WorldFault>
    ensures { MatchResult result (λ v. zones_of blocks.now ≡ Ok v.items) (λ e. IsFaultOf e (zones_of blocks.now)) }
{
    let mut zones = Vec::with_capacity(alloc, blocks.len())?;
    for block in blocks {
        zones.push(block.zone(alloc)?)?;
    }
    Ok(zones)
}

// The origins of the local blocks.
fn locals<'t, A: Heap>(alloc: A, blocks: &[Block<'t, A>]) -> Result<Vec<Name<A>, A>, Starved>
    ensures { IfOk result (λ v. v.items ≡ locals_of blocks.now) }
{
    let mut locals = Vec::new(alloc);
    for block in blocks {
        if block.is_local {
            locals.push(block.origin.clone()?)?;
        }
    }
    Ok(locals)
}

impl<'t, A: Heap> WorldText<'t, A> {
    /// The world of these blocks, servers and hints. The blocks are read and built one after the other: refused by
    /// the first that is no master file or no zone, then by the first rule of a world that does not hold, or where
    /// a growth is refused.
    pub fn build(self, alloc: A) -> Result<World<A>, WorldFault>
        ensures { MatchResult result (IsSaidWorld (said_seen self.entry)) (IsNoSaidWorld (said_seen self.entry)) }
    {
        let Self {
            blocks,
            hosts,
            hints,
        } = self;
        let zones = zones(alloc, &blocks)?;
        let locals = locals(alloc, &blocks)?;
        Ok(World::check(zones, hosts, hints, locals)?)
    }
}

/// The world that a text says. Of its lines, its blocks and the rules of a world, in this order, the first fault
/// counts.
pub fn world_in<A: Heap>(alloc: A, text: &str) -> Result<World<A>, WorldFault>
    ensures { MatchResult result (IsWorldOf text.now) (IsNoWorld text.now) }
{
    read_world(alloc, text)?.build(alloc)
}
