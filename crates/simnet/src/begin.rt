//! The resolver of a network before its first event.
ghost use Rattle.std.specs.Prelude.{MatchResult};
ghost use Rattle.simnet.specs.Beginnings.{IsResolverOf, SimRefuses};

use crate::fault::SimError;
use engine::{Config, Core, Settings};
use memory::Heap;
use worlds::World;

/// A resolver that is set so, holds the world's local zones and begins at its hints. Refused where
/// the settings are not allowed, and out of memory.
pub fn resolver_of<A: Heap>(
    alloc: A,
    world: &World<A>,
    settings: Settings,
) -> Result<Core<A>, SimError>
    ensures { MatchResult result (IsResolverOf world.now settings) (λ e. SimRefuses e settings) }
{
    let Some(_room) = settings.room() else {
        return Err(SimError::Setting);
    };
    let config = Config {
        local: world.held()?,
        hints: Vec::from_slice(alloc, world.hints())?,
        settings,
    };
    match Core::new(alloc, config) {
        Ok(resolver) => Ok(resolver),
        // These settings are allowed, and a world's zones have one origin each: only memory can be wanting.
        Err(_) => Err(SimError::Memory),
    }
}
