//! The resolver that a server's file describes.
ghost use Rattle.std.specs.Prelude.{◌≡◌, IfOk, IfSome};
ghost use Rattle.engine.specs.Beginnings.{IsBegun};
ghost use Rattle.server_start.specs.Resolvers.{IsDescribed, settings_in};

use config::ServeConfig;
use engine::{Config, Core, CoreError, Settings};
use memory::Heap;
use std::alloc::Allocator;
use zone::Zone;

// What the file sets, with a seed. None where there are more sockets than can be counted, which is more than allowed.
fn settings_of<A: Allocator>(config: &ServeConfig<'_, A>, seed: [u8; 32]) -> Option<Settings>
    ensures { IfSome result (λ s. s ≡ settings_in config.now seed) }
{
    let Ok(sockets) = u16::try_from(config.sockets) else {
        return None;
    };
    Some(Settings {
        cache: config.cache as usize,
        delegations: config.delegations as usize,
        penalties: config.penalties as usize,
        failures: config.failures as usize,
        sockets,
        port: config.port,
        seed,
    })
}

/// A resolver that has done nothing yet, with these zones and with the hints and the settings of a server's file.
/// Refused as `Core::new` refuses.
pub fn resolver_of<A: Heap>(
    alloc: A,
    config: ServeConfig<'_, A>,
    zones: Vec<Zone<A>, A>,
    seed: [u8; 32],
) -> Result<Core<A>, CoreError>
    ensures is { IfOk result (IsDescribed config.entry zones.items seed) }
    ensures begun { IfOk result IsBegun }
{
    let Some(settings) = settings_of(&config, seed) else {
        return Err(CoreError::Setting);
    };
    Core::new(
        alloc,
        Config {
            local: zones,
            hints: config.hints,
            settings,
        },
    )
}
