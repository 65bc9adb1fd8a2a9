//! A network of two zones and their servers.
ghost use Rattle.std.specs.Prelude.{◌≡◌, IfOk};
ghost use Rattle.simnet.specs.Beginnings.{Begins};

use engine::Settings;
use memory::Starved;
use script::{Order, read_script};
use simnet::Sim;
use std::alloc::Global;
use world_text::world_in;
use worlds::World;

const WORLD: &str =
    "zone .\n. 60 IN SOA r. h. 1 2 3 4 60\n. 60 IN NS ns.\nns. 60 IN A 198.51.100.1\nexample. 60 IN NS ns.example.\nns.example. 60 IN A 198.51.100.2\nend\nzone example.\n$TTL 3600\n@ SOA ns h 1 2 3 4 60\n@ NS ns\nns A 198.51.100.2\nwww A 192.0.2.1\nalso CNAME www\nend\nhost 198.51.100.1 .\nhost 198.51.100.2 example.\nhint 198.51.100.1\n";

const SETTINGS: Settings = Settings {
    cache: 64,
    delegations: 64,
    penalties: 64,
    failures: 64,
    sockets: 4,
    port: 53,
    seed: [7; 32],
};

/// A network before its first event.
pub fn network(alloc: Global) -> Result<Sim, Starved>
    ensures { IfOk result (λ s. Begins s) }
{
    match world_in(alloc, WORLD) {
        Ok(world) => network_of(alloc, world),
        Err(_) => Err(Starved),
    }
}

/// The orders of a script.
pub fn orders_of(alloc: Global, text: &str) -> Result<Vec<Order>, Starved> {
    match read_script(alloc, text) {
        Ok(orders) => Ok(orders),
        Err(_) => Err(Starved),
    }
}

// A network of that world before its first event.
fn network_of(alloc: Global, world: World) -> Result<Sim, Starved>
    ensures fresh { IfOk result (λ s. Begins s) }
    ensures world { IfOk result (λ s. s.world ≡ world) }
{
    world.well_formed_law();
    match Sim::new(alloc, world, SETTINGS) {
        Ok(network) => Ok(network),
        Err(_) => Err(Starved),
    }
}
