//! A run of many workers in one network.
ghost use Rattle.std.specs.Prelude.{◌≡◌, ◌<◌, IfOk, length, map};
ghost use Rattle.network.specs.Networks.{Network};
ghost use Rattle.simnet.specs.Beginnings.{Begins};
ghost use Rattle.storm.specs.Runs.{IsRunOf, AreRight, AreNumbered};

use crate::query::StormQuery;
use crate::within::{Beginning, Within};
use network::network_law;
use pool::{Closed, PoolError};
use simnet::Sim;
use std::alloc::Global;
use std::sync::Wait;
use std::sync::ledger::{Blank, Ledger};
use std::thread::Threads;
use workers::{Gate, run_all};

/// A worker for each list asks its queries, all at once, each in a thread of its own where one can be made. Before each
/// query it comes to the gate, and after it every ask that comes of it has its reply carried, until none is left.
/// Refused with `Forgot` where the history has more than `keep` entries, with `Memory` where a growth is refused.
pub fn run_shared<
    P: Beginning + Send + Sync,
    L: Ledger + Send + Sync,
    G: Gate + Sync,
    R: Threads + Wait + Sync,
>(
    rt: &R,
    alloc: Global,
    blank: Blank,
    start: Sim,
    queries: &[Vec<StormQuery>],
    keep: usize,
    gate: &G,
) -> Result<Closed<Within<P>>, PoolError>
    requires name { blank.name ≡ L.name }
    requires parts { (blank.parts ≡ L.parts) × (blank.parts ≡ length queries.now) }
    requires some { 0 < length queries.now }
    requires begins { P.begins start × ((s : Network) → P.begins s → s ≡ start) }
    requires fresh { Begins start }
    ensures run { IfOk result (λ c. IsRunOf start (map (λ q. q.items) queries.now) c.history.items (map (λ v. v.items) c.lists.items)) }
    ensures right { IfOk result (λ c. AreRight start c.history.items) }
    ensures numbers { IfOk result (λ c. AreNumbered c.history.items) }
{
    network_law();
    run_all::<Within<P>, L, G, R>(rt, alloc, blank, start, queries, keep, gate)
}
