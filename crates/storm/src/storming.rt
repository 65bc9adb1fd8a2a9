//! A storm of queries on one network.
ghost use Rattle.std.specs.Prelude.{◌≡◌, ◌<◌, IfOk, IfSome, IfNone, length, map};
ghost use Rattle.std.specs.declared.alloc.Global.{Global};
ghost use Rattle.script.specs.Orders.{order_seen};
ghost use Rattle.network.specs.Networks.{Network};
ghost use Rattle.simnet.specs.Beginnings.{Begins};
ghost use Rattle.storm.specs.Counts.{IsStorm, IsTotalOf};
ghost use Rattle.storm.specs.Lists.{OneHasOther};

use crate::count::{Totals, count_all, count_replies};
use crate::lists::lists_of;
use crate::query::StormQuery;
use crate::run::run_shared;
use crate::within::Beginning;
use pool::PoolError;
use score::Clients;
use script::Order;
use simnet::Sim;
use std::alloc::Global;
use std::marker::Brand;
use std::sync::Wait;
use std::sync::ledger::{Blank, Ledger};
use std::thread::Threads;
use workers::Open;
use worlds::World;

/// A worker for each script asks what it says, all at once over one network. How many replies there were, how many of
/// them to recursive queries and no SERVFAIL, and how many of these were right, which is all of them. None where a
/// script has other lines than `at` and `ask`. Refused with `Forgot` where the history has more than `keep` entries,
/// with `Memory` where a growth is refused.
pub fn storm<R: Threads + Wait + Sync>(
    rt: &R,
    alloc: Global,
    start: Sim,
    world: &World,
    scripts: Vec<Vec<Order>>,
    keep: usize,
) -> Result<Option<Totals>, PoolError>
    requires some { 0 < length scripts.items }
    requires fresh { Begins start }
    requires world { world.now ≡ start.world }
    ensures storm { IfOk result (λ o. IfSome o (IsStorm Global start (map (λ s. map order_seen s.items) scripts.items))) }
    ensures none { IfOk result (λ o. IfNone o (OneHasOther (map (λ s. map order_seen s.items) scripts.items))) }
{
    let mut clients = Clients::new(alloc);
    let Some(queries) = lists_of(alloc, scripts, &mut clients)? else {
        return Ok(None);
    };
    let blank = Blank::new(queries.len() as u64);
    let totals = storm_in::<Brand, Brand, R>(
        rt, alloc, blank, start, world, &clients, &queries, keep,
    )?;
    Ok(Some(totals))
}

// What the workers' queries come to, in the network and with the ledger that `P` and `L` name.
fn storm_in<P: Beginning + Send + Sync, L: Ledger + Send + Sync, R: Threads + Wait + Sync>(
    rt: &R,
    alloc: Global,
    blank: Blank,
    start: Sim,
    world: &World,
    clients: &Clients<Global>,
    queries: &[Vec<StormQuery>],
    keep: usize,
) -> Result<Totals, PoolError>
    requires name { blank.name ≡ L.name }
    requires parts { (blank.parts ≡ L.parts) × (blank.parts ≡ length queries.now) }
    requires some { 0 < length queries.now }
    requires begins { P.begins start × ((s : Network) → P.begins s → s ≡ start) }
    requires fresh { Begins start }
    requires world { world.now ≡ start.world }
    ensures { IfOk result (IsTotalOf start clients.now (map (λ q. q.items) queries.now)) }
{
    let closed = run_shared::<P, L, Open, R>(rt, alloc, blank, start, queries, keep, &Open)?;
    let history = closed.history.as_slice();
    let replies = count_replies(history)?;
    let count = count_all(alloc, world, clients, history)?;
    Ok(Totals { replies, count })
}
