//! `storm`: scripts that a worker each asks by, all at once in one network in memory.
ghost use Rattle.std.specs.Prelude.{◌≡◌, ◌⊎◌, IfOk, IfErr, MatchResult, map, string_bytes};
ghost use Rattle.script.specs.Orders.{order_seen};
ghost use Rattle.play.specs.Played.{settings};
ghost use Rattle.simnet.specs.Beginnings.{Begins, IsNetworkOf};
ghost use Rattle.world_text.specs.Worlds.{IsWorldOf, IsNoWorld};
ghost use Rattle.commands.specs.Scripts.{HoldsWorld, HoldsNoWorld};
ghost use Rattle.commands.specs.Storms.{HoldAsks, HoldsAsks, HoldsNoAsks, FailsToClose, IsNoStorm, IsRunFault, IsStormIn, PrintsIn, PrintsStorm, RefusesOne, storm_lines};

use crate::fault::Fault;
use crate::texts::{Texts, text_at};
use memory::Starved;
use play::settings;
use pool::PoolError;
use script::{Order, read_asks};
use simnet::Sim;
use std::alloc::Global;
use std::sync::Wait;
use std::thread::Threads;
use storm::Totals;
use world_text::{WorldFault, world_in};
use worlds::World;

/// What is printed of scripts that a worker each asks by, in a network of that world. The world is read, built and
/// checked before the first script is read, and all scripts are read before the first is asked.
pub fn storm<'a, R: Threads + Wait + AllocGlobal + Sync, T: Texts>(
    rt: &R,
    texts: &mut T,
    keep: u32,
    world: &'a str,
    scripts: &'a [String],
) -> Result<String, Fault<'a>>
    ensures ok { IfOk result (λ s. PrintsStorm (λ p. T.held texts.old (string_bytes p)) (T.held texts.old world.entry.now) scripts.entry.now (string_bytes s)) }
    ensures err { IfErr result (IsNoStorm (T.held texts.old) world.entry.now string_bytes scripts.entry.now) }
{
    let (world, judge) = worlds_at(rt.alloc(), texts, world)?;
    storm_in(rt, texts, keep, world, &judge, scripts)
}

// What is printed of the scripts at these paths in a network of that world.
#[tactic(auto, using(crate::proofs::Storms::memory_refuses))]
fn storm_in<'a, R: Threads + Wait + AllocGlobal + Sync, T: Texts>(
    rt: &R,
    texts: &mut T,
    keep: u32,
    world: World,
    judge: &World,
    paths: &'a [String],
) -> Result<String, Fault<'a>>
    requires { judge.now ≡ world }
    ensures ok { IfOk result (λ s. PrintsIn world (λ p. T.held texts.old (string_bytes p)) paths.entry.now (string_bytes s)) }
    ensures err { IfErr result (λ f. RefusesOne (T.held texts.old) string_bytes paths.entry.now f ⊎ FailsToClose (λ p. T.held texts.old (string_bytes p)) paths.entry.now f) }
{
    let alloc = rt.alloc();
    let scripts = asks_at_all(alloc, texts, paths)?;
    let totals = stormed(rt, alloc, world, judge, scripts, keep as usize)?;
    Ok(storm_text(alloc, totals)?)
}

// The world in the text at a path, twice: one to ask in, and one to judge the replies by.
fn worlds_at<'a, T: Texts>(
    alloc: Global,
    texts: &mut T,
    path: &'a str,
) -> Result<(World, World), Fault<'a>>
    ensures ok { IfOk result (λ w. HoldsWorld (T.held texts.old path.entry.now) w.0) }
    ensures same { IfOk result (λ w. w.1 ≡ w.0) }
    ensures err { IfErr result (HoldsNoWorld (T.held texts.old) path.entry.now) }
    ensures keeps { T.held texts.new ≡ T.held texts.old }
{
    let text = text_at(alloc, texts, path)?;
    match worlds_in(alloc, text.as_str()) {
        Ok(worlds) => Ok(worlds),
        Err(error) => Err(Fault::of_world(path, error)),
    }
}

// The world that a text says, twice.
#[tactic(auto, using(crate::proofs::Storms::one_world))]
fn worlds_in(alloc: Global, text: &str) -> Result<(World, World), WorldFault>
    ensures says { MatchResult result (λ w. IsWorldOf text.now w.0) (IsNoWorld text.now) }
    ensures same { IfOk result (λ w. w.1 ≡ w.0) }
{
    let world = world_in(alloc, text)?;
    let judge = world_in(alloc, text)?;
    Ok((world, judge))
}

// The orders in the texts at these paths.
#[tactic(auto, using(crate::proofs::Storms::memory_refuses))]
fn asks_at_all<'a, T: Texts>(
    alloc: Global,
    texts: &mut T,
    paths: &'a [String],
) -> Result<Vec<Vec<Order>>, Fault<'a>>
    ensures ok { IfOk result (λ v. HoldAsks (λ p. T.held texts.old (string_bytes p)) paths.entry.now (map (λ s. map order_seen s.items) v.items)) }
    ensures err { IfErr result (RefusesOne (T.held texts.old) string_bytes paths.entry.now) }
{
    let mut scripts = Vec::new(alloc);
    for path in paths {
        let orders = asks_at(alloc, texts, path.as_str())?;
        scripts.push(orders)?;
    }
    Ok(scripts)
}

// The orders in the text at a path.
fn asks_at<'a, T: Texts>(
    alloc: Global,
    texts: &mut T,
    path: &'a str,
) -> Result<Vec<Order>, Fault<'a>>
    ensures ok { IfOk result (λ v. HoldsAsks (T.held texts.old path.entry.now) (map order_seen v.items)) }
    ensures err { IfErr result (HoldsNoAsks (T.held texts.old) path.entry.now) }
    ensures keeps { T.held texts.new ≡ T.held texts.old }
{
    let text = text_at(alloc, texts, path)?;
    match read_asks(alloc, text.as_str()) {
        Ok(orders) => Ok(orders),
        Err(error) => Err(Fault::of_line(path, error)),
    }
}

// What the scripts come to in that world.
#[tactic(auto, using(crate::proofs::Storms::run_fault))]
fn stormed<'a, R: Threads + Wait + Sync>(
    rt: &R,
    alloc: Global,
    world: World,
    judge: &World,
    scripts: Vec<Vec<Order>>,
    keep: usize,
) -> Result<Totals, Fault<'a>>
    requires { judge.now ≡ world }
    ensures ok { IfOk result (IsStormIn world (map (λ s. map order_seen s.items) scripts.items)) }
    ensures err { IfErr result IsRunFault }
{
    // A command line names a script, and has an entry kept.
    if scripts.is_empty() || keep == 0 {
        return Err(Fault::Pool(PoolError::Forgot));
    }
    let start = network_of(alloc, world)?;
    match storm::storm(rt, alloc, start, judge, scripts, keep) {
        Ok(Some(totals)) => Ok(totals),
        // No script that was read has other lines than `at` and `ask`.
        Ok(None) => Err(Fault::Pool(PoolError::Stranger)),
        Err(error) => Err(Fault::of_pool(error)),
    }
}

// A network of that world before its first event.
fn network_of(alloc: Global, world: World) -> Result<Sim, Starved>
    ensures made { IfOk result (IsNetworkOf world settings) }
    ensures begins { IfOk result (λ s. Begins s) }
    ensures world { IfOk result (λ s. s.world ≡ world) }
{
    world.well_formed_law();
    match Sim::new(alloc, world, settings()) {
        Ok(network) => Ok(network),
        Err(_) => Err(Starved),
    }
}

// The lines of a storm.
fn storm_text(alloc: Global, totals: Totals) -> Result<String, Starved>
    ensures { IfOk result (λ s. string_bytes s ≡ storm_lines totals) }
{
    let replies = totals.replies;
    let right = totals.count.right;
    let mut text = String::new(alloc);
    write!(&mut text, "replies {replies}\nhistory ok\nright {right}\n")?;
    Ok(text)
}
