//! `play`: a script in a network in memory.
ghost use Rattle.std.specs.Prelude.{◌≡◌, IfOk, IfErr, map, string_bytes};
ghost use Rattle.script.specs.Orders.{order_seen};
ghost use Rattle.commands.specs.Scripts.{HoldsWorld, HoldsNoWorld, HoldsOrders, HoldsNoOrders, PrintsScript, IsNoScript};

use crate::fault::Fault;
use crate::texts::{Texts, text_at};
use memory::Heap;
use script::{Order, read_script};
use world_text::world_in;
use worlds::World;

/// What is printed of a script in a world. The world is read, built and checked before the script is read.
pub fn play<'a, A: Heap, T: Texts>(
    alloc: A,
    texts: &mut T,
    world: &'a str,
    script: &'a str,
) -> Result<String<A>, Fault<'a>>
    ensures ok { IfOk result (λ s. PrintsScript (T.held texts.old world.entry.now) (T.held texts.old script.entry.now) (string_bytes s)) }
    ensures err { IfErr result (IsNoScript (T.held texts.old) world.entry.now script.entry.now) }
{
    let world = world_at(alloc, texts, world)?;
    let orders = orders_at(alloc, texts, script)?;
    Ok(play::play(alloc, world, orders)?)
}

// The world in the text at a path.
fn world_at<'a, A: Heap, T: Texts>(
    alloc: A,
    texts: &mut T,
    path: &'a str,
) -> Result<World<A>, Fault<'a>>
    ensures ok { IfOk result (HoldsWorld (T.held texts.old path.entry.now)) }
    ensures err { IfErr result (HoldsNoWorld (T.held texts.old) path.entry.now) }
    ensures keeps { T.held texts.new ≡ T.held texts.old }
{
    let text = text_at(alloc, texts, path)?;
    match world_in(alloc, text.as_str()) {
        Ok(world) => Ok(world),
        Err(error) => Err(Fault::of_world(path, error)),
    }
}

// The orders in the text at a path.
fn orders_at<'a, A: Heap, T: Texts>(
    alloc: A,
    texts: &mut T,
    path: &'a str,
) -> Result<Vec<Order<A>, A>, Fault<'a>>
    ensures ok { IfOk result (λ v. HoldsOrders (T.held texts.old path.entry.now) (map order_seen v.items)) }
    ensures err { IfErr result (HoldsNoOrders (T.held texts.old) path.entry.now) }
{
    let text = text_at(alloc, texts, path)?;
    match read_script(alloc, text.as_str()) {
        Ok(orders) => Ok(orders),
        Err(error) => Err(Fault::of_line(path, error)),
    }
}
