//! Scripts in worlds: whatever is asked, lost, repeated, truncated or late, each reply that counts is right.

use crate::simnet_tests::play_tests::dice::Dice;
use crate::simnet_tests::play_tests::made::Tree;
use crate::simnet_tests::texts::{all_right, script, world};
use play::play;
use std::alloc::Global;
use std::test::Fail;

// How many replies counted in a play of these texts.
fn counted(alloc: Global, world_text: &str, script_text: &str) -> Result<u32, Fail> {
    let world = world(alloc, world_text).ok_or("no world")?;
    let orders = script(alloc, script_text).ok_or("no script")?;
    let text = play(alloc, world, orders)?;
    all_right(text.as_str())
        .ok_or("a reply is wrong")
        .map_err(Fail::from)
}

// The same of a world and a script made from a seed.
fn made(alloc: Global, seed: u64) -> Result<u32, Fail> {
    let mut dice = Dice::new(seed);
    let tree = Tree::new(&mut dice);
    let mut world = String::new(alloc);
    tree.put_world(&mut world, &mut dice)?;
    let mut script = String::new(alloc);
    tree.put_script(&mut script, &mut dice, 60)?;
    counted(alloc, world.as_str(), script.as_str())
}

#[test]
fn replies_in_made_worlds_are_right(rt: HostRuntime) -> Result<(), Fail> {
    let mut replies = 0u32;
    for seed in 0..200 {
        replies = replies.saturating_add(made(rt.alloc(), seed)?);
    }
    assert!(rt; replies > 1_000, "only {replies} replies");
    Ok(())
}
