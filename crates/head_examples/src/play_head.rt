//! The example in the head of `play`.
use memory::Heap;
use play::play;
use script::read_script;
use std::test::Fail;
use worlds::World;

pub fn example<H: Heap>(alloc: H, world: World<H>) -> Result<(), Fail> {
    let orders = read_script(alloc, "at 0\nask www.lab.example. A\nrun\n")?;
    let text = play(alloc, world, orders)?;
    Ok(())
}
