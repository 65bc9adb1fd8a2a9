//! What texts say, and what a play's last line says.

use memory::Heap;
use script::{Order, read_script};
use world_text::read_world;
use worlds::World;

/// The world of a text.
pub fn world<A: Heap>(alloc: A, text: &str) -> Option<World<A>> {
    read_world(alloc, text).ok()?.build(alloc).ok()
}

/// The orders of a script.
pub fn script<A: Heap>(alloc: A, text: &str) -> Option<Vec<Order<A>, A>> {
    read_script(alloc, text).ok()
}

/// Of a play's last line, `right N of N`: how many replies counted, if each of them was right.
pub fn all_right(text: &str) -> Option<u32> {
    let (_, line) = text.trim_end().rsplit_once("right ")?;
    let (right, replies) = line.split_once(" of ")?;
    if right == replies {
        replies.parse::<u32>().ok()
    } else {
        None
    }
}
