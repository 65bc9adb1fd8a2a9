//! Names of servers whose look-up failed.
ghost use Rattle.std.specs.Prelude.{◌≡◌, [], OnOk, OnErr};
ghost use Rattle.frames.specs.Frames.{has_failed, marked};

use dname::Name;
use memory::{Heap, Starved};
use std::alloc::{Allocator, Global};
use std::collections::BTreeMap;
use std::marker::Model;

/// Names whose look-up failed, each with the least nesting of a look-up that did. One of n is found in log n.
#[derive(Drop)]
pub struct Failed<A: Allocator = Global> {
    least: BTreeMap<Name<A>, u8, A>,
}

impl<A: Allocator> Model for Failed<A> {
    ghost use Rattle.frames.specs.Frames.{Failed as FailedSpec};

    ghost Value = { FailedSpec };

    ghost view = { λ f. f.least.entries };
}

impl<A: Heap> Failed<A> {
    /// No names; takes no memory.
    pub fn new(alloc: A) -> Failed<A>
        ensures { result ≡ [] }
    {
        Failed {
            least: BTreeMap::new(alloc),
        }
    }

    /// The look-up of this name failed at this nesting. Running out of memory changes nothing.
    pub fn mark(&mut self, name: &Name<A>, nesting: u8) -> Result<(), Starved>
        ensures ok { OnOk result (self.new ≡ marked self.old name.now nesting) }
        ensures err { OnErr result (self.new ≡ self.old) }
    {
        let least = match self.least.get(name) {
            Some(least) => nesting.min(*least),
            None => nesting,
        };
        let name = name.clone()?;
        self.least.insert(name, least)?;
        Ok(())
    }
}

impl<A: Allocator> Failed<A> {
    /// Whether the look-up of this name failed at this nesting or a lesser one.
    pub fn has(&self, name: &Name<A>, nesting: u8) -> bool
        ensures { result ≡ has_failed self.now name.now nesting }
    {
        match self.least.get(name) {
            Some(least) => *least <= nesting,
            None => false,
        }
    }
}
