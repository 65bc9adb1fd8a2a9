//! The cells of the counters: many threads raise them, and none waits.
use crate::counter::{COUNTERS, Counter};
use crate::outcome::Counting;
use memory::{Heap, Starved};
use std::alloc::{Allocator, Global};
use std::sync::atomic::{AtomicU64, Ordering};

/// A cell for each counter, which goes round at 2 ^ 64.
#[derive(Drop)]
pub struct Cells<A: Allocator = Global> {
    cells: Vec<AtomicU64, A>,
}

impl<A: Heap> Cells<A> {
    /// With nothing counted. It takes all memory that it ever wants.
    pub fn new(alloc: A) -> Result<Cells<A>, Starved> {
        let mut cells = Vec::with_capacity(alloc, COUNTERS)?;
        for _ in 0..COUNTERS {
            cells.push(AtomicU64::new(0))?;
        }
        Ok(Cells { cells })
    }
}

impl<A: Allocator> Cells<A> {
    /// What they hold, each for itself: others may be raised meanwhile.
    pub fn values(&self) -> [u64; COUNTERS] {
        let mut values = [0; COUNTERS];
        for (value, cell) in values.iter_mut().zip(self.cells.iter()) {
            *value = cell.load(Ordering::Relaxed);
        }
        values
    }

    /// What one counter holds.
    pub fn value(&self, counter: Counter) -> u64 {
        match self.cells.get(counter.place()) {
            Some(cell) => cell.load(Ordering::Relaxed),
            None => 0,
        }
    }

    /// What raises them.
    pub fn adder(&self) -> Adder<'_, A> {
        Adder { cells: self }
    }
}

/// Raises the cells of a server.
#[derive(Drop)]
pub struct Adder<'a, A: Allocator = Global> {
    cells: &'a Cells<A>,
}

impl<A: Allocator> Counting for Adder<'_, A> {
    fn add(&mut self, counter: Counter, amount: u64) {
        if let Some(cell) = self.cells.cells.get(counter.place()) {
            cell.fetch_add(amount, Ordering::Relaxed);
        }
    }
}
