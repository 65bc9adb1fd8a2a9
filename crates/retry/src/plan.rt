//! The order of asking: by penalties, in two rounds.
ghost use Rattle.std.specs.Prelude.{◌≡◌, IfOk};
ghost use Rattle.retry.specs.Penalties.{penalty};
ghost use Rattle.retry.specs.Plans.{planned, IsByPenalty, upcoming, advanced, wait_of};

use crate::penalties::Penalties;
use memory::{Heap, Starved};
use rdata::Addr;
use std::alloc::{Allocator, Global};
use std::hash::BuildHasher;
use std::marker::Model;

/// The addresses of servers in the order of asking, for two rounds. Contracts see the order of one round
/// and how many were given.
#[derive(Drop)]
pub struct Plan<A: Allocator = Global> {
    order: Vec<Addr, A>,
    given: usize,
}

impl<A: Allocator> Model for Plan<A> {
    ghost use Rattle.std.specs.Prelude.{◌+◌, ◌≤◌, length};
    ghost use Rattle.retry.specs.Plans.{Plan as PlanSpec};

    ghost Value = { PlanSpec };

    ghost view = { λ p. record { order = p.order.items; given = p.given } };

    ghost invariant = { λ p. p.given ≤ length p.order.items + length p.order.items };
}

impl<A: Heap> Plan<A> {
    /// A plan of these addresses: the least penalty first, those of one penalty as they stand. Penalties
    /// that change later do not change it.
    pub fn new<S: BuildHasher + Drop, B: Heap>(
        alloc: A,
        addresses: &[Addr],
        penalties: &Penalties<S, B>,
    ) -> Result<Plan<A>, Starved>
        ensures value { IfOk result (λ p. p ≡ planned (λ a. penalty a penalties.now.entries) addresses.now) }
        ensures relation { IfOk result (λ p. IsByPenalty (λ a. penalty a penalties.now.entries) addresses.now p.order) }
    {
        let mut order = Vec::from_slice(alloc, addresses)?;
        penalties.well_formed_law();
        order.sort_by_key(|addr| penalties.of(*addr))?;
        Ok(Plan { order, given: 0 })
    }
}

impl<A: Allocator> Plan<A> {
    /// The address to ask next, which stays the next one; none after the second round.
    pub fn upcoming(&self) -> Option<Addr>
        ensures { result ≡ upcoming self.now }
    {
        let round = self.order.len();
        let place = if self.given < round {
            self.given
        } else {
            self.given - round
        };
        Some(*self.order.get(place)?)
    }

    /// The address to ask next; none after the second round.
    pub fn next(&mut self) -> Option<Addr>
        ensures value { result ≡ upcoming self.old }
        ensures plan { self.new ≡ advanced self.old }
    {
        let addr = self.upcoming()?;
        self.given += 1;
        Some(addr)
    }

    /// How long the address that was given last is waited for: 1,000 milliseconds in the first round,
    /// 2,000 in the second.
    pub fn wait_ms(&self) -> u32
        ensures { result ≡ wait_of self.now }
    {
        if self.given <= self.order.len() {
            1_000
        } else {
            2_000
        }
    }
}
