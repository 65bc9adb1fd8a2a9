//! A frame: the servers of a zone, which of them is next, and their addresses that were found.
ghost use Rattle.std.specs.Prelude.{◌≡◌, ◌<◌, true, nat_lt, length, Contains, IfOk, IfSome, OnOk, OnErr};
ghost use Rattle.retry.specs.Penalties.{penalty};
ghost use Rattle.retry.specs.Plans.{IsByPenalty, upcoming, advanced, wait_of};
ghost use Rattle.frames.specs.Frames.{opened, is_skipped, next_place, next_name, after_name, fresh_addresses, after_add};

use crate::failed::Failed;
use crate::taken::{first_names, fresh_addresses, taken_addresses, unknown_names};
use dname::Name;
use limits::MAX_NESTING;
use memory::{Heap, Starved};
use rdata::Addr;
use referral::{Cut, Names};
use retry::{Penalties, Plan};
use std::alloc::{Allocator, Global};
use std::hash::BuildHasher;
use std::marker::Model;

/// The servers of a zone as they are asked for one name. It stores every address that it uses, and the names of which
/// it has none, and counts the names that had their turn.
#[derive(Drop)]
pub struct Frame<A: Allocator = Global> {
    nesting: u8,
    zone: Name<A>,
    names: Names<A>,
    tried: usize,
    addresses: Vec<Addr, A>,
    plan: Plan<A>,
}

impl<A: Allocator> Model for Frame<A> {
    ghost use Rattle.std.specs.Prelude.{◌≤◌, length};
    ghost use Rattle.frames.specs.Frames.{Frame as FrameSpec};
    ghost use Rattle.frames.specs.Members.{AreAmong};

    ghost Value = { FrameSpec };

    ghost view = { λ f. record { nesting = f.nesting; zone = f.zone; names = f.names; tried = f.tried; addresses = f.addresses.items; plan = f.plan } };

    ghost invariant = { λ f. (f.tried ≤ length f.names) × AreAmong (f.plan).order f.addresses.items };
}

impl<A: Heap> Frame<A> {
    /// The frame of this cut: up to 16 addresses, each once, in the order of their penalties, and up to 16 names,
    /// without those that one of these addresses belongs to. `nesting` is 0 for the name in a client's question, and
    /// one more for each look-up of a server's address.
    pub fn start<S: BuildHasher + Drop, B: Heap>(
        alloc: A,
        cut: &Cut<A>,
        nesting: u8,
        penalties: &Penalties<S, B>,
    ) -> Result<Frame<A>, Starved>
        ensures value { IfOk result (λ f. f ≡ opened (λ a. penalty a penalties.now.entries) nesting cut.now) }
        ensures order { IfOk result (λ f. IsByPenalty (λ a. penalty a penalties.now.entries) f.addresses f.plan.order) }
    {
        let servers = cut.addresses.as_slice();
        let addresses = taken_addresses(alloc, servers)?;
        let first = first_names(cut.names.as_slice());
        let names = unknown_names(alloc, first, servers, &addresses)?;
        let plan = Plan::new(alloc, &addresses, penalties)?;
        let zone = cut.owner.clone()?;
        Ok(Frame {
            nesting,
            zone,
            names,
            tried: 0,
            addresses,
            plan,
        })
    }

    /// The next name whose address is to be looked up. Each name has its turn once, and is skipped where it
    /// is at or under the zone, where this frame's nesting is 3, and where its look-up failed at the nesting
    /// that it would have or at a lesser one. Running out of memory changes nothing.
    pub fn next_name(&mut self, failed: &Failed<A>) -> Result<Option<Name<A>>, Starved>
        ensures value { IfOk result (λ n. n ≡ next_name failed.now self.old) }
        ensures ok { OnOk result (self.new ≡ after_name failed.now self.old) }
        ensures err { OnErr result (self.new ≡ self.old) }
    {
        let place = self.next_place(failed);
        let names = self.names.as_slice();
        match names.get(place) {
            Some(name) => {
                let name = name.clone()?;
                self.tried = place + 1;
                Ok(Some(name))
            }
            None => {
                self.tried = names.len();
                Ok(None)
            }
        }
    }

    /// Adds addresses that were found for a name. Those that are not known yet, each once, are put at the end and make
    /// a new plan; true where there are such. Running out of memory changes nothing.
    pub fn add<S: BuildHasher + Drop, B: Heap>(
        &mut self,
        found: &[Addr],
        penalties: &Penalties<S, B>,
    ) -> Result<bool, Starved>
        ensures ok { OnOk result (self.new ≡ after_add (λ a. penalty a penalties.now.entries) self.old (fresh_addresses self.old found.now)) }
        ensures err { OnErr result (self.new ≡ self.old) }
        ensures fresh { IfOk result (λ b. b ≡ nat_lt 0 (length (fresh_addresses self.old found.now))) }
        ensures order { IfOk result (λ b. b ≡ true → IsByPenalty (λ a. penalty a penalties.now.entries) (fresh_addresses self.old found.now) (self.new).plan.order) }
    {
        let alloc = *self.addresses.allocator();
        let fresh = fresh_addresses(alloc, &self.addresses, found)?;
        if fresh.is_empty() {
            return Ok(false);
        }
        let plan = Plan::new(alloc, &fresh, penalties)?;
        self.addresses.extend_from_slice(&fresh)?;
        self.plan = plan;
        Ok(true)
    }
}

impl<A: Allocator> Frame<A> {
    /// How deep the look-up is nested: 0 for the name in a client's question.
    pub fn nesting(&self) -> u8
        ensures { result ≡ (self.now).nesting }
    {
        self.nesting
    }

    /// The zone whose servers are asked.
    pub fn zone(&self) -> &Name<A>
        ensures { result.now ≡ (self.now).zone }
    {
        &self.zone
    }

    /// The servers without glue: those of which no address was known at the start.
    pub fn unknown_names(&self) -> &[Name<A>]
        ensures { result.now ≡ (self.now).names }
    {
        self.names.as_slice()
    }

    /// All addresses that became known, each once.
    pub fn addresses(&self) -> &[Addr]
        ensures { result.now ≡ (self.now).addresses }
    {
        &self.addresses
    }

    /// The address to ask next, which stays the next one; none after the second round.
    pub fn upcoming(&self) -> Option<Addr>
        ensures { result ≡ upcoming (self.now).plan }
    {
        self.plan.upcoming()
    }

    /// The address to ask next, after which another one is next; none after the second round.
    pub fn next_address(&mut self) -> Option<Addr>
        ensures value { result ≡ upcoming (self.old).plan }
        ensures frame { self.new ≡ record self.old { plan = advanced (self.old).plan } }
        ensures member { IfSome result (Contains (self.old).addresses) }
    {
        self.plan.next()
    }

    /// How long a reply from the last address is waited for, in milliseconds: 1,000 in the first round, 2,000 in the
    /// second.
    pub fn wait_ms(&self) -> u32
        ensures { result ≡ wait_of (self.now).plan }
    {
        self.plan.wait_ms()
    }

    // Whether this name is not looked up.
    fn skips(&self, failed: &Failed<A>, name: &Name<A>) -> bool
        ensures { result ≡ is_skipped failed.now self.now name.now }
    {
        name.is_at_or_under(&self.zone)
            || MAX_NESTING <= self.nesting
            || failed.has(name, self.nesting + 1)
    }

    // The place of the name whose turn it is, or the number of names.
    fn next_place(&self, failed: &Failed<A>) -> usize
        ensures { result ≡ next_place failed.now self.now }
    {
        let names = self.names.as_slice();
        for place in self.tried..names.len() {
            if !self.skips(failed, &names[place]) {
                return place;
            }
        }
        names.len()
    }
}
