//! The CNAME chain of a query at work (RFC 1034, section 3.6.2): aliases join at its end, and it is cut off at one from
//! the cache that has expired.
ghost use Rattle.std.specs.Prelude.{◌≡◌, [], ◌∷◌, ◌++◌, length, take, Some, None, OnOk, MatchOption, slice_get};
ghost use Rattle.resolution.specs.Jobs.{Taken as TakenSpec, AreFresh, IsDead};
ghost use Rattle.iterate.specs.Moves.{IsTakenFrom};

use lookup::Taken;
use memory::{Heap, Starved};
use std::alloc::{Allocator, Global};
use std::marker::Model;

/// A CNAME chain: the aliases that led to a name, in order. Contracts see their list.
#[derive(Drop)]
pub struct Chain<A: Allocator = Global> {
    links: Vec<Taken<A>, A>,
}

impl<A: Allocator> Model for Chain<A> {
    ghost use Rattle.std.specs.Prelude.{List};
    ghost use Rattle.resolution.specs.Jobs.{Taken as TakenSpec};

    ghost Value = { List TakenSpec };

    ghost view = { λ c. c.links.items };
}

impl<A: Heap> Chain<A> {
    /// No aliases; takes no memory.
    pub fn new(alloc: A) -> Chain<A>
        ensures { result ≡ [] }
    {
        Chain {
            links: Vec::new(alloc),
        }
    }

    // Adds an alias at the end.
    pub(crate) fn push(&mut self, link: Taken<A>) -> Result<(), Starved>
        ensures { OnOk result (self.new ≡ self.old ++ link ∷ []) }
    {
        self.links.push(link)?;
        Ok(())
    }
}

impl<A: Allocator> Chain<A> {
    /// How many aliases there are.
    pub fn len(&self) -> usize
        ensures { result ≡ length self.now }
    {
        self.links.len()
    }

    /// The aliases in order.
    pub fn as_slice(&self) -> &[Taken<A>]
        ensures { result.now ≡ self.now }
    {
        self.links.as_slice()
    }

    /// The aliases in order.
    pub fn into_links(self) -> Vec<Taken<A>, A>
        ensures { result.items ≡ self }
    {
        self.links
    }

    // Removes the first link that has expired at this moment, and all that follow it.
    pub(crate) fn take_from_dead(&mut self, now: u64) -> Option<Taken<A>>
        ensures { MatchOption result (AreFresh now self.old × (self.new ≡ self.old)) (λ d. IsTakenFrom now self.old d self.new) }
    {
        let place = first_dead(&self.links, now)?;
        let dead = self.links.remove(place);
        self.links.truncate(place);
        Some(dead)
    }
}

// The place of the first link that has expired at this moment.
fn first_dead<A: Allocator>(links: &[Taken<A>], now: u64) -> Option<usize>
    ensures { MatchOption result (AreFresh now links.now) (λ k. AreFresh now (take k links.now) × (d : TakenSpec) × (slice_get links.now k ≡ Some d) × IsDead now d) }
{
    for place in 0..links.len() {
        if links[place].is_dead(now) {
            return Some(place);
        }
    }
    None
}
