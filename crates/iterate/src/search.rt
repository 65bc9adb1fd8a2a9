//! Searches for servers: that for the query's name, and those for servers' addresses within it.
ghost use Rattle.std.specs.Prelude.{◌≡◌, ◌↔◌, ◌+◌, ◌<◌, [], ◌∷◌, None, IfOk, OnOk, IsTrue, IfSome, IfNone, MatchOption, Contains};
ghost use Rattle.rdata.specs.Types.{type_number};
ghost use Rattle.retry.specs.Plans.{upcoming};
ghost use Rattle.frames.specs.Frames.{next_name, after_add, fresh_addresses};
ghost use Rattle.resolution.specs.Jobs.{level_of, search_at, with_frame, given, wait_in};
ghost use Rattle.resolution.specs.Rules.{turned};
ghost use Rattle.iterate.specs.Inputs.{IsSoughtBy};

use dname::Name;
use frames::{Failed, Frame};
use lookup::Stores;
use memory::{Heap, Starved};
use rdata::{Addr, RType};
use std::alloc::{Allocator, Global};
use std::hash::BuildHasher;
use std::marker::Model;

/// A question, and the frame whose servers are asked for it.
pub struct Search<A: Allocator = Global> {
    name: Name<A>,
    kind: RType,
    frame: Frame<A>,
}

// By hand, so that each drop of a search calls this, and does not write out all that it holds.
impl<A: Allocator> Drop for Search<A> {
    fn drop(self) {
        let Search {
            name,
            kind: _,
            frame,
        } = self;
        drop(name);
        drop(frame);
    }
}

impl<A: Allocator> Model for Search<A> {
    ghost use Rattle.rdata.specs.Types.{type_number};
    ghost use Rattle.resolution.specs.Jobs.{Search as SearchSpec};

    ghost Value = { SearchSpec };

    ghost view = { λ s. record { name = s.name; kind = type_number s.kind; frame = s.frame } };
}

impl<A: Allocator> Search<A> {
    // The search for this name and type at these servers.
    pub(crate) fn new(name: Name<A>, kind: RType, frame: Frame<A>) -> Search<A>
        ensures { result ≡ search_at name (type_number kind) frame }
    {
        Search { name, kind, frame }
    }

    // The name that its servers are asked for.
    pub(crate) fn name(&self) -> &Name<A>
        ensures { result.now ≡ self.now.name }
    {
        &self.name
    }

    // The type that they are asked for.
    pub(crate) fn kind(&self) -> RType
        ensures { type_number result ≡ self.now.kind }
    {
        self.kind
    }

    // The address to ask next, which stays the next one.
    pub(crate) fn upcoming(&self) -> Option<Addr>
        ensures { result ≡ upcoming (self.now).frame.plan }
    {
        self.frame.upcoming()
    }

    // Its servers.
    pub(crate) fn frame(&self) -> &Frame<A>
        ensures { result.now ≡ self.now.frame }
    {
        &self.frame
    }

    // The name, when the search is over.
    pub(crate) fn into_name(self) -> Name<A>
        ensures { result ≡ self.name }
    {
        let Search {
            name,
            kind: _,
            frame,
        } = self;
        drop(frame);
        name
    }

    // Goes on at these servers.
    pub(crate) fn reopen(&mut self, frame: Frame<A>)
        ensures { self.new ≡ with_frame self.old frame }
    {
        self.frame = frame;
    }

    // The next address of the plan, which is one of the frame's.
    pub(crate) fn next_address(&mut self) -> Option<Addr>
        ensures value { result ≡ upcoming (self.old).frame.plan }
        ensures given { self.new ≡ given self.old }
        ensures member { IfSome result (Contains (self.old).frame.addresses) }
        ensures none { IfNone result (self.new ≡ self.old) }
    {
        self.frame.next_address()
    }
}

impl<A: Heap> Search<A> {
    // The name of a server that is next.
    pub(crate) fn next_name(&mut self, failed: &Failed<A>) -> Result<Option<Name<A>>, Starved>
        ensures value { IfOk result (λ n. n ≡ next_name failed.now (self.old).frame) }
        ensures ok { OnOk result (self.new ≡ turned failed.now self.old) }
    {
        Ok(self.frame.next_name(failed)?)
    }

    // Adds addresses that were found for a server's name: those that are not known yet are asked next.
    pub(crate) fn add<S: BuildHasher + Drop>(
        &mut self,
        found: &[Addr],
        stores: &Stores<S, A>,
    ) -> Result<(), Starved>
        ensures { OnOk result (self.new ≡ with_frame self.old (after_add (level_of stores.now) (self.old).frame (fresh_addresses (self.old).frame found.now))) }
    {
        stores.add(&mut self.frame, found)?;
        Ok(())
    }
}

/// Searches, the innermost first. Contracts see their list.
#[derive(Drop)]
pub struct Searches<A: Allocator = Global> {
    searches: Vec<Search<A>, A>,
}

impl<A: Allocator> Model for Searches<A> {
    ghost use Rattle.std.specs.Prelude.{List};
    ghost use Rattle.resolution.specs.Jobs.{Search as SearchSpec};

    ghost Value = { List SearchSpec };

    ghost view = { λ s. s.searches.items };
}

impl<A: Heap> Searches<A> {
    // No searches; takes no memory.
    pub(crate) fn new(alloc: A) -> Searches<A>
        ensures { result ≡ [] }
    {
        Searches {
            searches: Vec::new(alloc),
        }
    }

    // Adds a search within the others.
    pub(crate) fn push(&mut self, search: Search<A>) -> Result<(), Starved>
        ensures { OnOk result (self.new ≡ search ∷ self.old) }
    {
        self.searches.insert(0, search)?;
        Ok(())
    }
}

impl<A: Allocator> Searches<A> {
    // Takes out the innermost search.
    pub(crate) fn pop(&mut self) -> Option<Search<A>>
        ensures { MatchOption result ((self.old ≡ []) × (self.new ≡ self.old)) (λ s. self.old ≡ s ∷ self.new) }
    {
        if self.searches.is_empty() {
            return None;
        }
        Some(self.searches.remove(0))
    }

    // Drops all searches.
    pub(crate) fn clear(&mut self)
        ensures { self.new ≡ [] }
    {
        self.searches.clear();
    }

    // Whether the innermost search is for this name and type; so it is too where there is no search.
    pub(crate) fn seek(&self, name: &Name<A>, kind: RType) -> bool
        ensures { IsTrue result ↔ IsSoughtBy self.now name.now (type_number kind) }
    {
        match self.searches.first() {
            Some(search) => search.kind.number() == kind.number() && search.name == *name,
            None => true,
        }
    }

    // How long a reply of the innermost search's server is waited for, in milliseconds.
    pub(crate) fn wait_ms(&self) -> u32
        ensures { result ≡ wait_in self.now }
    {
        match self.searches.first() {
            Some(search) => search.frame.wait_ms(),
            None => 1_000,
        }
    }
}
