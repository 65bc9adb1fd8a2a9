//! Which search an ask belongs to, and the zone whose server it asks, as far as the asks and replies before show it.
use classify::{Class, Referral};
use dname::Name;
use memory::{Heap, Starved};
use rdata::RType;
use referral::Cut;
use std::alloc::Allocator;

/// What is sought, and where.
#[derive(Drop)]
pub(crate) struct Search<A: Allocator> {
    /// The name that servers are asked for.
    pub name: Name<A>,
    /// The type that they are asked for.
    pub kind: RType,
    // The place of its zone's cut among those that are known.
    cut: usize,
}

/// The searches that are open, the query's own first and the innermost last.
#[derive(Drop)]
pub(crate) struct Searches<A: Allocator> {
    open: Vec<Search<A>, A>,
    cuts: Vec<Cut<A>, A>,
}

impl<A: Heap> Searches<A> {
    /// None, and of all zones the root alone is known.
    pub fn new(alloc: A) -> Result<Searches<A>, Starved> {
        let mut cuts = Vec::new(alloc);
        cuts.push(Cut::of_hints(alloc, &[])?)?;
        Ok(Searches {
            open: Vec::new(alloc),
            cuts,
        })
    }

    /// Servers are asked for this name and type, in a search that is open or begins now: whether it begins in another.
    pub fn ask(&mut self, alloc: A, name: &Name<A>, kind: RType) -> Result<bool, Starved> {
        if let Some(place) = self.place_of(name, kind) {
            self.open.truncate(place.saturating_add(1));
            return Ok(false);
        }
        let outer = self.outer_of(name);
        self.open.truncate(outer);
        let search = Search {
            name: name.copied(alloc)?,
            kind,
            cut: self.cut_over(name),
        };
        self.open.push(search)?;
        Ok(0 < outer)
    }

    /// What a reply to the innermost search says is known from now on.
    pub fn learn(&mut self, class: Class<A>) -> Result<(), Starved> {
        match class {
            Class::Answer(link) => {
                drop(link);
                self.open.pop();
                Ok(())
            }
            Class::Referral(referral) => self.descend(referral),
            Class::Truncated | Class::Failed(_) => Ok(()),
        }
    }

    // The innermost search goes on at the servers of a zone beneath.
    fn descend(&mut self, referral: Referral<A>) -> Result<(), Starved> {
        let place = self.cuts.len();
        let alloc = *self.cuts.allocator();
        self.cuts.push(referral.into_cut(alloc)?)?;
        if let Some(search) = self.open.last_mut() {
            search.cut = place;
        }
        Ok(())
    }
}

impl<A: Allocator> Searches<A> {
    /// The innermost.
    pub fn innermost(&self) -> Option<&Search<A>> {
        self.open.last()
    }

    /// How many searches wait for the innermost.
    pub fn depth(&self) -> usize {
        self.open.len().saturating_sub(1)
    }

    /// The zone whose server the innermost asks.
    pub fn zone(&self) -> Option<&Name<A>> {
        let search = self.open.last()?;
        let cut = self.cuts.get(search.cut)?;
        Some(&cut.owner)
    }

    // The place of the search for this name and type.
    fn place_of(&self, name: &Name<A>, kind: RType) -> Option<usize> {
        self.open
            .iter()
            .position(|search| search.kind == kind && search.name == *name)
    }

    // How many searches are open where one begins for this name: up to the innermost that asks in a zone of which it is a
    // server, or all.
    fn outer_of(&self, name: &Name<A>) -> usize {
        for place in (0..self.open.len()).rev() {
            if self.is_server_at(place, name) {
                return place + 1;
            }
        }
        self.open.len()
    }

    fn is_server_at(&self, place: usize, name: &Name<A>) -> bool {
        let Some(search) = self.open.get(place) else {
            return false;
        };
        match self.cuts.get(search.cut) {
            Some(cut) => is_server(cut, name),
            None => false,
        }
    }

    // The place of the deepest zone that has the name.
    fn cut_over(&self, name: &Name<A>) -> usize {
        let mut best = 0;
        let mut most = 0;
        for place in 0..self.cuts.len() {
            let zone = &self.cuts[place].owner;
            if name.is_at_or_under(zone) && most <= zone.labels() {
                best = place;
                most = zone.labels();
            }
        }
        best
    }
}

// Whether a name is that of one of the servers of a cut.
fn is_server<A: Allocator>(cut: &Cut<A>, name: &Name<A>) -> bool {
    cut.names.as_slice().iter().any(|server| *server == *name)
}
