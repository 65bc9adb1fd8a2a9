//! What the resolver has from its start and never changes: `Home`, the local zones as one catalog, and the cut of the
//! root, which is made of the hints once.
ghost use Rattle.std.specs.Prelude.{◌≡◌, IfOk};
ghost use Rattle.dname.specs.Labels.{root};
ghost use Rattle.resolution.specs.Jobs.{root_cut};
ghost use Rattle.lookup.specs.Views.{home_at};

use authority::Catalog;
use dname::Name;
use memory::{Heap, Starved};
use rdata::Addr;
use referral::Cut;
use std::alloc::{Allocator, Global};
use std::marker::Model;

/// The local zones, and the root's cut, made of its hints (RFC 1034, section 5.3.2, SBELT). The cut is made once and
/// then lent to each query.
#[derive(Drop)]
pub struct Home<A: Allocator = Global> {
    catalog: Catalog<A>,
    root: Cut<A>,
}

impl<A: Allocator> Model for Home<A> {
    ghost use Rattle.std.specs.Prelude.{◌≡◌};
    ghost use Rattle.resolution.specs.Jobs.{Home as HomeSpec, root_cut};
    ghost use Rattle.lookup.specs.Views.{home_of};

    ghost Value = { HomeSpec };

    ghost view = { λ h. home_of h.catalog h.root };

    ghost invariant = { λ h. h.root ≡ root_cut (home_of h.catalog h.root) };
}

impl<A: Heap> Home<A> {
    /// A home with these zones, and with these addresses of servers of the root.
    pub fn new(alloc: A, catalog: Catalog<A>, hints: &[Addr]) -> Result<Home<A>, Starved>
        ensures { IfOk result (λ h. h ≡ home_at catalog hints.now) }
    {
        let root = Cut::of_hints(alloc, hints)?;
        Ok(Home { catalog, root })
    }
}

impl<A: Allocator> Home<A> {
    /// The local zones.
    pub fn catalog(&self) -> &Catalog<A>
        ensures { result.now ≡ self.now.zones }
    {
        &self.catalog
    }

    // The root's name.
    pub(crate) fn root_name(&self) -> &Name<A>
        ensures { result.now ≡ root }
    {
        &self.root.owner
    }

    /// The root's cut with the hints, which a query starts from where nothing better is known.
    pub fn root(&self) -> &Cut<A>
        ensures { result.now ≡ root_cut self.now }
    {
        &self.root
    }
}
