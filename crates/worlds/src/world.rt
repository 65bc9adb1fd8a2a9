//! A world and its rules: zones, servers, local zones, hints.
ghost use Rattle.std.specs.Prelude.{◌≡◌, IfOk, MatchResult, filter};
ghost use Rattle.dname.specs.Labels.{root};
ghost use Rattle.rdata.specs.Types.{type_number};
ghost use Rattle.zone.specs.Views.{link_view};
ghost use Rattle.world_truth.specs.Frames.{AreHeld};
ghost use Rattle.world_truth.specs.Worlds.{IsWorld, HaveOwnOrigins};
ghost use Rattle.world_truth.specs.Truths.{IsTrueLink};
ghost use Rattle.worlds.specs.Kept.{addresses, world_with};
ghost use Rattle.worlds.specs.Refusals.{IsWorldRefused};
ghost use Rattle.worlds.specs.Rules.{has_name};

use crate::fault::WorldError;
use crate::rules::{has_loose_cuts, has_name, has_origin, has_undelegated};
use crate::servers::{has_bad_hint, has_idle_host, has_lame_cuts, lacks_start};
use authority::{Catalog, CatalogError, Local};
use dname::Name;
use memory::{Heap, Starved};
use rdata::{Addr, RType};
use std::alloc::{Allocator, Global};
use std::marker::Model;
use zone::{Link, Zone};

/// A server: its address, and the origins of the zones that it serves. A world may have several of one
/// address, which then serve together.
#[derive(Drop)]
pub struct Host<A: Allocator = Global> {
    /// The IPv4 address that it is asked at.
    pub address: Addr,
    /// The origins of the zones that it serves. `World::check` refuses one that no zone has.
    pub origins: Vec<Name<A>, A>,
}

impl<A: Allocator> Model for Host<A> {
    ghost use Rattle.world_truth.specs.Worlds.{Host};
    ghost use Rattle.worlds.specs.Kept.{host_with};

    ghost Value = { Host };

    ghost view = { λ h. host_with h.address.0 h.origins.items };
}

/// A well formed world (RFC 1034, sections 4.2 and 5.3.2): it keeps all rules of `WorldError`. Contracts
/// see its zones, servers, local names and hints.
pub struct World<A: Allocator = Global> {
    catalog: Catalog<A>,
    hosts: Vec<Host<A>, A>,
    hints: Vec<Addr, A>,
    locals: Vec<Name<A>, A>,
}

// By hand, so that whatever drops a world calls this, and does not spell out all that it holds.
impl<A: Allocator> Drop for World<A> {
    fn drop(self) {
        let World {
            catalog,
            hosts,
            hints,
            locals,
        } = self;
        drop(catalog);
        drop(hosts);
        drop(hints);
        drop(locals);
    }
}

impl<A: Allocator> Model for World<A> {
    ghost use Rattle.world_truth.specs.Worlds.{World, IsWorld};
    ghost use Rattle.worlds.specs.Kept.{world_with};

    ghost Value = { World };

    ghost view = { λ w. world_with w.catalog w.hosts.items w.hints.items w.locals.items };

    ghost invariant = { λ w. IsWorld (world_with w.catalog w.hosts.items w.hints.items w.locals.items) };
}

// The rules after that of different origins, in their order.
fn check_rules<A: Heap>(
    catalog: &Catalog<A>,
    hosts: &[Host<A>],
    hints: &[Addr],
    locals: &[Name<A>],
    top: &Name<A>,
) -> Result<(), WorldError>
    requires { top.now ≡ root }
    ensures { MatchResult result (λ _. IsWorld (world_with catalog.now hosts.now hints.now locals.now)) (λ e. IsWorldRefused (world_with catalog.now hosts.now hints.now locals.now) e) }
{
    let zones = catalog.zones();
    if !has_origin(zones, top) {
        return Err(WorldError::NoRoot);
    }
    if has_loose_cuts(zones, zones) {
        return Err(WorldError::LooseCut);
    }
    if has_undelegated(zones, zones, locals, top) {
        return Err(WorldError::Undelegated);
    }
    if has_idle_host(hosts, zones) {
        return Err(WorldError::Lame);
    }
    if has_lame_cuts(catalog, zones, hosts)? {
        return Err(WorldError::Lame);
    }
    if has_bad_hint(hints, hosts, top) {
        return Err(WorldError::NoStart);
    }
    if lacks_start(hints, locals, top) {
        return Err(WorldError::NoStart);
    }
    Ok(())
}

impl<A: Heap> World<A> {
    /// The world of these zones, servers, hints and local names. Refused where it breaks a rule, by the first
    /// in the order 7, 1, 2, 3, 4, 5, or where a growth is refused.
    pub fn check(
        zones: Vec<Zone<A>, A>,
        hosts: Vec<Host<A>, A>,
        hints: Vec<Addr, A>,
        locals: Vec<Name<A>, A>,
    ) -> Result<World<A>, WorldError>
        ensures { MatchResult result (λ w. (w ≡ world_with zones.items hosts.items hints.items locals.items) × IsWorld (world_with zones.items hosts.items hints.items locals.items)) (λ e. IsWorldRefused (world_with zones.items hosts.items hints.items locals.items) e) }
    {
        let top = Name::root(*zones.allocator())?;
        let catalog = match Catalog::new(zones) {
            Ok(catalog) => catalog,
            Err(CatalogError::Twins) => return Err(WorldError::Twins),
            Err(CatalogError::Memory) => return Err(WorldError::Memory),
        };
        check_rules(&catalog, &hosts, &hints, &locals, &top)?;
        Ok(World {
            catalog,
            hosts,
            hints,
            locals,
        })
    }
}

// Those of the zones whose origins are local.
fn held_zones<A: Heap>(
    alloc: A,
    zones: &[Zone<A>],
    locals: &[Name<A>],
) -> Result<Vec<Zone<A>, A>, Starved>
    ensures { IfOk result (λ v. v.items ≡ filter (λ z. has_name z.origin locals.now) zones.now) }
{
    let mut held = Vec::new(alloc);
    for zone in zones {
        if !has_name(locals, zone.origin()) {
            continue;
        }
        held.push(zone.clone()?)?;
    }
    Ok(held)
}

impl<A: Allocator> World<A> {
    /// A law: each world is well formed. Costs nothing.
    pub fn well_formed_law(&self)
        ensures { IsWorld self.now }
    {
        let _ = &self.hosts;
    }

    /// Its hints: addresses of servers of the root.
    pub fn hints(&self) -> &[Addr]
        ensures { addresses result.now ≡ self.now.hints }
    {
        &self.hints
    }

    pub(crate) fn catalog(&self) -> &Catalog<A>
        ensures { result.now ≡ self.now.zones }
    {
        &self.catalog
    }

    fn locals(&self) -> &[Name<A>]
        ensures { result.now ≡ self.now.locals }
    {
        &self.locals
    }

    pub(crate) fn hosts(&self) -> &[Host<A>]
        ensures { result.now ≡ self.now.hosts }
    {
        &self.hosts
    }
}

impl<A: Heap> World<A> {
    /// The zones that the resolver itself holds: those whose origins are local. No two have one origin.
    pub fn held(&self) -> Result<Vec<Zone<A>, A>, Starved>
        ensures are { IfOk result (λ v. AreHeld self.now v.items) }
        ensures parted { IfOk result (λ v. HaveOwnOrigins v.items) }
    {
        self.well_formed_law();
        let zones = self.catalog().zones();
        Ok(held_zones(*self.hosts.allocator(), zones, self.locals())?)
    }

    /// The world's link of a question: what the zone in charge of the name says of it (RFC 1034, section
    /// 4.3.2).
    pub fn link(&self, name: &Name<A>, kind: RType) -> Result<Link<A>, Starved>
        ensures { IfOk result (λ l. IsTrueLink self.now name.now (type_number kind) (link_view l)) }
    {
        self.well_formed_law();
        name.well_formed_law();
        match self.catalog.look(name.allocator(), name, kind)? {
            Local::Link(link) => Ok(link),
            Local::Cut(_, _, _) | Local::NotHere => unreachable!(),
        }
    }
}
