//! The look-up without a query to a server: local zones, cache, and else the cut where the search starts.
ghost use Rattle.std.specs.Prelude.{◌≡◌, ◌↔◌, IsTrue, IfOk, OnErr};
ghost use Rattle.rdata.specs.Types.{type_number};
ghost use Rattle.zone.specs.Zones.{IsBeneath};
ghost use Rattle.dname.specs.Labels.{Name as NameSpec, root};
ghost use Rattle.zone.specs.Look.{Cut as CutSpec, NotHere};
ghost use Rattle.resolution.specs.Jobs.{Home as HomeSpec};
ghost use Rattle.resolution.specs.Rules.{Begins};
ghost use Rattle.resolution.specs.Stops.{LooksInPart};
ghost use Rattle.lookup.specs.Found.{IsFound, IsKept, IsDeeper, IsBegun, IsStart, IsBeyond};
ghost use Rattle.cache.specs.Cached.{asked_to};
ghost use Rattle.lookup.specs.declared.lookup.Kept.TheVariants.{Best};
ghost use Rattle.lookup.specs.Uses.{IsAskedInPart, IsBestInPart};

use crate::home::Home;
use crate::made::cut_of;
use crate::stores::Stores;
use crate::taken::Taken;
use authority::Local;
use dname::Name;
use memory::{Heap, Starved};
use rdata::{RType, Record, Records};
use referral::Cut;
use std::alloc::{Allocator, Global};
use std::hash::BuildHasher;

/// The result of a look-up without a query to a server.
#[derive(Drop)]
pub enum Found<A: Allocator = Global> {
    /// A link.
    Known(Taken<A>),
    /// No link: servers are sought at this cut.
    Start(Cut<A>),
}

// The result of a look-up in the cache and the delegations.
#[derive(Drop)]
enum Kept<A: Allocator = Global> {
    Hit(Taken<A>),
    // No link; the deepest cached cut.
    Best(Option<Cut<A>>),
}

// Whether the name is strictly under that other one.
fn is_beneath<A: Allocator>(name: &Name<A>, other: &Name<A>) -> bool
    ensures { IsTrue result ↔ IsBeneath name.now other.now }
{
    name.is_at_or_under(other) && *name != *other
}

// A link of the cache, in which an NXDOMAIN of a name above counts up to `top`, or else the deepest cut.
fn find_kept<S: BuildHasher + Drop, A: Heap>(
    name: &Name<A>,
    kind: RType,
    top: &Name<A>,
    stores: &mut Stores<S, A>,
    now: u64,
) -> Result<Kept<A>, Starved>
    ensures kept { IfOk result (λ k. IsKept top.now now name.now (type_number kind) stores.old k stores.new) }
    ensures part { OnErr result (IsAskedInPart (asked_to top.now name.now (type_number kind)) now stores.old stores.new) }
{
    name.well_formed_law();
    match stores.look(name, kind, top, now)? {
        Some(hit) => Ok(Kept::Hit(Taken::cached(name, hit)?)),
        None => Ok(Kept::Best(stores.best(name, now)?)),
    }
}

// The cached cut, if it is beneath the one that the local zones name.
fn deeper<A: Allocator>(best: Option<Cut<A>>, at: &Name<A>) -> Option<Cut<A>>
    ensures { IsDeeper at.now best result }
{
    match best {
        Some(cut) => {
            if is_beneath(&cut.owner, at) {
                Some(cut)
            } else {
                drop(cut);
                None
            }
        }
        None => None,
    }
}

// The cut where servers are sought, under the one that the local zones name.
fn start_under<A: Heap>(
    alloc: A,
    at: Name<A>,
    servers: &[Record<A>],
    glue: &[Record<A>],
    best: Option<Cut<A>>,
) -> Result<Cut<A>, Starved>
    ensures { (home : HomeSpec) (n : NameSpec) → IfOk result (Begins home n (CutSpec at servers.now glue.now) best) }
{
    match deeper(best, &at) {
        Some(cut) => Ok(cut),
        None => Ok(cut_of(alloc, at, servers, glue)?),
    }
}

fn found_under<A: Heap>(
    alloc: A,
    at: Name<A>,
    servers: Records<A>,
    glue: Records<A>,
    kept: Kept<A>,
) -> Result<Found<A>, Starved>
    ensures { (home : HomeSpec) (n : NameSpec) → IfOk result (IsBegun home n (CutSpec at servers glue) kept) }
{
    match kept {
        Kept::Hit(link) => Ok(Found::Known(link)),
        Kept::Best(best) => Ok(Found::Start(start_under(
            alloc,
            at,
            servers.as_slice(),
            glue.as_slice(),
            best,
        )?)),
    }
}

// The cut where servers are sought, where no local zone is over the name: the deepest cached one, or the root's.
fn found_beyond<A: Heap>(home: &Home<A>, best: Option<Cut<A>>) -> Result<Found<A>, Starved>
    ensures { (n : NameSpec) → IfOk result (IsBegun home.now n NotHere (Best best)) }
{
    match best {
        Some(cut) => Ok(Found::Start(cut)),
        None => Ok(Found::Start(home.root().clone()?)),
    }
}

// The link of the cache, where no local zone is over the name, or else the cut where servers are sought. It is made as
// the result at once: a link is long, and moved where it is handed on.
fn find_beyond<S: BuildHasher + Drop, A: Heap>(
    home: &Home<A>,
    name: &Name<A>,
    kind: RType,
    stores: &mut Stores<S, A>,
    now: u64,
) -> Result<Found<A>, Starved>
    ensures beyond { IfOk result (λ f. IsBeyond home.now now name.now (type_number kind) stores.old f stores.new) }
    ensures part { OnErr result (IsAskedInPart (asked_to root name.now (type_number kind)) now stores.old stores.new) }
{
    name.well_formed_law();
    match stores.look(name, kind, home.root_name(), now)? {
        Some(hit) => Ok(Found::Known(Taken::cached(name, hit)?)),
        None => start_beyond(home, name, stores, now),
    }
}

// The cut where servers are sought, where neither a local zone is over the name nor a link is cached. Kept apart from
// `find_beyond`, which would make the room for a cut each time.
#[inline(never)]
fn start_beyond<S: BuildHasher + Drop, A: Heap>(
    home: &Home<A>,
    name: &Name<A>,
    stores: &mut Stores<S, A>,
    now: u64,
) -> Result<Found<A>, Starved>
    ensures start { IfOk result (IsStart home.now now name.now stores.old stores.new) }
    ensures part { OnErr result (IsBestInPart name.now now stores.old stores.new) }
{
    let best = stores.best(name, now)?;
    Ok(found_beyond(home, best)?)
}

/// The result for a name and a type at the moment `now`, in milliseconds: the link of the local zones, else that of the
/// cache (RFC 1034, section 5.3.3, step 1). In the cache an NXDOMAIN of a name above counts, as far up as the cut that
/// the local zones name (RFC 8020, section 2). Without a link it is the cut where servers are sought (step 2): the one
/// that the local zones name, or a deeper one that is cached. Where they name none, it is the deepest cached one, or
/// the root's. Where memory runs out, the look-up was made in the stores, or it was not.
pub fn find<S: BuildHasher + Drop, A: Heap>(
    alloc: A,
    home: &Home<A>,
    name: &Name<A>,
    kind: RType,
    stores: &mut Stores<S, A>,
    now: u64,
) -> Result<Found<A>, Starved>
    ensures found { IfOk result (λ f. IsFound home.now now name.now (type_number kind) stores.old f stores.new) }
    ensures part { OnErr result (LooksInPart home.now now name.now (type_number kind) stores.old stores.new) }
{
    match home.catalog().look(alloc, name, kind)? {
        Local::Link(link) => Ok(Found::Known(Taken::local(name, link)?)),
        Local::Cut(at, servers, glue) => {
            let kept = find_kept(name, kind, &at, stores, now);
            match kept {
                Ok(kept) => Ok(found_under(alloc, at, servers, glue, kept)?),
                Err(starved) => {
                    drop(at);
                    drop(servers);
                    drop(glue);
                    Err(starved)
                }
            }
        }
        Local::NotHere => { Ok(find_beyond(home, name, kind, stores, now)?) }
    }
}
