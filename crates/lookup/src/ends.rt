//! The link of a name that is at hand and no alias, used at once: most questions are answered by one.
ghost use Rattle.std.specs.Prelude.{◌≡◌, IfSome, MatchOption};
ghost use Rattle.dname.specs.Labels.{Name as NameSpec};
ghost use Rattle.rdata.specs.Types.{type_number};
ghost use Rattle.zone.specs.Views.{link_view};
ghost use Rattle.resolution.specs.Jobs.{local_link, IsEnding};
ghost use Rattle.lookup.specs.Ends.{IfGiven, IsFoundEnd};
ghost use Rattle.lookup.specs.Found.{IsHit};

use crate::home::Home;
use crate::stores::Stores;
use crate::taken::Taken;
use authority::Local;
use dname::Name;
use memory::{Heap, Starved};
use rdata::RType;
use std::hash::BuildHasher;
use zone::Link;

// The cache's link, from the name's own entries alone.
fn cached_end<S: BuildHasher + Drop, A: Heap>(
    name: &Name<A>,
    kind: RType,
    stores: &mut Stores<S, A>,
    now: u64,
) -> Option<Result<Taken<A>, Starved>>
    ensures { MatchOption result (stores.new ≡ stores.old) (IfGiven (λ l. ((top : NameSpec) → IsHit top now name.now (type_number kind) stores.old l stores.new) × IsEnding l.link)) }
{
    match stores.look_end(name, kind, now) {
        Ok(Some(hit)) => Some(Taken::cached(name, hit)),
        Ok(None) | Err(_) => None,
    }
}

// The link of a local zone.
fn local_end<A: Heap>(name: &Name<A>, link: Link<A>) -> Option<Taken<A>>
    ensures { IfSome result (λ l. (l ≡ local_link name.now (link_view link)) × IsEnding l.link) }
{
    match link {
        Link::Alias(record) => {
            drop(record);
            None
        }
        end => Taken::local(name, end).ok(),
    }
}

/// The link that `find` would give for a name and a type at the moment `now`, in milliseconds, where it is no alias and
/// stands in a local zone, or in the cache under the name itself. In the cache it is the most recently used from then on.
/// None, and no change, where there is no such link, or no memory to see it: `find` may still give an alias, or an
/// NXDOMAIN of a name above. It is out of memory where the link was used, and could not be given.
pub fn find_end<S: BuildHasher + Drop, A: Heap>(
    alloc: A,
    home: &Home<A>,
    name: &Name<A>,
    kind: RType,
    stores: &mut Stores<S, A>,
    now: u64,
) -> Option<Result<Taken<A>, Starved>>
    ensures { MatchOption result (stores.new ≡ stores.old) (IfGiven (λ l. IsFoundEnd home.now now name.now (type_number kind) stores.old l stores.new)) }
{
    match home.catalog().look_here(alloc, name, kind) {
        None => cached_end(name, kind, stores, now),
        Some(Ok(Local::Link(link))) => match local_end(name, link) {
            Some(end) => Some(Ok(end)),
            None => None,
        },
        Some(Ok(Local::Cut(at, servers, glue))) => {
            drop(at);
            drop(servers);
            drop(glue);
            cached_end(name, kind, stores, now)
        }
        Some(Ok(Local::NotHere)) => cached_end(name, kind, stores, now),
        Some(Err(_)) => None,
    }
}
