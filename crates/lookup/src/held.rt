//! Whether the answer to a question is at hand, before the work on it: the links that are held are followed, and nothing
//! is used in the stores by that, so that no entry stays for longer.
ghost use Rattle.std.specs.Prelude.{◌≡◌, ◌↔◌, Some, IsTrue, IfOk, MatchOption, option_map};
ghost use Rattle.limits.specs.Limits.{max_aliases};
ghost use Rattle.rdata.specs.Types.{type_number};
ghost use Rattle.authority.specs.Answers.{local_view};
ghost use Rattle.cache.specs.Cached.{asked_to, lent, hit_of};
ghost use Rattle.resolution.specs.Jobs.{Taken as TakenSpec, kept_link};
ghost use Rattle.resolution.specs.Held.{Holds};
ghost use Rattle.lookup.specs.Held.{given_by, EndsIn, LeadsTo, IsAtHand};

use crate::home::Home;
use crate::stores::Stores;
use crate::taken::Taken;
use authority::Local;
use dname::Name;
use limits::MAX_ALIASES;
use memory::{Heap, Starved};
use rdata::RType;
use std::alloc::Allocator;
use std::hash::BuildHasher;

// The cache's link, in which an NXDOMAIN of a name above counts up to `top`.
fn peek_kept<S: BuildHasher + Drop, A: Heap>(
    name: &Name<A>,
    kind: RType,
    top: &Name<A>,
    stores: &Stores<S, A>,
    now: u64,
) -> Result<Option<Taken<A>>, Starved>
    ensures { IfOk result (λ o. o ≡ option_map (kept_link name.now) (hit_of (lent (asked_to top.now name.now (type_number kind)) now (stores.now).cache))) }
{
    match stores.peek(name, kind, top, now)? {
        Some(hit) => Ok(Some(Taken::cached(name, hit)?)),
        None => Ok(None),
    }
}

// The link of a name, by what the local zones say of it.
fn peek_by<S: BuildHasher + Drop, A: Heap>(
    home: &Home<A>,
    name: &Name<A>,
    kind: RType,
    stores: &Stores<S, A>,
    now: u64,
    local: Local<A>,
) -> Result<Option<Taken<A>>, Starved>
    ensures { IfOk result (λ o. o ≡ given_by (local_view local) now name.now (type_number kind) (stores.now).cache) }
{
    match local {
        Local::Link(link) => Ok(Some(Taken::local(name, link)?)),
        Local::Cut(at, servers, glue) => {
            drop(servers);
            drop(glue);
            let kept = peek_kept(name, kind, &at, stores, now);
            drop(at);
            Ok(kept?)
        }
        Local::NotHere => Ok(peek_kept(name, kind, home.root_name(), stores, now)?),
    }
}

// The link that `find` would give for a name and a type, if it would give one.
fn peek<S: BuildHasher + Drop, A: Heap>(
    alloc: A,
    home: &Home<A>,
    name: &Name<A>,
    kind: RType,
    stores: &Stores<S, A>,
    now: u64,
) -> Result<Option<Taken<A>>, Starved>
    ensures { IfOk result (λ o. (l : TakenSpec) → (o ≡ Some l) ↔ Holds home.now now (type_number kind) (stores.now).cache name.now l) }
{
    let local = home.catalog().look(alloc, name, kind)?;
    Ok(peek_by(home, name, kind, stores, now, local)?)
}

// The name that a link leads to, where it is an alias.
fn target_of<A: Allocator>(link: &Option<Taken<A>>) -> Option<&Name<A>>
    ensures { MatchOption result (EndsIn link.now) (λ n. LeadsTo link.now n.now) }
{
    match link {
        Some(taken) => taken.alias_target(),
        None => None,
    }
}

/// Whether the answer for a name and a type is at hand at the moment `now`, in milliseconds: at most eight aliases lead
/// to an end, and each of these links stands in the local zones or in the cache, as `find` would give it. Such a
/// question is answered without a query to a server.
pub fn holds<S: BuildHasher + Drop, A: Heap>(
    alloc: A,
    home: &Home<A>,
    name: &Name<A>,
    kind: RType,
    stores: &Stores<S, A>,
    now: u64,
) -> Result<bool, Starved>
    ensures { IfOk result (λ b. IsTrue b ↔ IsAtHand home.now now (type_number kind) (stores.now).cache name.now max_aliases) }
{
    let mut link = peek(alloc, home, name, kind, stores, now)?;
    let mut left = MAX_ALIASES;
    'aliases: loop {
        let Some(target) = target_of(&link) else {
            return Ok(link.is_some());
        };
        if left == 0 {
            return Ok(false);
        }
        let next = peek(alloc, home, target, kind, stores, now);
        drop(link);
        link = next?;
        left -= 1;
    }
}
