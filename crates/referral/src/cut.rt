//! A delegation: a zone cut, its servers and their glue.
ghost use Rattle.std.specs.Prelude.{◌≡◌, List, ℕ};
ghost use Rattle.referral.specs.Cuts.{is_live, as_kept, known_of};

use crate::lists::{Addresses, Names};
use dname::Name;
use memory::Heap;
use rdata::is_young;
use std::alloc::{AllocError, Allocator, Global};
use std::marker::Model;

/// A zone cut as a delegation: the zone's name, the names of its servers, and the addresses that are known of them.
#[derive(Drop)]
pub struct Cut<A: Allocator = Global> {
    /// The zone that is delegated: the owner of the NS records.
    pub owner: Name<A>,
    /// Its servers, as the NS records name them, in their order.
    pub names: Names<A>,
    /// Addresses of those servers: glue (RFC 1034, section 4.2.1), or addresses of hints.
    pub addresses: Addresses<A>,
}

impl<A: Allocator> Model for Cut<A> {
    ghost use Rattle.referral.specs.Cuts.{Cut as CutSpec};

    ghost Value = { CutSpec };

    ghost view = { λ c. record { owner = c.owner; names = c.names; addresses = c.addresses } };
}

impl<A: Heap> Clone for Cut<A> {
    ghost is_clone = { λ x y. y ≡ x };

    fn clone(&self) -> Result<Cut<A>, AllocError> {
        Ok(Cut {
            owner: self.owner.clone()?,
            names: self.names.clone()?,
            addresses: self.addresses.clone()?,
        })
    }
}

/// The servers of a cached cut; its name is their key.
#[derive(Drop)]
pub struct Servers<A: Allocator = Global> {
    names: Names<A>,
    addresses: Addresses<A>,
    ttl: u32,
    since: u64,
}

impl<A: Allocator> Model for Servers<A> {
    ghost use Rattle.referral.specs.Cuts.{Servers as ServersSpec};

    ghost Value = { ServersSpec };

    ghost view = { λ s. record { names = s.names; addresses = s.addresses; ttl = s.ttl; since = s.since } };
}

impl<A: Heap> Clone for Servers<A> {
    ghost is_clone = { λ x y. y ≡ x };

    fn clone(&self) -> Result<Servers<A>, AllocError> {
        Ok(Servers {
            names: self.names.clone()?,
            addresses: self.addresses.clone()?,
            ttl: self.ttl,
            since: self.since,
        })
    }
}

impl<A: Allocator> Servers<A> {
    // The cut to be cached for so many seconds from the moment `since`, in milliseconds: its name, and its servers.
    pub(crate) fn of(cut: Cut<A>, ttl: u32, since: u64) -> (Name<A>, Servers<A>)
        ensures { known_of result.0 result.1 ≡ as_kept cut ttl since }
    {
        let Cut {
            owner,
            names,
            addresses,
        } = cut;
        (
            owner,
            Servers {
                names,
                addresses,
                ttl,
                since,
            },
        )
    }

    // The TTL of these servers, in seconds.
    pub(crate) fn ttl(&self) -> u32
        ensures { result ≡ (self.now).ttl }
    {
        self.ttl
    }

    // Whether these servers are younger than their TTL at this moment, under any name.
    pub(crate) fn is_live(&self, now: u64) -> bool
        ensures { (n : List (List ℕ)) → result ≡ is_live now (known_of n self.now) }
    {
        is_young(self.ttl, self.since, now)
    }

    // The cut of this name.
    pub(crate) fn into_cut(self, owner: Name<A>) -> Cut<A>
        ensures { result ≡ (known_of owner self).cut }
    {
        Cut {
            owner,
            names: self.names,
            addresses: self.addresses,
        }
    }
}
