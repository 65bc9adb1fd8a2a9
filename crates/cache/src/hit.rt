//! A cached link, and what is left of its TTL.
ghost use Rattle.std.specs.Prelude.{◌≡◌, ◌≤◌, [], ◌∷◌, IfOk, option_map};
ghost use Rattle.rdata.specs.Records.{greatest_ttl};
ghost use Rattle.rdata.specs.Sets.{with_ttl};
ghost use Rattle.zone.specs.Links.{Found};
ghost use Rattle.zone.specs.Views.{link_view};
ghost use Rattle.cache.specs.Cached.{is_live, as_set, as_alias, retimed, left_of, aged};

use memory::{Heap, Starved};
use rdata::{Record, RecordSet, is_young, seconds_left};
use std::alloc::{AllocError, Allocator, Global};
use std::marker::Model;
use zone::Link;

/// A cached link.
#[derive(Drop)]
pub struct Hit<A: Allocator = Global> {
    /// The cached answer: an RRset, an alias, or a negative answer.
    pub link: Link<A>,
    /// Its TTL in seconds when it was cached, at most 2,147,483,647 (RFC 2181, section 8).
    pub ttl: u32,
    /// The moment at which it was cached, in milliseconds.
    pub since: u64,
}

impl<A: Allocator> Model for Hit<A> {
    ghost use Rattle.zone.specs.Views.{link_view};
    ghost use Rattle.cache.specs.Cached.{Hit as HitSpec};

    ghost Value = { HitSpec };

    ghost view = { λ h. record { link = link_view h.link; ttl = h.ttl; since = h.since } };

    ghost use Rattle.std.specs.Prelude.{◌≤◌};
    ghost use Rattle.rdata.specs.Records.{greatest_ttl};

    ghost invariant = { λ h. h.ttl ≤ greatest_ttl };
}

impl<A: Heap> Clone for Hit<A> {
    ghost is_clone = { λ x y. y ≡ x };

    fn clone(&self) -> Result<Hit<A>, AllocError> {
        Ok(Hit {
            link: self.link.clone()?,
            ttl: self.ttl,
            since: self.since,
        })
    }
}

impl<A: Allocator> Hit<A> {
    /// Whether it is younger than its TTL at this moment: one of 0 with TTL 300 is at 299,999, and is not at 300,000.
    pub fn is_live(&self, now: u64) -> bool
        ensures { result ≡ is_live now self.now }
    {
        is_young(self.ttl, self.since, now)
    }

    /// How many seconds are left of its TTL at this moment, 290 at 10,000 for one of 0 with TTL 300; 0 where that is
    /// over.
    pub fn left(&self, now: u64) -> u32
        ensures value { result ≡ left_of now self.now }
        ensures most { result ≤ greatest_ttl }
    {
        seconds_left(self.ttl, self.since, now)
    }

    /// The link as it is sent at this moment: each record has as many seconds as are left (RFC 1035, section 6.1.3),
    /// 290 at 10,000 for a link of 0 with TTL 300. Takes no memory.
    pub fn into_link(self, now: u64) -> Link<A>
        ensures { link_view result ≡ aged now self }
    {
        let ttl = self.left(now);
        retimed(self.link, ttl)
    }
}

/// The link with this TTL, in seconds, on each record: with 60, its record has TTL 60. Takes no memory.
pub fn retimed<A: Allocator>(link: Link<A>, ttl: u32) -> Link<A>
    requires { ttl ≤ greatest_ttl }
    ensures { link_view result ≡ retimed ttl (link_view link) }
{
    match link {
        Link::Found(mut set) => {
            set.set_ttl(ttl);
            Link::Found(set)
        }
        Link::Alias(record) => Link::Alias(with_ttl(record, ttl)),
        Link::NoData(soa) => Link::NoData(with_ttl(soa, ttl)),
        Link::NxDomain(soa) => Link::NxDomain(with_ttl(soa, ttl)),
    }
}

fn with_ttl<A: Allocator>(mut timed: Record<A>, ttl: u32) -> Record<A>
    requires { ttl ≤ greatest_ttl }
    ensures { result ≡ with_ttl ttl timed }
{
    timed.ttl = ttl;
    timed
}

pub(crate) fn set_of_one<A: Heap>(alloc: A, only: Record<A>) -> Result<Link<A>, Starved>
    ensures { IfOk result (λ l. link_view l ≡ Found (only ∷ [])) }
{
    Ok(Link::Found(RecordSet::alone(alloc, only)?))
}

// The link as the answer for the type under which it is cached.
pub(crate) fn set_of<A: Heap>(alloc: A, link: &Link<A>) -> Result<Link<A>, Starved>
    ensures { IfOk result (λ l. link_view l ≡ as_set (link_view link.now)) }
{
    match link {
        Link::Alias(record) => Ok(set_of_one(alloc, record.clone()?)?),
        _ => Ok(link.clone()?),
    }
}

// The link as an alias, for another type.
pub(crate) fn alias_of<A: Heap>(link: &Link<A>) -> Result<Option<Link<A>>, Starved>
    ensures { IfOk result (λ l. option_map link_view l ≡ as_alias (link_view link.now)) }
{
    match link {
        Link::Found(set) => Ok(Some(Link::Alias(set.first()?))),
        Link::Alias(record) => Ok(Some(Link::Alias(record.clone()?))),
        Link::NoData(_) | Link::NxDomain(_) => Ok(None),
    }
}
