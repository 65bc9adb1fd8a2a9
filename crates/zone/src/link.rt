//! The link of a name and a type: what a zone's look-up, or a server, says of them.
ghost use Rattle.std.specs.Prelude.{◌≡◌, ◌↔◌, IsTrue};

use memory::Heap;
use rdata::{Record, RecordSet};
use std::alloc::{AllocError, Allocator, Global};

/// The link of a name and a type (RFC 1034, section 4.3.2; RFC 2308).
#[derive(Drop)]
pub enum Link<A: Allocator = Global> {
    /// The RRset (RFC 2181, section 5).
    Found(RecordSet<A>),
    /// The CNAME record.
    Alias(Record<A>),
    /// NODATA: the name exists without such records; with the zone's SOA.
    NoData(Record<A>),
    /// NXDOMAIN: the name does not exist; with the zone's SOA.
    NxDomain(Record<A>),
}

impl<A: Heap> Clone for Link<A> {
    ghost is_clone = { λ x y. y ≡ x };

    fn clone(&self) -> Result<Link<A>, AllocError> {
        match self {
            Link::Found(set) => Ok(Link::Found(set.clone()?)),
            Link::Alias(record) => Ok(Link::Alias(record.clone()?)),
            Link::NoData(soa) => Ok(Link::NoData(soa.clone()?)),
            Link::NxDomain(soa) => Ok(Link::NxDomain(soa.clone()?)),
        }
    }
}

impl<A: Allocator> Link<A> {
    /// Whether both are one link, TTLs and all.
    #[tactic(auto, using(rdata::proofs::Exact::exact))]
    pub fn same(&self, other: &Link<A>) -> bool
        ensures { IsTrue result ↔ (self.now ≡ other.now) }
    {
        match (self, other) {
            (Link::Found(set), Link::Found(other)) => set == other,
            (Link::Alias(record), Link::Alias(other)) => record == other,
            (Link::NoData(soa), Link::NoData(other)) => soa == other,
            (Link::NxDomain(soa), Link::NxDomain(other)) => soa == other,
            _ => false,
        }
    }
}
