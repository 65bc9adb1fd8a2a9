//! How long the records of a reply are cached (RFC 2181, section 8; RFC 2308, sections 3 and 5).
ghost use Rattle.std.specs.Prelude.{◌≡◌, ◌≤◌};
ghost use Rattle.rdata.specs.Records.{greatest_ttl};
ghost use Rattle.zone.specs.Views.{link_view};
ghost use Rattle.classify.specs.Lifetimes.{received, received_denial, shortest, lifetime_of, referral_lifetime, ReceivedIsSame, ReceivedIsShort};

use limits::{MAX_NEGATIVE_TTL, MAX_TTL};
use memory::Heap;
use rdata::{Record, RecordSet, cap_ttl};
use std::alloc::Allocator;
use zone::{Link, denial_ttl};

/// The link of a reply as it is cached and sent; takes no memory. The TTL of a record is a week at most; that of a
/// negative answer's SOA the lesser of it and its MINIMUM, and three hours at most (RFC 2308, sections 3 and 5).
pub fn received<A: Heap>(link: Link<A>) -> Link<A>
    ensures { link_view result ≡ received (link_view link) }
{
    match link {
        Link::Found(mut set) => {
            set.cap_ttl(MAX_TTL);
            Link::Found(set)
        }
        Link::Alias(record) => Link::Alias(cap_ttl(record, MAX_TTL)),
        Link::NoData(soa) => Link::NoData(received_denial(soa)),
        Link::NxDomain(soa) => Link::NxDomain(received_denial(soa)),
    }
}

fn received_denial<A: Allocator>(mut soa: Record<A>) -> Record<A>
    ensures { result ≡ received_denial soa }
{
    soa.ttl = denial_ttl(soa.ttl, &soa.value).min(MAX_NEGATIVE_TTL);
    soa
}

/// For how many seconds a delegation with this lowest TTL is cached: a week at most (RFC 2181, sections 5.2 and 8).
pub fn referral_lifetime(ttl: u32) -> u32
    ensures { result ≡ referral_lifetime ttl }
{
    ttl.min(MAX_TTL)
}

/// For how many seconds a link is cached: the TTL of its records (RFC 2181, section 5.2).
pub fn lifetime<A: Allocator>(link: &Link<A>) -> u32
    ensures value { result ≡ lifetime_of (link_view link.now) }
    ensures most { result ≤ greatest_ttl }
{
    match link {
        Link::Found(set) => shortest(set),
        Link::Alias(record) | Link::NoData(record) | Link::NxDomain(record) => record.ttl,
    }
}

fn shortest<A: Allocator>(set: &RecordSet<A>) -> u32
    ensures value { result ≡ shortest set.now }
    ensures most { result ≤ greatest_ttl }
{
    let _ = set.len();
    set.ttl()
}

/// A link that is received differs from that of the reply in TTLs alone, and is cached for a week at most.
pub fn received_law()
    ensures same { ReceivedIsSame }
    ensures short { ReceivedIsShort }
{}
