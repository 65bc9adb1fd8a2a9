//! `Taken`, a link that is used for a query, and its `Source`, which decides its TTL when it is sent. A link of a local
//! zone is sent with its own TTL, one of the cache or a server with what is left of it; only a link of the cache can
//! expire meanwhile.
ghost use Rattle.std.specs.Prelude.{◌≡◌, IfOk, MatchOption};
ghost use Rattle.rdata.specs.Records.{Record};
ghost use Rattle.zone.specs.Links.{Alias};
ghost use Rattle.zone.specs.Views.{link_view};
ghost use Rattle.front.specs.Chains.{alias_target};
ghost use Rattle.resolution.specs.Jobs.{local_link, kept_link, is_dead, has_ended, IsEnding, sent};
ghost use Rattle.lookup.specs.Views.{owner_in, source_view, is_at_hand, IsBounded, taken_at, accepted_link};

use cache::{Hit, retimed};
use classify::lifetime;
use dname::Name;
use front::alias_target;
use memory::{Heap, Starved};
use rdata::{is_young, seconds_left};
use std::alloc::{AllocError, Allocator, Global};
use std::marker::Model;
use zone::Link;

/// The source of a link. TTLs are in seconds, as the link had them at the moment `since`, which is in milliseconds.
#[derive(Clone, Copy)]
pub enum Source {
    /// A local zone.
    Local,
    /// The cache.
    Cached {
        /// Its TTL, in seconds.
        ttl: u32,
        /// The moment at which it was cached, in milliseconds.
        since: u64,
    },
    /// A message that was accepted for the query itself.
    Accepted {
        /// Its TTL, in seconds.
        ttl: u32,
        /// The moment at which it was accepted, in milliseconds.
        since: u64,
    },
}

impl Source {
    // Whether a link of this source has expired.
    #[tactic(auto, using(crate::proofs::Times::not_younger))]
    fn has_ended(self, now: u64) -> bool
        ensures { result ≡ has_ended now (source_view self) }
    {
        match self {
            Source::Cached { ttl, since } => !is_young(ttl, since, now),
            Source::Local | Source::Accepted { .. } => false,
        }
    }
}

/// A link that is used for a name: the name, the link, and its source.
pub struct Taken<A: Allocator = Global> {
    // The name, where the link's own records have another owner. An RRset and a CNAME record nearly always have
    // the name as their owner, so that no copy of it is made for them.
    name: Option<Name<A>>,
    link: Link<A>,
    source: Source,
}

// By hand, so that each drop of it calls this, and does not write out all that it holds.
impl<A: Allocator> Drop for Taken<A> {
    fn drop(self) {
        let Taken {
            name,
            link,
            source: _,
        } = self;
        drop(name);
        drop(link);
    }
}

impl<A: Allocator> Model for Taken<A> {
    ghost use Rattle.zone.specs.Views.{link_view};
    ghost use Rattle.resolution.specs.Jobs.{Taken as TakenSpec};
    ghost use Rattle.lookup.specs.Views.{name_of, source_view, IsBounded};

    ghost Value = { TakenSpec };

    ghost view = { λ t. record { name = name_of t.name (link_view t.link); link = link_view t.link; source = source_view t.source } };

    ghost invariant = { λ t. IsBounded (source_view t.source) };
}

// The owner of the link's own records; of a negative answer's SOA.
fn owner<A: Allocator>(link: &Link<A>) -> &Name<A>
    ensures { result.now ≡ owner_in (link_view link.now) }
{
    match link {
        Link::Found(set) => {
            let _ = set.values.len();
            &set.owner
        }
        Link::Alias(record) | Link::NoData(record) | Link::NxDomain(record) => &record.owner,
    }
}

fn into_owner<A: Allocator>(link: Link<A>) -> Name<A>
    ensures { result ≡ owner_in (link_view link) }
{
    match link {
        Link::Found(set) => {
            let _ = set.values.len();
            set.owner
        }
        Link::Alias(record) | Link::NoData(record) | Link::NxDomain(record) => record.owner,
    }
}

// The link of a name.
fn named<A: Heap>(name: &Name<A>, link: Link<A>, source: Source) -> Result<Taken<A>, Starved>
    requires { IsBounded (source_view source) }
    ensures { IfOk result (λ t. t ≡ taken_at name.now (link_view link) (source_view source)) }
{
    if *owner(&link) == *name {
        return Ok(Taken {
            name: None,
            link,
            source,
        });
    }
    let copy: Result<Name<A>, AllocError> = name.clone();
    match copy {
        Ok(name) => Ok(Taken {
            name: Some(name),
            link,
            source,
        }),
        Err(_) => {
            drop(link);
            Err(Starved)
        }
    }
}

impl<A: Heap> Taken<A> {
    /// A link of a local zone.
    pub fn local(name: &Name<A>, link: Link<A>) -> Result<Taken<A>, Starved>
        ensures { IfOk result (λ t. t ≡ local_link name.now (link_view link)) }
    {
        named(name, link, Source::Local)
    }

    /// A hit of the cache.
    pub fn cached(name: &Name<A>, hit: Hit<A>) -> Result<Taken<A>, Starved>
        ensures { IfOk result (λ t. t ≡ kept_link name.now hit) }
    {
        let Hit { link, ttl, since } = hit;
        named(name, link, Source::Cached { ttl, since })
    }
}

impl<A: Allocator> Taken<A> {
    /// A link that a server gave for the query itself at the moment `now`, in milliseconds, within the limits on TTLs
    /// (`classify::received`).
    pub fn accepted(name: Name<A>, link: Link<A>, now: u64) -> Taken<A>
        ensures { result ≡ accepted_link name (link_view link) now }
    {
        let ttl = lifetime(&link);
        let source = Source::Accepted { ttl, since: now };
        if *owner(&link) == name {
            return Taken {
                name: None,
                link,
                source,
            };
        }
        Taken {
            name: Some(name),
            link,
            source,
        }
    }

    /// The name that the link is of.
    pub fn name(&self) -> &Name<A>
        ensures { result.now ≡ self.now.name }
    {
        match &self.name {
            Some(name) => name,
            None => owner(&self.link),
        }
    }

    /// The name, without the link.
    pub fn into_name(self) -> Name<A>
        ensures { result ≡ self.name }
    {
        let Taken {
            name,
            link,
            source: _,
        } = self;
        match name {
            Some(name) => name,
            None => into_owner(link),
        }
    }

    /// Whether it is a link of a local zone.
    pub fn is_local(&self) -> bool
        ensures { result ≡ is_at_hand self.now.source }
    {
        match self.source {
            Source::Local => true,
            Source::Cached { .. } | Source::Accepted { .. } => false,
        }
    }

    /// The link with the TTLs that it had when it was taken.
    pub fn link(&self) -> &Link<A>
        ensures { link_view result.now ≡ self.now.link }
    {
        &self.link
    }

    /// The name that an alias leads to; nothing where the link ends a chain.
    pub fn alias_target(&self) -> Option<&Name<A>>
        ensures { MatchOption result (IsEnding self.now.link) (λ n. (r : Record) × (self.now.link ≡ Alias r) × (n.now ≡ alias_target r)) }
    {
        match &self.link {
            Link::Alias(record) => Some(alias_target(record)),
            _ => None,
        }
    }

    /// Whether it came from the cache and has expired at this moment, in milliseconds.
    pub fn is_dead(&self, now: u64) -> bool
        ensures { result ≡ is_dead now self.now }
    {
        self.source.has_ended(now)
    }

    /// The link as it is sent at this moment: one of a local zone as it is, others with the seconds that are left of
    /// their TTL (RFC 1035, section 6.1.3). Takes no memory.
    pub fn into_sent(self, now: u64) -> Link<A>
        ensures { link_view result ≡ sent now self }
    {
        let Taken { name, link, source } = self;
        drop(name);
        match source {
            Source::Local => link,
            Source::Cached { ttl, since } | Source::Accepted { ttl, since } => {
                retimed(link, seconds_left(ttl, since, now))
            }
        }
    }
}
