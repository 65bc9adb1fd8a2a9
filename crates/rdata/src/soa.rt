//! The data of an SOA record.
use dname::Name;
use memory::Heap;
use std::alloc::{AllocError, Allocator, Global};
use std::marker::Model;

/// The data of an SOA record (RFC 1035, section 3.3.13). Times are in seconds.
#[derive(Drop)]
pub struct Soa<A: Allocator = Global> {
    /// MNAME: the primary name server.
    pub primary: Name<A>,
    /// RNAME: the mailbox of the person in charge of the zone, its first dot for the at sign.
    pub mailbox: Name<A>,
    /// SERIAL: the version of the zone, which wraps.
    pub serial: u32,
    /// REFRESH: how long a secondary server waits before it asks whether the zone changed.
    pub refresh: u32,
    /// RETRY: how long it waits after such a refresh failed.
    pub retry: u32,
    /// EXPIRE: for how long after the last good refresh its copy still has authority.
    pub expire: u32,
    /// MINIMUM: the bound on a negative answer's TTL (RFC 2308, section 4).
    pub minimum: u32,
}

impl<A: Allocator> Model for Soa<A> {
    ghost use Rattle.rdata.specs.Data.{Authority};

    ghost Value = { Authority };

    ghost view = { λ s. record { primary = s.primary; mailbox = s.mailbox; serial = s.serial; refresh = s.refresh; retry = s.retry; expire = s.expire; minimum = s.minimum } };
}

impl<A: Heap> Clone for Soa<A> {
    ghost use Rattle.std.specs.Prelude.{◌≡◌};

    ghost is_clone = { λ x y. y ≡ x };

    fn clone(&self) -> Result<Soa<A>, AllocError> {
        Ok(Soa {
            primary: self.primary.clone()?,
            mailbox: self.mailbox.clone()?,
            serial: self.serial,
            refresh: self.refresh,
            retry: self.retry,
            expire: self.expire,
            minimum: self.minimum,
        })
    }
}

impl<A: Allocator> Soa<A> {
    ghost use Rattle.std.specs.Prelude.{◌≡◌};
    ghost use Rattle.rdata.specs.Data.{same_authority};

    /// Whether all seven fields are the same: with the serials 1 and 2, they are not.
    pub fn is_same(&self, other: &Soa<A>) -> bool
        ensures { result ≡ same_authority self.now other.now }
    {
        self.primary == other.primary
            && self.mailbox == other.mailbox
            && self.serial == other.serial
            && self.refresh == other.refresh
            && self.retry == other.retry
            && self.expire == other.expire
            && self.minimum == other.minimum
    }
}
