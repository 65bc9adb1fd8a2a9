//! The data of an SRV record.
use dname::Name;
use memory::Heap;
use std::alloc::{AllocError, Allocator, Global};
use std::marker::Model;

/// Where a service is offered (RFC 2782).
#[derive(Drop)]
pub struct Srv<A: Allocator = Global> {
    /// The rank of the host among those that offer the service: the lowest is tried first.
    pub priority: u16,
    /// The share of clients that the host takes among hosts of one priority.
    pub weight: u16,
    /// The port of the service there.
    pub port: u16,
    /// The host, or the root where the service is not offered.
    pub target: Name<A>,
}

impl<A: Allocator> Model for Srv<A> {
    ghost use Rattle.rdata.specs.Data.{Service};

    ghost Value = { Service };

    ghost view = { λ s. record { priority = s.priority; weight = s.weight; port = s.port; target = s.target } };
}

impl<A: Heap> Clone for Srv<A> {
    ghost use Rattle.std.specs.Prelude.{◌≡◌};

    ghost is_clone = { λ x y. y ≡ x };

    fn clone(&self) -> Result<Srv<A>, AllocError> {
        Ok(Srv {
            priority: self.priority,
            weight: self.weight,
            port: self.port,
            target: self.target.clone()?,
        })
    }
}

impl<A: Allocator> Srv<A> {
    ghost use Rattle.std.specs.Prelude.{◌≡◌};
    ghost use Rattle.rdata.specs.Data.{same_service};

    /// Whether all four fields are the same: with the ports 5060 and 5061, they are not.
    pub fn is_same(&self, other: &Srv<A>) -> bool
        ensures { result ≡ same_service self.now other.now }
    {
        self.priority == other.priority
            && self.weight == other.weight
            && self.port == other.port
            && self.target == other.target
    }
}
