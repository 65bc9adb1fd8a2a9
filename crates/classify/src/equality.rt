//! Equality of classes and of readings.
ghost use Rattle.std.specs.Prelude.{◌≡◌, ◌↔◌, IsTrue};

use crate::class::{Class, Referral};
use crate::reading::Reading;
use std::alloc::Allocator;

impl<A: Allocator> Referral<A> {
    /// Whether both lead to one zone, by the same records.
    #[tactic(auto, using(rdata::proofs::Exact::exact))]
    pub fn same(&self, other: &Referral<A>) -> bool
        ensures { IsTrue result ↔ (self.now ≡ other.now) }
    {
        self.ttl == other.ttl
            && self.owner == other.owner
            && self.servers == other.servers
            && self.addresses == other.addresses
    }
}

impl<A: Allocator> Class<A> {
    /// Whether both are one class, with the same records.
    pub fn same(&self, other: &Class<A>) -> bool
        ensures { IsTrue result ↔ (self.now ≡ other.now) }
    {
        match (self, other) {
            (Class::Answer(link), Class::Answer(other)) => link.same(other),
            (Class::Referral(referral), Class::Referral(other)) => referral.same(other),
            (Class::Truncated, Class::Truncated) => true,
            (Class::Failed(failure), Class::Failed(other)) => failure == other,
            _ => false,
        }
    }
}

impl<A: Allocator> Reading<A> {
    /// Whether both read the same: of one ID and question, and of one class.
    #[tactic(auto, using(rdata::proofs::Exact::exact))]
    pub fn same(&self, other: &Reading<A>) -> bool
        ensures { IsTrue result ↔ (self.now ≡ other.now) }
    {
        self.id == other.id
            && self.kind == other.kind
            && self.failed == other.failed
            && self.name == other.name
            && self.class.same(&other.class)
    }
}
