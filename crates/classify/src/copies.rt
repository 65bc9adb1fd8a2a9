//! Classes and readings, copied.
ghost use Rattle.std.specs.Prelude.{◌≡◌};

use crate::class::{Class, Referral};
use crate::reading::Reading;
use memory::Heap;
use std::alloc::AllocError;

impl<A: Heap> Clone for Referral<A> {
    ghost is_clone = { λ x y. y ≡ x };

    fn clone(&self) -> Result<Referral<A>, AllocError> {
        Ok(Referral {
            owner: self.owner.clone()?,
            servers: self.servers.clone()?,
            addresses: self.addresses.clone()?,
            ttl: self.ttl,
        })
    }
}

impl<A: Heap> Clone for Class<A> {
    ghost is_clone = { λ x y. y ≡ x };

    // The data of an RRset are shared.
    fn clone(&self) -> Result<Class<A>, AllocError> {
        match self {
            Class::Answer(link) => Ok(Class::Answer(link.clone()?)),
            Class::Referral(referral) => Ok(Class::Referral(referral.clone()?)),
            Class::Truncated => Ok(Class::Truncated),
            Class::Failed(failure) => Ok(Class::Failed(*failure)),
        }
    }
}

impl<A: Heap> Clone for Reading<A> {
    ghost is_clone = { λ x y. y ≡ x };

    fn clone(&self) -> Result<Reading<A>, AllocError> {
        Ok(Reading {
            id: self.id,
            name: self.name.clone()?,
            kind: self.kind,
            failed: self.failed,
            class: self.class.clone()?,
        })
    }
}
