//! Requests and their answers, copied.
ghost use Rattle.std.specs.Prelude.{◌≡◌};

use crate::queries::{End, Outcome, Request};
use memory::Heap;
use std::alloc::AllocError;

impl<A: Heap> Clone for Request<A> {
    ghost is_clone = { λ x y. y ≡ x };

    // A query is shared.
    fn clone(&self) -> Result<Request<A>, AllocError> {
        match self {
            Request::Drop => Ok(Request::Drop),
            Request::Refuse(refusal, start, None) => Ok(Request::Refuse(*refusal, *start, None)),
            Request::Refuse(refusal, start, Some(echo)) => {
                Ok(Request::Refuse(*refusal, *start, Some(echo.clone()?)))
            }
            Request::Query(query) => Ok(Request::Query(query.clone()?)),
        }
    }
}

impl<A: Heap> Clone for End<A> {
    ghost is_clone = { λ x y. y ≡ x };

    // Data of a set that is found are shared.
    fn clone(&self) -> Result<End<A>, AllocError> {
        match self {
            End::Found(set) => Ok(End::Found(set.clone()?)),
            End::NoData(soa) => Ok(End::NoData(soa.clone()?)),
            End::NxDomain(soa) => Ok(End::NxDomain(soa.clone()?)),
            End::Outside => Ok(End::Outside),
        }
    }
}

impl<A: Heap> Clone for Outcome<A> {
    ghost is_clone = { λ x y. y ≡ x };

    fn clone(&self) -> Result<Outcome<A>, AllocError> {
        match self {
            Outcome::Answer(aa, aliases, end) => {
                Ok(Outcome::Answer(*aa, aliases.clone()?, end.clone()?))
            }
            Outcome::Referral(servers, glue) => {
                Ok(Outcome::Referral(servers.clone()?, glue.clone()?))
            }
            Outcome::Refused => Ok(Outcome::Refused),
            Outcome::Fail(cause) => Ok(Outcome::Fail(*cause)),
        }
    }
}
