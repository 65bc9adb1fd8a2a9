//! Equality of queries and of their answers.
ghost use Rattle.std.specs.Prelude.{◌≡◌, ◌↔◌, IsTrue};

use crate::queries::{End, Outcome, Query, Request};
use crate::shared::SharedEcho;
use dname::Name;
use rdata::RType;
use std::alloc::Allocator;

impl<A: Allocator> Query<A> {
    /// Whether both are one query, with the same letters of its question.
    #[tactic(auto, using(wire::proofs::Exact::exact))]
    pub fn same(&self, other: &Query<A>) -> bool
        ensures { IsTrue result ↔ (self.now ≡ other.now) }
    {
        self.start == other.start && self.is_for(&other.name, other.kind) && self.echo == other.echo
    }

    // Whether it is for that name and type.
    #[tactic(auto, using(rdata::proofs::Exact::exact))]
    fn is_for(&self, name: &Name<A>, kind: RType) -> bool
        ensures { IsTrue result ↔ ((self.now.name ≡ name.now) × (self.now.kind ≡ kind)) }
    {
        self.kind == kind && self.name == *name
    }
}

impl<A: Allocator> Request<A> {
    /// Whether both are one request.
    pub fn same(&self, other: &Request<A>) -> bool
        ensures { IsTrue result ↔ (self.now ≡ other.now) }
    {
        match (self, other) {
            (Request::Drop, Request::Drop) => true,
            (
                Request::Refuse(refusal, start, echo),
                Request::Refuse(its_refusal, its_start, its_echo),
            ) => refusal == its_refusal && start == its_start && same_echo(echo, its_echo),
            (Request::Query(query), Request::Query(other)) => query.same(other),
            _ => false,
        }
    }
}

/// Whether both are the same question in the same letters, or none.
#[tactic(auto, using(wire::proofs::Exact::exact))]
pub fn same_echo<A: Allocator>(echo: &Option<SharedEcho<A>>, other: &Option<SharedEcho<A>>) -> bool
    ensures { IsTrue result ↔ (echo.now ≡ other.now) }
{
    match (echo, other) {
        (None, None) => true,
        (Some(echo), Some(other)) => **echo == **other,
        _ => false,
    }
}

impl<A: Allocator> End<A> {
    /// Whether both chains end alike, with the same records.
    #[tactic(auto, using(rdata::proofs::Exact::exact))]
    pub fn same(&self, other: &End<A>) -> bool
        ensures { IsTrue result ↔ (self.now ≡ other.now) }
    {
        match (self, other) {
            (End::Found(set), End::Found(other)) => set == other,
            (End::NoData(soa), End::NoData(other)) => soa == other,
            (End::NxDomain(soa), End::NxDomain(other)) => soa == other,
            (End::Outside, End::Outside) => true,
            _ => false,
        }
    }
}

impl<A: Allocator> Outcome<A> {
    /// Whether both are one answer: of one kind, with the same records in the same order, or with one cause.
    #[tactic(auto, using(rdata::proofs::Exact::exact))]
    pub fn same(&self, other: &Outcome<A>) -> bool
        ensures { IsTrue result ↔ (self.now ≡ other.now) }
    {
        match (self, other) {
            (Outcome::Answer(aa, aliases, end), Outcome::Answer(its_aa, its_aliases, its_end)) => {
                aa == its_aa && aliases == its_aliases && end.same(its_end)
            }
            (Outcome::Referral(servers, glue), Outcome::Referral(its_servers, its_glue)) => {
                servers == its_servers && glue == its_glue
            }
            (Outcome::Refused, Outcome::Refused) => true,
            (Outcome::Fail(cause), Outcome::Fail(its_cause)) => cause == its_cause,
            _ => false,
        }
    }
}
