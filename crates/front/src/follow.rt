//! Answers from local zones alone.
ghost use Rattle.std.specs.Prelude.{◌≡◌, ℕ, List, [], ◌∷◌, IfOk};
ghost use Rattle.rdata.specs.Types.{type_number};
ghost use Rattle.zone.specs.Look.{Linked};
ghost use Rattle.zone.specs.Views.{link_view};
ghost use Rattle.authority.specs.Answers.{local_view};
ghost use Rattle.authority.specs.Catalogs.{looked};
ghost use Rattle.front.specs.Chains.{AnswersLocally, FollowsOn, alias_target};
ghost use Rattle.front.specs.Steps.{IsStep};

use crate::queries::{End, Outcome, Query};
use authority::{Catalog, Local};
use causes::Cause;
use dname::Name;
use limits::MAX_ALIASES;
use memory::{Heap, Starved};
use rdata::{RData, RType, Record, Records};
use std::alloc::{Allocator, Global};
use zone::Link;

/// The answer of the local zones alone to a query without RD: nothing where none is over the name, a referral at a zone
/// cut, else the CNAME chain through local zones and its end. A ninth alias is a failure.
pub fn answer_local<A: Heap>(
    alloc: A,
    query: &Query<A>,
    catalog: &Catalog<A>,
) -> Result<Outcome<A>, Starved>
    ensures { IfOk result (AnswersLocally (λ name. looked catalog.now name (type_number query.now.kind)) query.now.name) }
{
    match catalog.look(alloc, &query.name, query.kind)? {
        Local::NotHere => Ok(Outcome::Refused),
        Local::Cut(_, ns, glue) => Ok(Outcome::Referral(ns, glue)),
        Local::Link(link) => follow(alloc, catalog, query.kind, link),
    }
}

// The chain that begins with the link of the name in the question.
fn follow<A: Heap>(
    alloc: A,
    catalog: &Catalog<A>,
    kind: RType,
    first: Link<A>,
) -> Result<Outcome<A>, Starved>
    ensures { (name : List (List ℕ)) → looked catalog.now name (type_number kind) ≡ Linked (link_view first)
        → IfOk result (FollowsOn (λ n. looked catalog.now n (type_number kind)) name) }
{
    let mut aliases = Records::new(alloc);
    let mut found = Local::Link(first);
    'aliases: loop {
        let step = Step::of(alloc, found)?;
        match step {
            Step::Ended(end) => return Ok(Outcome::Answer(true, aliases, end)),
            Step::Onward(alias) => {
                if aliases.len() == MAX_ALIASES {
                    return Ok(Outcome::Fail(Cause::ChainTooLong));
                }
                found = catalog.look(alloc, alias_target(&alias), kind)?;
                aliases.push(alias)?;
            }
        }
    }
}

/// The next step of a chain, by a look-up.
#[derive(Drop)]
pub enum Step<A: Allocator = Global> {
    /// A further alias.
    Onward(Record<A>),
    /// The end of the chain.
    Ended(End<A>),
}

impl<A: Heap> Step<A> {
    /// The step by this result: a link other than an alias ends a chain, and so does a cut, or a name that no local
    /// zone is over.
    pub fn of(alloc: A, found: Local<A>) -> Result<Step<A>, Starved>
        ensures { IfOk result (IsStep (local_view found)) }
    {
        match found {
            Local::Link(Link::Alias(alias)) => Ok(Step::Onward(alias)),
            Local::Link(Link::Found(set)) => Ok(Step::Ended(End::Found(set))),
            Local::Link(Link::NoData(soa)) => Ok(Step::Ended(End::NoData(alone(alloc, soa)?))),
            Local::Link(Link::NxDomain(soa)) => Ok(Step::Ended(End::NxDomain(alone(alloc, soa)?))),
            Local::Cut(_, _, _) | Local::NotHere => Ok(Step::Ended(End::Outside)),
        }
    }
}

/// The name that an alias leads to; of another record, its owner.
pub fn alias_target<A: Allocator>(alias: &Record<A>) -> &Name<A>
    ensures { result.now ≡ alias_target alias.now }
{
    match &alias.value {
        RData::Cname(name) => name,
        _ => &alias.owner,
    }
}

// A list of this record alone.
fn alone<A: Heap>(alloc: A, only: Record<A>) -> Result<Records<A>, Starved>
    ensures { IfOk result (λ records. records ≡ only ∷ []) }
{
    let mut records = Records::with_capacity(alloc, 1)?;
    records.push(only)?;
    Ok(records)
}
