//! The outcome of a chain and its end: each link with the TTL that is left of it, and AA where the link of the name in
//! the question is that of a local zone.
ghost use Rattle.std.specs.Prelude.{◌≡◌, [], ◌∷◌, IfOk, MatchOption};
ghost use Rattle.zone.specs.Views.{link_view};
ghost use Rattle.events.specs.Plain.{plain_end, plain_outcome};
ghost use Rattle.runs.specs.Messages.{is_local_first, alias_in, aliases_of, end_in, outcome_of};

use front::{End, Outcome};
use iterate::Chain;
use lookup::Taken;
use memory::{Heap, Starved};
use rdata::{Record, Records};
use zone::Link;

// The answer of a chain and its end, at the moment `now`.
pub fn outcome_of<A: Heap>(
    alloc: A,
    chain: Chain<A>,
    last: Taken<A>,
    now: u64,
) -> Result<Outcome<A>, Starved>
    ensures { IfOk result (λ o. plain_outcome o ≡ outcome_of now chain last) }
{
    let aa = is_local_first(chain.as_slice(), &last);
    match aliases_of(alloc, chain, now) {
        Err(starved) => {
            drop(last);
            Err(starved)
        }
        Ok(aliases) => match end_of(alloc, last.into_sent(now)) {
            Err(starved) => {
                drop(aliases);
                Err(starved)
            }
            Ok(end) => Ok(Outcome::Answer(aa, aliases, end)),
        },
    }
}

// Whether the link of the name in the question is that of a local zone.
fn is_local_first<A: Heap>(links: &[Taken<A>], last: &Taken<A>) -> bool
    ensures { result ≡ is_local_first links.now last.now }
{
    match links.first() {
        Some(first) => first.is_local(),
        None => last.is_local(),
    }
}

// The record of an alias; other links have none.
fn alias_in<A: Heap>(link: Link<A>) -> Option<Record<A>>
    ensures { MatchOption result (alias_in (link_view link) ≡ []) (λ r. alias_in (link_view link) ≡ r ∷ []) }
{
    match link {
        Link::Alias(record) => Some(record),
        other => {
            drop(other);
            None
        }
    }
}

// The records of the aliases, as they are sent.
fn aliases_of<A: Heap>(alloc: A, chain: Chain<A>, now: u64) -> Result<Records<A>, Starved>
    ensures { IfOk result (λ r. r ≡ aliases_of now chain) }
{
    let mut aliases = Records::with_capacity(alloc, chain.len())?;
    for taken in chain.into_links() {
        if let Some(record) = alias_in(taken.into_sent(now)) {
            aliases.push(record)?;
        }
    }
    Ok(aliases)
}

// A chain's end, with a negative answer's SOA as a list of one.
fn end_of<A: Heap>(alloc: A, link: Link<A>) -> Result<End<A>, Starved>
    ensures { IfOk result (λ e. plain_end e ≡ end_in (link_view link)) }
{
    match link {
        Link::Found(set) => Ok(End::Found(set)),
        Link::Alias(_) => Ok(End::Outside),
        Link::NoData(soa) => Ok(End::NoData(only(alloc, soa)?)),
        Link::NxDomain(soa) => Ok(End::NxDomain(only(alloc, soa)?)),
    }
}

fn only<A: Heap>(alloc: A, soa: Record<A>) -> Result<Records<A>, Starved>
    ensures { IfOk result (λ r. r ≡ soa ∷ []) }
{
    let mut records = Records::with_capacity(alloc, 1)?;
    records.push(soa)?;
    Ok(records)
}
