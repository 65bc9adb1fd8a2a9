//! Use of links for the query's name: aliases are followed, and the link that ends them is the answer (RFC 1034,
//! sections 3.6.2 and 5.3.3, step 4).
ghost use Rattle.std.specs.Prelude.{◌≡◌, ℕ, false, IfOk, MatchOption};
ghost use Rattle.rdata.specs.Records.{Record};
ghost use Rattle.zone.specs.Links.{Alias};
ghost use Rattle.front.specs.Chains.{alias_target};
ghost use Rattle.resolution.specs.Jobs.{Home, Stores, Take, point, is_dead, IsEnding};
ghost use Rattle.iterate.specs.Moves.{IsMove};
ghost use Rattle.iterate.specs.Views.{move_view};

use crate::calls::Next;
use crate::job::Job;
use crate::task::{Move, Task};
use causes::Cause;
use dname::Name;
use limits::MAX_ALIASES;
use lookup::Taken;
use memory::{Heap, Starved};

// The name that an alias leads to; nothing where the link ends a chain.
fn target<A: Heap>(link: &Taken<A>) -> Result<Option<Name<A>>, Starved>
    ensures { IfOk result (λ t. MatchOption t (IsEnding link.now.link) (λ n. (r : Record) × (link.now.link ≡ Alias r) × (n ≡ alias_target r))) }
{
    match link.alias_target() {
        Some(name) => Ok(Some(name.clone()?)),
        None => Ok(None),
    }
}

// Adds an alias to the chain, unless it is a ninth one.
fn follow<A: Heap>(job: &mut Job<A>, link: Taken<A>, target: Name<A>) -> Result<Move<A>, Starved>
    requires { (r : Record) × (link.link ≡ Alias r) × (target ≡ alias_target r) }
    ensures { IfOk result (λ t. (home : Home) (now : ℕ) (stores : Stores) → IsMove home now (point (Take link) job.old stores) (move_view t) job.new stores) }
{
    if job.aliases() >= MAX_ALIASES {
        drop(link);
        drop(target);
        return Ok(Move::Out(Next::Fail(Cause::ChainTooLong)));
    }
    job.follow(link, target)?;
    Ok(Move::Onward(Task::Seek))
}

// Ends the chain: the answer goes out, unless an alias of the chain has expired meanwhile.
fn end<A: Heap>(job: &mut Job<A>, link: Taken<A>, now: u64) -> Move<A>
    requires ending { IsEnding link.link }
    requires fresh { is_dead now link ≡ false }
    ensures { (home : Home) (stores : Stores) → IsMove home now (point (Take link) job.old stores) (move_view result) job.new stores }
{
    if job.restart(now) {
        drop(link);
        return Move::Onward(Task::Seek);
    }
    Move::Out(Next::Done(job.take_chain(), link))
}

/// Uses a link of the query's name.
pub(crate) fn use_link<A: Heap>(
    job: &mut Job<A>,
    link: Taken<A>,
    now: u64,
) -> Result<Move<A>, Starved>
    requires { is_dead now link ≡ false }
    ensures { IfOk result (λ t. (home : Home) (stores : Stores) → IsMove home now (point (Take link) job.old stores) (move_view t) job.new stores) }
{
    match target(&link) {
        Err(starved) => {
            drop(link);
            Err(starved)
        }
        Ok(Some(target)) => Ok(follow(job, link, target)?),
        Ok(None) => Ok(end(job, link, now)),
    }
}
