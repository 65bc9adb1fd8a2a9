//! The work on one query, and its limits: asks, look-ups of servers' names, time, the length of its chain.
ghost use Rattle.std.specs.Prelude.{◌↔◌, ◌≡◌, ◌+◌, ◌<◌, ◌≤◌, [], length, min, IfOk, OnOk, IsTrue, MatchOption};
ghost use Rattle.std.specs.Bool.{MatchBool};
ghost use Rattle.limits.specs.Limits.{latest_moment, max_look_ups};
ghost use Rattle.rdata.specs.Types.{type_number};
ghost use Rattle.frames.specs.Frames.{marked, next_name};
ghost use Rattle.resolution.specs.Jobs.{job_at, wait_of_job, asked_again, looked_up, MayLookUp, MaySend};
ghost use Rattle.resolution.specs.Rules.{MayNotSend, turned, spent_cause};
ghost use Rattle.classify.specs.Views.{reading_view};
ghost use Rattle.iterate.specs.Inputs.{IsSoughtIn};
ghost use Rattle.iterate.specs.Moves.{with_search, begun, followed, skipping, IsRestart};

use crate::chain::Chain;
use crate::search::{Search, Searches};
use causes::Cause;
use classify::Reading;
use dname::Name;
use frames::Failed;
use limits::{LATEST_MOMENT, MAX_ASKS, MAX_LOOK_UPS, QUERY_LIFETIME_MS};
use lookup::Taken;
use memory::{Heap, Starved};
use rdata::RType;
use std::alloc::{Allocator, Global};
use std::marker::Model;
use std::mem;

/// The work on one query: the name that is sought now, the aliases that led to it, and the searches for it and for
/// addresses of servers.
pub struct Job<A: Allocator = Global> {
    name: Name<A>,
    kind: RType,
    chain: Chain<A>,
    searches: Searches<A>,
    failed: Failed<A>,
    asks: u32,
    // How often a server's name had its turn.
    look_ups: u32,
    deadline: u64,
    // Whether a server was passed over, since it had lately failed to answer.
    skipped: bool,
}

// By hand, so that each drop of a job calls this, and does not write out all that it holds.
impl<A: Allocator> Drop for Job<A> {
    fn drop(self) {
        let Job {
            name,
            kind: _,
            chain,
            searches,
            failed,
            asks: _,
            look_ups: _,
            deadline: _,
            skipped: _,
        } = self;
        drop(name);
        drop(chain);
        drop(searches);
        drop(failed);
    }
}

impl<A: Allocator> Model for Job<A> {
    ghost use Rattle.rdata.specs.Types.{type_number};
    ghost use Rattle.resolution.specs.Jobs.{Job as JobSpec};

    ghost Value = { JobSpec };

    ghost view = { λ j. record { name = j.name; kind = type_number j.kind; chain = j.chain; searches = j.searches; failed = j.failed; asks = j.asks; look_ups = j.look_ups; deadline = j.deadline; skipped = j.skipped } };
}

impl<A: Heap> Job<A> {
    /// The work on a query that comes at the moment `now`, in milliseconds; it has ten seconds. A moment after 2^62 counts
    /// as that. Takes no memory.
    pub fn new(name: Name<A>, kind: RType, now: u64) -> Job<A>
        ensures { result ≡ job_at name (type_number kind) (min now latest_moment) }
    {
        let alloc = name.allocator();
        Job {
            name,
            kind,
            chain: Chain::new(alloc),
            searches: Searches::new(alloc),
            failed: Failed::new(alloc),
            asks: 0,
            look_ups: 0,
            deadline: now.min(LATEST_MOMENT) + QUERY_LIFETIME_MS,
            skipped: false,
        }
    }

    // Adds a search within the others.
    pub(crate) fn push(&mut self, search: Search<A>) -> Result<(), Starved>
        ensures { OnOk result (self.new ≡ with_search self.old search) }
    {
        self.searches.push(search)?;
        Ok(())
    }

    // Adds a search within the others, in which servers were passed over.
    pub(crate) fn skip(&mut self, search: Search<A>) -> Result<(), Starved>
        ensures { OnOk result (self.new ≡ skipping self.old search) }
    {
        self.skipped = true;
        self.searches.push(search)?;
        Ok(())
    }

    // Puts in a search as the only one.
    pub(crate) fn begin_search(&mut self, search: Search<A>) -> Result<(), Starved>
        ensures { OnOk result (self.new ≡ begun self.old search) }
    {
        self.searches.clear();
        self.searches.push(search)?;
        Ok(())
    }

    // Notes that the look-up of this server's name failed.
    pub(crate) fn mark(&mut self, name: &Name<A>, nesting: u8) -> Result<(), Starved>
        ensures { OnOk result (self.new ≡ record self.old { failed = marked (self.old).failed name.now nesting }) }
    {
        self.failed.mark(name, nesting)?;
        Ok(())
    }

    // Adds an alias, whose target is sought from now on.
    pub(crate) fn follow(&mut self, link: Taken<A>, target: Name<A>) -> Result<(), Starved>
        ensures { OnOk result (self.new ≡ followed self.old link target) }
    {
        self.name = target;
        self.chain.push(link)?;
        Ok(())
    }

    // The name of a server of this search that is next.
    pub(crate) fn next_name(&self, search: &mut Search<A>) -> Result<Option<Name<A>>, Starved>
        ensures value { IfOk result (λ n. n ≡ next_name (self.now).failed (search.old).frame) }
        ensures ok { OnOk result (search.new ≡ turned (self.now).failed search.old) }
    {
        Ok(search.next_name(&self.failed)?)
    }

    // Takes out the aliases.
    pub(crate) fn take_chain(&mut self) -> Chain<A>
        ensures { result ≡ (self.old).chain }
    {
        let empty = Chain::new(self.name.allocator());
        mem::replace(&mut self.chain, empty)
    }
}

impl<A: Allocator> Job<A> {
    /// The name that is sought now.
    pub fn name(&self) -> &Name<A>
        ensures { result.now ≡ self.now.name }
    {
        &self.name
    }

    /// The type that is asked for.
    pub fn kind(&self) -> RType
        ensures { type_number result ≡ self.now.kind }
    {
        self.kind
    }

    /// How many asks were sent.
    pub fn asks(&self) -> u32
        ensures { result ≡ self.now.asks }
    {
        self.asks
    }

    /// The moment from which on nothing more is sent, in milliseconds.
    pub fn deadline(&self) -> u64
        ensures { result ≡ self.now.deadline }
    {
        self.deadline
    }

    /// How long a reply of the server that was asked last is waited for, in milliseconds.
    pub fn wait_ms(&self) -> u32
        ensures { result ≡ wait_of_job self.now }
    {
        self.searches.wait_ms()
    }

    /// Whether this reading has the question of the innermost search; so it is too where there is no search.
    pub fn seeks(&self, reading: &Reading<A>) -> bool
        ensures { IsTrue result ↔ IsSoughtIn self.now (reading_view reading.now) }
    {
        self.searches.seek(&reading.name, reading.kind)
    }

    // How many aliases there are.
    pub(crate) fn aliases(&self) -> usize
        ensures { result ≡ length self.now.chain }
    {
        self.chain.len()
    }

    // Takes out the innermost search.
    pub(crate) fn pop(&mut self) -> Option<Search<A>>
        ensures { MatchOption result (((self.old).searches ≡ []) × (self.new ≡ self.old)) (λ s. self.old ≡ with_search self.new s) }
    {
        self.searches.pop()
    }

    // Why nothing may be sent at this moment.
    pub(crate) fn refusal(&self, now: u64) -> Option<Cause>
        ensures { MatchOption result (MaySend now self.now) (MayNotSend now self.now) }
    {
        if self.deadline <= now {
            return Some(Cause::DeadlineOver);
        }
        if self.asks >= MAX_ASKS {
            return Some(Cause::TooManyAsks);
        }
        None
    }

    // Whether one more server's name may have its turn.
    pub(crate) fn may_look_up(&self) -> bool
        ensures { MatchBool result (MayLookUp self.now) (max_look_ups ≤ (self.now).look_ups) }
    {
        self.look_ups < MAX_LOOK_UPS
    }

    // Counts the turn of a server's name.
    pub(crate) fn count_look_up(&mut self)
        requires { MayLookUp self.old }
        ensures { self.new ≡ looked_up self.old }
    {
        self.look_ups += 1;
    }

    // The cause with which the query fails where no server is left.
    pub(crate) fn spent(&self) -> Cause
        ensures { result ≡ spent_cause (self.now).skipped }
    {
        if self.skipped {
            Cause::KnownFailure
        } else {
            Cause::NoServerLeft
        }
    }

    // Counts an ask.
    pub(crate) fn count(&mut self)
        requires { (self.old).asks < 40 }
        ensures { self.new ≡ asked_again self.old }
    {
        self.asks += 1;
    }

    // Goes back to the first alias that has expired at this moment: its name is sought again.
    pub(crate) fn restart(&mut self, now: u64) -> bool
        ensures { IsRestart now self.old self.new result }
    {
        match self.chain.take_from_dead(now) {
            Some(dead) => {
                self.name = dead.into_name();
                self.searches.clear();
                true
            }
            None => false,
        }
    }
}
