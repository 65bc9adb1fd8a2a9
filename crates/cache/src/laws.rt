//! Laws of a cache's entries: functions that do nothing, whose clauses are proved.

ghost use Rattle.cache.specs.Aging.{AgedIsSame, LiveIsLeft, LeftIsLess, NewIsWhole};
ghost use Rattle.cache.specs.Failures.{FailedWasKept, KeptIsFailed, AskingChangesNone};
ghost use Rattle.cache.specs.Given.{AboveIsBetween, NothingIsMissed, MissGivesNothing, GivenLives, FirstIsGiven, KeptIsGiven, LookStaysValid, KeepStaysValid};
ghost use Rattle.cache.specs.Members.{LookKeepsMembers, KeepBringsOne, KeptIsThere, KeepLosesFew, GivenIsHeld};

/// Which entries a look-up and a `keep` leave. A look-up changes their order alone, and its answer is one of them. A
/// `keep` adds the link's entry alone, unless its TTL is 0. It removes the old entry of its key, the name's NXDOMAIN
/// where another link is cached, and the entry past the capacity.
pub fn members_law()
    ensures looked { LookKeepsMembers }
    ensures only { KeepBringsOne }
    ensures there { KeptIsThere }
    ensures gone { KeepLosesFew }
    ensures held { GivenIsHeld }
{}

/// The answer of a look-up. The names above that are tried are those over the name up to `top`. An answer lives. There
/// is none exactly where no entry answers. The link that lives and answers first is the answer, and so is one that was
/// just cached. Each call leaves entries of different keys, and no more than the capacity.
pub fn given_law()
    ensures above { AboveIsBetween }
    ensures missed { NothingIsMissed }
    ensures miss { MissGivesNothing }
    ensures lives { GivenLives }
    ensures first { FirstIsGiven }
    ensures kept { KeptIsGiven }
    ensures looked_valid { LookStaysValid }
    ensures kept_valid { KeepStaysValid }
{}

/// Age changes TTLs alone, so that what is true stays true. A link that lives has a second left at least, and never
/// more than when it was cached.
pub fn aging_law()
    ensures same { AgedIsSame }
    ensures live { LiveIsLeft }
    ensures less { LeftIsLess }
    ensures new { NewIsWhole }
{}

/// The entries of a store of failures. One that lives was put in less than 30 seconds ago. One that is put in lives for
/// 30 seconds, while lack of room does not remove it. A look-up of one changes no other's time.
pub fn failures_law()
    ensures kept { FailedWasKept }
    ensures lives { KeptIsFailed }
    ensures same { AskingChangesNone }
{}
