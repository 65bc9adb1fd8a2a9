//! Local and cached links are answered, and cached links and failures are found: functions that do nothing, whose
//! clauses are proved.

ghost use Rattle.laws.specs.Held.{HeldIsReplied};
ghost use Rattle.laws.specs.KeptFailures.{FailureIsFound, FailureIsLooked};
ghost use Rattle.laws.specs.Looks.{AcceptedIsLooked, KeptIsFound};

/// A recursive query whose chain of at most eight aliases stands in the local zones and in the cache is answered with
/// it in its own step, without a send (RFC 1034, section 5.3.3, step 1).
pub fn held_law()
    ensures { HeldIsReplied }
{}

/// Over every run, a link that was accepted with a TTL above 0 is the cache's answer to its question while it lives.
/// That holds where since then no link of its name was accepted, no other entry of its name lives, fewer links were
/// cached and found than the cache has room for, and memory ran out in no step. Accepted is here what is accepted as an
/// answer for the query that the step serves, and nothing else.
pub fn kept_law()
    ensures found { KeptIsFound }
    ensures accepted { AcceptedIsLooked }
{}

/// Over every run, a server that failed to answer counts for 30 seconds as one that fails to answer that question (RFC
/// 2308, section 7.1). That holds where since then fewer failures were cached and used than there is room for, and
/// memory ran out in no step. A step caches the failure that it accepts for the query that it serves, and no other.
pub fn failures_law()
    ensures found { FailureIsFound }
    ensures accepted { FailureIsLooked }
{}
