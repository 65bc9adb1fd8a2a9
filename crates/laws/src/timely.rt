//! Laws of every run: functions that do nothing, whose clauses are proved.

ghost use Rattle.laws.specs.Caused.{RepliesAreTimely};
ghost use Rattle.laws.specs.Failures.{EveryFailureIsSpent};
ghost use Rattle.laws.specs.Spent.{FailedIsAskedTwice};

/// Whatever comes, each reply goes to the client whose query is served and is that of an outcome. Without RD the local
/// zones alone answer. With RD it is a chain of links, or a failure whose cause stands in the run. Each link is one of
/// these zones, or was accepted for that very name and is within its TTL (RFC 1034, sections 3.6, 4.3.2 and 5.3.3; RFC
/// 2308, section 5). No premise on clients, servers or messages.
pub fn timely_law()
    ensures { RepliesAreTimely }
{}

/// Where a query fails since no server is left, all servers of a start over its name are used up (RFC 1034, section
/// 5.3.3; RFC 1035, section 7.2). Each of their addresses was asked twice in vain, and each of their names is of no
/// use, with look-ups of servers' addresses three deep. No premise on clients, servers or messages.
pub fn every_failure_is_spent()
    ensures { EveryFailureIsSpent }
{}

/// An address that was asked twice in vain was asked twice over UDP: an ask that goes on over TCP, after a
/// truncated reply, ends once (RFC 1035, section 4.2.1).
pub fn failed_is_asked_twice()
    ensures { FailedIsAskedTwice }
{}
