//! Laws of runs: functions that do nothing, whose clauses are proved.

ghost use Rattle.runs.specs.Laws.{ClockOfRun, AcceptedIsHeard, TcpIsHeard};

/// After each run the resolver's clock is at the greatest moment of all events, and its site is the one that it began
/// with.
pub fn clock_law()
    ensures { ClockOfRun }
{}

/// No reply is ignored. A datagram or a reply over TCP that is accepted for the open ask of a query serves that query,
/// and no other; so does any end of an open ask over TCP (RFC 1035, section 7.3).
pub fn heard_law()
    ensures accepted { AcceptedIsHeard }
    ensures tcp { TcpIsHeard }
{}
