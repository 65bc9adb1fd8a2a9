//! Laws of the rules: functions that do nothing, whose clauses are proved.

ghost use Rattle.resolution.specs.Laws.{RulesEnd, ReceivedServes, AdvancesStop, StopsBringOnly};

/// The rules end: whatever the input, only so many of them can follow one another before an ask goes out or the query
/// is over (RFC 1034, section 5.3.3).
pub fn end_law()
    ensures { RulesEnd }
{}

/// A link that was accepted for a query serves that query, whatever its TTL.
pub fn received_law()
    ensures { ReceivedServes }
{}

/// The stores after a whole call are among those that may stand where memory ran out on the way. In each of them
/// nothing is new beside what was accepted, and nothing is gone beside what one `keep` of that pushes out.
pub fn stores_law()
    ensures whole { AdvancesStop }
    ensures only { StopsBringOnly }
{}
