//! Laws of the counters: functions that do nothing, whose clauses are proved.
ghost use Rattle.std.specs.Prelude.{◌≡◌, ℕ};
ghost use Rattle.std.specs.Option.{is_some};
ghost use Rattle.counters.specs.Counters.{place};
ghost use Rattle.counters.specs.Outcomes.{counted};
ghost use Rattle.counters.specs.Kinds.{bit, is_answer, times};
ghost use Rattle.counters.specs.declared.counter.Counter.{Counter};
ghost use Rattle.counters.specs.declared.outcome.Reply.{Reply};
ghost use Rattle.counters.specs.declared.outcome.Outcome.{Outcome};
ghost use Rattle.counters.specs.declared.outcome.Outcome.TheVariants as outcome;
ghost use Rattle.counters.specs.Labels.{rcode_of};

/// A reply adds to one RCODE; to one source exactly where it is an answer; to one cause exactly where it has one; to
/// one bucket exactly where its time is known; and to nothing that counts queries or asks.
pub fn reply_law()
    ensures rcode { (r : Reply) → times 1 (counted (outcome.Replied r)) ≡ 1 }
    ensures source { (r : Reply) → times 2 (counted (outcome.Replied r)) ≡ bit (is_answer (rcode_of r.rcode)) }
    ensures cause { (r : Reply) → times 3 (counted (outcome.Replied r)) ≡ bit (is_some r.cause) }
    ensures truncated { (r : Reply) → times 4 (counted (outcome.Replied r)) ≡ bit r.truncated }
    ensures time { (r : Reply) → times 5 (counted (outcome.Replied r)) ≡ bit (is_some r.millis) }
    ensures others { (r : Reply) → times 0 (counted (outcome.Replied r)) ≡ 0 }
{}

/// No two counters share a cell.
pub fn places_law()
    ensures { (a b : Counter) → place a ≡ place b → a ≡ b }
{}
