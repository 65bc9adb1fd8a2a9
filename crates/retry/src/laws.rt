//! A law of penalties: a function that does nothing, whose clauses are proved.

ghost use Rattle.std.specs.Prelude.{ℕ, ◌≤◌, List};
ghost use Rattle.rdata.specs.declared.addr.Addr.{Addr};
ghost use Rattle.retry.specs.Penalties.{penalty, timed_out, answered, AreAtMost};

/// Where no penalty that is kept is above 8, none is for any address, and none comes to be by an ask that
/// timed out or was answered.
pub fn most_law()
    ensures level { (a : Addr) (es : List (Addr × ℕ)) → AreAtMost 8 es → penalty a es ≤ 8 }
    ensures timed_out { (a : Addr) (cap : ℕ) (es : List (Addr × ℕ)) → AreAtMost 8 es → AreAtMost 8 (timed_out a cap es) }
    ensures answered { (a : Addr) (es : List (Addr × ℕ)) → AreAtMost 8 es → AreAtMost 8 (answered a es) }
{}
