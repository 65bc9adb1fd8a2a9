//! Laws of the moves: functions that do nothing, whose clauses are proved.
ghost use Rattle.std.specs.Prelude.{◌≡◌, ℕ, ◌+◌, Bool, false, nat_eq, Some, List, [], ◌∷◌, ◌++◌, Option};
ghost use Rattle.std.specs.List.{count_by, filter};
ghost use Rattle.admission.specs.declared.limits.Limits.{Limits};
ghost use Rattle.admission.specs.declared.queries.Admitted.{Admitted};
ghost use Rattle.admission.specs.declared.queries.Held.{Held};
ghost use Rattle.admission.specs.declared.queries.Decision.{Decision};
ghost use Rattle.admission.specs.States.{State, state, held_with, IsKept};
ghost use Rattle.admission.specs.Moves.{Admits, AdmitsNext, opened, left, taken, dropped, first_of, held, may_wait};
ghost use Rattle.admission.specs.Runs.{Move, Moves, Runs, line, held_by, told, ended, all};

/// A new admission has as many queries of a key, of an address and in all as may be, and none waits in vain; and so
/// has each after any list of moves.
pub fn kept_law<T>()
    ensures new { (l : Limits) → IsKept {T = T} (state l [] [] []) }
    ensures moved { (m : Move T) (d e : State T) → Moves m d e → IsKept d → IsKept e }
    ensures run { (ms : List (Move T)) (d e : State T) → Runs ms d e → IsKept d → IsKept e }
{}

/// Those that are told to wait for a key stand in line, the new ones at the end. Whoever comes in was the first of
/// the line of its key; that another leaves changes no line; and who fails was the first of those that wait.
pub fn fair_law<T>()
    ensures waits { (d e : State T) (k c s moment : ℕ) (answered : Bool) (p : T) → Admits d k c s answered moment p Decision.Waits e → line k e ≡ line k d ++ held k c s moment p ∷ [] }
    ensures left { (d : State T) (test : Admitted → Bool) (k : ℕ) → line k (left test d) ≡ line k d }
    ensures comes { (d e : State T) (q : Held T) → AdmitsNext d (Some q) e → line q.key d ≡ q ∷ line q.key e }
    ensures others { (d e : State T) (q : Held T) (k : ℕ) → AdmitsNext d (Some q) e → nat_eq q.key k ≡ false → line k d ≡ line k e }
    ensures fails { (d : State T) (q : Held T) (k : ℕ) → first_of (held_with k) d.waiting ≡ Some q → filter (held_with k) d.waiting ≡ q ∷ filter (held_with k) (taken k d).waiting }
    ensures drops { (d : State T) (now k : ℕ) → line k (dropped now d) ≡ filter (held_with k) d.ready ++ filter (may_wait now) (filter (held_with k) d.waiting) }
{}

/// Over every list of moves each query that was told to wait is handed out or dropped once, or is still held: of
/// those that pass any test as many were told to wait, or held before, as were handed out or dropped, or are held now.
pub fn once_law<T>()
    ensures { (ms : List (Move T)) (d e : State T) (p : Held T → Bool) → Runs ms d e → count_by p (all told ms) + held_by p d ≡ count_by p (all ended ms) + held_by p e }
{}
