//! Laws of frames: functions that do nothing, whose clauses are proved.

ghost use Rattle.std.specs.Prelude.{◌≡◌, ℕ, ◌+◌, ◌*◌, ◌≤◌, ◌<◌, ◌⊎◌, ◌++◌, true, false, Some, None, List, length, take, drop, Contains};
ghost use Rattle.std.specs.List.{IsDistinct};
ghost use Rattle.dname.specs.Labels.{Name, IsAtOrUnder};
ghost use Rattle.rdata.specs.declared.addr.Addr.{Addr};
ghost use Rattle.lru_laws.specs.Orders.{HasSame};
ghost use Rattle.referral.specs.Cuts.{Cut, ServerAddress};
ghost use Rattle.retry.specs.Penalties.{same_addr};
ghost use Rattle.retry.specs.Plans.{planned, IsByPenalty};
ghost use Rattle.frames.specs.Frames.{Frame, Failed, opened, is_known, has_failed, IsPassedOver, next_place, next_name, after_name, fresh_addresses, after_add};
ghost use Rattle.frames.specs.Members.{AreAmong, times};
ghost use Rattle.frames.specs.Trimmed.{trimmed};

/// The addresses and names of a cut's frame: at most 16 of each, no address twice, and no name of which an address is
/// known. None is left out. Each address of the cut is used while there are fewer than 16. Of the first 16 names each
/// one is there, or is known by an address of its own that is used. In the two rounds of its plan each address whose
/// penalty is at most 8 stands twice.
pub fn opened_law()
    ensures addresses { (level : Addr → ℕ) (nesting : ℕ) (c : Cut) (a : Addr) → Contains (opened level nesting c).addresses a → (s : ServerAddress) × Contains c.addresses s × (s.address ≡ a) }
    ensures names { (level : Addr → ℕ) (nesting : ℕ) (c : Cut) (n : Name) → Contains (opened level nesting c).names n → Contains c.names n × (is_known c n ≡ false) }
    ensures few_addresses { (level : Addr → ℕ) (nesting : ℕ) (c : Cut) → length (opened level nesting c).addresses ≤ 16 }
    ensures few_names { (level : Addr → ℕ) (nesting : ℕ) (c : Cut) → length (opened level nesting c).names ≤ 16 }
    ensures once { (level : Addr → ℕ) (nesting : ℕ) (c : Cut) → IsDistinct same_addr (opened level nesting c).addresses }
    ensures all_addresses { (level : Addr → ℕ) (nesting : ℕ) (c : Cut) (s : ServerAddress) → Contains c.addresses s → Contains (opened level nesting c).addresses s.address ⊎ (length (opened level nesting c).addresses ≡ 16) }
    ensures all_names { (level : Addr → ℕ) (nesting : ℕ) (c : Cut) (n : Name) → Contains (take 16 c.names) n → Contains (opened level nesting c).names n ⊎ (is_known c n ≡ true) }
    ensures twice { (level : Addr → ℕ) (nesting : ℕ) (c : Cut) (a : Addr) → Contains (opened level nesting c).addresses a → level a ≤ 8 → times a ((opened level nesting c).plan.order ++ (opened level nesting c).plan.order) ≡ 2 }
    ensures known { (level : Addr → ℕ) (nesting : ℕ) (c : Cut) (n : Name) → is_known c n ≡ true → (s : ServerAddress) × Contains c.addresses s × (s.name ≡ n) × Contains (opened level nesting c).addresses s.address }
{}

/// A plan has only the addresses that it was made of, and no address is left out for its penalty. One whose penalty is
/// at most 8 stands in its two rounds twice as often as it was given. Where all penalties are at most 8, the plan is
/// the order by penalties.
pub fn order_law()
    ensures planned { (level : Addr → ℕ) (given : List Addr) → AreAmong (planned level given).order given }
    ensures members { (level : Addr → ℕ) (given order : List Addr) → IsByPenalty level given order → HasSame given order }
    ensures complete { (level : Addr → ℕ) (given : List Addr) (a : Addr) → Contains given a → level a ≤ 8 → Contains (planned level given).order a }
    ensures twice { (level : Addr → ℕ) (given : List Addr) (a : Addr) → level a ≤ 8 → times a ((planned level given).order ++ (planned level given).order) ≡ 2 * times a given }
    ensures whole { (level : Addr → ℕ) (given : List Addr) → ((a : Addr) → Contains given a → level a ≤ 8) → IsByPenalty level given (planned level given).order }
{}

/// A name that is looked up is one of the frame's, is not at or under the zone, did not fail at its nesting or a lesser
/// one, and is no deeper than 3; its turn is over afterwards. A name before it that had no turn was passed over for one
/// of these reasons. So was each name that is left, where none is looked up.
pub fn next_name_law()
    ensures member { (fs : Failed) (f : Frame) (n : Name) → next_name fs f ≡ Some n → Contains f.names n }
    ensures outside { (fs : Failed) (f : Frame) (n : Name) → next_name fs f ≡ Some n → IsAtOrUnder n f.zone → ⊥ }
    ensures shallow { (fs : Failed) (f : Frame) (n : Name) → next_name fs f ≡ Some n → f.nesting < 3 }
    ensures untried { (fs : Failed) (f : Frame) (n : Name) → next_name fs f ≡ Some n → has_failed fs n (f.nesting + 1) ≡ false }
    ensures passed { (fs : Failed) (f : Frame) (n : Name) → Contains (take (next_place fs f) f.names) n → Contains (take f.tried f.names) n ⊎ IsPassedOver fs f n }
    ensures spent { (fs : Failed) (f : Frame) (n : Name) → next_name fs f ≡ None → Contains (drop f.tried f.names) n → IsPassedOver fs f n }
    ensures turn { (fs : Failed) (f : Frame) (n : Name) → next_name fs f ≡ Some n → (f.tried ≤ next_place fs f) × ((after_name fs f).tried ≡ next_place fs f + 1) }
{}

/// After addresses were added, each one was there or is one of those found. None is lost, all found ones are there, and
/// where no address stood twice none does.
pub fn added_law()
    ensures only { (level : Addr → ℕ) (f : Frame) (found : List Addr) (a : Addr) → Contains (after_add level f (fresh_addresses f found)).addresses a → Contains f.addresses a ⊎ Contains found a }
    ensures kept { (level : Addr → ℕ) (f : Frame) (found : List Addr) → AreAmong f.addresses (after_add level f (fresh_addresses f found)).addresses }
    ensures there { (level : Addr → ℕ) (f : Frame) (found : List Addr) → AreAmong found (after_add level f (fresh_addresses f found)).addresses }
    ensures once { (level : Addr → ℕ) (f : Frame) (found : List Addr) → IsDistinct same_addr f.addresses → IsDistinct same_addr (after_add level f (fresh_addresses f found)).addresses }
{}

/// A trimmed cut gives the same frame, and has 16 names and 32 addresses at most. It has nothing that the cut does not
/// have.
pub fn trimmed_law()
    ensures same { (level : Addr → ℕ) (nesting : ℕ) (c : Cut) → opened level nesting (trimmed c) ≡ opened level nesting c }
    ensures few_names { (c : Cut) → length (trimmed c).names ≤ 16 }
    ensures few_addresses { (c : Cut) → length (trimmed c).addresses ≤ 32 }
    ensures names { (c : Cut) (n : Name) → Contains (trimmed c).names n → Contains c.names n }
    ensures addresses { (c : Cut) (s : ServerAddress) → Contains (trimmed c).addresses s → Contains c.addresses s }
    ensures owner { (c : Cut) → (trimmed c).owner ≡ c.owner }
{}
