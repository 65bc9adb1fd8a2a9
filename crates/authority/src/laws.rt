//! Laws of the definitions that contracts cite: functions that do nothing, whose clauses are proved.

ghost use Rattle.std.specs.Prelude.{◌≡◌, ℕ, List, Contains, false};
ghost use Rattle.zone.specs.Zones.{Zone};
ghost use Rattle.dname.specs.Labels.{IsAtOrUnder};
ghost use Rattle.zone.specs.Referrals.{IsLocal};
ghost use Rattle.zone.specs.Ruled.{IsNamed, IsZone};
ghost use Rattle.zone.specs.Look.{Local};
ghost use Rattle.authority.specs.Catalogs.{AreNamed, IsInCharge, IsLooked, has_twins};
ghost use Rattle.authority.specs.OneAnswer.{SameLocal};

/// Of zones with different origins one at most is in charge of a name, and the result for a question is one but for
/// TTLs, order and repeats (RFC 1034, section 4.3.2, step 2; RFC 2181, section 5).
pub fn one_answer_law()
    ensures charge { (zs : List Zone) (q : List (List ℕ)) (y z : Zone) → has_twins zs ≡ false → IsInCharge zs q y → IsInCharge zs q z → y ≡ z }
    ensures answer { (zs : List Zone) (q : List (List ℕ)) (t : ℕ) (k l : Local) → has_twins zs ≡ false → ((z : Zone) → Contains zs z → IsZone z)
        → IsLooked zs q t k → IsLooked zs q t l → SameLocal k l }
{}

/// A name that one of the zones is over has a zone in charge, whose result is a link, or the cut that the name is
/// referred to (RFC 1034, section 4.3.2).
pub fn some_answer_law()
    ensures { (zs : List Zone) (q : List (List ℕ)) (t : ℕ) (y : Zone) → ((z : Zone) → Contains zs z → IsNamed z × IsZone z) → AreNamed zs
        → Contains zs y → IsAtOrUnder q y.origin → (z : Zone) × (l : Local) × IsInCharge zs q z × IsLocal z q t l }
{}
