//! Laws of the definitions that contracts cite: functions that do nothing, whose clauses are proved.

ghost use Rattle.std.specs.Prelude.{◌≡◌, true, Some};
ghost use Rattle.rdata.specs.Data.{Datum, same_data};
ghost use Rattle.rdata.specs.Types.{type_number, type_by, type_word, type_named};
ghost use Rattle.rdata.specs.declared.rtype.RType.{RType};

/// The test for the same data holds for equal data and for no other.
pub fn same_data_law()
    ensures exact { (d e : Datum) → same_data d e ≡ true → d ≡ e }
    ensures same { (d e : Datum) → d ≡ e → same_data d e ≡ true }
{}

/// The word of each type names that type.
pub fn word_names_type_law()
    ensures { (t : RType) → type_named (type_word t) ≡ Some t }
{}

/// The number of each type names that type.
pub fn number_names_type_law()
    ensures { (t : RType) → type_by (type_number t) ≡ Some t }
{}
