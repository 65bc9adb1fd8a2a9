//! Laws of the definitions: functions that do nothing, whose clauses are proved.
ghost use Rattle.masterfile.specs.MasterText.{ReadsBothWays};
ghost use Rattle.masterfile.specs.ReadBack.{PrintedIsReadBack};

/// A text has these records by the rules of RFC 1035, section 5.1, exactly where it is read as them.
pub fn reads_both_ways()
    ensures { ReadsBothWays }
{}

/// Records whose parts are within their bounds are read back from their printed text, whatever origin the reader begins
/// with.
pub fn printed_is_read_back()
    ensures { PrintedIsReadBack }
{}
