//! Laws of the definitions: functions that do nothing, whose clauses are proved.
ghost use Rattle.master_lexer.specs.Lines.{LineIsReadBack, LinesAreReadBack};
ghost use Rattle.master_lexer.specs.Parts.{PartsBothWays};

/// The entries that the cursor shows are the text's parts by the rules of RFC 1035, section 5.1, and each text that
/// parts by those rules is shown so.
pub fn parts_both_ways()
    ensures { PartsBothWays }
{}

/// Words that are written as a line, with one space between them, are read as these words.
pub fn line_is_read_back()
    ensures { LineIsReadBack }
{}

/// Lines of words that are written one behind the other are read as an entry each.
pub fn lines_are_read_back()
    ensures { LinesAreReadBack }
{}
