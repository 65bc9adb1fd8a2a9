//! Laws of the definitions: functions that do nothing, whose clauses are proved.
ghost use Rattle.message_grammar.specs.Laws.{OneName, OneSpelling, SpellingIsName, NameIsSpelt, FullStandsThere, EncodingIsMessage, EncodingIsCompressed, LettersKeepLength, LettersStayInQuestion, OneMessage, NamesEndInRoot};

/// At a place of a message stands one name at most (RFC 1035, section 4.1.4).
pub fn one_name_law()
    ensures { OneName }
{}

/// At a place of a message stands one spelling at most.
pub fn one_spelling_law()
    ensures { OneSpelling }
{}

/// The name at a place is the spelling there, in lower case.
pub fn spelling_is_name()
    ensures { SpellingIsName }
{}

/// Where a name stands, a spelling stands.
pub fn name_is_spelt()
    ensures { NameIsSpelt }
{}

/// A name in full is the name at its place, none of it behind a pointer (the target of an SRV record, RFC 2782).
pub fn full_name_law()
    ensures { FullStandsThere }
{}

/// The encoding of a message is that message (RFC 1035, section 4): what is written is read back.
pub fn encoding_is_message()
    ensures { EncodingIsMessage }
{}

/// The names of an encoding are compressed (RFC 1035, section 4.1.4): each is its first labels and a pointer to the
/// longest suffix of it that occurred before, at the first place of that suffix.
pub fn encoding_is_compressed()
    ensures { EncodingIsCompressed }
{}

/// The letters of a question's name change no length.
pub fn letters_keep_length()
    ensures { LettersKeepLength }
{}

/// The letters of a question's name change nothing but the name itself.
pub fn letters_stay_in_question()
    ensures { LettersStayInQuestion }
{}

/// Bytes are one message at most (RFC 1035, section 4).
pub fn one_message_law()
    ensures { OneMessage }
{}

/// In a message each name that is asked for and each owner of a record ends with the root's label (RFC 1035,
/// section 3.1).
pub fn names_end_in_root()
    ensures { NamesEndInRoot }
{}
