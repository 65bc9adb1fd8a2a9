//! The words that may stand at the end of a line.
ghost use Rattle.std.specs.Prelude.{◌≡◌};
ghost use Rattle.script.specs.Keywords.{mark_of};

/// What a word at the end of a line says.
#[derive(Clone, Copy)]
pub(crate) enum Mark {
    /// Over TCP.
    Tcp,
    /// No recursion desired.
    Norec,
}

impl Mark {
    /// The mark that a word is, letters as they stand.
    pub(crate) fn of_word(word: &str) -> Option<Mark>
        ensures { result ≡ mark_of word.now }
    {
        match word {
            "tcp" => Some(Mark::Tcp),
            "norec" => Some(Mark::Norec),
            _ => None,
        }
    }
}
