//! The first words of a world text's lines.
ghost use Rattle.std.specs.Prelude.{◌≡◌};
ghost use Rattle.world_text.specs.Keywords.{keyword_of};

/// What the first word of a line says.
#[derive(Clone, Copy)]
pub(crate) enum Keyword {
    Zone,
    Local,
    Host,
    Hint,
}

impl Keyword {
    /// The keyword that a word is, letters as they stand.
    pub(crate) fn of_word(word: &str) -> Option<Keyword>
        ensures { result ≡ keyword_of word.now }
    {
        match word {
            "zone" => Some(Keyword::Zone),
            "local" => Some(Keyword::Local),
            "host" => Some(Keyword::Host),
            "hint" => Some(Keyword::Hint),
            _ => None,
        }
    }
}
