//! The first words of a script's lines.
ghost use Rattle.std.specs.Prelude.{◌≡◌};
ghost use Rattle.script.specs.Keywords.{asking, keyword_in, keyword_of};

/// What the first word of a line orders.
#[derive(Clone, Copy)]
pub(crate) enum Keyword {
    At,
    Ask,
    Raw,
    Carry,
    Truncate,
    Lose,
    Run,
    Tick,
}

/// Which keywords a script may have.
#[derive(Clone, Copy)]
pub(crate) enum Scope {
    /// All of them.
    Whole,
    /// `at` and `ask`.
    Asks,
}

impl Keyword {
    /// The keyword that a word is in such a script.
    pub(crate) fn in_scope(scope: Scope, word: &str) -> Option<Keyword>
        ensures { result ≡ keyword_in scope word.now }
    {
        match scope {
            Scope::Whole => Keyword::of_word(word),
            Scope::Asks => Keyword::of_word(word)?.if_asking(),
        }
    }

    fn if_asking(self) -> Option<Keyword>
        ensures { result ≡ asking self }
    {
        match self {
            Keyword::At => Some(Keyword::At),
            Keyword::Ask => Some(Keyword::Ask),
            Keyword::Raw => None,
            Keyword::Carry | Keyword::Truncate | Keyword::Lose => None,
            Keyword::Run | Keyword::Tick => None,
        }
    }

    /// The keyword that a word is, letters as they stand.
    pub(crate) fn of_word(word: &str) -> Option<Keyword>
        ensures { result ≡ keyword_of word.now }
    {
        match word {
            "at" => Some(Keyword::At),
            "ask" => Some(Keyword::Ask),
            "raw" => Some(Keyword::Raw),
            "carry" => Some(Keyword::Carry),
            "cut" => Some(Keyword::Truncate),
            "lose" => Some(Keyword::Lose),
            "run" => Some(Keyword::Run),
            "tick" => Some(Keyword::Tick),
            _ => None,
        }
    }
}
