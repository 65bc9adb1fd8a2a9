//! The first words of a server's file.
ghost use Rattle.std.specs.Prelude.{◌≡◌};
ghost use Rattle.config.specs.Keywords.{keyword_of};

/// What the first word of a line says.
#[derive(Clone, Copy)]
pub(crate) enum Keyword {
    Listen,
    Port,
    Hint,
    Local,
    Cache,
    Delegations,
    Penalties,
    Failures,
    Sockets,
    Workers,
    Streams,
    Clients,
    Loops,
    Metrics,
    Log,
    Seed,
}

impl Keyword {
    /// The keyword that a word is, letters as they stand.
    pub(crate) fn of_word(word: &str) -> Option<Keyword>
        ensures { result ≡ keyword_of word.now }
    {
        match word {
            "listen" => Some(Keyword::Listen),
            "port" => Some(Keyword::Port),
            "hint" => Some(Keyword::Hint),
            "local" => Some(Keyword::Local),
            "cache" => Some(Keyword::Cache),
            "delegations" => Some(Keyword::Delegations),
            "penalties" => Some(Keyword::Penalties),
            "failures" => Some(Keyword::Failures),
            "sockets" => Some(Keyword::Sockets),
            "workers" => Some(Keyword::Workers),
            "streams" => Some(Keyword::Streams),
            "clients" => Some(Keyword::Clients),
            "loops" => Some(Keyword::Loops),
            "metrics" => Some(Keyword::Metrics),
            "log" => Some(Keyword::Log),
            "seed" => Some(Keyword::Seed),
            _ => None,
        }
    }
}
