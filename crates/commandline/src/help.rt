//! What is printed of the program, of one command, and of the numbers of faults and statuses.
ghost use Rattle.std.specs.Prelude.{◌≡◌, [], ◌∷◌, MatchOption, map, string_bytes};
ghost use Rattle.std.specs.List.{list_any};
ghost use Rattle.commandline.specs.Helps.{asks_help, asks_version, topic_of as topic_asked, topic_of_first, topic_of_word, topic_word};
ghost use Rattle.commandline.specs.Says.{word_of};
ghost use Rattle.commandline.specs.declared.subcommands.Command.{Command};

use crate::help_texts::{ASKED, CHECKED, CONFIG_CHECKED, DUMPED, PLAYED, SERVED, STORMED, TRACED};

/// The program's name and version, as a line.
pub const VERSION: &str = "resolverd 0.1.0\n";

/// The commands that help can be asked of.
#[derive(Clone, Copy)]
pub(crate) enum Topic {
    Ask,
    Check,
    Dump,
    Play,
    Storm,
    Serve,
    CheckConfig,
    Trace,
}

impl Topic {
    /// The command that a word names.
    pub(crate) fn of_word(word: &str) -> Option<Topic>
        ensures is { result ≡ topic_of_word word.now }
        ensures named { MatchOption result ((command : Command) → word.now ≡ word_of command → ⊥) (λ topic. word.now ≡ topic_word topic) }
    {
        match word {
            "ask" => Some(Topic::Ask),
            "check" => Some(Topic::Check),
            "dump" => Some(Topic::Dump),
            "play" => Some(Topic::Play),
            "storm" => Some(Topic::Storm),
            "serve" => Some(Topic::Serve),
            "check-config" => Some(Topic::CheckConfig),
            "trace" => Some(Topic::Trace),
            _ => None,
        }
    }

    /// The word that names it.
    pub(crate) fn word(self) -> &'static str {
        match self {
            Topic::Ask => "ask",
            Topic::Check => "check",
            Topic::Dump => "dump",
            Topic::Play => "play",
            Topic::Storm => "storm",
            Topic::Serve => "serve",
            Topic::CheckConfig => "check-config",
            Topic::Trace => "trace",
        }
    }

    /// The words behind it, and what it does. The lifetime is the caller's, which `clap` wants.
    pub(crate) fn usage<'a>(self) -> &'a str {
        match self {
            Topic::Ask => "ORIGIN FILE NAME TYPE: answers one query from one zone file",
            Topic::Check => "ORIGIN FILE: reads a zone file and says how many records it has",
            Topic::Dump => "ORIGIN FILE: prints the records of a zone file, one a line",
            Topic::Play =>
                "WORLD SCRIPT: plays a script in a network in memory, and says how many replies are right",
            Topic::Storm =>
                "[--keep N] WORLD SCRIPT..: plays each script by a thread of its own, and says how many replies are right",
            Topic::Serve =>
                "CONFIG: answers the queries of clients, from the zones of the file and from other servers",
            Topic::CheckConfig =>
                "CONFIG: says why serve would refuse a file, and what it may not be meant to say",
            Topic::Trace =>
                "CONFIG NAME TYPE: asks other servers as serve would, and says which was asked what, and what came of it",
        }
    }

    /// What it prints, and what its faults mean.
    pub(crate) fn parts(self) -> &'static [&'static str] {
        match self {
            Topic::Ask => ASKED,
            Topic::Check => CHECKED,
            Topic::Dump => DUMPED,
            Topic::Play => PLAYED,
            Topic::Storm => STORMED,
            Topic::Serve => SERVED,
            Topic::CheckConfig => CONFIG_CHECKED,
            Topic::Trace => TRACED,
        }
    }
}

/// Whether the words ask for the version, and for nothing else.
pub fn is_version(words: &[String]) -> bool
    ensures { result ≡ asks_version (map string_bytes words.now) }
{
    match words {
        [word] => is_version_word(word.as_str()),
        _ => false,
    }
}

fn is_version_word(word: &str) -> bool
    ensures { result ≡ asks_version (word.now ∷ []) }
{
    word == "--version" || word == "-V"
}

/// The command that the words ask help of, by `help COMMAND` or by `--help` behind its name.
pub(crate) fn topic_of(words: &[String]) -> Option<Topic>
    ensures { result ≡ topic_asked (map string_bytes words.now) }
{
    match words {
        [] => None,
        [first, rest @ ..] => topic_in(first.as_str(), rest),
    }
}

// The same, of a first word and those behind it.
fn topic_in(first: &str, rest: &[String]) -> Option<Topic>
    ensures { result ≡ topic_asked (first.now ∷ map string_bytes rest.now) }
{
    if first == "help" {
        return first_topic(rest);
    }
    if has_help(rest) {
        return Topic::of_word(first);
    }
    None
}

fn first_topic(words: &[String]) -> Option<Topic>
    ensures { result ≡ topic_of_first (map string_bytes words.now) }
{
    match words {
        [] => None,
        [word, ..] => Topic::of_word(word.as_str()),
    }
}

// Whether one of the words asks for help.
fn has_help(words: &[String]) -> bool
    ensures { result ≡ list_any asks_help (map string_bytes words.now) }
{
    some_is_help(words)
}

// The same, with the bytes of each word taken one by one.
fn some_is_help(words: &[String]) -> bool
    ensures { result ≡ list_any (λ s. asks_help (string_bytes s)) words.now }
{
    words.iter().any(|word| is_help(word.as_str()))
}

fn is_help(word: &str) -> bool
    ensures { result ≡ asks_help word.now }
{
    word == "--help" || word == "-h"
}
