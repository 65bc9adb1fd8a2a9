//! The command line of `resolverd`: which subcommand the words name, with what. It is a library of its own, so that
//! no other crate's check has to read `clap`.
//!
//! `read_words` gives the `Command` of the words after the program's name: `ask`, `check`, `dump`, `play`, `storm`,
//! `serve`, `check-config` or `trace`. `help_text` is what is printed where they name none: of the command that they ask help
//! of, or of all; `is_version` says whether they ask for the version.
//!
//! Promised: the command is the one that the words name by the line's grammar (`Names`), and they are refused only
//! where they name none (`NamesNothing`), or when out of memory.
//! Not here: doing what is asked (`commands`).
//!
//! ```text
//! match read_words(alloc, &words)? {
//!     Command::Ask { origin, file, name, kind } => { /* ask lab.example. lab.zone www.lab.example. A */ }
//!     Command::Serve { config } => { /* serve resolverd.conf */ }
//!     _ => {}
//! }
//! ```
#![tactic(auto)]

ghost use Rattle.std.specs.Bool.{OnTrue};
ghost use Rattle.std.specs.Prelude.{◌≡◌, IfOk, IfErr, map, string_bytes};
ghost use Rattle.commandline.specs.Helps.{asks_version, version_line};
ghost use Rattle.commandline.specs.Says.{Names, NamesNothing};
ghost use Rattle.commandline.specs.declared.fault.LineFault.TheVariants.{Words, Memory};

mod fault;
mod grammar;
mod help;
mod help_texts;
mod subcommands;

pub use fault::LineFault;
pub use help::{VERSION, is_version};
use help::{Topic, topic_of};
use std::alloc::Global;
pub use subcommands::Command;

/// What the words after the program's name ask for.
///
/// A call for help is `LineFault::Words`, as every line that names no command.
pub fn read_words(alloc: Global, words: &[String]) -> Result<Command, LineFault>
    ensures ok { IfOk result (Names (map string_bytes words.now)) }
    ensures refused { IfErr result (λ e. e ≡ Words → NamesNothing (map string_bytes words.now)) }
{
    let line = grammar::line(alloc)?;
    let matches = line.try_get_matches_from(words)?;
    subcommands::read_subcommand(alloc, &matches)
}

/// What is printed for words that name no command: the version, what can be said of the command that they ask help
/// of, or all that the program can be asked, and what its numbers mean.
pub fn help_text(alloc: Global, words: &[String]) -> Result<String, LineFault>
    ensures version { IfOk result (λ s. OnTrue (asks_version (map string_bytes words.now)) (string_bytes s ≡ version_line)) }
    ensures err { IfErr result (λ e. e ≡ Memory) }
{
    if is_version(words) {
        return Ok(String::from_str(alloc, VERSION)?);
    }
    match topic_of(words) {
        Some(topic) => topic_text(alloc, topic),
        None => whole_text(alloc),
    }
}

// All that the program can be asked, and what its numbers mean.
fn whole_text(alloc: Global) -> Result<String, LineFault>
    ensures { IfErr result (λ e. e ≡ Memory) }
{
    let mut text = grammar_text(alloc)?;
    put_parts(&mut text, help_texts::PARTS)?;
    Ok(text)
}

// All that the program can be asked.
fn grammar_text(alloc: Global) -> Result<String, LineFault>
    ensures { IfErr result (λ e. e ≡ Memory) }
{
    let mut line = grammar::line(alloc)?;
    let text = line.render_help();
    drop(line);
    Ok(text?)
}

fn put_parts(text: &mut String, parts: &[&str]) -> Result<(), LineFault>
    ensures { IfErr result (λ e. e ≡ Memory) }
{
    for part in parts {
        text.push_str(*part)?;
    }
    Ok(())
}

// What can be said of one command.
fn topic_text(alloc: Global, topic: Topic) -> Result<String, LineFault>
    ensures { IfErr result (λ e. e ≡ Memory) }
{
    let mut text = String::new(alloc);
    put_topic(&mut text, topic)?;
    put_parts(&mut text, topic.parts())?;
    Ok(text)
}

// The line of one command.
fn put_topic(text: &mut String, topic: Topic) -> Result<(), LineFault>
    ensures { IfErr result (λ e. e ≡ Memory) }
{
    text.push_str("resolverd ")?;
    text.push_str(topic.word())?;
    text.push_str(" ")?;
    text.push_str(topic.usage())?;
    text.push_str("\n")?;
    Ok(())
}
