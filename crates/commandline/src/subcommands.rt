//! The subcommands, read from what `clap` matched: a function and an arm for each.
ghost use Rattle.std.specs.Prelude.{◌≡◌, ℕ, IfOk, IfErr, Some, None, codes, map, string_bytes};
ghost use Rattle.clap.specs.Words.{all_of, found_of, first_of, rows_of, subcommand_rows_of};
ghost use Rattle.commandline.specs.Helps.{topic_word};
ghost use Rattle.commandline.specs.Says.{IsKeep, IsNamed, Says};
ghost use Rattle.commandline.specs.declared.fault.LineFault.TheVariants.{Words, Memory};
ghost use Rattle.commandline.specs.declared.subcommands.Command.{Command};

use crate::fault::LineFault;
use crate::help::Topic;
use clap::ArgMatches;
use std::alloc::Global;
use std::str::FromStr;

/// What the program is asked to do.
#[derive(Debug, Drop)]
pub enum Command {
    /// `ask ORIGIN FILE NAME TYPE`: answers one query from one zone file.
    Ask {
        /// The zone's origin.
        origin: String,
        /// The path of the zone's master file.
        file: String,
        /// The name that is asked for.
        name: String,
        /// The type that is asked for, as a word.
        kind: String,
    },
    /// `check ORIGIN FILE`: says how many records a zone file has.
    Check {
        /// The zone's origin.
        origin: String,
        /// The path of the zone's master file.
        file: String,
    },
    /// `dump ORIGIN FILE`: prints the records of a master file.
    Dump {
        /// The origin that the file begins with.
        origin: String,
        /// The path of the master file.
        file: String,
    },
    /// `play WORLD SCRIPT`: plays a script in a network in memory.
    Play {
        /// The path of the world's text.
        world: String,
        /// The path of the script.
        script: String,
    },
    /// `storm [--keep N] WORLD SCRIPT..`: plays scripts by threads of one resolver in a network in memory.
    Storm {
        /// How many entries of its history are kept, 1 to 1,000,000.
        keep: u32,
        /// The path of the world's text.
        world: String,
        /// The paths of the scripts, one or more.
        scripts: Vec<String>,
    },
    /// `serve CONFIG`: answers clients over the network.
    Serve {
        /// The path of the server's file.
        config: String,
    },
    /// `check-config CONFIG`: says why `serve` would refuse a file, or what it makes of it.
    CheckConfig {
        /// The path of the server's file.
        config: String,
    },
    /// `trace CONFIG NAME TYPE`: asks other servers as `serve` would, and says what came of each ask.
    Trace {
        /// The path of the server's file.
        config: String,
        /// The name that is asked for.
        name: String,
        /// The type that is asked for, as a word.
        kind: String,
    },
}

// The word that stands for `id`.
fn text_of(alloc: Global, found: &ArgMatches<'_>, id: &str) -> Result<String, LineFault>
    ensures ok { IfOk result (λ copy. first_of id.now (rows_of (found_of found.now)) ≡ Some (string_bytes copy)) }
    ensures refused { IfErr result (λ e. e ≡ Words → first_of id.now (rows_of (found_of found.now)) ≡ None) }
{
    match found.get_str(id) {
        Some(text) => Ok(String::from_str(alloc, text)?),
        None => Err(LineFault::Words),
    }
}

fn read_ask(alloc: Global, found: &ArgMatches<'_>) -> Result<Command, LineFault>
    ensures ok { IfOk result (IsNamed (codes "ask") (rows_of (found_of found.now))) }
    ensures refused { IfErr result (λ e. e ≡ Words → (command : Command) → IsNamed (codes "ask") (rows_of (found_of found.now)) command → ⊥) }
{
    let origin = text_of(alloc, found, "origin")?;
    let file = text_of(alloc, found, "file")?;
    let name = text_of(alloc, found, "name")?;
    let kind = text_of(alloc, found, "type")?;
    Ok(Command::Ask {
        origin,
        file,
        name,
        kind,
    })
}

fn read_check(alloc: Global, found: &ArgMatches<'_>) -> Result<Command, LineFault>
    ensures ok { IfOk result (IsNamed (codes "check") (rows_of (found_of found.now))) }
    ensures refused { IfErr result (λ e. e ≡ Words → (command : Command) → IsNamed (codes "check") (rows_of (found_of found.now)) command → ⊥) }
{
    let origin = text_of(alloc, found, "origin")?;
    let file = text_of(alloc, found, "file")?;
    Ok(Command::Check { origin, file })
}

fn read_dump(alloc: Global, found: &ArgMatches<'_>) -> Result<Command, LineFault>
    ensures ok { IfOk result (IsNamed (codes "dump") (rows_of (found_of found.now))) }
    ensures refused { IfErr result (λ e. e ≡ Words → (command : Command) → IsNamed (codes "dump") (rows_of (found_of found.now)) command → ⊥) }
{
    let origin = text_of(alloc, found, "origin")?;
    let file = text_of(alloc, found, "file")?;
    Ok(Command::Dump { origin, file })
}

fn read_play(alloc: Global, found: &ArgMatches<'_>) -> Result<Command, LineFault>
    ensures ok { IfOk result (IsNamed (codes "play") (rows_of (found_of found.now))) }
    ensures refused { IfErr result (λ e. e ≡ Words → (command : Command) → IsNamed (codes "play") (rows_of (found_of found.now)) command → ⊥) }
{
    let world = text_of(alloc, found, "world")?;
    let script = text_of(alloc, found, "script")?;
    Ok(Command::Play { world, script })
}

// How many entries are kept where no number stands there, and the most that may.
const DEFAULT_KEEP: u32 = 65_536;

const MAX_KEEP: u32 = 1_000_000;

// How many entries are kept.
fn keep_of(found: &ArgMatches<'_>) -> Result<u32, LineFault>
    ensures ok { IfOk result (IsKeep (first_of (codes "keep") (rows_of (found_of found.now)))) }
    ensures refused { IfErr result (λ e. e ≡ Words → (n : ℕ) → IsKeep (first_of (codes "keep") (rows_of (found_of found.now))) n → ⊥) }
{
    match found.get_str("keep") {
        None => Ok(DEFAULT_KEEP),
        Some(text) => kept_in(text),
    }
}

// The number in the word behind `--keep`.
fn kept_in(text: &str) -> Result<u32, LineFault>
    ensures ok { IfOk result (IsKeep (Some text.now)) }
    ensures refused { IfErr result (λ e. e ≡ Words → (n : ℕ) → IsKeep (Some text.now) n → ⊥) }
{
    match u32::from_str(text) {
        Ok(number) if 1 <= number && number <= MAX_KEEP => Ok(number),
        _ => Err(LineFault::Words),
    }
}

// The words that stand for `id`, one or more.
fn texts_of(alloc: Global, found: &ArgMatches<'_>, id: &str) -> Result<Vec<String>, LineFault>
    ensures ok { IfOk result (λ copies. all_of id.now (rows_of (found_of found.now)) ≡ Some (map string_bytes copies.items)) }
    ensures refused { IfErr result (λ e. e ≡ Words → all_of id.now (rows_of (found_of found.now)) ≡ None) }
{
    match found.get_raw(id) {
        Some(texts) => copies(alloc, texts),
        None => Err(LineFault::Words),
    }
}

fn copies(alloc: Global, texts: &[&str]) -> Result<Vec<String>, LineFault>
    ensures ok { IfOk result (λ copies. map (λ t. t.now) texts.now ≡ map string_bytes copies.items) }
    ensures refused { IfErr result (λ e. e ≡ Memory) }
{
    let mut copies = Vec::new(alloc);
    for text in texts {
        copies.push(String::from_str(alloc, text)?)?;
    }
    Ok(copies)
}

fn read_storm(alloc: Global, found: &ArgMatches<'_>) -> Result<Command, LineFault>
    ensures ok { IfOk result (IsNamed (codes "storm") (rows_of (found_of found.now))) }
    ensures refused { IfErr result (λ e. e ≡ Words → (command : Command) → IsNamed (codes "storm") (rows_of (found_of found.now)) command → ⊥) }
{
    let keep = keep_of(found)?;
    let world = text_of(alloc, found, "world")?;
    let scripts = texts_of(alloc, found, "script")?;
    Ok(Command::Storm {
        keep,
        world,
        scripts,
    })
}

fn read_serve(alloc: Global, found: &ArgMatches<'_>) -> Result<Command, LineFault>
    ensures ok { IfOk result (IsNamed (codes "serve") (rows_of (found_of found.now))) }
    ensures refused { IfErr result (λ e. e ≡ Words → (command : Command) → IsNamed (codes "serve") (rows_of (found_of found.now)) command → ⊥) }
{
    let config = text_of(alloc, found, "config")?;
    Ok(Command::Serve { config })
}

fn read_check_config(alloc: Global, found: &ArgMatches<'_>) -> Result<Command, LineFault>
    ensures ok { IfOk result (IsNamed (codes "check-config") (rows_of (found_of found.now))) }
    ensures refused { IfErr result (λ e. e ≡ Words → (command : Command) → IsNamed (codes "check-config") (rows_of (found_of found.now)) command → ⊥) }
{
    let config = text_of(alloc, found, "config")?;
    Ok(Command::CheckConfig { config })
}

fn read_trace(alloc: Global, found: &ArgMatches<'_>) -> Result<Command, LineFault>
    ensures ok { IfOk result (IsNamed (codes "trace") (rows_of (found_of found.now))) }
    ensures refused { IfErr result (λ e. e ≡ Words → (command : Command) → IsNamed (codes "trace") (rows_of (found_of found.now)) command → ⊥) }
{
    let config = text_of(alloc, found, "config")?;
    let name = text_of(alloc, found, "name")?;
    let kind = text_of(alloc, found, "type")?;
    Ok(Command::Trace { config, name, kind })
}

// The command of a topic, with its words.
fn read_topic(alloc: Global, topic: Topic, found: &ArgMatches<'_>) -> Result<Command, LineFault>
    ensures ok { IfOk result (IsNamed (topic_word topic) (rows_of (found_of found.now))) }
    ensures refused { IfErr result (λ e. e ≡ Words → (command : Command) → IsNamed (topic_word topic) (rows_of (found_of found.now)) command → ⊥) }
{
    match topic {
        Topic::Ask => read_ask(alloc, found),
        Topic::Check => read_check(alloc, found),
        Topic::Dump => read_dump(alloc, found),
        Topic::Play => read_play(alloc, found),
        Topic::Storm => read_storm(alloc, found),
        Topic::Serve => read_serve(alloc, found),
        Topic::CheckConfig => read_check_config(alloc, found),
        Topic::Trace => read_trace(alloc, found),
    }
}

// The command of this name, with its words.
fn read_named(alloc: Global, word: &str, found: &ArgMatches<'_>) -> Result<Command, LineFault>
    ensures ok { IfOk result (IsNamed word.now (rows_of (found_of found.now))) }
    ensures refused { IfErr result (λ e. e ≡ Words → (command : Command) → IsNamed word.now (rows_of (found_of found.now)) command → ⊥) }
{
    match Topic::of_word(word) {
        Some(topic) => read_topic(alloc, topic, found),
        None => Err(LineFault::Words),
    }
}

/// The subcommand that the line names, with its words.
pub fn read_subcommand(alloc: Global, matches: &ArgMatches<'_>) -> Result<Command, LineFault>
    ensures ok { IfOk result (Says (subcommand_rows_of matches.now)) }
    ensures refused { IfErr result (λ e. e ≡ Words → (command : Command) → Says (subcommand_rows_of matches.now) command → ⊥) }
{
    match matches.subcommand() {
        Some((word, found)) => read_named(alloc, word, found),
        None => Err(LineFault::Words),
    }
}
