//! The lines that the program takes, as `clap` reads them: a function for each subcommand.
ghost use Rattle.std.specs.Prelude.{◌≡◌, IfOk, IsOkAnd, true, false};
ghost use Rattle.clap.specs.Words.{AddsSubcommand, app_of, rule_of};
ghost use Rattle.clap.specs.declared.builder.command.Command.TheViews.{out-Command};
ghost use Rattle.commandline.specs.Grammar.{ask_app, bare_app, config_app, file_app, line_app, play_app, storm_app, trace_app, keep_rule, scripts_rule, word_rule};

use crate::help::Topic;
use clap::{Arg, ArgAction};
use std::alloc::{AllocError, Global};

// A word that has to stand, and stands once.
fn word<'a>(alloc: Global, name: &'a str) -> Arg<'a>
    ensures rule { rule_of result ≡ word_rule name.entry.now }
    ensures local { result.global ≡ false }
{
    Arg::new(alloc, name).required(true).action(ArgAction::Set)
}

// `ask ORIGIN FILE NAME TYPE`
fn ask_line<'a>(alloc: Global) -> Result<clap::Command<'a>, AllocError>
    ensures app { IfOk result (λ c. app_of c ≡ ask_app) }
    ensures local { IfOk result (λ c. (out-Command c).has_globals ≡ false) }
{
    file_line(alloc, "ask", Topic::Ask.usage())?
        .arg(word(alloc, "name"))?
        .arg(word(alloc, "type"))
}

// `check ORIGIN FILE`, `dump ORIGIN FILE`, or how `ask ORIGIN FILE NAME TYPE` begins.
fn file_line<'a>(
    alloc: Global,
    name: &'a str,
    about: &'a str,
) -> Result<clap::Command<'a>, AllocError>
    ensures app { IfOk result (λ c. app_of c ≡ file_app name.entry.now) }
    ensures local { IfOk result (λ c. (out-Command c).has_globals ≡ false) }
{
    clap::Command::new(alloc, name)
        .about(about)
        .arg(word(alloc, "origin"))?
        .arg(word(alloc, "file"))
}

// `play WORLD SCRIPT`
fn play_line<'a>(alloc: Global) -> Result<clap::Command<'a>, AllocError>
    ensures app { IfOk result (λ c. app_of c ≡ play_app) }
    ensures local { IfOk result (λ c. (out-Command c).has_globals ≡ false) }
{
    clap::Command::new(alloc, "play")
        .about(Topic::Play.usage())
        .arg(word(alloc, "world"))?
        .arg(word(alloc, "script"))
}

// `--keep N`, which may be left out.
fn keep_word<'a>(alloc: Global) -> Arg<'a>
    ensures rule { rule_of result ≡ keep_rule }
    ensures local { result.global ≡ false }
{
    Arg::new(alloc, "keep").long("keep").action(ArgAction::Set)
}

// `SCRIPT..`, one or more.
fn script_words<'a>(alloc: Global) -> Arg<'a>
    ensures rule { rule_of result ≡ scripts_rule }
    ensures local { result.global ≡ false }
{
    Arg::new(alloc, "script")
        .required(true)
        .num_args(1..)
        .action(ArgAction::Append)
}

// `storm [--keep N] WORLD SCRIPT..`
fn storm_line<'a>(alloc: Global) -> Result<clap::Command<'a>, AllocError>
    ensures app { IfOk result (λ c. app_of c ≡ storm_app) }
    ensures local { IfOk result (λ c. (out-Command c).has_globals ≡ false) }
{
    clap::Command::new(alloc, "storm")
        .about(Topic::Storm.usage())
        .arg(keep_word(alloc))?
        .arg(word(alloc, "world"))?
        .arg(script_words(alloc))
}

// `serve CONFIG`, `check-config CONFIG`, or how `trace CONFIG NAME TYPE` begins.
fn config_line<'a>(
    alloc: Global,
    name: &'a str,
    about: &'a str,
) -> Result<clap::Command<'a>, AllocError>
    ensures app { IfOk result (λ c. app_of c ≡ config_app name.entry.now) }
    ensures local { IfOk result (λ c. (out-Command c).has_globals ≡ false) }
{
    clap::Command::new(alloc, name)
        .about(about)
        .arg(word(alloc, "config"))
}

// `trace CONFIG NAME TYPE`
fn trace_line<'a>(alloc: Global) -> Result<clap::Command<'a>, AllocError>
    ensures app { IfOk result (λ c. app_of c ≡ trace_app) }
    ensures local { IfOk result (λ c. (out-Command c).has_globals ≡ false) }
{
    config_line(alloc, "trace", Topic::Trace.usage())?
        .arg(word(alloc, "name"))?
        .arg(word(alloc, "type"))
}

// The line without its subcommands, of which one has to stand.
fn bare_line<'a>(alloc: Global) -> clap::Command<'a>
    ensures { app_of result ≡ bare_app }
{
    clap::Command::new(alloc, "resolverd")
        .about(
            "Answers DNS queries, over the network, from a zone file or in a network in memory, and checks zone files",
        )
        .no_binary_name(true)
        .subcommand_required(true)
}

// The line with one subcommand more, where that was made.
fn with_line<'a>(
    line: clap::Command<'a>,
    subcommand: Result<clap::Command<'a>, AllocError>,
) -> Result<clap::Command<'a>, AllocError>
    ensures { IfOk result (λ c. IsOkAnd subcommand.entry (λ s. AddsSubcommand line.entry s c)) }
{
    match subcommand {
        Ok(subcommand) => line.subcommand(subcommand),
        Err(error) => {
            drop(line);
            Err(error)
        }
    }
}

/// The whole line, after the program's name.
pub fn line<'a>(alloc: Global) -> Result<clap::Command<'a>, AllocError>
    ensures app { IfOk result (λ c. app_of c ≡ line_app) }
{
    let line = with_line(bare_line(alloc), ask_line(alloc))?;
    let line = with_line(line, file_line(alloc, "check", Topic::Check.usage()))?;
    let line = with_line(line, file_line(alloc, "dump", Topic::Dump.usage()))?;
    let line = with_line(line, play_line(alloc))?;
    let line = with_line(line, storm_line(alloc))?;
    let line = with_line(line, config_line(alloc, "serve", Topic::Serve.usage()))?;
    let usage = Topic::CheckConfig.usage();
    let line = with_line(line, config_line(alloc, "check-config", usage))?;
    with_line(line, trace_line(alloc))
}
