//! Commands, done: output to one writer, a fault's line to the other, and the exit status.
ghost use Rattle.std.specs.Prelude.{◌≡◌, None, map, string_bytes};
ghost use Rattle.std.specs.Bool.{OnTrue};
ghost use Rattle.std.specs.Io.KnownBytes.{Appends};
ghost use Rattle.std.specs.declared.alloc.Global.{Global};
ghost use Rattle.commands.specs.Faults.{IsReported};
ghost use Rattle.commands.specs.Runs.{Ended, IsBoundFor, IsDone, IsExplained, IsLineDone, IsPrinted, IsRefusedLine, StartsFor, shown};

use crate::ask::ask;
use crate::check_config::check_config;
use crate::fault::Fault;
use crate::files::{check, dump};
use crate::host::Host;
use crate::outcome::Outcome;
use crate::play_script::play;
use crate::serve::start_server;
use crate::storm_scripts::storm;
use crate::texts::Texts;
use crate::trace_query::trace_query;
use commandline::{Command, LineFault, help_text, is_version, read_words};
use memory::Heap;
use std::alloc::{Allocator, Global};
use std::io::Write;
use std::sync::Wait;
use std::thread::Threads;
use trace::Peers;

/// Does what the words after the program's name ask, and gives the exit status, and the server that was started. Words
/// that name no command are answered with the help text and status 2.
pub fn run_words<
    R: Threads + Wait + AllocGlobal + Sync,
    T: Texts,
    H: Host + Peers,
    O: Write,
    E: Write,
>(rt: &R, words: &[String], texts: &mut T, host: &mut H, out: &mut O, err: &mut E) -> Outcome
    ensures { IsLineDone Global (map string_bytes words.now) (T.held texts.old) (H.bound host.new) (O.contents out.old) (O.contents out.new) (E.contents err.old) (E.contents err.new) result.status result.server }
{
    let alloc = rt.alloc();
    match read_words(alloc, words) {
        Ok(command) => run_command(rt, alloc, &command, texts, host, out, err),
        Err(fault) => Outcome {
            status: refuse_line(alloc, words, fault, out, err),
            server: None,
        },
    }
}

/// Answers words that name no command: with the version and status 0, with help and status 2, or as out of memory.
pub fn refuse_line<O: Write, E: Write>(
    alloc: Global,
    words: &[String],
    fault: LineFault,
    out: &mut O,
    err: &mut E,
) -> u8
    ensures { IsRefusedLine (map string_bytes words.now) fault (O.contents out.old) (O.contents out.new) (E.contents err.old) (E.contents err.new) result }
{
    match fault {
        LineFault::Words => explain(alloc, words, out, err),
        LineFault::Memory => report(&Fault::Memory, err),
    }
}

/// Does a command and gives the exit status: 0 done, 1 input refused, 3 no memory, 4 an unreadable file, an
/// address that can't be bound or failed output. Of a command that fails nothing is printed but the line of its
/// fault, unless the output itself fails. The server that `serve` starts, where all went well, is to be run. The
/// workers of `storm` are threads of `rt`, and what they share lies in its memory.
pub fn run_command<
    R: Threads + Wait + AllocGlobal + Sync,
    A: Heap,
    T: Texts,
    H: Host + Peers,
    O: Write,
    E: Write,
>(
    rt: &R,
    alloc: A,
    command: &Command,
    texts: &mut T,
    host: &mut H,
    out: &mut O,
    err: &mut E,
) -> Outcome<A>
    ensures run { IsDone A (T.held texts.old) command.now (O.contents out.old) (O.contents out.new) (E.contents err.old) (E.contents err.new) result.status }
    ensures starts { StartsFor (T.held texts.old) command.now result.status result.server }
    ensures bound { IsBoundFor command.now result.status result.server (H.bound host.new) }
{
    match command {
        Command::Ask {
            origin,
            file,
            name,
            kind,
        } => finished(ask(alloc, texts, origin, file, name, kind), out, err),
        Command::Check { origin, file } => finished(check(alloc, texts, origin, file), out, err),
        Command::Dump { origin, file } => finished(dump(alloc, texts, origin, file), out, err),
        Command::Play { world, script } => finished(play(alloc, texts, world, script), out, err),
        Command::Storm {
            keep,
            world,
            scripts,
        } => finished(storm(rt, texts, *keep, world, scripts), out, err),
        Command::Serve { config } => start_server(alloc, config, texts, host, out, err),
        Command::CheckConfig { config } => {
            let status = check_config(alloc, config, texts, host, out, err);
            Outcome::without_server(status)
        }
        Command::Trace { config, name, kind } => {
            let status = trace_query(alloc, config, name, kind, texts, host, out, err);
            Outcome::without_server(status)
        }
    }
}

// The same as an outcome, for a command that starts no server.
fn finished<A: Allocator, S: Allocator, O: Write, E: Write>(
    done: Result<String<S>, Fault<'_>>,
    out: &mut O,
    err: &mut E,
) -> Outcome<A>
    ensures ended { Ended (shown string_bytes done.entry) (O.contents out.old) (O.contents out.new) (E.contents err.old) (E.contents err.new) result.status }
    ensures none { result.server ≡ None }
{
    Outcome {
        status: finish(&done, out, err),
        server: None,
    }
}

/// Prints what came out, and gives the exit status.
pub(crate) fn finish<A: Allocator, O: Write, E: Write>(
    done: &Result<String<A>, Fault<'_>>,
    out: &mut O,
    err: &mut E,
) -> u8
    ensures { Ended (shown string_bytes done.now) (O.contents out.old) (O.contents out.new) (E.contents err.old) (E.contents err.new) result }
{
    match done {
        Ok(text) => put(text, 0, out, err),
        Err(fault) => report(fault, err),
    }
}

// Prints what the words ask for: the version or help; the status of a line that names no command is 2.
fn explain<O: Write, E: Write>(alloc: Global, words: &[String], out: &mut O, err: &mut E) -> u8
    ensures { IsExplained (map string_bytes words.now) (O.contents out.old) (O.contents out.new) (E.contents err.old) (E.contents err.new) result }
{
    let status = if is_version(words) { 0 } else { 2 };
    match help_text(alloc, words) {
        Ok(text) => put(&text, status, out, err),
        Err(_) => report(&Fault::Memory, err),
    }
}

/// Prints a text, and gives the status, unless the output fails.
pub fn put<A: Allocator, O: Write, E: Write>(
    text: &String<A>,
    status: u8,
    out: &mut O,
    err: &mut E,
) -> u8
    ensures { IsPrinted (string_bytes text.now) status (O.contents out.old) (O.contents out.new) (E.contents err.old) (E.contents err.new) result }
{
    if written(text, out) {
        status
    } else {
        let _ = report(&Fault::Output, err);
        Fault::Output.status()
    }
}

// Whether a text was written whole.
fn written<A: Allocator, O: Write>(text: &String<A>, out: &mut O) -> bool
    ensures { OnTrue result (Appends (O.contents out.old) (O.contents out.new) (string_bytes text.now)) }
{
    out.write_all(text.as_bytes()).is_ok() && out.flush().is_ok()
}

/// Prints the line of a fault, and gives its status: 4, that of failed output, where the line can't be
/// printed.
pub fn report<E: Write>(fault: &Fault<'_>, err: &mut E) -> u8
    ensures { IsReported fault.now (E.contents err.old) (E.contents err.new) result }
{
    match writeln!(err, "error: {fault}") {
        Ok(()) => fault.status(),
        Err(_) => Fault::Output.status(),
    }
}
