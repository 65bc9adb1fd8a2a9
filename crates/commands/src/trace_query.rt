//! `trace`: one recursive query on the network, by the resolver that the file of a server describes.
ghost use Rattle.std.specs.Prelude.{◌≡◌, Some, IfOk, IfErr, string_bytes};
ghost use Rattle.dname.specs.Text.{name_of_text};
ghost use Rattle.rdata.specs.Types.{type_named};
ghost use Rattle.commands.specs.Runs.{IsRun};
ghost use Rattle.commands.specs.Servers.{HoldsConfig, IsNoServer};
ghost use Rattle.commands.specs.Texts.{MayHold};
ghost use Rattle.commands.specs.Traces.{IsNoTrace, IsTrace, IsWordFault, ReadsWords};
ghost use Rattle.commands.specs.declared.fault.Fault.TheVariants.{Memory};

use crate::fault::Fault;
use crate::host::Host;
use crate::run::{finish, report};
use crate::serve::{Prepared, prepare};
use crate::texts::Texts;
use dname::Name;
use memory::{Heap, Starved};
use rdata::RType;
use std::io::Write;
use trace::Peers;

/// Asks the resolver of a server's file for a name and a type, and prints what is asked and what comes of it, and the
/// reply: the exit status. The words are read before the file, and no socket is bound for clients.
pub fn trace_query<A: Heap, T: Texts, H: Host + Peers, O: Write, E: Write>(
    alloc: A,
    path: &str,
    name: &str,
    kind: &str,
    texts: &mut T,
    host: &mut H,
    out: &mut O,
    err: &mut E,
) -> u8
    ensures { IsRun (IsTrace (T.held texts.old path.now) name.now kind.now) (IsNoTrace (T.held texts.old) path.now name.now kind.now) (O.contents out.old) (O.contents out.new) (E.contents err.old) (E.contents err.new) result }
{
    match words_of(alloc, name, kind) {
        Ok((name, kind)) => trace_at(alloc, path, name, kind, texts, host, out, err),
        Err(fault) => report(&fault, err),
    }
}

// The name and the type that two words are.
fn words_of<A: Heap>(alloc: A, name: &str, kind: &str) -> Result<(Name<A>, RType), Fault<'static>>
    ensures ok { IfOk result (λ _. ReadsWords name.now kind.now) }
    ensures err { IfErr result (IsWordFault name.now kind.now) }
{
    let name = Name::from_text(alloc, name)?;
    match RType::from_word(kind.as_bytes()) {
        Some(kind) => Ok((name, kind)),
        None => Err(Fault::BadType),
    }
}

// The same for that name and type.
fn trace_at<A: Heap, T: Texts, H: Host + Peers, O: Write, E: Write>(
    alloc: A,
    path: &str,
    name: Name<A>,
    kind: RType,
    texts: &mut T,
    host: &mut H,
    out: &mut O,
    err: &mut E,
) -> u8
    ensures { IsRun (λ _. HoldsConfig (T.held texts.old path.now)) (IsNoServer (T.held texts.old) path.now) (O.contents out.old) (O.contents out.new) (E.contents err.old) (E.contents err.new) result }
{
    match texts.text(alloc, path) {
        Ok(Some(text)) => trace_in(
            alloc,
            path,
            text.as_str(),
            name,
            kind,
            texts,
            host,
            out,
            err,
        ),
        Ok(None) => report(&Fault::Unreadable(path), err),
        Err(Starved) => report(&Fault::Memory, err),
    }
}

// The same, where the file's text is read.
fn trace_in<A: Heap, T: Texts, H: Host + Peers, O: Write, E: Write>(
    alloc: A,
    path: &str,
    text: &str,
    name: Name<A>,
    kind: RType,
    texts: &mut T,
    host: &mut H,
    out: &mut O,
    err: &mut E,
) -> u8
    requires { MayHold (T.held texts.old path.now) (Some text.now) }
    ensures { IsRun (λ _. HoldsConfig (T.held texts.old path.now)) (IsNoServer (T.held texts.old) path.now) (O.contents out.old) (O.contents out.new) (E.contents err.old) (E.contents err.new) result }
{
    match prepare(alloc, path, text, texts, host) {
        Ok(prepared) => finish(&lines_of(alloc, prepared, name, kind, host), out, err),
        Err(fault) => report(&fault, err),
    }
}

// What is printed of a query to this resolver.
fn lines_of<A: Heap, H: Peers>(
    alloc: A,
    prepared: Prepared<A>,
    name: Name<A>,
    kind: RType,
    host: &mut H,
) -> Result<String<A>, Fault<'static>>
    ensures { IfErr result (λ f. f ≡ Memory) }
{
    let reach = prepared.server.bounds.reach;
    let core = prepared.server.into_core();
    match trace::trace(alloc, core, reach, name, kind, host) {
        Ok(lines) => Ok(lines),
        Err(Starved) => Err(Fault::Memory),
    }
}
