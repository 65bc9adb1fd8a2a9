//! `serve`: a server, started from its file.
ghost use Rattle.std.specs.Prelude.{◌≡◌, Some, None, IfOk, IfErr, IfSome, IsTrue, string_bytes};
ghost use Rattle.commands.specs.Faults.{IsReported};
ghost use Rattle.commands.specs.declared.fault.Fault.TheVariants.{Settings};
ghost use Rattle.commands.specs.Runs.{IsPrinted, IsRun};
ghost use Rattle.commands.specs.Servers.{PrintsAddress, IsNoServer, Describes, IsStartFault, LacksSeed, LacksZone, NamesEnd, IsUnbound, AreZonesIn, IsMadeOf, IsBounded, IsMadeWith, IsSeedOf, IsServer, IsUnmade, StartsWith, Starts, address_line, end_of};
ghost use Rattle.commands.specs.Texts.{MayHold};
ghost use Rattle.commands.specs.Zones.{HoldsZone, HoldsNoZone};

use crate::fault::Fault;
use crate::host::{Host, RANDOM};
use crate::outcome::{Outcome, Server};
use crate::run::{put, report};
use crate::texts::Texts;
use crate::zones::read_zone;
use commandline::VERSION;
use config::{LocalFile, LogLevel, ServeConfig, read_config};
use dispatch::Reach;
use engine::CoreError;
use events::Endpoint;
use memory::{Heap, Starved};
use server::{Bounds, Shown, Verbosity};
use server_start::resolver_of;
use std::alloc::Allocator;
use std::io::Write;
use zone::Zone;

/// A server that is made, where it is to listen, and what is shown of it.
#[derive(Drop)]
pub(crate) struct Prepared<A: Allocator> {
    pub(crate) server: Server<A>,
    pub(crate) listen: Endpoint,
    pub(crate) shown: Shown,
}

/// Reads the file of a server at a path, and the files of its zones, binds its sockets and prints where it listens: the
/// exit status, and the server. No socket is bound where a file is refused, and nothing printed where a socket is.
pub fn start_server<A: Heap, T: Texts, H: Host, O: Write, E: Write>(
    alloc: A,
    path: &str,
    texts: &mut T,
    host: &mut H,
    out: &mut O,
    err: &mut E,
) -> Outcome<A>
    ensures run { IsRun (PrintsAddress (T.held texts.old path.now)) (IsNoServer (T.held texts.old) path.now) (O.contents out.old) (O.contents out.new) (E.contents err.old) (E.contents err.new) result.status }
    ensures starts { Starts (T.held texts.old) path.now result.status result.server }
    ensures bound { IfSome result.server (λ _. IsTrue (H.bound host.new)) }
{
    match texts.text(alloc, path) {
        Ok(Some(text)) => serve_text(alloc, path, text.as_str(), texts, host, out, err),
        Ok(None) => no_server(&Fault::Unreadable(path), err),
        Err(Starved) => no_server(&Fault::Memory, err),
    }
}

// The same, where the file's text is read.
fn serve_text<A: Heap, T: Texts, H: Host, O: Write, E: Write>(
    alloc: A,
    path: &str,
    text: &str,
    texts: &mut T,
    host: &mut H,
    out: &mut O,
    err: &mut E,
) -> Outcome<A>
    requires { MayHold (T.held texts.old path.now) (Some text.now) }
    ensures run { IsRun (PrintsAddress (T.held texts.old path.now)) (IsNoServer (T.held texts.old) path.now) (O.contents out.old) (O.contents out.new) (E.contents err.old) (E.contents err.new) result.status }
    ensures starts { Starts (T.held texts.old) path.now result.status result.server }
    ensures bound { IfSome result.server (λ _. IsTrue (H.bound host.new)) }
{
    match prepare(alloc, path, text, texts, host) {
        Ok(prepared) => start(alloc, prepared, host, out, err),
        Err(fault) => no_server(&fault, err),
    }
}

// What comes of a fault: its line, and no server.
fn no_server<A: Heap, E: Write>(fault: &Fault<'_>, err: &mut E) -> Outcome<A>
    ensures reported { IsReported fault.now (E.contents err.old) (E.contents err.new) result.status }
    ensures fails { result.status ≡ 0 → ⊥ }
    ensures none { result.server ≡ None }
{
    Outcome {
        status: report(fault, err),
        server: None,
    }
}

/// The server that the text of its file describes.
pub(crate) fn prepare<'t, A: Heap, T: Texts, H: Host>(
    alloc: A,
    path: &'t str,
    text: &'t str,
    texts: &mut T,
    host: &mut H,
) -> Result<Prepared<A>, Fault<'t>>
    requires { MayHold (T.held texts.old path.now) (Some text.now) }
    ensures ok { IfOk result (λ p. Describes text.entry.now (end_of p.listen) × IsServer (T.held texts.old) text.entry.now p.server) }
    ensures err { IfErr result (IsNoServer (T.held texts.old) path.entry.now) }
{
    match read_config(alloc, text) {
        Ok(config) => prepare_with(alloc, config, texts, host),
        Err(error) => Err(Fault::of_line(path, error)),
    }
}

// The same, where the text is read.
fn prepare_with<'t, A: Heap, T: Texts, H: Host>(
    alloc: A,
    config: ServeConfig<'t, A>,
    texts: &mut T,
    host: &mut H,
) -> Result<Prepared<A>, Fault<'t>>
    ensures ok { IfOk result (λ p. (config.entry.listen ≡ end_of p.listen) × IsMadeOf (T.held texts.old) config.entry p.server) }
    ensures err { IfErr result (IsStartFault (T.held texts.old) config.entry) }
{
    let zones = local_zones(alloc, texts, &config.locals)?;
    prepare_zones(alloc, config, zones, host)
}

/// The server that a file describes, where its zones are read.
#[tactic(auto, using(crate::proofs::Servers::bad_settings, crate::proofs::Servers::wants_memory))]
pub(crate) fn prepare_zones<'t, A: Heap, H: Host>(
    alloc: A,
    config: ServeConfig<'t, A>,
    zones: Vec<Zone<A>, A>,
    host: &mut H,
) -> Result<Prepared<A>, Fault<'t>>
    ensures ok { IfOk result (λ p. (config.entry.listen ≡ end_of p.listen) × IsMadeWith config.entry zones.items p.server) }
    ensures err { IfErr result (IsUnmade config.entry) }
{
    let seed = seed_of(&config, host)?;
    let listen = endpoint_of(&config.listen);
    let shown = shown_of(&config);
    let bounds = bounds_of(&config, seed)?;
    match resolver_of(alloc, config, zones, seed) {
        Ok(core) => Ok(Prepared {
            server: Server::new(core, bounds),
            listen,
            shown,
        }),
        Err(CoreError::Memory) => Err(Fault::Memory),
        Err(_) => Err(Fault::Settings),
    }
}

// What the file says of the loops, and where its hints let servers be asked. More than can be counted is refused as more
// than allowed is.
fn bounds_of<A: Allocator>(
    config: &ServeConfig<'_, A>,
    seed: [u8; 32],
) -> Result<Bounds, Fault<'static>>
    ensures ok { IfOk result (IsBounded config.now) }
    ensures err { IfErr result (λ f. f ≡ Settings) }
{
    match (
        u16::try_from(config.streams),
        u16::try_from(config.workers),
        u16::try_from(config.clients),
        u16::try_from(config.loops),
    ) {
        (Ok(streams), Ok(workers), Ok(clients), Ok(loops)) => Ok(Bounds {
            streams,
            workers,
            reach: Reach::of_hints(&config.hints),
            clients,
            loops,
            seed,
        }),
        _ => Err(Fault::Settings),
    }
}

// What the file asks to be shown.
fn shown_of<A: Allocator>(config: &ServeConfig<'_, A>) -> Shown {
    Shown {
        version: VERSION,
        metrics: match &config.metrics {
            Some(at) => Some(endpoint_of(at)),
            None => None,
        },
        log: match config.log {
            Some(LogLevel::Warn) => Some(Verbosity::Warnings),
            Some(LogLevel::Info) => Some(Verbosity::All),
            None => None,
        },
        zones: config.locals.len(),
        hints: config.hints.len(),
        cache: config.cache,
        delegations: config.delegations,
    }
}

fn endpoint_of(listen: &config::Endpoint) -> Endpoint
    ensures { end_of result ≡ listen.now }
{
    Endpoint {
        address: listen.address,
        port: listen.port,
    }
}

// The seed that the file states, or random bytes where it states none.
fn seed_of<'t, A: Allocator, H: Host>(
    config: &ServeConfig<'t, A>,
    host: &mut H,
) -> Result<[u8; 32], Fault<'static>>
    ensures ok { IfOk result (IsSeedOf config.now) }
    ensures err { IfErr result (LacksSeed config.now) }
{
    match config.seed {
        Some(seed) => Ok(seed),
        None => host.seed().ok_or(Fault::Unreadable(RANDOM)),
    }
}

// The zones that the server holds, each from its file.
#[tactic(auto, using(crate::proofs::Servers::lacks_memory))]
fn local_zones<'t, A: Heap, T: Texts>(
    alloc: A,
    texts: &mut T,
    locals: &[LocalFile<'t, A>],
) -> Result<Vec<Zone<A>, A>, Fault<'t>>
    ensures ok { IfOk result (λ v. AreZonesIn (T.held texts.old) locals.now v.items) }
    ensures err { IfErr result (LacksZone (T.held texts.old) locals.now) }
    ensures keeps { T.held texts.new ≡ T.held texts.old }
{
    let mut zones = Vec::new(alloc);
    for local in locals {
        zones.push(zone_of(alloc, texts, local)?)?;
    }
    Ok(zones)
}

// The zone of a line of the server's file.
fn zone_of<'t, A: Heap, T: Texts>(
    alloc: A,
    texts: &mut T,
    local: &LocalFile<'t, A>,
) -> Result<Zone<A>, Fault<'t>>
    ensures ok { IfOk result (HoldsZone (T.held texts.old local.now.file) local.now.origin) }
    ensures err { IfErr result (HoldsNoZone (T.held texts.old) local.now.file local.now.origin) }
    ensures keeps { T.held texts.new ≡ T.held texts.old }
{
    let origin = local.origin.copied(alloc)?;
    read_zone(alloc, texts, origin, local.file)
}

// Binds the sockets and prints where.
fn start<A: Heap, H: Host, O: Write, E: Write>(
    alloc: A,
    prepared: Prepared<A>,
    host: &mut H,
    out: &mut O,
    err: &mut E,
) -> Outcome<A>
    ensures run { IsRun (NamesEnd (end_of prepared.listen)) IsUnbound (O.contents out.old) (O.contents out.new) (E.contents err.old) (E.contents err.new) result.status }
    ensures starts { StartsWith prepared.server result.status result.server }
    ensures bound { IfSome result.server (λ _. IsTrue (H.bound host.new)) }
{
    match bind(alloc, prepared.listen, prepared.shown, host) {
        Ok(line) => go(&line, prepared.server, out, err),
        Err(fault) => {
            drop(prepared);
            no_server(&fault, err)
        }
    }
}

// Prints where clients are served: the server is to be run where that went well.
#[tactic(auto, using(crate::proofs::Servers::starts_so, crate::proofs::Servers::starts_not))]
fn go<A: Heap, O: Write, E: Write>(
    line: &String<A>,
    server: Server<A>,
    out: &mut O,
    err: &mut E,
) -> Outcome<A>
    ensures run { IsPrinted (string_bytes line.now) 0 (O.contents out.old) (O.contents out.new) (E.contents err.old) (E.contents err.new) result.status }
    ensures starts { StartsWith server result.status result.server }
{
    let status = put(line, 0, out, err);
    if status == 0 {
        Outcome {
            status,
            server: Some(server),
        }
    } else {
        drop(server);
        Outcome {
            status,
            server: None,
        }
    }
}

// Binds the sockets: the line that says where clients are served.
fn bind<A: Heap, H: Host>(
    alloc: A,
    listen: Endpoint,
    shown: Shown,
    host: &mut H,
) -> Result<String<A>, Fault<'static>>
    ensures ok { IfOk result (λ s. NamesEnd (end_of listen) (string_bytes s)) }
    ensures err { IfErr result IsUnbound }
    ensures bound { IfOk result (λ _. IsTrue (H.bound host.new)) }
{
    match host.open(listen, shown)? {
        Some(port) => Ok(line(alloc, listen, port)?),
        None => Err(Fault::Socket),
    }
}

fn line<A: Heap>(alloc: A, listen: Endpoint, port: u16) -> Result<String<A>, Starved>
    ensures { IfOk result (λ s. string_bytes s ≡ address_line listen.address.0 port) }
{
    let address = listen.address;
    Ok(format!(in alloc; "listening {address} {port}\n")?)
}
