//! `check-config`: the file of a server, read and tried as `serve` does, and what is to be said of it.
ghost use Rattle.std.specs.Prelude.{◌≡◌, ◌⊎◌, [], ◌∷◌, ◌++◌, None, Some, Ok, IfOk, IfErr, IsTrue, OnOk, codes, string_bytes};
ghost use Rattle.masterfile.specs.Files.{read_text};
ghost use Rattle.zone.specs.Faults.{fault_of, IsFault};
ghost use Rattle.zone.specs.Kept.{zone_with};
ghost use Rattle.config_report.specs.Reports.{file_report_text, line_report_text};
ghost use Rattle.commands.specs.Checks.{Explains, HasReason, IsRunInWords, IsSummary, IsTold, IsUnstarted, PassesCheck, Tells, TellsRule, TellsUnbound, TellsUnmade, TellsUnstarted, end_text, records_in, summary_text};
ghost use Rattle.commands.specs.Faults.{file_fault, line_fault, zone_fault};
ghost use Rattle.commands.specs.Servers.{AreZonesIn, IsNoServer, LacksZone, end_of};
ghost use Rattle.commands.specs.Texts.{MayHold};
ghost use Rattle.commands.specs.Zones.{HoldsZone, HoldsNoZone};
ghost use Rattle.commands.specs.declared.fault.Fault.TheVariants.{Memory, Socket, Unreadable};

use crate::fault::Fault;
use crate::host::Host;
use crate::run::{put, report};
use crate::serve::prepare_zones;
use crate::texts::Texts;
use config::{LocalFile, ServeConfig, read_config};
use config_report::{file_report, line_report, notes, put_total, zone_report};
use dname::Name;
use events::Endpoint;
use masterfile::FileError;
use memory::{Heap, Starved};
use rdata::Records;
use server::Shown;
use std::alloc::Allocator;
use std::io::Write;
use text_lines::LineError;
use wire::Via;
use zone::{Zone, ZoneError};

// Why a server would not start, and what says so in words.
#[derive(Drop)]
struct Refusal<'t, A: Allocator> {
    fault: Fault<'t>,
    words: String<A>,
}

/// Reads the file of a server at a path, and the files of its zones, and binds its sockets: the exit status is that
/// which `serve` would have at its start, and so is the line of the fault. What is printed says why in words, or what
/// the file makes, which is told only where the sockets were bound.
pub fn check_config<A: Heap, T: Texts, H: Host, O: Write, E: Write>(
    alloc: A,
    path: &str,
    texts: &mut T,
    host: &mut H,
    out: &mut O,
    err: &mut E,
) -> u8
    ensures run { IsRunInWords (PassesCheck (T.held texts.old) path.now) (IsNoServer (T.held texts.old) path.now) (Explains (T.held texts.old)) (O.contents out.old) (O.contents out.new) (E.contents err.old) (E.contents err.new) result }
    ensures bound { result ≡ 0 → IsTrue (H.bound host.new) }
{
    match texts.text(alloc, path) {
        Ok(Some(text)) => check_text(alloc, path, text.as_str(), texts, host, out, err),
        Ok(None) => refuse(&unreadable(alloc, texts, path), out, err),
        Err(Starved) => refuse(&starved(alloc), out, err),
    }
}

// The same, where the file's text is read.
fn check_text<A: Heap, T: Texts, H: Host, O: Write, E: Write>(
    alloc: A,
    path: &str,
    text: &str,
    texts: &mut T,
    host: &mut H,
    out: &mut O,
    err: &mut E,
) -> u8
    requires { MayHold (T.held texts.old path.now) (Some text.now) }
    ensures run { IsRunInWords (PassesCheck (T.held texts.old) path.now) (IsNoServer (T.held texts.old) path.now) (Explains (T.held texts.old)) (O.contents out.old) (O.contents out.new) (E.contents err.old) (E.contents err.new) result }
    ensures bound { result ≡ 0 → IsTrue (H.bound host.new) }
{
    match checked(alloc, path, text, texts, host) {
        Ok(summary) => put(&summary, 0, out, err),
        Err(refusal) => refuse(&refusal, out, err),
    }
}

// Prints why in words, then the line of the fault.
fn refuse<A: Allocator, O: Write, E: Write>(
    refusal: &Refusal<'_, A>,
    out: &mut O,
    err: &mut E,
) -> u8
    ensures told { IsTold refusal.now.fault (string_bytes refusal.now.words) (O.contents out.old) (O.contents out.new) (E.contents err.old) (E.contents err.new) result }
    ensures fails { result ≡ 0 → ⊥ }
{
    let status = put(&refusal.words, 0, out, err);
    if status == 0 {
        report(&refusal.fault, err)
    } else {
        status
    }
}

// What is printed of the file that this text is.
fn checked<'t, A: Heap, T: Texts, H: Host>(
    alloc: A,
    path: &'t str,
    text: &'t str,
    texts: &mut T,
    host: &mut H,
) -> Result<String<A>, Refusal<'t, A>>
    requires { MayHold (T.held texts.old path.now) (Some text.now) }
    ensures ok { IfOk result (λ s. PassesCheck (T.held texts.old) path.entry.now (string_bytes s)) }
    ensures err { IfErr result (λ r. IsNoServer (T.held texts.old) path.entry.now r.fault × Explains (T.held texts.old) r.fault (string_bytes r.words)) }
    ensures bound { IfOk result (λ _. IsTrue (H.bound host.new)) }
{
    match read_config(alloc, text) {
        Ok(config) => checked_config(alloc, config, texts, host),
        Err(error) => Err(bad_line(alloc, path, text, error)),
    }
}

// The same, where the text is read: its zones, its settings, and last its sockets.
fn checked_config<'t, A: Heap, T: Texts, H: Host>(
    alloc: A,
    config: ServeConfig<'t, A>,
    texts: &mut T,
    host: &mut H,
) -> Result<String<A>, Refusal<'t, A>>
    ensures ok { IfOk result (λ s. IsSummary (T.held texts.old) config.entry (string_bytes s)) }
    ensures err { IfErr result (λ r. IsUnstarted (T.held texts.old) config.entry r.fault × Explains (T.held texts.old) r.fault (string_bytes r.words)) }
    ensures bound { IfOk result (λ _. IsTrue (H.bound host.new)) }
{
    let zones = checked_zones(alloc, texts, &config.locals)?;
    checked_server(alloc, config, zones, host)
}

// The same, where the zones are read.
fn checked_server<'t, A: Heap, H: Host>(
    alloc: A,
    config: ServeConfig<'t, A>,
    zones: Vec<Zone<A>, A>,
    host: &mut H,
) -> Result<String<A>, Refusal<'t, A>>
    ensures ok { IfOk result (λ s. string_bytes s ≡ summary_text config.entry zones.items) }
    ensures err { IfErr result (λ r. TellsUnstarted config.entry r.fault (string_bytes r.words)) }
    ensures bound { IfOk result (λ _. IsTrue (H.bound host.new)) }
{
    match summary(alloc, &config, &zones) {
        Ok(summary) => made(alloc, config, zones, host, summary),
        Err(Starved) => Err(starved(alloc)),
    }
}

// The summary, where a resolver can be made of the file, and its sockets are bound.
fn made<'t, A: Heap, H: Host>(
    alloc: A,
    config: ServeConfig<'t, A>,
    zones: Vec<Zone<A>, A>,
    host: &mut H,
    summary: String<A>,
) -> Result<String<A>, Refusal<'t, A>>
    ensures ok { IfOk result (λ s. s ≡ summary) }
    ensures err { IfErr result (λ r. TellsUnstarted config.entry r.fault (string_bytes r.words)) }
    ensures bound { IfOk result (λ _. IsTrue (H.bound host.new)) }
{
    match prepare_zones(alloc, config, zones, host) {
        Ok(prepared) => bound(alloc, prepared.listen, prepared.shown, host, summary),
        Err(fault) => Err(unmade(alloc, fault)),
    }
}

// The summary, where the sockets are bound.
fn bound<'t, A: Heap, H: Host>(
    alloc: A,
    listen: Endpoint,
    shown: Shown,
    host: &mut H,
    summary: String<A>,
) -> Result<String<A>, Refusal<'t, A>>
    ensures ok { IfOk result (λ s. s ≡ summary) }
    ensures err { IfErr result (λ r. Tells Socket TellsUnbound r.fault (string_bytes r.words)) }
    ensures bound { IfOk result (λ _. IsTrue (H.bound host.new)) }
{
    match host.open(listen, shown) {
        Ok(Some(_)) => Ok(summary),
        Ok(None) => {
            let words = unbound_words(alloc, listen, shown.metrics, host);
            Err(told(alloc, Fault::Socket, words))
        }
        Err(Starved) => Err(starved(alloc)),
    }
}

// What may not be meant, and what the file makes.
fn summary<A: Heap>(
    alloc: A,
    config: &ServeConfig<'_, A>,
    zones: &[Zone<A>],
) -> Result<String<A>, Starved>
    ensures { IfOk result (λ s. string_bytes s ≡ summary_text config.now zones.now) }
{
    let mut out = notes(alloc, config)?;
    put_total(
        &mut out,
        zones.len(),
        record_count(zones),
        config.hints.len(),
    )?;
    Ok(out)
}

fn record_count<A: Allocator>(zones: &[Zone<A>]) -> usize
    ensures { result ≡ records_in zones.now }
{
    zones.iter().fold(
        0usize,
        |count, zone| count.saturating_add(zone.records().len()),
    )
}

// The zones that the server would hold, each from its file.
fn checked_zones<'t, A: Heap, T: Texts>(
    alloc: A,
    texts: &mut T,
    locals: &[LocalFile<'t, A>],
) -> Result<Vec<Zone<A>, A>, Refusal<'t, A>>
    ensures ok { IfOk result (λ v. AreZonesIn (T.held texts.old) locals.now v.items) }
    ensures err { IfErr result (λ r. LacksZone (T.held texts.old) locals.now r.fault × Explains (T.held texts.old) r.fault (string_bytes r.words)) }
{
    let mut zones = Vec::new(alloc);
    for local in locals {
        put_zone(alloc, &mut zones, checked_zone(alloc, texts, local)?)?;
    }
    Ok(zones)
}

// One zone more.
fn put_zone<'t, A: Heap>(
    alloc: A,
    zones: &mut Vec<Zone<A>, A>,
    zone: Zone<A>,
) -> Result<(), Refusal<'t, A>>
    ensures ok { OnOk result (zones.new.items ≡ zones.old.items ++ zone ∷ []) }
    ensures err { IfErr result (λ r. r.fault ≡ Memory) }
{
    match zones.push(zone) {
        Ok(()) => Ok(()),
        Err(_) => Err(starved(alloc)),
    }
}

// The zone of a line of the server's file.
fn checked_zone<'t, A: Heap, T: Texts>(
    alloc: A,
    texts: &mut T,
    local: &LocalFile<'t, A>,
) -> Result<Zone<A>, Refusal<'t, A>>
    ensures ok { IfOk result (HoldsZone (T.held texts.old local.now.file) local.now.origin) }
    ensures err { IfErr result (λ r. HoldsNoZone (T.held texts.old) local.now.file local.now.origin r.fault × Explains (T.held texts.old) r.fault (string_bytes r.words)) }
    ensures keeps { T.held texts.new ≡ T.held texts.old }
{
    zone_at(alloc, texts, &local.origin, local.file)
}

// The zone of this origin at a path.
fn zone_at<'t, A: Heap, T: Texts>(
    alloc: A,
    texts: &mut T,
    origin: &Name<A>,
    path: &'t str,
) -> Result<Zone<A>, Refusal<'t, A>>
    ensures ok { IfOk result (HoldsZone (T.held texts.old path.entry.now) origin.now) }
    ensures err { IfErr result (λ r. HoldsNoZone (T.held texts.old) path.entry.now origin.now r.fault × Explains (T.held texts.old) r.fault (string_bytes r.words)) }
    ensures keeps { T.held texts.new ≡ T.held texts.old }
{
    match texts.text(alloc, path) {
        Ok(Some(text)) => zone_in(alloc, origin, path, text.as_str()),
        Ok(None) => Err(unreadable(alloc, texts, path)),
        Err(Starved) => Err(starved(alloc)),
    }
}

// The zone of this origin in a text.
fn zone_in<'t, A: Heap>(
    alloc: A,
    origin: &Name<A>,
    path: &'t str,
    text: &str,
) -> Result<Zone<A>, Refusal<'t, A>>
    ensures ok { IfOk result (HoldsZone (Some (Some text.now)) origin.now) }
    ensures err { IfErr result (λ r. HoldsNoZone (λ _. Some (Some text.now)) path.entry.now origin.now r.fault × Explains (λ _. Some (Some text.now)) r.fault (string_bytes r.words)) }
{
    match masterfile::read(alloc, origin, text) {
        Ok(records) => zone_of(alloc, origin, records, path, text),
        Err(error) => Err(bad_file(alloc, path, text, error)),
    }
}

// The zone of this origin that the records of a text are.
fn zone_of<'t, A: Heap>(
    alloc: A,
    origin: &Name<A>,
    records: Records<A>,
    path: &'t str,
    text: &str,
) -> Result<Zone<A>, Refusal<'t, A>>
    requires { read_text origin.now text.now ≡ Ok records }
    ensures ok { IfOk result (HoldsZone (Some (Some text.now)) origin.now) }
    ensures err { IfErr result (λ r. HoldsNoZone (λ _. Some (Some text.now)) path.entry.now origin.now r.fault × Explains (λ _. Some (Some text.now)) r.fault (string_bytes r.words)) }
{
    match built(alloc, origin, records) {
        Ok(zone) => Ok(zone),
        Err(error) => Err(bad_zone(alloc, origin, path, text, error)),
    }
}

fn built<A: Heap>(alloc: A, origin: &Name<A>, records: Records<A>) -> Result<Zone<A>, ZoneError>
    ensures ok { IfOk result (λ z. (fault_of (zone_with origin.now records) ≡ None) × (z ≡ zone_with origin.now records)) }
    ensures err { IfErr result (λ e. IsFault e (fault_of (zone_with origin.now records))) }
{
    Zone::build(origin.copied(alloc)?, records)
}

fn bad_line<'t, A: Heap>(alloc: A, path: &'t str, text: &str, error: LineError) -> Refusal<'t, A>
    ensures { Tells (line_fault path.entry error) (λ words. words ≡ line_report_text path.now text.now error) result.fault (string_bytes result.words) }
{
    let words = line_report(alloc, path, text, error);
    told(alloc, Fault::of_line(path, error), words)
}

fn bad_file<'t, A: Heap>(alloc: A, path: &'t str, text: &str, error: FileError) -> Refusal<'t, A>
    ensures { Tells (file_fault path.entry error) (λ words. words ≡ file_report_text path.now text.now error) result.fault (string_bytes result.words) }
{
    let words = file_report(alloc, path, text, error);
    told(alloc, Fault::of_file(path, error), words)
}

// The text is read once more, since its records are gone.
fn bad_zone<'t, A: Heap>(
    alloc: A,
    origin: &Name<A>,
    path: &'t str,
    text: &str,
    error: ZoneError,
) -> Refusal<'t, A>
    ensures { Tells (zone_fault path.entry error) (TellsRule path.now origin.now text.now error) result.fault (string_bytes result.words) }
{
    match masterfile::read(alloc, origin, text) {
        Ok(records) => {
            let words = zone_report(alloc, path, origin, records.as_slice(), error);
            told(alloc, Fault::of_zone(path, error), words)
        }
        Err(_) => starved(alloc),
    }
}

// A path at which nothing can be read, with the system's reason.
fn unreadable<'t, A: Heap, T: Texts>(alloc: A, texts: &mut T, path: &'t str) -> Refusal<'t, A>
    ensures tells { Tells (Unreadable path.entry) (HasReason path.now) result.fault (string_bytes result.words) }
    ensures keeps { T.held texts.new ≡ T.held texts.old }
{
    let words = unreadable_words(alloc, texts, path);
    told(alloc, Fault::Unreadable(path), words)
}

fn unreadable_words<A: Heap, T: Texts>(
    alloc: A,
    texts: &mut T,
    path: &str,
) -> Result<String<A>, Starved>
    ensures ok { IfOk result (λ s. HasReason path.now (string_bytes s)) }
    ensures keeps { T.held texts.new ≡ T.held texts.old }
{
    let reason = texts.reason(alloc, path)?;
    reasoned(alloc, path, reason.as_str())
}

// A file that is read and makes no resolver.
fn unmade<'t, A: Heap>(alloc: A, fault: Fault<'t>) -> Refusal<'t, A>
    ensures { Tells fault.entry (TellsUnmade fault.entry) result.fault (string_bytes result.words) }
{
    let words = unmade_words(alloc, &fault);
    told(alloc, fault, words)
}

fn unmade_words<A: Heap>(alloc: A, fault: &Fault<'_>) -> Result<String<A>, Starved>
    ensures { IfOk result (λ s. TellsUnmade fault.now (string_bytes s)) }
{
    match fault {
        Fault::Unreadable(path) => reasoned(
            alloc,
            path,
            "no random bytes can be read there, and the file states no seed",
        ),
        _ => Ok(format!(in alloc; "the resolver refuses what the file sets\n")?),
    }
}

// The first address that can't be bound, with the system's reason.
fn unbound_words<A: Heap, H: Host>(
    alloc: A,
    listen: Endpoint,
    metrics: Option<Endpoint>,
    host: &mut H,
) -> Result<String<A>, Starved>
    ensures { IfOk result (λ s. TellsUnbound (string_bytes s)) }
{
    if let Some(reason) = host.reason(alloc, Via::Udp, listen)? {
        return end_words(alloc, "listen", listen, "UDP: ", reason.as_str());
    }
    if let Some(reason) = host.reason(alloc, Via::Tcp, listen)? {
        return end_words(alloc, "listen", listen, "TCP: ", reason.as_str());
    }
    unread_words(alloc, listen, metrics, host)
}

// The same where clients could be served: the address of the counters.
fn unread_words<A: Heap, H: Host>(
    alloc: A,
    listen: Endpoint,
    metrics: Option<Endpoint>,
    host: &mut H,
) -> Result<String<A>, Starved>
    ensures { IfOk result (λ s. TellsUnbound (string_bytes s)) }
{
    if let Some(at) = metrics
        && let Some(reason) = host.reason(alloc, Via::Tcp, at)?
    {
        return end_words(alloc, "metrics", at, "TCP: ", reason.as_str());
    }
    end_words(
        alloc,
        "listen",
        listen,
        "",
        "it can be bound alone: listen and metrics may name one port, or another server has just ended",
    )
}

#[tactic(auto, unfolding(crate::specs::Checks::end_text))]
fn end_words<A: Heap>(
    alloc: A,
    word: &str,
    at: Endpoint,
    way: &str,
    reason: &str,
) -> Result<String<A>, Starved>
    ensures { IfOk result (λ s. string_bytes s ≡ end_text word.now (end_of at) ++ codes ": " ++ (way.now ++ reason.now) ++ codes "\n") }
{
    let (address, port) = (at.address, at.port);
    let mut words = String::new(alloc);
    write!(words, "{word} {address} {port}: {way}{reason}\n")?;
    Ok(words)
}

// What something is about, and a reason.
fn reasoned<A: Heap>(alloc: A, about: &str, reason: &str) -> Result<String<A>, Starved>
    ensures { IfOk result (λ s. string_bytes s ≡ about.now ++ codes ": " ++ reason.now ++ codes "\n") }
{
    let mut words = String::new(alloc);
    write!(words, "{about}: {reason}\n")?;
    Ok(words)
}

// A fault and what says so in words; where these took memory that was not there, that is the fault.
fn told<'t, A: Heap>(
    alloc: A,
    fault: Fault<'t>,
    words: Result<String<A>, Starved>,
) -> Refusal<'t, A>
    ensures { ((result.fault ≡ fault.entry) × (words ≡ Ok result.words)) ⊎ (result.fault ≡ Memory) }
{
    match words {
        Ok(words) => Refusal { fault, words },
        Err(Starved) => starved(alloc),
    }
}

fn starved<'t, A: Heap>(alloc: A) -> Refusal<'t, A>
    ensures { result.fault ≡ Memory }
{
    Refusal {
        fault: Fault::Memory,
        words: String::new(alloc),
    }
}
