//! What the lines of a server's file say, one after the other.
ghost use Rattle.std.specs.Prelude.{◌≡◌, ◌≤◌, Ok, Err, MatchResult};
ghost use Rattle.text_lines.specs.Faults.{IsLineFault};
ghost use Rattle.text_lines.specs.Texts.{stated_words};
ghost use Rattle.config.specs.Configs.{blank, end_in, number_in, hint_in, zone_in, seed_of, seed_in, level_of, level_in, once as once_of, has_origin, with_zone, said_by, said, finished, stated};

use crate::config::{Endpoint, LocalFile, LogLevel, ServeConfig};
use crate::keyword::Keyword;
use dname::Name;
use hex::FromHex;
use limits::{MAX_ENTRIES, MAX_SOCKETS, MAX_WORKERS};
use memory::Heap;
use rdata::Addr;
use std::alloc::Allocator;
use std::marker::Model;
use text_lines::{LineKind, LineWords};

// How many entries of one kind are kept at most.
const ENTRIES: u64 = MAX_ENTRIES as u64;

// How many socket numbers there are at most.
const SOCKETS: u64 = MAX_SOCKETS as u64;

// How many times sixteen asks over TCP are under way, at most.
const WORKERS: u64 = MAX_WORKERS as u64;

// How many streams of clients are open at once, at most.
const MAX_STREAMS: u64 = 256;

// How many questions one address may have under way, at most.
const MAX_CLIENTS: u64 = 1_024;

// How many loops take clients' datagrams, at most.
const MAX_LOOPS: u64 = 16;

/// What the lines said up to here.
#[derive(Drop)]
pub(crate) struct Draft<'t, A: Allocator> {
    listen: Option<Endpoint>,
    port: Option<u16>,
    hints: Vec<Addr, A>,
    locals: Vec<LocalFile<'t, A>, A>,
    cache: Option<u32>,
    delegations: Option<u32>,
    penalties: Option<u32>,
    failures: Option<u32>,
    sockets: Option<u32>,
    workers: Option<u32>,
    streams: Option<u32>,
    clients: Option<u32>,
    loops: Option<u32>,
    metrics: Option<Endpoint>,
    log: Option<LogLevel>,
    seed: Option<[u8; 32]>,
}

impl<'t, A: Allocator> Model for Draft<'t, A> {
    ghost use Rattle.std.specs.Prelude.{map};
    ghost use Rattle.config.specs.Configs.{Draft as DraftSpec};

    ghost Value = { DraftSpec };

    ghost view = { λ d. record { listen = d.listen; port = d.port; hints = map (λ a. a.0) d.hints.items; locals = d.locals.items; cache = d.cache; delegations = d.delegations; penalties = d.penalties; failures = d.failures; sockets = d.sockets; workers = d.workers; streams = d.streams; clients = d.clients; loops = d.loops; metrics = d.metrics; log = d.log; seed = d.seed } };
}

// A value that one line alone may state.
fn once<T: Drop>(stated: Option<T>, value: T) -> Result<Option<T>, LineKind>
    ensures { result ≡ once_of stated value }
{
    match stated {
        None => Ok(Some(value)),
        Some(_) => Err(LineKind::WordCount),
    }
}

impl<'t, A: Heap> Draft<'t, A> {
    pub(crate) fn new(alloc: A) -> Draft<'t, A>
        ensures { result ≡ blank }
    {
        Draft {
            listen: None,
            port: None,
            hints: Vec::new(alloc),
            locals: Vec::new(alloc),
            cache: None,
            delegations: None,
            penalties: None,
            failures: None,
            sockets: None,
            workers: None,
            streams: None,
            clients: None,
            loops: None,
            metrics: None,
            log: None,
            seed: None,
        }
    }

    /// One line more.
    pub(crate) fn take_line(&mut self, alloc: A, line: &'t str) -> Result<(), LineKind>
        ensures { MatchResult result (λ _. said self.old (stated_words line.entry.now) ≡ Ok self.new) (λ e. IsLineFault e (said self.old (stated_words line.entry.now))) }
    {
        let mut words = LineWords::stated(line);
        match words.next() {
            None => Ok(()),
            Some(word) => match Keyword::of_word(word) {
                None => Err(LineKind::UnknownWord),
                Some(keyword) => self.state(alloc, keyword, words),
            },
        }
    }

    // What the words behind a keyword say.
    fn state(&mut self, alloc: A, keyword: Keyword, words: LineWords<'t>) -> Result<(), LineKind>
        ensures { MatchResult result (λ _. said_by self.old keyword words.entry ≡ Ok self.new) (λ e. IsLineFault e (said_by self.old keyword words.entry)) }
    {
        match keyword {
            Keyword::Listen => self.listen = once(self.listen.take(), endpoint(words, 0)?)?,
            Keyword::Port => self.port = once(self.port, port(words)?)?,
            Keyword::Hint => self.hints.push(hint(words)?)?,
            Keyword::Local => self.add(local(alloc, words)?)?,
            Keyword::Cache => self.cache = once(self.cache, number(words, ENTRIES)?)?,
            Keyword::Delegations => {
                self.delegations = once(self.delegations, number(words, ENTRIES)?)?
            }
            Keyword::Penalties => self.penalties = once(self.penalties, number(words, ENTRIES)?)?,
            Keyword::Failures => self.failures = once(self.failures, number(words, ENTRIES)?)?,
            Keyword::Sockets => self.sockets = once(self.sockets, number(words, SOCKETS)?)?,
            Keyword::Workers => self.workers = once(self.workers, number(words, WORKERS)?)?,
            Keyword::Streams => self.streams = once(self.streams, number(words, MAX_STREAMS)?)?,
            Keyword::Clients => self.clients = once(self.clients, number(words, MAX_CLIENTS)?)?,
            Keyword::Loops => self.loops = once(self.loops, number(words, MAX_LOOPS)?)?,
            Keyword::Metrics => self.metrics = once(self.metrics.take(), endpoint(words, 1)?)?,
            Keyword::Log => self.log = once(self.log, level(words)?)?,
            Keyword::Seed => self.seed = once(self.seed, seed(words)?)?,
        }
        Ok(())
    }

    // An origin stands on one line alone.
    fn add(&mut self, local: LocalFile<'t, A>) -> Result<(), LineKind>
        ensures { MatchResult result (λ _. with_zone self.old local.entry ≡ Ok self.new) (λ e. IsLineFault e (with_zone self.old local.entry)) }
    {
        if is_taken(&self.locals, &local.origin) {
            return Err(LineKind::WordCount);
        }
        self.locals.push(local)?;
        Ok(())
    }

    /// What all lines said, and the rest as usual.
    pub(crate) fn finish(self) -> Result<ServeConfig<'t, A>, LineKind>
        ensures { MatchResult result (λ c. finished self.entry self.entry.listen ≡ Ok c) (λ e. finished self.entry self.entry.listen ≡ Err e) }
    {
        let Self {
            listen,
            port,
            hints,
            locals,
            cache,
            delegations,
            penalties,
            failures,
            sockets,
            workers,
            streams,
            clients,
            loops,
            metrics,
            log,
            seed,
        } = self;
        let Some(listen) = listen else {
            return Err(LineKind::WordCount);
        };
        Ok(ServeConfig {
            listen,
            port: port.unwrap_or(53),
            hints,
            locals,
            cache: or_usual(cache, 1_024),
            delegations: or_usual(delegations, 1_024),
            penalties: or_usual(penalties, 1_024),
            failures: or_usual(failures, 1_024),
            sockets: or_usual(sockets, 16),
            workers: or_usual(workers, 4),
            streams: or_usual(streams, 1),
            clients: or_usual(clients, 256),
            loops: or_usual(loops, 1),
            metrics,
            log,
            seed,
        })
    }
}

// The number that a line states, or else the usual one.
fn or_usual(number: Option<u32>, usual: u32) -> u32
    ensures { result ≡ stated number usual }
{
    number.unwrap_or(usual)
}

// Whether a zone of this origin is there.
fn is_taken<'t, A: Heap>(locals: &[LocalFile<'t, A>], origin: &Name<A>) -> bool
    ensures { result ≡ has_origin origin.now locals.now }
{
    for local in locals {
        if local.origin == *origin {
            return true;
        }
    }
    false
}

// An address and a port, which is this one at least.
fn endpoint(mut words: LineWords<'_>, low: u64) -> Result<Endpoint, LineKind>
    ensures { MatchResult result (λ e. end_in low words.entry ≡ Ok e) (λ e. end_in low words.entry ≡ Err e) }
{
    let address = words.address()?;
    let port = words.number(low, 65_535)? as u16;
    words.end()?;
    Ok(Endpoint { address, port })
}

fn port(mut words: LineWords<'_>) -> Result<u16, LineKind>
    ensures { MatchResult result (λ n. number_in 1 65535 words.entry ≡ Ok n) (λ e. number_in 1 65535 words.entry ≡ Err e) }
{
    let port = words.number(1, 65_535)? as u16;
    words.end()?;
    Ok(port)
}

fn number(mut words: LineWords<'_>, most: u64) -> Result<u32, LineKind>
    requires { most ≤ 1000000 }
    ensures { MatchResult result (λ n. number_in 1 most words.entry ≡ Ok n) (λ e. number_in 1 most words.entry ≡ Err e) }
{
    let number = words.number(1, most)? as u32;
    words.end()?;
    Ok(number)
}

fn hint(mut words: LineWords<'_>) -> Result<Addr, LineKind>
    ensures { MatchResult result (λ a. hint_in words.entry ≡ Ok a.0) (λ e. hint_in words.entry ≡ Err e) }
{
    let address = words.address()?;
    words.end()?;
    Ok(address)
}

fn local<'t, A: Heap>(alloc: A, mut words: LineWords<'t>) -> Result<LocalFile<'t, A>, LineKind>
    ensures { MatchResult result (λ l. zone_in words.entry ≡ Ok l) (λ e. IsLineFault e (zone_in words.entry)) }
{
    let origin = words.name(alloc)?;
    let file = words.word()?;
    words.end()?;
    Ok(LocalFile { origin, file })
}

// 32 bytes in 64 hexadecimal digits.
fn seed(mut words: LineWords<'_>) -> Result<[u8; 32], LineKind>
    ensures { MatchResult result (λ s. seed_in words.entry ≡ Ok s) (λ e. seed_in words.entry ≡ Err e) }
{
    let word = words.word()?;
    let bytes = seed_of_word(word)?;
    words.end()?;
    Ok(bytes)
}

fn seed_of_word(word: &str) -> Result<[u8; 32], LineKind>
    ensures { result ≡ seed_of word.now }
{
    match <[u8; 32] as FromHex>::from_hex(word) {
        Ok(bytes) => Ok(bytes),
        Err(_) => Err(LineKind::BadHex),
    }
}

fn level(mut words: LineWords<'_>) -> Result<LogLevel, LineKind>
    ensures { MatchResult result (λ l. level_in words.entry ≡ Ok l) (λ e. level_in words.entry ≡ Err e) }
{
    let word = words.word()?;
    let level = level_of_word(word)?;
    words.end()?;
    Ok(level)
}

fn level_of_word(word: &str) -> Result<LogLevel, LineKind>
    ensures { result ≡ level_of word.now }
{
    match word {
        "warn" => Ok(LogLevel::Warn),
        "info" => Ok(LogLevel::Info),
        _ => Err(LineKind::UnknownWord),
    }
}
