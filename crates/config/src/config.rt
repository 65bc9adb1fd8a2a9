//! What a server's file says.
//!
//! `listen ADDRESS PORT` says where the server listens. `port N` is the port of other servers (53), `hint ADDRESS` a
//! server of the root, `local ORIGIN FILE` a zone that is served from its file. `cache N`, `delegations N`,
//! `penalties N` and `failures N` say how many entries are kept of each (1,024), `sockets N` of how many socket
//! numbers each ask draws one (16), `workers N` how many times sixteen asks over TCP are under way (4), `streams N` how
//! many streams of clients are open (1), `clients N` how many questions of one address are under way (256), `loops N`
//! how many loops take clients' datagrams (1). `metrics ADDRESS PORT` says where its counters are served, `log LEVEL`
//! how much it logs (nothing) and `seed HEX` where identifiers begin. Blank lines and lines that begin with `;` are
//! skipped. Words are parted by spaces and tabs.
ghost use Rattle.std.specs.Prelude.{◌≡◌, Ok, Err, MatchResult};
ghost use Rattle.text_lines.specs.Texts.{IsTextFault};
ghost use Rattle.config.specs.Configs.{config_of};

use crate::draft::Draft;
use dname::Name;
use memory::Heap;
use rdata::Addr;
use std::alloc::{Allocator, Global};
use std::marker::Model;
use text_lines::{LineError, TextLines};

/// Where a server listens, or serves its counters. Port 0 is any that is free.
#[derive(Drop)]
pub struct Endpoint {
    /// The IPv4 address of its sockets.
    pub address: Addr,
    /// The port, the same for UDP and TCP.
    pub port: u16,
}

impl Model for Endpoint {
    ghost use Rattle.config.specs.Configs.{End};

    ghost Value = { End };

    ghost view = { λ e. record { address = e.address.0; port = e.port } };
}

/// How much a server logs.
#[derive(Clone, Copy, Debug, PartialEq, Eq)]
pub enum LogLevel {
    /// What goes wrong while it runs.
    Warn,
    /// Its start too.
    Info,
}

/// A zone that the server serves itself.
#[derive(Drop)]
pub struct LocalFile<'t, A: Allocator = Global> {
    /// The zone's name, and the origin of its master file (RFC 1035, section 5.1).
    pub origin: Name<A>,
    /// The path of its master file.
    pub file: &'t str,
}

impl<'t, A: Allocator> Model for LocalFile<'t, A> {
    ghost use Rattle.config.specs.Configs.{LocalZone};

    ghost Value = { LocalZone };

    ghost view = { λ l. record { origin = l.origin; file = l.file.now } };
}

/// What a server's file says.
#[derive(Drop)]
pub struct ServeConfig<'t, A: Allocator = Global> {
    /// Where clients reach it.
    pub listen: Endpoint,
    /// The port of other servers, 1 to 65,535.
    pub port: u16,
    /// The addresses of servers of the root, where resolution starts (RFC 1034, section 5.3.2).
    pub hints: Vec<Addr, A>,
    /// The zones that the server serves itself, of different origins.
    pub locals: Vec<LocalFile<'t, A>, A>,
    /// How many RRsets and negative answers are kept at most, 1 to 1,000,000.
    pub cache: u32,
    /// How many delegations are kept at most, 1 to 1,000,000.
    pub delegations: u32,
    /// How many servers that did not answer are kept at most, 1 to 1,000,000.
    pub penalties: u32,
    /// How many questions that a server failed to answer are kept at most, 1 to 1,000,000.
    pub failures: u32,
    /// Numbers of sockets that are drawn for asks, 1 to 16.
    pub sockets: u32,
    /// Sixteen asks over TCP are under way for each of these, 1 to 16.
    pub workers: u32,
    /// Streams of clients that are open at once, 1 to 256.
    pub streams: u32,
    /// Questions that one address may have under way in datagrams, 1 to 1,024.
    pub clients: u32,
    /// Loops that take clients' datagrams, 1 to 16.
    pub loops: u32,
    /// Where its counters are served over HTTP; nowhere where there is none. Its port is not 0.
    pub metrics: Option<Endpoint>,
    /// How much it logs; nothing where there is none.
    pub log: Option<LogLevel>,
    /// The 32 bytes from which IDs and sockets are drawn, and behind which keys are hashed: for tests alone. Where
    /// there are none, the system gives them.
    pub seed: Option<[u8; 32]>,
}

impl<'t, A: Allocator> Model for ServeConfig<'t, A> {
    ghost use Rattle.std.specs.Prelude.{map};
    ghost use Rattle.config.specs.Configs.{Config};

    ghost Value = { Config };

    ghost view = { λ c. record { listen = c.listen; port = c.port; hints = map (λ a. a.0) c.hints.items; locals = c.locals.items; cache = c.cache; delegations = c.delegations; penalties = c.penalties; failures = c.failures; sockets = c.sockets; workers = c.workers; streams = c.streams; clients = c.clients; loops = c.loops; metrics = c.metrics; log = c.log; seed = c.seed } };
}

/// What a server's file says. Refused by its first bad line, counted from 1: a value out of its limits as a bad number,
/// one that an earlier line stated as a wrong count of words. A file that does not say where to listen is refused so at
/// the line behind its last.
pub fn read_config<'t, A: Heap>(alloc: A, text: &'t str) -> Result<ServeConfig<'t, A>, LineError>
    ensures { MatchResult result (λ c. config_of text.entry.now ≡ Ok c) (λ e. IsTextFault e (config_of text.entry.now)) }
{
    let mut draft = Draft::new(alloc);
    let mut number = 1usize;
    for line in TextLines::new(text) {
        match draft.take_line(alloc, line) {
            Ok(()) => {}
            Err(kind) => {
                return Err(LineError { line: number, kind });
            }
        }
        number = number.saturating_add(1);
    }
    match draft.finish() {
        Ok(config) => Ok(config),
        Err(kind) => Err(LineError { line: number, kind }),
    }
}
