//! What a server logs, where its file asks for it: lines to the standard error, one write each.
use crate::context::Common;
use crate::ends::{Ends, receive_room};
use crate::tally::Tally;
use counters::{AskFault, Counter, SocketFault, Way};
use events::Endpoint;
use libc::net as c;
use libc::types::pollfd;
use std::alloc::Global;
use std::sync::Wait;

// The descriptor of the standard error.
const STDERR: i32 = 2;

// How often the same kind of line is logged at most, in milliseconds.
const MINUTE_MS: u64 = 60_000;

// From so many queries on that wait for other servers it is said: the limit is 1,024.
const MANY_OPEN: u64 = 900;

/// How much is logged.
#[derive(Clone, Copy, Debug, PartialEq, Eq)]
pub enum Verbosity {
    /// What goes wrong.
    Warnings,
    /// The start too.
    All,
}

/// What is shown of a server, by its file: at the start, by its counters, and by its log.
#[derive(Clone, Copy, Debug, PartialEq, Eq)]
pub struct Shown {
    /// The program's name and version, as a line.
    pub version: &'static str,
    /// Where the counters are served.
    pub metrics: Option<Endpoint>,
    /// How much is logged.
    pub log: Option<Verbosity>,
    /// How many zones the server holds.
    pub zones: usize,
    /// How many servers of the root it is told of.
    pub hints: usize,
    /// How many record sets and negative answers are kept.
    pub cache: u32,
    /// How many delegations are kept.
    pub delegations: u32,
}

// How much of what goes wrong there was.
#[derive(Clone, Copy)]
struct Troubles {
    foreign: u64,
    descriptors: u64,
    sockets: u64,
    memory: u64,
    dropped: u64,
}

// Nothing went wrong.
const NONE: Troubles = Troubles {
    foreign: 0,
    descriptors: 0,
    sockets: 0,
    memory: 0,
    dropped: 0,
};

impl Troubles {
    // As it is counted now.
    fn counted(tally: &Tally) -> Troubles {
        Troubles {
            foreign: tally.value(Counter::ForeignDatagram),
            descriptors: sum_of(tally, &WITHOUT_DESCRIPTOR),
            sockets: sum_of(tally, &FAILED_SOCKETS),
            memory: tally.value(Counter::RefusedMemory),
            dropped: tally.value(Counter::DroppedQuery),
        }
    }
}

// What these counters hold together.
fn sum_of(tally: &Tally, counters: &[Counter]) -> u64 {
    let mut sum = 0u64;
    for counter in counters {
        sum = sum.saturating_add(tally.value(*counter));
    }
    sum
}

// What has no descriptor.
const WITHOUT_DESCRIPTOR: [Counter; 3] = [
    Counter::FailedAsk(Way::Udp, AskFault::Descriptors),
    Counter::FailedAsk(Way::Tcp, AskFault::Descriptors),
    Counter::FailedSocket(SocketFault::Descriptors),
];

// Sockets that fail without a stream's other side.
const FAILED_SOCKETS: [Counter; 5] = [
    Counter::FailedAsk(Way::Udp, AskFault::Refused),
    Counter::FailedSocket(SocketFault::Send),
    Counter::FailedSocket(SocketFault::Receive),
    Counter::FailedSocket(SocketFault::Accept),
    Counter::FailedSocket(SocketFault::Poll),
];

/// What was logged up to here.
#[derive(Clone, Copy)]
pub(crate) struct Log {
    verbosity: Option<Verbosity>,
    // When it was looked last, and the most queries that were open since.
    looked: u64,
    most_open: u64,
    logged: Troubles,
}

impl Log {
    /// Nothing is logged yet.
    pub fn new(verbosity: Option<Verbosity>) -> Log {
        Log {
            verbosity,
            looked: 0,
            most_open: 0,
            logged: NONE,
        }
    }

    /// The same, with as much logged as these sockets show.
    pub fn of(ends: &Ends) -> Log {
        match &ends.shown {
            Some(shown) => Log::new(shown.log),
            None => Log::new(None),
        }
    }

    /// Looks what went wrong, and logs it once a minute.
    pub fn look<R: Wait>(&mut self, rt: &R, common: &Common<'_>, now: u64) {
        if self.verbosity.is_none() {
            return;
        }
        let Some(tally) = &common.ends.tally else {
            return;
        };
        self.most_open = self.most_open.max(tally.open_queries(rt, now));
        if now.saturating_sub(self.looked) < MINUTE_MS {
            return;
        }
        self.looked = now;
        self.warn(common.alloc, Troubles::counted(tally));
    }

    // Logs what went wrong since it was logged last, a line a kind.
    fn warn(&mut self, alloc: Global, now: Troubles) {
        if self.most_open >= MANY_OPEN {
            let most = self.most_open;
            put(format!(in alloc;
                "resolverd: warning: within a minute {most} queries were open at once; 1,024 may be\n"
            ));
        }
        tell_all(alloc, self.logged, now);
        self.most_open = 0;
        self.logged = now;
    }
}

/// Logs the start, where it is to be logged: where clients are served, what is held and what is kept.
pub(crate) fn log_start(common: &Common<'_>) {
    let Some(shown) = common.ends.shown else {
        return;
    };
    if shown.log != Some(Verbosity::All) {
        return;
    }
    let alloc = common.alloc;
    let version = shown.version;
    put(format!(in alloc; "resolverd: info: {version}"));
    if let Ok(end) = common.ends.listen() {
        let (address, port) = (end.address, end.port);
        put(format!(in alloc; "resolverd: info: serves clients at {address} port {port}\n"));
    }
    if let Some(end) = shown.metrics {
        let (address, port) = (end.address, end.port);
        put(format!(in alloc; "resolverd: info: serves counters at {address} port {port}\n"));
    }
    log_sizes(common, shown);
}

// Logs how much is held and kept at most.
fn log_sizes(common: &Common<'_>, shown: Shown) {
    let alloc = common.alloc;
    let Shown {
        zones,
        hints,
        cache,
        delegations,
        ..
    } = shown;
    put(format!(in alloc;
        "resolverd: info: holds {zones} zones, and is told of {hints} servers of the root\n"
    ));
    let streams = common.bounds.streams;
    put(format!(in alloc;
        "resolverd: info: keeps {cache} answers and {delegations} delegations, and {streams} streams of clients\n"
    ));
    if let Some(bytes) = receive_room(&common.ends.clients) {
        put(format!(in alloc;
            "resolverd: info: the system holds {bytes} bytes of clients' datagrams that wait to be read\n"
        ));
    }
}

// Writes a line, where there was memory for it and whoever reads the lines takes one at once: no loop waits for him.
fn put<E: Drop>(line: Result<String, E>) {
    if let Ok(line) = line
        && takes_a_line()
    {
        let _ = libc::write(STDERR, line.as_bytes());
    }
}

// Whether the standard error takes a line at once (poll(2)).
fn takes_a_line() -> bool {
    let mut descriptors = [pollfd {
        fd: STDERR,
        events: c::POLLOUT,
        revents: 0,
    }];
    c::poll(&mut descriptors, 0) > 0
}

// Logs what went wrong more often than before, a line a kind.
fn tell_all(alloc: Global, before: Troubles, now: Troubles) {
    let foreign = "datagrams repeated no open ask, as a forger's do";
    tell(alloc, foreign, before.foreign, now.foreign);
    let descriptors = "sockets had no descriptor";
    tell(alloc, descriptors, before.descriptors, now.descriptors);
    let sockets = "calls at sockets failed";
    tell(alloc, sockets, before.sockets, now.sockets);
    let memory = "growths of memory were refused";
    tell(alloc, memory, before.memory, now.memory);
    let dropped = "queries of clients were dropped in admission";
    tell(alloc, dropped, before.dropped, now.dropped);
}

// Logs how many there are more than before, where there are more.
fn tell(alloc: Global, what: &str, before: u64, now: u64) {
    let more = now.saturating_sub(before);
    if more > 0 {
        put(format!(in alloc; "resolverd: warning: within a minute {more} {what}\n"));
    }
}
