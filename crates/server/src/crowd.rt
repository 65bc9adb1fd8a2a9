//! Asks over TCP that wait for a place.
ghost use Rattle.std.specs.Prelude.{◌≡◌, Bool, [], ◌∷◌, ◌++◌, length, OnOk, OnErr};
ghost use Rattle.std.specs.List.{position};
ghost use Rattle.admission.specs.Moves.{first_of, without_first};
ghost use Rattle.server.specs.Crowds.{admits, is_elsewhere, is_late, turn_by};
ghost use Rattle.server.specs.declared.outbox.StreamAsk.{StreamAsk};

use crate::outbox::StreamAsk;
use counters::AskFault;
use limits::TCP_WAIT_MS;
use memory::Starved;
use rdata::Addr;
use std::alloc::Global;
use std::collections::VecDeque;
use std::marker::Model;

// How many asks are under way to one server, at most.
const ASKS_OF_A_SERVER: usize = 32;

// How many asks wait for a place, at most.
const MOST_WAITING: usize = 1_024;

/// How many asks may be under way, and how many are.
#[derive(Clone, Copy)]
pub(crate) struct Places {
    /// How many may be.
    pub most: usize,
    /// How many more may be now.
    pub free: usize,
}

impl Places {
    /// Whether another ask of a server may begin to which so many are under way. The last quarter of the places is for
    /// servers that have none, so that a few silent ones do not take all.
    pub fn admits(self, at_server: usize) -> bool
        ensures { result ≡ admits self at_server }
    {
        self.free > 0
            && at_server < ASKS_OF_A_SERVER
            && (at_server == 0 || self.most / 4 < self.free)
    }
}

/// What becomes of an ask.
#[derive(Clone, Copy)]
pub(crate) enum Turn {
    /// It begins.
    Begins,
    /// It waits for a place.
    Waits,
    /// It fails.
    Fails(AskFault),
}

/// What becomes of an ask that was made so many milliseconds ago, by the places, by how many are under way to its
/// server, and by how many wait in all.
pub(crate) fn turn_by(waited_ms: u64, places: Places, at_server: usize, waiting: usize) -> Turn
    ensures { result ≡ turn_by waited_ms places at_server waiting }
{
    if waited_ms >= TCP_WAIT_MS {
        Turn::Fails(AskFault::Silent)
    } else if places.admits(at_server) {
        Turn::Begins
    } else if waiting < MOST_WAITING {
        Turn::Waits
    } else {
        Turn::Fails(AskFault::Crowded)
    }
}

/// The asks that wait, in the order in which they came. Contracts see just them.
#[derive(Drop)]
pub(crate) struct Crowd {
    asks: VecDeque<StreamAsk>,
}

impl Model for Crowd {
    ghost use Rattle.std.specs.Prelude.{List};
    ghost use Rattle.server.specs.declared.outbox.StreamAsk.{StreamAsk};

    ghost Value = { List StreamAsk };

    ghost view = { λ c. c.asks.items };
}

impl Crowd {
    /// With none.
    pub fn new(alloc: Global) -> Crowd
        ensures { result ≡ [] }
    {
        Crowd {
            asks: VecDeque::new(alloc),
        }
    }

    /// How many wait.
    pub fn waiting(&self) -> usize
        ensures { result ≡ length self.now }
    {
        self.asks.len()
    }

    /// Keeps an ask, behind those that wait. Refused where no memory is left.
    pub fn keep(&mut self, ask: StreamAsk) -> Result<(), Starved>
        ensures ok { OnOk result (self.new ≡ self.old ++ ask ∷ []) }
        ensures err { OnErr result (self.new ≡ self.old) }
    {
        match self.asks.push_back(ask) {
            Ok(()) => Ok(()),
            Err(_) => Err(Starved),
        }
    }

    /// The first whose server is none of these, which no longer waits.
    pub fn next(&mut self, full: &[Addr]) -> Option<StreamAsk>
        ensures first { result ≡ first_of (is_elsewhere full.now) self.old }
        ensures others { self.new ≡ without_first (is_elsewhere full.now) self.old }
    {
        let place = place_elsewhere(&self.asks, full);
        take(&mut self.asks, place)
    }

    /// The first whose time is over, which no longer waits.
    pub fn late(&mut self, now: u64) -> Option<StreamAsk>
        ensures first { result ≡ first_of (is_late now) self.old }
        ensures others { self.new ≡ without_first (is_late now) self.old }
    {
        let place = place_of_late(&self.asks, now);
        take(&mut self.asks, place)
    }
}

// Where the first stands whose server is none of these.
fn place_elsewhere(asks: &VecDeque<StreamAsk>, full: &[Addr]) -> Option<usize>
    ensures { result ≡ position (is_elsewhere full.now) asks.now.items }
{
    asks.iter().position(|ask| is_elsewhere(ask, full))
}

// Whether the server of an ask is none of these.
fn is_elsewhere(ask: &StreamAsk, full: &[Addr]) -> bool
    ensures { result ≡ is_elsewhere full.now ask.now }
{
    !full.contains(&ask.to.address)
}

// Where the first stands whose time is over.
fn place_of_late(asks: &VecDeque<StreamAsk>, now: u64) -> Option<usize>
    ensures { result ≡ position (is_late now) asks.now.items }
{
    asks.iter().position(|ask| is_late(ask, now))
}

// Whether the time of an ask is over.
fn is_late(ask: &StreamAsk, now: u64) -> bool
    ensures { result ≡ is_late now ask.now }
{
    now.saturating_sub(ask.moment) >= TCP_WAIT_MS
}

// Takes out the ask at this place, where there is one: the first that passes a test whose first stands there.
fn take(asks: &mut VecDeque<StreamAsk>, place: Option<usize>) -> Option<StreamAsk>
    ensures { (test : StreamAsk → Bool) → place ≡ position test asks.old.items → (result ≡ first_of test asks.old.items) × (asks.new.items ≡ without_first test asks.old.items) }
{
    match place {
        Some(place) => asks.remove(place),
        None => None,
    }
}
