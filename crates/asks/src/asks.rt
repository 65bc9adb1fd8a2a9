//! What open queries wait for, with its indexes.
ghost use Rattle.std.specs.Prelude.{◌≡◌, Some, None, [], OnOk, OnErr};
ghost use Rattle.asks.specs.Waits.{IsFreeFor, AreSame, IsChanged, IsFound, IsEarliest};

use crate::ask::{AskKey, Waiting};
use crate::indexes::{ByAsk, ByDue, Open, change_ask, change_due, drop_ask, drop_due, make_room};
use memory::{Heap, Starved};
use rdata::Addr;
use std::alloc::{Allocator, Global};
use std::collections::{BTreeSet, HashMap};
use std::marker::Model;

/// What each open query waits for, by the query's number: its open ask, where that went over UDP, and when it is
/// due. No two have one ask. Contracts see each query's number with what it waits for, in no order.
#[derive(Drop)]
pub struct AskIndex<A: Allocator = Global> {
    open: Open<A>,
    by_ask: ByAsk<A>,
    by_due: ByDue<A>,
}

impl<A: Allocator> Model for AskIndex<A> {
    ghost use Rattle.std.specs.Prelude.{ℕ, List};
    ghost use Rattle.asks.specs.declared.ask.Waiting.{Waiting as WaitingSpec};
    ghost use Rattle.asks.specs.Indexes.{AreIndexes};

    ghost Value = { List (ℕ × WaitingSpec) };

    ghost view = { λ a. a.open.entries };

    ghost invariant = { λ a. AreIndexes a.open.entries a.by_ask.entries a.by_due.keys };
}

impl<A: Heap> AskIndex<A> {
    /// No queries; takes no memory.
    pub fn new(alloc: A) -> AskIndex<A>
        ensures { result ≡ [] }
    {
        AskIndex {
            open: HashMap::new(alloc),
            by_ask: HashMap::new(alloc),
            by_due: BTreeSet::new(alloc),
        }
    }

    /// Lets the query wait for this in place of what it had. Running out of memory changes nothing.
    pub fn set(&mut self, query: u64, ask: Option<AskKey>, due: u64) -> Result<(), Starved>
        requires { IsFreeFor self.old query ask }
        ensures ok { OnOk result (IsChanged query (Some (record { ask = ask; due = due })) self.old self.new) }
        ensures err { OnErr result (AreSame self.old self.new) }
    {
        make_room(&mut self.open, &mut self.by_ask)?;
        let had = self.open.get(&query).copied();
        change_due(&mut self.by_due, query, had, due)?;
        change_ask(&mut self.by_ask, query, had, ask);
        let put: Result<_, _> = self.open.insert(query, Waiting { ask, due });
        put.unwrap();
        Ok(())
    }

    /// The query is over, and waits for nothing; takes no memory.
    pub fn clear(&mut self, query: u64)
        ensures { IsChanged query None self.old self.new }
    {
        if let Some(had) = self.open.remove(&query) {
            drop_due(&mut self.by_due, query, had.due);
            drop_ask(&mut self.by_ask, query, had.ask);
        }
    }

    /// The query whose open ask left this socket for this server under this ID; takes no memory.
    pub fn find(&self, socket: u16, server: Addr, id: u16) -> Option<u64>
        ensures { IsFound self.now (record { socket = socket; server = server; id = id }) result }
    {
        let ask = AskKey { socket, server, id };
        self.by_ask.get(&ask).copied()
    }

    /// When the query that is due first is due, and its number; of those that are due at one moment the oldest,
    /// which has the lowest number. Takes no memory.
    pub fn earliest(&self) -> Option<(u64, u64)>
        ensures { IsEarliest self.now result }
    {
        self.by_due.first().copied()
    }
}
