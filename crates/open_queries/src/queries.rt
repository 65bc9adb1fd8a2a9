//! The open queries of a resolver, found by number, by ask and by due moment without a walk over all of them.
ghost use Rattle.std.specs.Prelude.{◌≡◌, ◌+◌, ◌≤◌, [], length, OnOk, OnErr, MatchOption};
ghost use Rattle.runs.specs.States.{AreApart};
ghost use Rattle.runs.specs.Steps.{AreWith, IsRaised};
ghost use Rattle.open_queries.specs.Lookups.{IsOnLine, IsOnStream, IsFound, IsFree, IsEarliest, HasNo, IsTheOne, IsTaken, IsTakenId};

use crate::indexes::{
    Keys, Streams, drop_key, drop_stream, key_of, make_room, put_key, put_stream, stream_of,
};
use crate::open::Open;
use asks::AskIndex;
use memory::{Heap, Starved};
use rdata::Addr;
use slab::Slab;
use std::alloc::{Allocator, Global};
use std::collections::HashMap;
use std::marker::Model;

/// Open queries, no two of one number. Contracts see their list.
#[derive(Drop)]
pub struct Queries<A: Allocator = Global> {
    slots: Slab<Open<A>, A>,
    keys: Keys<A>,
    streams: Streams<A>,
    asks: AskIndex<A>,
}

impl<A: Allocator> Model for Queries<A> {
    ghost use Rattle.std.specs.Prelude.{List};
    ghost use Rattle.slab.specs.Slab.{values};
    ghost use Rattle.runs.specs.States.{Open as OpenSpec};
    ghost use Rattle.open_queries.specs.Indexes.{AreIndexed};

    ghost Value = { List OpenSpec };

    ghost view = { λ q. values q.slots };

    ghost invariant = { λ q. AreIndexed q.slots q.keys.entries q.streams.entries q.asks };
}

impl<A: Heap> Queries<A> {
    /// No queries; takes no memory.
    pub fn new(alloc: A) -> Queries<A>
        ensures { result ≡ [] }
    {
        Queries {
            slots: Slab::new(alloc),
            keys: HashMap::new(alloc),
            streams: HashMap::new(alloc),
            asks: AskIndex::new(alloc),
        }
    }

    /// How many there are.
    pub fn len(&self) -> usize
        ensures { result ≡ length self.now }
    {
        self.slots.len()
    }

    /// No two have one number.
    pub fn apart_law(&self)
        ensures { AreApart self.now }
    {
        let _ = &self.slots;
    }

    /// The number of the query whose ask left this socket for this server under this ID.
    pub fn find(&self, socket: u16, server: Addr, id: u16) -> Option<u64>
        ensures { IsFound (IsOnLine socket server id) self.now result }
    {
        self.asks.find(socket, server, id)
    }

    /// The number of the query whose ask went over TCP under this number.
    pub fn find_tcp(&self, ask: u64) -> Option<u64>
        ensures { IsFound (IsOnStream ask) self.now result }
    {
        stream_of(&self.streams, ask)
    }

    /// When the query that is due first is due, in milliseconds, and its number; of those that are due at one
    /// moment the oldest.
    pub fn earliest(&self) -> Option<(u64, u64)>
        ensures { IsEarliest self.now result }
    {
        self.asks.earliest()
    }

    /// The query of this number.
    pub fn get(&self, number: u64) -> Option<&Open<A>>
        ensures { MatchOption result (HasNo self.now number) (λ q. IsTheOne self.now number q.now) }
    {
        self.slots.get(key_of(&self.keys, number)?)
    }

    /// Takes the query of this number out.
    pub fn take_out(&mut self, number: u64) -> Option<Open<A>>
        ensures { MatchOption result (HasNo self.old number × (self.new ≡ self.old)) (λ q. IsTaken self.old number q self.new) }
    {
        let key = key_of(&self.keys, number)?;
        let taken = self.slots.remove(key);
        drop_key(&mut self.keys, number);
        drop_stream(&mut self.streams, taken.tcp_ask());
        self.asks.clear(number);
        Some(taken)
    }

    /// Puts a query in. Running out of memory changes nothing, and the query is gone.
    pub fn put(&mut self, added: Open<A>) -> Result<(), Starved>
        requires fresh { HasNo self.old added.number }
        requires free { IsFree self.old added.ask }
        ensures ok { OnOk result (AreWith added self.old self.new) }
        ensures more { OnOk result (length self.new ≡ length self.old + 1) }
        ensures err { OnErr result (self.new ≡ self.old) }
    {
        make_room(&mut self.slots, &mut self.keys, &mut self.streams)?;
        let number = added.number();
        self.asks.set(number, added.udp_ask(), added.due_moment())?;
        put_stream(&mut self.streams, added.tcp_ask(), number);
        let key = self.slots.insert_reserved(added);
        put_key(&mut self.keys, number, key);
        Ok(())
    }

    /// The first ID from this one on, modulo 2^16, under which no query's ask left this socket for this
    /// server.
    pub fn free_id(&self, socket: u16, server: Addr, from: u16) -> u16
        requires { length self.now ≤ 1024 }
        ensures { IsRaised (IsTakenId self.now socket server) from result }
    {
        for tried in 0..1025u16 {
            let id = from.wrapping_add(tried);
            if self.find(socket, server, id).is_none() {
                return id;
            }
        }
        unreachable!()
    }
}
