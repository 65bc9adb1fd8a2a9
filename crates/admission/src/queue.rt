//! Those that wait, and how many of them are from an address.
ghost use Rattle.std.specs.Prelude.{◌≡◌, ◌+◌, ◌^◌, ◌<◌, ◌≤◌, ◌↔◌, false, [], ◌∷◌, ◌++◌, IfOk, IfSome, IsSome, None, length, map, slice_index_or, vec_capacity, vec_len};
ghost use Rattle.std.specs.List.{count_by, filter};
ghost use Rattle.admission.specs.States.{held_from, held_with};
ghost use Rattle.admission.specs.Moves.{first_of, may_wait, without_first};
ghost use Rattle.admission.specs.Waiting.{address_of};

use crate::places::{address_in, addresses_of, drop_late, place_of_key};
use crate::queries::Held;
use memory::{Heap, Starved};
use std::alloc::Allocator;
use std::collections::VecDeque;
use std::marker::Model;

/// Queries that wait, in the order in which they came. Their addresses stand apart in the same order, so that those of
/// one address are counted without a look at the queries, which are far longer.
#[derive(Drop)]
pub(crate) struct Queue<T, A: Allocator> {
    held: VecDeque<Held<T>, A>,
    addresses: Vec<u64, A>,
}

impl<T, A: Allocator> Model for Queue<T, A> {
    ghost use Rattle.std.specs.Prelude.{◌≡◌, ◌≤◌, map, vec_capacity};
    ghost use Rattle.std.specs.VecDeque.{deque_capacity};
    ghost use Rattle.admission.specs.Waiting.{Waiters, waiters, address_of};

    ghost Value = { Waiters T };

    ghost view = { λ q. waiters q.held.items (deque_capacity q.held) };

    ghost invariant = { λ q. (q.addresses.items ≡ map address_of q.held.items) × (deque_capacity q.held ≤ vec_capacity q.addresses) };
}

impl<T: Drop, A: Heap> Queue<T, A> {
    /// A queue in which nobody waits, with room for so many.
    pub fn new(alloc: A, room: usize) -> Result<Queue<T, A>, Starved>
        ensures items { IfOk result (λ q. q.items ≡ []) }
        ensures room { IfOk result (λ q. q.room ≡ room) }
    {
        let held = VecDeque::with_capacity(alloc, room)?;
        let addresses = Vec::with_capacity(alloc, room)?;
        Ok(Queue { held, addresses })
    }
}

impl<T: Drop, A: Allocator> Queue<T, A> {
    /// How many wait.
    pub fn len(&self) -> usize
        ensures { result ≡ length self.now.items }
    {
        self.held.len()
    }

    /// The one at this place. None past the last.
    pub fn get(&self, place: usize) -> Option<&Held<T>>
        ensures there { IsSome result ↔ (place < length self.now.items) }
        ensures query { IfSome result (λ q. q.now ≡ slice_index_or self.now.items place q.now) }
    {
        self.held.get(place)
    }

    /// How many are from this address.
    pub fn from_address(&self, address: u64) -> usize
        ensures count { result ≡ count_by (held_from address) self.now.items }
        ensures few { result < 2 ^ 63 }
    {
        addresses_of(&self.addresses, address)
    }

    /// One more waits, behind the others.
    pub fn push(&mut self, query: Held<T>)
        requires { length self.old.items < self.old.room }
        ensures items { self.new.items ≡ self.old.items ++ query ∷ [] }
        ensures room { self.new.room ≡ self.old.room }
    {
        self.addresses.push_reserved(address_in(query.client));
        self.held.push_back_reserved(query);
    }

    /// Takes the first with that key out.
    pub fn take_first(&mut self, key: u64) -> Option<Held<T>>
        ensures first { result ≡ first_of (held_with key) self.old.items }
        ensures others { self.new.items ≡ without_first (held_with key) self.old.items }
        ensures room { self.new.room ≡ self.old.room }
    {
        match place_of_key(&self.held, key) {
            Some(place) => {
                self.addresses.remove(place);
                self.held.remove(place)
            }
            None => None,
        }
    }

    /// The same where one may wait with that key. Where none does, they are not looked through.
    pub fn take_where(&mut self, key: u64, waits: bool) -> Option<Held<T>>
        requires { waits ≡ false → first_of (held_with key) self.old.items ≡ None }
        ensures first { result ≡ first_of (held_with key) self.old.items }
        ensures others { self.new.items ≡ without_first (held_with key) self.old.items }
        ensures room { self.new.room ≡ self.old.room }
    {
        if waits {
            return self.take_first(key);
        }
        None
    }

    /// Drops those that have waited for their time, and says how many.
    pub fn drop_late(&mut self, now: u64) -> usize
        ensures items { self.new.items ≡ filter (may_wait now) self.old.items }
        ensures count { result + length self.new.items ≡ length self.old.items }
        ensures room { self.new.room ≡ self.old.room }
    {
        let dropped = drop_late(&mut self.held, now);
        self.addresses.clear();
        put_addresses(&mut self.addresses, &self.held);
        dropped
    }
}

// Appends the address of each.
fn put_addresses<T, A: Allocator>(addresses: &mut Vec<u64, A>, queries: &VecDeque<Held<T>, A>)
    requires { vec_len addresses.old + length queries.now.items ≤ vec_capacity addresses.old }
    ensures items { addresses.new.items ≡ addresses.old.items ++ map address_of queries.now.items }
    ensures capacity { vec_capacity addresses.new ≡ vec_capacity addresses.old }
{
    for query in queries {
        addresses.push_reserved(address_in(query.client));
    }
}
