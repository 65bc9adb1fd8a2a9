//! The two maps beside the slab of open queries: the slot of each query's number, and the query of each ask over
//! TCP. `make_room` makes room in all three first, so that nothing is refused once one of them is changed.
ghost use Rattle.std.specs.Prelude.{◌≡◌, ℕ, ◌<◌, nat_eq, cond, Some, None, OnOk};
ghost use Rattle.std.specs.HashMap.{spare};
ghost use Rattle.std.specs.Map.{lookup};
ghost use Rattle.slab.specs.Slab.{HasRoomFor};
ghost use Rattle.open_queries.specs.Indexes.{is_number};

use crate::open::Open;
use memory::{Heap, Starved};
use slab::Slab;
use std::alloc::Allocator;
use std::collections::HashMap;
use std::hash::{BuildHasherDefault, FoldHasher};

// Under which key the slab has the query of a number.
pub type Keys<A> = HashMap<u64, usize, BuildHasherDefault<FoldHasher>, A>;

// The number of the query of an ask over TCP, by the ask's own number.
pub type Streams<A> = HashMap<u64, u64, BuildHasherDefault<FoldHasher>, A>;

// The slot in the slab of the query with this number.
pub fn key_of<A: Allocator>(keys: &Keys<A>, number: u64) -> Option<usize>
    ensures { result ≡ lookup (nat_eq number) keys.now.entries }
{
    keys.get(&number).copied()
}

// Room for one more query.
pub fn make_room<A: Heap>(
    slots: &mut Slab<Open<A>, A>,
    keys: &mut Keys<A>,
    streams: &mut Streams<A>,
) -> Result<(), Starved>
    ensures slots { slots.new ≡ record slots.old { capacity = slots.new.capacity } }
    ensures keys { (number : ℕ) → lookup (nat_eq number) keys.new.entries ≡ lookup (nat_eq number) keys.old.entries }
    ensures streams { (ask : ℕ) → lookup (nat_eq ask) streams.new.entries ≡ lookup (nat_eq ask) streams.old.entries }
    ensures room { OnOk result (HasRoomFor slots.new 1 × (0 < spare keys.new) × (0 < spare streams.new)) }
{
    slots.reserve(1)?;
    keys.reserve(1)?;
    streams.reserve(1)?;
    Ok(())
}

// The number's key is this one from now on.
pub fn put_key<A: Heap>(keys: &mut Keys<A>, number: u64, key: usize)
    requires { 0 < spare keys.old }
    ensures { (n : ℕ) → lookup (nat_eq n) keys.new.entries ≡ cond (nat_eq number n) (Some key) (lookup (nat_eq n) keys.old.entries) }
{
    let put: Result<_, _> = keys.insert(number, key);
    put.unwrap();
}

// The number has no key from now on.
pub fn drop_key<A: Heap>(keys: &mut Keys<A>, number: u64)
    ensures { (n : ℕ) → lookup (nat_eq n) keys.new.entries ≡ cond (nat_eq number n) None (lookup (nat_eq n) keys.old.entries) }
{
    keys.remove(&number);
}

// The number of the query whose ask went over TCP under this number.
pub fn stream_of<A: Allocator>(streams: &Streams<A>, ask: u64) -> Option<u64>
    ensures { result ≡ lookup (nat_eq ask) streams.now.entries }
{
    streams.get(&ask).copied()
}

// The ask, where there is one, is this query's.
pub fn put_stream<A: Heap>(streams: &mut Streams<A>, ask: Option<u64>, number: u64)
    requires { 0 < spare streams.old }
    ensures { (n : ℕ) → lookup (nat_eq n) streams.new.entries ≡ cond (is_number n ask) (Some number) (lookup (nat_eq n) streams.old.entries) }
{
    if let Some(ask) = ask {
        let put: Result<_, _> = streams.insert(ask, number);
        put.unwrap();
    }
}

// The ask, where there is one, is nobody's.
pub fn drop_stream<A: Heap>(streams: &mut Streams<A>, ask: Option<u64>)
    ensures { (n : ℕ) → lookup (nat_eq n) streams.new.entries ≡ cond (is_number n ask) None (lookup (nat_eq n) streams.old.entries) }
{
    if let Some(ask) = ask {
        streams.remove(&ask);
    }
}
