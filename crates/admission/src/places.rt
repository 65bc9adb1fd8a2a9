//! How many queries there are of a key, of an address and of a domain, and where the first of a kind stands.
ghost use Rattle.std.specs.Prelude.{◌≡◌, ◌+◌, length};
ghost use Rattle.std.specs.List.{count_by, filter, position};
ghost use Rattle.std.specs.VecDeque.{deque_capacity};
ghost use Rattle.admission.specs.States.{address_in, admitted_with, admitted_from, admitted_in, held_with, held_from, held_in};
ghost use Rattle.admission.specs.Moves.{is_entering, is_open, is_late, may_wait};
ghost use Rattle.admission.specs.Waiting.{is_address};

use crate::limits::OPEN_MS;
use crate::queries::{Admitted, Held};
use std::alloc::Allocator;
use std::collections::VecDeque;

/// A client's address, without the port.
pub fn address_in(client: u64) -> u64
    ensures { result ≡ address_in client }
{
    client / 65_536
}

/// How many of them have that key.
pub fn admitted_with(queries: &[Admitted], key: u64) -> usize
    ensures { result ≡ count_by (admitted_with key) queries.now }
{
    queries.iter().filter(|query| query.key == key).count()
}

/// How many of them are from that address.
pub fn admitted_from(queries: &[Admitted], address: u64) -> usize
    ensures { result ≡ count_by (admitted_from address) queries.now }
{
    queries
        .iter()
        .filter(|query| address_in(query.client) == address)
        .count()
}

/// How many of them are in that domain.
pub fn admitted_in(queries: &[Admitted], domain: u64) -> usize
    ensures { result ≡ count_by (admitted_in domain) queries.now }
{
    queries
        .iter()
        .filter(|query| query.domain == domain)
        .count()
}

/// How many of them have that key.
pub fn held_with<T, A: Allocator>(queries: &VecDeque<Held<T>, A>, key: u64) -> usize
    ensures { result ≡ count_by (held_with key) queries.now.items }
{
    queries.iter().filter(|query| query.key == key).count()
}

/// How many of them are from that address.
pub fn held_from<T, A: Allocator>(queries: &VecDeque<Held<T>, A>, address: u64) -> usize
    ensures { result ≡ count_by (held_from address) queries.now.items }
{
    queries
        .iter()
        .filter(|query| address_in(query.client) == address)
        .count()
}

/// How many of them are in that domain.
pub fn held_in<T, A: Allocator>(queries: &VecDeque<Held<T>, A>, domain: u64) -> usize
    ensures { result ≡ count_by (held_in domain) queries.now.items }
{
    queries
        .iter()
        .filter(|query| query.domain == domain)
        .count()
}

/// How many of them are that address.
pub fn addresses_of(addresses: &[u64], address: u64) -> usize
    ensures { result ≡ count_by (is_address address) addresses.now }
{
    addresses.iter().filter(|other| **other == address).count()
}

/// Where the first stands that enters with that key, from that client.
pub fn place_of_entering(queries: &[Admitted], key: u64, client: u64) -> Option<usize>
    ensures { result ≡ position (is_entering key client) queries.now }
{
    queries.iter().position(|query| query.key == key
        && query.client == client
        && query.opened.is_none())
}

/// Where the first stands that is open with that key, from that client.
pub fn place_of_open(queries: &[Admitted], key: u64, client: u64) -> Option<usize>
    ensures { result ≡ position (is_open key client) queries.now }
{
    queries.iter().position(|query| query.key == key
        && query.client == client
        && query.opened.is_some())
}

/// Where the first stands that has been open for its time.
pub fn place_of_late(queries: &[Admitted], now: u64) -> Option<usize>
    ensures { result ≡ position (is_late now) queries.now }
{
    queries.iter().position(|query| is_late(query, now))
}

// Whether a query has been open for its time.
fn is_late(query: &Admitted, now: u64) -> bool
    ensures { result ≡ is_late now query.now }
{
    match query.opened {
        Some(moment) => OPEN_MS <= now.saturating_sub(moment),
        None => false,
    }
}

/// Where the first stands with that key.
pub fn place_of_key<T, A: Allocator>(queries: &VecDeque<Held<T>, A>, key: u64) -> Option<usize>
    ensures { result ≡ position (held_with key) queries.now.items }
{
    queries.iter().position(|query| query.key == key)
}

/// Drops those that have waited for their time, and says how many.
pub fn drop_late<T: Drop, A: Allocator>(queries: &mut VecDeque<Held<T>, A>, now: u64) -> usize
    ensures items { queries.new.items ≡ filter (may_wait now) queries.old.items }
    ensures count { result + length queries.new.items ≡ length queries.old.items }
    ensures capacity { deque_capacity queries.new ≡ deque_capacity queries.old }
{
    let before = queries.len();
    queries.retain(|query| !query.is_late(now));
    before - queries.len()
}
