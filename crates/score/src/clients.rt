//! The clients of a script, and what they asked.
ghost use Rattle.std.specs.Prelude.{◌≡◌, ◌+◌, IfOk, IfSome, Some, None, [], cond, length, option_map, option_copied};
ghost use Rattle.events.specs.Plain.{plain};
ghost use Rattle.runs.specs.States.{recursive};
ghost use Rattle.score.specs.Clients.{AskRecursively, IsHeard, query_of};

use events::read_asked;
use front::{Request, SharedQuery};
use memory::{Heap, Starved};
use std::alloc::Allocator;
use std::marker::Model;

/// For each client, in the order of their numbers, its query where that is recursive; the first one has number 1.
#[derive(Drop)]
pub struct Clients<A: Allocator> {
    queries: Vec<Option<SharedQuery<A>>, A>,
}

impl<A: Allocator> Model for Clients<A> {
    ghost use Rattle.std.specs.Prelude.{map, option_map};
    ghost use Rattle.events.specs.Plain.{plain};
    ghost use Rattle.score.specs.Clients.{Queries};

    ghost Value = { Queries };

    ghost view = { λ c. map (option_map plain) c.queries.items };
}

impl<A: Heap> Clients<A> {
    /// No client.
    pub fn new(alloc: A) -> Clients<A>
        ensures { result ≡ [] }
    {
        Clients {
            queries: Vec::new(alloc),
        }
    }

    /// One client more, with the bytes that it sends; gives its number.
    pub fn push(&mut self, alloc: A, bytes: &[u8]) -> Result<u64, Starved>
        ensures number { IfOk result (λ n. n ≡ length self.old + 1) }
        ensures heard { IfOk result (λ _. IsHeard bytes.now self.old self.new) }
    {
        self.queries.push(recursive_query(alloc, bytes)?)?;
        Ok(self.queries.len() as u64)
    }
}

impl<A: Allocator> Clients<A> {
    /// The recursive query of a client.
    pub fn query(&self, client: u64) -> Option<&SharedQuery<A>>
        ensures { option_map plain (option_copied result) ≡ query_of self.now client }
    {
        if client == 0 {
            return None;
        }
        match self.queries.get((client - 1) as usize) {
            Some(Some(query)) => Some(query),
            _ => None,
        }
    }

    /// The number of the next client, if there can be one.
    pub fn next(&self) -> Option<u64>
        ensures { IfSome result (λ n. n ≡ length self.now + 1) }
    {
        (self.queries.len() as u64).checked_add(1)
    }
}

// The query that bytes ask, where recursion is desired.
fn recursive_query<A: Heap>(alloc: A, bytes: &[u8]) -> Result<Option<SharedQuery<A>>, Starved>
    ensures { IfOk result (λ q. AskRecursively bytes.now (option_map plain q)) }
{
    match read_asked(alloc, bytes)? {
        Request::Query(query) => Ok(if_recursive(query)),
        _ => Ok(None),
    }
}

fn if_recursive<A: Heap>(query: SharedQuery<A>) -> Option<SharedQuery<A>>
    ensures { option_map plain result ≡ cond (recursive (plain query)) (Some (plain query)) None }
{
    if query.start.wants_recursion() {
        Some(query)
    } else {
        None
    }
}
