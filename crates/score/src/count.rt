//! How many replies to recursive queries served their client, and how many of these were right.
ghost use Rattle.std.specs.Prelude.{◌≡◌, ◌+◌, ◌↔◌, IfOk, IsTrue, nat_eq};
ghost use Rattle.events.specs.Plain.{plain};
ghost use Rattle.score.specs.Counts.{IsFailure, IsCounted};

use front::Query;
use memory::{Heap, Starved};
use std::alloc::Allocator;
use wire::rcode::SERV_FAIL;
use wire::{Message, WireError, decode};
use worlds::{World, judge};

/// How many replies to recursive queries were no SERVFAIL, and how many of these were right.
#[derive(Clone, Copy)]
pub struct Count {
    /// Replies that are no SERVFAIL.
    pub replies: u64,
    /// Those of them that `judge` finds right for their world.
    pub right: u64,
}

impl Count {
    /// No reply yet.
    pub fn new() -> Count
        ensures { result ≡ record { replies = 0; right = 0 } }
    {
        Count {
            replies: 0,
            right: 0,
        }
    }

    /// One reply more, to that query.
    pub fn with<A: Heap>(
        self,
        alloc: A,
        world: &World<A>,
        query: &Query<A>,
        bytes: &[u8],
    ) -> Result<Count, Starved>
        ensures { IfOk result (IsCounted world.now (plain query.now) bytes.now self) }
    {
        if is_failure(alloc, bytes)? {
            return Ok(self);
        }
        let replies = next(self.replies)?;
        let right = if judge(world, &query.name, query.kind, bytes)? {
            next(self.right)?
        } else {
            self.right
        };
        Ok(Count { replies, right })
    }
}

// Whether bytes are a message with that RCODE.
fn is_failure<A: Heap>(alloc: A, bytes: &[u8]) -> Result<bool, Starved>
    ensures { IfOk result (λ b. IsTrue b ↔ IsFailure bytes.now) }
{
    match decode(alloc, bytes) {
        Ok(message) => Ok(has_failed(&message)),
        Err(WireError::Memory) => Err(Starved),
        Err(_) => Ok(false),
    }
}

fn has_failed<A: Allocator>(message: &Message<A>) -> bool
    ensures { result ≡ nat_eq (message.now.header).rcode 2 }
{
    message.header.rcode == SERV_FAIL
}

fn next(number: u64) -> Result<u64, Starved>
    ensures { IfOk result (λ n. n ≡ number + 1) }
{
    number.checked_add(1).ok_or(Starved)
}
