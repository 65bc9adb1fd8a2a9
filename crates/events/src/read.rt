//! The meaning of a client's bytes.
ghost use Rattle.std.specs.Prelude.{◌≤◌, ◌<◌, IfOk, IsOk, length, slice_index};
ghost use Rattle.front.specs.Queries.{IsRequest};
ghost use Rattle.events.specs.Plain.{plain_asked};

use front::{Request, read_query};
use memory::{Heap, Starved};

/// The meaning of a client's bytes, as a value without an allocator. Under 12 bytes and a reply take no memory.
// For the proof: it says of `read_query` what the steps of a run speak of, which know no allocator.
pub fn read_asked<A: Heap>(alloc: A, bytes: &[u8]) -> Result<Request<A>, Starved>
    ensures asked { IfOk result (λ a. IsRequest bytes.now (plain_asked a)) }
    ensures dropped { length bytes.now < 12 → IsOk result }
    ensures replies { 128 ≤ slice_index bytes.now 2 → IsOk result }
{
    read_query(alloc, bytes)
}
