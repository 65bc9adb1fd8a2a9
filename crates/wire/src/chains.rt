//! Chains of pointers (RFC 1035, section 4.1.4), passed in one step in a long message.
ghost use Rattle.std.specs.Prelude.{◌≡◌, ◌<◌, ◌≤◌, length, IfOk};
ghost use Rattle.wire.specs.Chains.{IsChainEnd, AreChainEnds, chain_behind};

use crate::error::WireError;
use crate::parts::{Part, part_at};
use crate::via::UDP_LIMIT;
use memory::{Heap, Starved};
use suffixes::POINTER_LIMIT;

// The end of the chain of pointers from a place, by the ends of the chains from the places before it.
fn chain_end(bytes: &[u8], ends: &[u16], at: usize) -> u16
    requires known { AreChainEnds bytes.now ends.now }
    requires next { length ends.now ≡ at }
    requires within { at < POINTER_LIMIT }
    ensures { IsChainEnd bytes.now at result }
{
    match part_at(
        bytes,
        bytes.len(),
        WireError::Short,
        WireError::BadLabel,
        at,
    ) {
        Ok(Part::Pointer(target)) => { if target < at { ends[target] } else { at as u16 } }
        Ok(Part::End) => at as u16,
        Ok(Part::Label(_)) => at as u16,
        Err(_) => at as u16,
    }
}

// The table of these places, from the first one on.
fn table<A: Heap>(alloc: A, bytes: &[u8], places: usize) -> Result<Vec<u16, A>, Starved>
    requires { places ≤ POINTER_LIMIT }
    ensures { IfOk result (λ ends. AreChainEnds bytes.now ends.items) }
{
    let mut ends = Vec::with_capacity(alloc, places)?;
    for at in 0..places {
        let end = chain_end(bytes, &ends, at);
        ends.push(end)?;
    }
    Ok(ends)
}

// For each place that a pointer can lead to, the end of the chain of pointers from there, so that a name passes a chain
// in one step. Where 40 has a pointer to 20, and 20 none, the end for 40 is 20. A message that a datagram can hold has
// no table, since its chains are short. Nor has another where there is no memory for one: then each pointer of a chain
// is followed.
pub fn chain_ends<A: Heap>(alloc: A, bytes: &[u8]) -> Vec<u16, A>
    ensures { AreChainEnds bytes.now result.items }
{
    if bytes.len() <= UDP_LIMIT {
        return Vec::new(alloc);
    }
    match table(alloc, bytes, bytes.len().min(POINTER_LIMIT)) {
        Ok(ends) => ends,
        Err(Starved) => Vec::new(alloc),
    }
}

// The end of the chain of pointers from a place, where the table has it, else that place: without a table, 40 of 40.
pub fn chain_behind(ends: &[u16], at: usize) -> usize
    ensures { result ≡ chain_behind ends.now at }
{
    if at < ends.len() {
        usize::from(ends[at])
    } else {
        at
    }
}
