//! Cuts and addresses made of records: `cut_of` a delegation of its NS set and glue, `found_addresses` the addresses
//! of a server of its set of A records.
ghost use Rattle.std.specs.Prelude.{◌≡◌, ◌++◌, [], cond, nat_lt, length, map, IfOk, OnOk};
ghost use Rattle.rdata.specs.Kept.{datum};
ghost use Rattle.frames.specs.Frames.{most_taken};
ghost use Rattle.resolution.specs.Jobs.{ipv4_of, bytes_of, IsCutOf, AreAddressesOf};

use dname::Name;
use limits::MAX_SERVERS;
use memory::{Heap, Starved};
use rdata::{Addr, RData, Record, RecordSet};
use referral::Cut;

// The cut that an NS set and glue make: the servers' names, and the A records among the glue (RFC 1034,
// section 4.2.1).
// For the proof: it says of `Cut::of_records` what the rules of a query speak of.
pub(crate) fn cut_of<A: Heap>(
    alloc: A,
    at: Name<A>,
    servers: &[Record<A>],
    glue: &[Record<A>],
) -> Result<Cut<A>, Starved>
    ensures { IfOk result (IsCutOf at servers.now glue.now) }
{
    Ok(Cut::of_records(alloc, at, servers, glue)?)
}

// Adds an address, where the data are of type A and fewer than sixteen were found.
fn put_found<A: Heap>(found: &mut Vec<Addr, A>, given: &RData<A>) -> Result<(), Starved>
    ensures { OnOk result (map bytes_of found.new.items ≡ map bytes_of found.old.items ++ cond (nat_lt (length found.old.items) most_taken) (ipv4_of (datum given.now)) []) }
{
    if found.len() < MAX_SERVERS
        && let RData::A(address) = given
    {
        found.push(*address)?;
    }
    Ok(())
}

/// The addresses that an RRset of A records gives, in order: the first sixteen, however many it has.
pub fn found_addresses<A: Heap>(alloc: A, set: &RecordSet<A>) -> Result<Vec<Addr, A>, Starved>
    ensures { IfOk result (λ found. AreAddressesOf set.now found.items) }
{
    let mut found = Vec::new(alloc);
    for index in 0..set.values.len() {
        put_found(&mut found, set.values.get(index))?;
    }
    Ok(found)
}
