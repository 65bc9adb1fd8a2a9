//! The part of a cut that a frame can use.

ghost use Rattle.std.specs.Prelude.{◌≡◌, ◌++◌, IfOk, OnOk};
ghost use Rattle.std.specs.List.{flat_map};
ghost use Rattle.std.specs.Option.{option_copied};
ghost use Rattle.frames.specs.Trimmed.{alone, entry_at, entry_of, trimmed};

use crate::taken::{first_names, has_address, taken_addresses};
use dname::Name;
use memory::{Heap, Starved};
use rdata::Addr;
use referral::{Addresses, Cut, Names, ServerAddress};
use std::alloc::Allocator;

// The first server with this address.
fn entry_at<A: Allocator>(servers: &[ServerAddress<A>], sought: Addr) -> Option<&ServerAddress<A>>
    ensures { option_copied result ≡ entry_at servers.now sought }
{
    servers.iter().find(|server| server.address == sought)
}

// The first server of this name whose address is in use.
fn entry_of<'a, A: Allocator>(
    servers: &'a [ServerAddress<A>],
    taken: &[Addr],
    name: &Name<A>,
) -> Option<&'a ServerAddress<A>>
    ensures { option_copied result ≡ entry_of servers.now taken.now name.now }
{
    servers.iter().find(|server| server.name == *name && has_address(taken, server.address))
}

fn put<A: Heap>(kept: &mut Addresses<A>, found: Option<&ServerAddress<A>>) -> Result<(), Starved>
    ensures { OnOk result (kept.new ≡ kept.old ++ alone (option_copied found.entry)) }
{
    if let Some(server) = found {
        kept.push(server.clone()?)?;
    }
    Ok(())
}

// One server for each address in use, and then one for each name that is known by such an address.
fn entries<A: Heap>(
    alloc: A,
    servers: &[ServerAddress<A>],
    taken: &[Addr],
    names: &[Name<A>],
) -> Result<Addresses<A>, Starved>
    ensures { IfOk result (λ v. v ≡ flat_map (λ a. alone (entry_at servers.now a)) taken.now ++ flat_map (λ n. alone (entry_of servers.now taken.now n)) names.now) }
{
    let mut kept = Addresses::new(alloc);
    for address in taken {
        put(&mut kept, entry_at(servers, *address))?;
    }
    for name in names {
        put(&mut kept, entry_of(servers, taken, name))?;
    }
    Ok(kept)
}

fn copies<A: Heap>(alloc: A, names: &[Name<A>]) -> Result<Names<A>, Starved>
    ensures { IfOk result (λ v. v ≡ names.now) }
{
    let mut kept = Names::new(alloc);
    for name in names {
        kept.push(name.clone()?)?;
    }
    Ok(kept)
}

/// The part of this cut that a frame can use: its first 16 names, the first server of each address that a frame uses,
/// and the first server by which each of the names is known. It has 16 names and 32 addresses at most, and gives the
/// same frame as the whole cut, so that it can be cached in its place.
pub fn trimmed<A: Heap>(alloc: A, cut: &Cut<A>) -> Result<Cut<A>, Starved>
    ensures { IfOk result (λ c. c ≡ trimmed cut.now) }
{
    let servers = cut.addresses.as_slice();
    let first = first_names(cut.names.as_slice());
    let taken = taken_addresses(alloc, servers)?;
    let addresses = entries(alloc, servers, &taken, first)?;
    let names = copies(alloc, first)?;
    let owner = cut.owner.clone()?;
    Ok(Cut {
        owner,
        names,
        addresses,
    })
}
