//! Which names and addresses of a cut are used, and which found addresses are new.
ghost use Rattle.std.specs.Prelude.{◌≡◌, ◌&&◌, not, filter, map, take, IfOk};
ghost use Rattle.std.specs.List.{list_any};
ghost use Rattle.dname.specs.Labels.{Name as NameSpec, same_name};
ghost use Rattle.rdata.specs.declared.addr.Addr.{Addr as AddrSpec};
ghost use Rattle.referral.specs.Cuts.{ServerAddress as ServerAddressSpec};
ghost use Rattle.frames.specs.Frames.{has_address, each_once, most_taken};
ghost use Rattle.frames.specs.Seen.{AreSeen};

use dname::Name;
use limits::MAX_SERVERS;
use memory::{Heap, Starved};
use rdata::Addr;
use referral::{Names, ServerAddress};
use std::alloc::Allocator;
use std::collections::BTreeSet;

// The number of found addresses that are compared one by one; of more, each is sought by the order of addresses.
const SCANNED: usize = 16;

// The addresses in use, by their bytes: a repeat is found in log n.
type Seen<A> = BTreeSet<[u8; 4], A>;

pub(crate) fn has_address(addresses: &[Addr], sought: Addr) -> bool
    ensures { result ≡ has_address addresses.now sought }
{
    addresses.iter().any(|address| sought == *address)
}

/// The first addresses of servers, each once.
pub(crate) fn taken_addresses<A: Heap>(
    alloc: A,
    servers: &[ServerAddress<A>],
) -> Result<Vec<Addr, A>, Starved>
    ensures { IfOk result (λ v. v.items ≡ take most_taken (each_once (map (λ (s : ServerAddressSpec). s.address) servers.now))) }
{
    let mut taken = Vec::new(alloc);
    for server in servers {
        if taken.len() < MAX_SERVERS && !has_address(&taken, server.address) {
            taken.push(server.address)?;
        }
    }
    Ok(taken)
}

/// The first names, as many as are used.
pub(crate) fn first_names<A: Allocator>(names: &[Name<A>]) -> &[Name<A>]
    ensures { result.now ≡ take most_taken names.now }
{
    &names[..names.len().min(MAX_SERVERS)]
}

// Whether an address of this server is in use.
fn is_known<A: Allocator>(servers: &[ServerAddress<A>], taken: &[Addr], name: &Name<A>) -> bool
    ensures { result ≡ list_any (λ (s : ServerAddressSpec). same_name s.name name.now && has_address taken.now s.address) servers.now }
{
    servers.iter().any(|server| server.name == *name && has_address(taken, server.address))
}

/// The names without those that an address in use belongs to.
pub(crate) fn unknown_names<A: Heap>(
    alloc: A,
    names: &[Name<A>],
    servers: &[ServerAddress<A>],
    taken: &[Addr],
) -> Result<Names<A>, Starved>
    ensures { IfOk result (λ v. v ≡ filter (λ (n : NameSpec). not (list_any (λ (s : ServerAddressSpec). same_name s.name n && has_address taken.now s.address) servers.now)) names.now) }
{
    let mut unknown = Names::new(alloc);
    for name in names {
        if !is_known(servers, taken, name) {
            unknown.push(name.clone()?)?;
        }
    }
    Ok(unknown)
}

/// The found addresses that are not known, each once. Of n addresses, known and found, it makes some n log n
/// comparisons; where up to 16 are found it takes no memory but that of the result.
pub(crate) fn fresh_addresses<A: Heap>(
    alloc: A,
    known: &[Addr],
    found: &[Addr],
) -> Result<Vec<Addr, A>, Starved>
    ensures { IfOk result (λ v. v.items ≡ filter (λ (a : AddrSpec). not (has_address known.now a)) (each_once found.now)) }
{
    if found.len() <= SCANNED {
        return fresh_of_few(alloc, known, found);
    }
    fresh_of_many(alloc, known, found)
}

fn fresh_of_few<A: Heap>(alloc: A, known: &[Addr], found: &[Addr]) -> Result<Vec<Addr, A>, Starved>
    ensures { IfOk result (λ v. v.items ≡ filter (λ (a : AddrSpec). not (has_address known.now a)) (each_once found.now)) }
{
    let mut fresh = Vec::new(alloc);
    for address in found {
        if !has_address(known, *address) && !has_address(&fresh, *address) {
            fresh.push(*address)?;
        }
    }
    Ok(fresh)
}

fn fresh_of_many<A: Heap>(alloc: A, known: &[Addr], found: &[Addr]) -> Result<Vec<Addr, A>, Starved>
    ensures { IfOk result (λ v. v.items ≡ filter (λ (a : AddrSpec). not (has_address known.now a)) (each_once found.now)) }
{
    let mut seen = set_of(alloc, known)?;
    let mut fresh = Vec::new(alloc);
    for address in found {
        if seen.insert(address.0)? {
            fresh.push(*address)?;
        }
    }
    Ok(fresh)
}

// The set of these addresses.
fn set_of<A: Heap>(alloc: A, addresses: &[Addr]) -> Result<Seen<A>, Starved>
    ensures { IfOk result (λ seen. AreSeen seen addresses.now) }
{
    let mut seen = BTreeSet::new(alloc);
    for address in addresses {
        seen.insert(address.0)?;
    }
    Ok(seen)
}
