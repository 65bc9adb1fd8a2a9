//! Cuts made of records and of hints.
ghost use Rattle.std.specs.Prelude.{◌≡◌, map, IfOk, OnOk};
ghost use Rattle.rdata.specs.Targets.{targets_of};
ghost use Rattle.referral.specs.Made.{addresses_in, with_target, with_address, record_cut, hinted, hint_cut};

use crate::cut::Cut;
use crate::lists::{Addresses, Names, ServerAddress};
use dname::Name;
use memory::{Heap, Starved};
use rdata::{Addr, RData, Record};

// Adds the target of the record, if it is of type NS.
fn put_target<A: Heap>(names: &mut Names<A>, server: &Record<A>) -> Result<(), Starved>
    ensures { OnOk result (names.new ≡ with_target names.old (server.now).value) }
{
    if let RData::Ns(target) = &server.value {
        names.push(target.clone()?)?;
    }
    Ok(())
}

fn targets<A: Heap>(alloc: A, servers: &[Record<A>]) -> Result<Names<A>, Starved>
    ensures { IfOk result (λ n. n ≡ targets_of servers.now) }
{
    let mut names = Names::new(alloc);
    for server in servers {
        put_target(&mut names, server)?;
    }
    Ok(names)
}

// Adds the address of the record, if it is of type A.
fn put_address<A: Heap>(addresses: &mut Addresses<A>, given: &Record<A>) -> Result<(), Starved>
    ensures { OnOk result (addresses.new ≡ with_address addresses.old (given.now).owner (given.now).value) }
{
    if let RData::A(address) = &given.value {
        addresses.push(ServerAddress {
            name: given.owner.clone()?,
            address: *address,
        })?;
    }
    Ok(())
}

fn addresses<A: Heap>(alloc: A, glue: &[Record<A>]) -> Result<Addresses<A>, Starved>
    ensures { IfOk result (λ a. a ≡ addresses_in glue.now) }
{
    let mut addresses = Addresses::new(alloc);
    for given in glue {
        put_address(&mut addresses, given)?;
    }
    Ok(addresses)
}

fn hinted_addresses<A: Heap>(alloc: A, hints: &[Addr]) -> Result<Addresses<A>, Starved>
    ensures { IfOk result (λ a. a ≡ map hinted hints.now) }
{
    let mut addresses = Addresses::new(alloc);
    for hint in hints {
        addresses.push(ServerAddress {
            name: Name::root(alloc)?,
            address: *hint,
        })?;
    }
    Ok(addresses)
}

impl<A: Heap> Cut<A> {
    /// The cut of this name, made of a zone's records or a referral's: the targets of its NS records in order, and of
    /// the others the A records in order, each address with its owner (RFC 1034, section 4.2.1).
    pub fn of_records(
        alloc: A,
        owner: Name<A>,
        servers: &[Record<A>],
        glue: &[Record<A>],
    ) -> Result<Cut<A>, Starved>
        ensures { IfOk result (λ c. c ≡ record_cut owner servers.now glue.now) }
    {
        Ok(Cut {
            owner,
            names: targets(alloc, servers)?,
            addresses: addresses(alloc, glue)?,
        })
    }

    /// The root with these addresses, of whose servers no name is known (RFC 1034, section 5.3.2).
    pub fn of_hints(alloc: A, hints: &[Addr]) -> Result<Cut<A>, Starved>
        ensures { IfOk result (λ c. c ≡ hint_cut hints.now) }
    {
        Ok(Cut {
            owner: Name::root(alloc)?,
            names: Names::new(alloc),
            addresses: hinted_addresses(alloc, hints)?,
        })
    }
}
