//! Lists of names and of addresses of servers.
ghost use Rattle.std.specs.Prelude.{◌≡◌, [], ◌∷◌, ◌++◌, IfOk, OnOk, OnErr};

use dname::Name;
use memory::{Heap, Starved};
use rdata::Addr;
use std::alloc::{AllocError, Allocator, Global};
use std::marker::Model;

/// Names in order. Contracts see their list.
#[derive(Drop)]
pub struct Names<A: Allocator = Global> {
    names: Vec<Name<A>, A>,
}

impl<A: Allocator> Model for Names<A> {
    ghost use Rattle.std.specs.Prelude.{List, ℕ};

    ghost Value = { List (List (List ℕ)) };

    ghost view = { λ n. n.names.items };
}

fn copies<A: Heap>(alloc: A, names: &[Name<A>]) -> Result<Vec<Name<A>, A>, AllocError>
    ensures { IfOk result (λ v. v.items ≡ names.now) }
{
    let mut items = Vec::with_capacity(alloc, names.len())?;
    for name in names {
        items.push(name.clone()?)?;
    }
    Ok(items)
}

impl<A: Heap> Clone for Names<A> {
    ghost is_clone = { λ x y. y ≡ x };

    fn clone(&self) -> Result<Names<A>, AllocError> {
        let names = copies(*self.names.allocator(), &self.names)?;
        Ok(Names { names })
    }
}

impl<A: Heap> Names<A> {
    /// No names; takes no memory.
    pub fn new(alloc: A) -> Names<A>
        ensures { result ≡ [] }
    {
        Names {
            names: Vec::new(alloc),
        }
    }

    /// Adds a name at the end.
    pub fn push(&mut self, added: Name<A>) -> Result<(), Starved>
        ensures ok { OnOk result (self.new ≡ self.old ++ added ∷ []) }
        ensures err { OnErr result (self.new ≡ self.old) }
    {
        self.names.push(added)?;
        Ok(())
    }
}

impl<A: Allocator> Names<A> {
    /// The names in order.
    pub fn as_slice(&self) -> &[Name<A>]
        ensures { result.now ≡ self.now }
    {
        self.names.as_slice()
    }
}

/// An address of a server, and the server's name: the root's where the name is not known, as for hints.
#[derive(Drop)]
pub struct ServerAddress<A: Allocator = Global> {
    /// The server that has the address.
    pub name: Name<A>,
    /// The IPv4 address at which it can be asked.
    pub address: Addr,
}

impl<A: Allocator> Model for ServerAddress<A> {
    ghost use Rattle.referral.specs.Cuts.{ServerAddress as ServerAddressSpec};

    ghost Value = { ServerAddressSpec };

    ghost view = { λ s. record { name = s.name; address = s.address } };
}

impl<A: Heap> Clone for ServerAddress<A> {
    ghost is_clone = { λ x y. y ≡ x };

    fn clone(&self) -> Result<ServerAddress<A>, AllocError> {
        Ok(ServerAddress {
            name: self.name.clone()?,
            address: self.address,
        })
    }
}

/// Addresses of servers in order, each with the server's name. Contracts see their list.
#[derive(Drop)]
pub struct Addresses<A: Allocator = Global> {
    addresses: Vec<ServerAddress<A>, A>,
}

impl<A: Allocator> Model for Addresses<A> {
    ghost use Rattle.std.specs.Prelude.{List};
    ghost use Rattle.referral.specs.Cuts.{ServerAddress as ServerAddressSpec};

    ghost Value = { List ServerAddressSpec };

    ghost view = { λ a. a.addresses.items };
}

fn address_copies<A: Heap>(
    alloc: A,
    addresses: &[ServerAddress<A>],
) -> Result<Vec<ServerAddress<A>, A>, AllocError>
    ensures { IfOk result (λ v. v.items ≡ addresses.now) }
{
    let mut items = Vec::with_capacity(alloc, addresses.len())?;
    for address in addresses {
        items.push(address.clone()?)?;
    }
    Ok(items)
}

impl<A: Heap> Clone for Addresses<A> {
    ghost is_clone = { λ x y. y ≡ x };

    fn clone(&self) -> Result<Addresses<A>, AllocError> {
        let addresses = address_copies(*self.addresses.allocator(), &self.addresses)?;
        Ok(Addresses { addresses })
    }
}

impl<A: Heap> Addresses<A> {
    /// No addresses; takes no memory.
    pub fn new(alloc: A) -> Addresses<A>
        ensures { result ≡ [] }
    {
        Addresses {
            addresses: Vec::new(alloc),
        }
    }

    /// Adds an address at the end.
    pub fn push(&mut self, added: ServerAddress<A>) -> Result<(), Starved>
        ensures ok { OnOk result (self.new ≡ self.old ++ added ∷ []) }
        ensures err { OnErr result (self.new ≡ self.old) }
    {
        self.addresses.push(added)?;
        Ok(())
    }
}

impl<A: Allocator> Addresses<A> {
    /// The addresses in order.
    pub fn as_slice(&self) -> &[ServerAddress<A>]
        ensures { result.now ≡ self.now }
    {
        self.addresses.as_slice()
    }
}
