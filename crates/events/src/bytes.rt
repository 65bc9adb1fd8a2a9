//! Bytes of messages.
ghost use Rattle.std.specs.Prelude.{◌≡◌, ◌≤◌, ◌↔◌, IfOk, IsTrue, length};

use memory::{Heap, Starved};
use std::alloc::{Allocator, Global};
use std::marker::Model;
use wire::TCP_LIMIT;

/// Bytes of a message: at most 65,535, as a stream's length of 16 bits allows (RFC 1035, section 4.2.2). Contracts
/// see their list.
#[derive(Drop)]
pub struct Bytes<A: Allocator = Global> {
    items: Vec<u8, A>,
}

impl<A: Allocator> Model for Bytes<A> {
    ghost use Rattle.std.specs.Prelude.{◌≤◌, List, ℕ, length};
    ghost use Rattle.wire.specs.declared.via.TheConstants.{TCP_LIMIT};

    ghost Value = { List ℕ };

    ghost view = { λ b. b.items.items };

    ghost invariant = { λ b. length b.items.items ≤ TCP_LIMIT };
}

impl<A: Allocator> Bytes<A> {
    /// These bytes; takes no memory.
    pub fn new(items: Vec<u8, A>) -> Bytes<A>
        requires { length items.items ≤ TCP_LIMIT }
        ensures { result ≡ items.items }
    {
        Bytes { items }
    }

    /// The bytes in order.
    pub fn as_slice(&self) -> &[u8]
        ensures is { result.now ≡ self.now }
        ensures most { length result.now ≤ TCP_LIMIT }
    {
        &self.items
    }

    /// The bytes in order, with their memory.
    pub fn into_items(self) -> Vec<u8, A>
        ensures { result.items ≡ self }
    {
        let Bytes { items } = self;
        items
    }

    /// Whether the bytes are the same.
    pub fn same(&self, other: &Bytes<A>) -> bool
        ensures { IsTrue result ↔ (self.now ≡ other.now) }
    {
        self.items.as_slice() == other.items.as_slice()
    }
}

impl<A: Heap> Bytes<A> {
    /// The same bytes, copied.
    pub fn copied(&self) -> Result<Bytes<A>, Starved>
        ensures { IfOk result (λ b. b ≡ self.now) }
    {
        let items = Vec::from_slice(*self.items.allocator(), &self.items)?;
        Ok(Bytes { items })
    }
}
