//! A name that borrows its bytes from one at or under it.
ghost use Rattle.std.specs.Prelude.{◌≡◌, Some, IfOk};
ghost use Rattle.std.specs.Bool.{OnTrue, OnFalse};
ghost use Rattle.dname.specs.Labels.{wire, root, same_name, parent_of, IsName};
ghost use Rattle.dname.specs.Wire.{labels_of, IsNameWire};

use crate::bytes::NameBytes;
use crate::name::Name;
use crate::walk::next_label;
use memory::{Heap, Starved};
use std::alloc::Allocator;
use std::marker::Model;

/// A name that borrows its bytes from one that is at or under it, so that a walk up from a name takes no memory.
/// Contracts see its labels, as of a `Name`.
#[derive(Drop)]
pub struct Suffix<'a> {
    bytes: &'a [u8],
}

impl<'a> Model for Suffix<'a> {
    ghost use Rattle.std.specs.Prelude.{List, ℕ};
    ghost use Rattle.dname.specs.Wire.{labels_of, IsNameWire};

    ghost Value = { List (List ℕ) };

    ghost view = { λ s. labels_of s.bytes.now };

    ghost invariant = { λ s. IsNameWire s.bytes.now };
}

impl<A: Allocator> Name<A> {
    /// The name itself, borrowed: of `www.example` it is `www.example`.
    pub fn suffix(&self) -> Suffix<'_>
        ensures { result ≡ self.now }
    {
        Suffix {
            bytes: self.bytes.as_slice(),
        }
    }
}

impl<'a> Suffix<'a> {
    /// The name that these bytes are the wire form of: of 3 `www` 0 it is `www`.
    pub fn of_wire(bytes: &'a [u8]) -> Suffix<'a>
        requires { IsNameWire bytes.now }
        ensures { result ≡ labels_of bytes.now }
    {
        Suffix { bytes }
    }

    /// Makes it the name above, `example` of `www.example`; false, and no change, at the root.
    pub fn ascend(&mut self) -> bool
        ensures above { OnTrue result (parent_of self.old ≡ Some self.new) }
        ensures root { OnFalse result ((self.old ≡ root) × (self.new ≡ self.old)) }
    {
        match next_label(self.bytes) {
            None => false,
            Some((_, rest)) => {
                self.bytes = rest;
                true
            }
        }
    }

    /// Its wire form: of `www.a`, 3 `www` 1 `a` 0.
    pub fn wire(&self) -> &'a [u8]
        ensures { result.now ≡ wire self.now }
    {
        self.bytes
    }

    /// Whether this is that name: `www.example` is `example` after one `ascend`.
    pub fn is<A: Allocator>(&self, name: &Name<A>) -> bool
        ensures { result ≡ same_name self.now name.now }
    {
        self.bytes == name.wire()
    }

    /// The same name with memory of its own: of the suffix `example`, the name `example`.
    pub fn to_name<A: Heap>(&self, alloc: A) -> Result<Name<A>, Starved>
        ensures { IfOk result (λ n. n ≡ self.now) }
    {
        Ok(Name::from_wire(NameBytes::new(alloc, self.bytes)?))
    }

    /// Each name has labels of 1 to 63 bytes and then the root's, at most 255 bytes in all.
    pub fn well_formed_law(&self)
        ensures { IsName self.now }
    {
        let _ = self.bytes.len();
    }
}
