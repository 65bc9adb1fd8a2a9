//! The labels of a name, one by one (RFC 1034, section 3.1).
ghost use Rattle.std.specs.Prelude.{◌≡◌};

use crate::name::Name;
use crate::walk::next_label;
use std::alloc::Allocator;
use std::marker::Model;

/// An iteration over the labels of a name, from the first one on and without the root's. Contracts see the name that is
/// left: the labels that are still to come, and the root's.
#[derive(Drop)]
pub struct Labels<'a> {
    // The name that is left, in wire form.
    rest: &'a [u8],
}

impl<'a> Model for Labels<'a> {
    ghost use Rattle.std.specs.Prelude.{List, ℕ};
    ghost use Rattle.dname.specs.Wire.{labels_of, IsNameWire};

    ghost Value = { List (List ℕ) };

    ghost view = { λ l. labels_of l.rest.now };

    ghost invariant = { λ l. IsNameWire l.rest.now };
}

impl<A: Allocator> Name<A> {
    /// The labels in order, without the root's: of `www.example`, `www` and then `example`.
    pub fn iter(&self) -> Labels<'_>
        ensures { result ≡ self.now }
    {
        Labels {
            rest: self.bytes.as_slice(),
        }
    }
}

impl<'a> Iterator for Labels<'a> {
    ghost use Rattle.std.specs.Iterator.{YieldsFirstRef, item_count};
    ghost use Rattle.dname.specs.Labels.{before_root};

    type Item = &'a [u8];

    ghost next_gives = { YieldsFirstRef before_root };

    ghost remaining = { item_count before_root };

    fn next(&mut self) -> Option<&'a [u8]> {
        match next_label(self.rest) {
            None => None,
            Some((label, rest)) => {
                self.rest = rest;
                Some(label)
            }
        }
    }
}
