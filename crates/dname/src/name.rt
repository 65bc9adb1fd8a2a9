//! A name, and its relation to others: equal, at or under, above.
ghost use Rattle.std.specs.Prelude.{◌≡◌, ℕ, ◌+◌, ◌≤◌, ◌<◌, ◌↔◌, List, ◌∷◌, length, true, false, None, Some, IsTrue, IfOk, OnOk, OnErr, IfSome, MatchOption};
ghost use Rattle.std.specs.Bool.{OnTrue, OnFalse};
ghost use Rattle.dname.specs.Labels.{wire, root, star, folded_labels, same_name, is_under, parent_of, IsAtOrUnder, IsName};
ghost use Rattle.dname.specs.Wire.{labels_of, IsNameWire, IsSpellingWire};
ghost use Rattle.dname.specs.Laws.{fed_name, same_name_per, same_name_equiv, same_name_fed};

use crate::bytes::NameBytes;
use crate::walk::{has_end, next_label};
use memory::{Heap, Starved};
use std::alloc::{AllocError, Allocator, Global};
use std::cmp::Eq;
use std::hash::{Hash, Hasher};
use std::marker::Model;

/// Bytes of a name at most, with its length bytes and closing zero (RFC 1035, section 2.3.4).
pub const LONGEST_NAME: usize = 255;

/// A domain name in lower case, at most 255 bytes with its length bytes and closing zero (RFC 1035,
/// section 2.3.4). Contracts see the list of its labels, the root's empty one last.
pub struct Name<A: Allocator = Global> {
    // In wire form: each label behind its length, the root's zero last.
    pub(crate) bytes: NameBytes<A>,
}

// By hand, so that whatever drops it calls this.
impl<A: Allocator> Drop for Name<A> {
    fn drop(self) {
        let Name { bytes } = self;
        drop(bytes);
    }
}

impl<A: Allocator> Model for Name<A> {
    ghost use Rattle.std.specs.Prelude.{List, ℕ};
    ghost use Rattle.dname.specs.Wire.{labels_of, IsNameWire};

    ghost Value = { List (List ℕ) };

    ghost view = { λ n. labels_of n.bytes };

    ghost invariant = { λ n. IsNameWire n.bytes };
}

impl<A: Allocator> PartialEq for Name<A> {
    ghost eq = { same_name };

    ghost laws = { same_name_per };

    fn eq(&self, other: &Name<A>) -> bool {
        self.bytes.as_slice() == other.bytes.as_slice()
    }
}

impl<A: Allocator> Eq for Name<A> {
    ghost laws = { same_name_equiv };
}

impl<A: Allocator> Hash for Name<A> {
    ghost hash_input = { fed_name };

    ghost respects_eq = { same_name_fed };

    fn hash<H: Hasher>(&self, state: &mut H) {
        // In one call: a hasher takes whole words of the bytes, and a slice would be given to it byte by byte.
        state.write(self.bytes.as_slice());
    }
}

impl<A: Heap> Clone for Name<A> {
    ghost is_clone = { λ x y. y ≡ x };

    fn clone(&self) -> Result<Name<A>, AllocError> {
        Ok(Name {
            bytes: self.bytes.clone()?,
        })
    }
}

impl<A: Allocator> Name<A> {
    // A name from its wire form.
    pub(crate) fn from_wire(bytes: NameBytes<A>) -> Name<A>
        requires { IsNameWire bytes }
        ensures { result ≡ labels_of bytes }
    {
        Name { bytes }
    }
}

impl<A: Heap> Name<A> {
    /// The root: its text is `.`, and its wire form one zero.
    pub fn root(alloc: A) -> Result<Name<A>, Starved>
        ensures { IfOk result (λ n. n ≡ root) }
    {
        Ok(Name {
            bytes: NameBytes::new(alloc, &[0])?,
        })
    }

    /// The name of these bytes, which are in wire form with letters of either case: 3 `WWW` 0 is `www`.
    pub fn of_letters(alloc: A, letters: &[u8]) -> Result<Name<A>, Starved>
        requires { IsSpellingWire letters.now }
        ensures { IfOk result (λ n. n ≡ folded_labels (labels_of letters.now)) }
    {
        Ok(Name::from_wire(NameBytes::lower(alloc, letters)?))
    }

    /// The same name with memory of another allocator: a copy of `www.example` is equal to it.
    pub fn copied<B: Heap>(&self, alloc: B) -> Result<Name<B>, Starved>
        ensures { IfOk result (λ n. n ≡ self.now) }
    {
        Ok(Name {
            bytes: NameBytes::new(alloc, self.bytes.as_slice())?,
        })
    }

    /// The name without its first label, `example` of `www.example`; the root has none above it.
    pub fn parent(&self) -> Result<Option<Name<A>>, Starved>
        ensures { IfOk result (λ p. p ≡ parent_of self.now) }
    {
        match next_label(self.bytes.as_slice()) {
            None => Ok(None),
            Some((_, rest)) => {
                let bytes = NameBytes::new(*self.bytes.allocator(), rest)?;
                Ok(Some(Name { bytes }))
            }
        }
    }
}

impl<A: Heap> Name<A> {
    /// Makes this name the other one, in its own memory, which grows where that is too small: `a` becomes
    /// `www.example`. Running out of memory changes nothing.
    pub fn copy_from<B: Allocator>(&mut self, other: &Name<B>) -> Result<(), Starved>
        ensures ok { OnOk result (self.new ≡ other.now) }
        ensures err { OnErr result (self.new ≡ self.old) }
    {
        Ok(self.bytes.set(other.bytes.as_slice())?)
    }
}

impl<A: Allocator> Name<A> {
    /// The number of labels, 2 of `www.example`; the root's is not counted.
    pub fn labels(&self) -> usize
        ensures { result + 1 ≡ length self.now }
    {
        let mut count = 0;
        let mut rest = self.bytes.as_slice();
        while let Some((_, after)) = next_label(rest) {
            count += 1;
            rest = after;
        }
        count
    }

    /// Bytes of the name in a message, with the length bytes and the closing zero, 1 to 255: 13 of `www.example`.
    pub fn size(&self) -> usize
        ensures is { result ≡ length (wire self.now) }
        ensures short { result ≤ 255 }
    {
        self.bytes.as_slice().len()
    }

    /// The name in wire form: of `www.a`, 3 `www` 1 `a` 0.
    pub fn wire(&self) -> &[u8]
        ensures { result.now ≡ wire self.now }
    {
        self.bytes.as_slice()
    }

    /// Whether this is the root: true of `.`, false of `example`.
    pub fn is_root(&self) -> bool
        ensures { IsTrue result ↔ (self.now ≡ root) }
    {
        self.bytes.as_slice()[0] == 0
    }

    /// The first label, in lower case: `www` of `www.example`; none at the root.
    pub fn first(&self) -> Option<&[u8]>
        ensures label { MatchOption result (self.now ≡ root) (λ l. (ls : List (List ℕ)) × (self.now ≡ l.now ∷ ls)) }
        ensures some { IfSome result (λ l. 0 < length l.now) }
    {
        match next_label(self.bytes.as_slice()) {
            None => None,
            Some((label, _)) => Some(label),
        }
    }

    /// Whether this is `other` or a name beneath it: `www.example` is at or under `example`, and not under `ample`.
    pub fn is_at_or_under<B: Allocator>(&self, other: &Name<B>) -> bool
        ensures relation { IsTrue result ↔ IsAtOrUnder self.now other.now }
        ensures test { result ≡ is_under self.now other.now }
    {
        has_end(self.bytes.as_slice(), other.bytes.as_slice())
    }

    /// Makes the name its parent, in place and without memory: `www.example` becomes `example`. False, and no change,
    /// at the root.
    pub fn ascend(&mut self) -> bool
        ensures above { OnTrue result (parent_of self.old ≡ Some self.new) }
        ensures root { OnFalse result ((self.old ≡ root) × (self.new ≡ self.old)) }
    {
        let Some((_, rest)) = next_label(self.bytes.as_slice()) else {
            return false;
        };
        let left = rest.len();
        self.bytes.keep_last(left);
        true
    }

    /// Whether this is `*` right under `encloser` (RFC 1034, section 4.3.3), as `*.example` is of `example`:
    /// `*.encloser` itself may be too long for a name and is never built.
    pub fn is_wildcard_of<B: Allocator>(&self, encloser: &Name<B>) -> bool
        ensures { result ≡ same_name self.now (star ∷ encloser.now) }
    {
        match self.bytes.as_slice() {
            [1, b'*', rest @ ..] => rest == encloser.bytes.as_slice(),
            _ => false,
        }
    }

    /// Each name has labels of 1 to 63 bytes and then the root's, at most 255 bytes in all.
    pub fn well_formed_law(&self)
        ensures { IsName self.now }
    {
        let _ = self.bytes.as_slice();
    }

    /// The wire form of every name can be borrowed as a name, which is this name.
    pub fn wire_law(&self)
        ensures form { IsNameWire (wire self.now) }
        ensures labels { labels_of (wire self.now) ≡ self.now }
    {
        let _ = self.bytes.as_slice();
    }
}
