//! Where the bytes of a name lie: a few of them in the value itself, so that most names take no other memory.
ghost use Rattle.std.specs.Prelude.{◌≡◌, ◌-◌, ◌≤◌, drop, length, map, IfOk, OnOk, OnErr};
ghost use Rattle.std.specs.Char.{to_ascii_lowercase};

use memory::Heap;
use std::alloc::{AllocError, Allocator, Global};
use std::marker::Model;

/// A name of at most so many bytes, with its length bytes and closing zero, takes no memory but the value's own.
pub const INLINE_NAME: usize = 30;

// A few bytes, at the front of an array. With `u8` for their number a name's value has 32 bytes in all.
#[derive(Drop)]
pub(crate) struct Inline {
    size: u8,
    bytes: [u8; INLINE_NAME],
}

impl Model for Inline {
    ghost use Rattle.std.specs.Prelude.{◌≤◌, List, ℕ, take};

    ghost Value = { List ℕ };

    ghost view = { λ i. take i.size i.bytes };

    ghost invariant = { λ i. i.size ≤ 30 };
}

impl Inline {
    // These bytes.
    fn of(bytes: &[u8]) -> Inline
        requires { length bytes.now ≤ 30 }
        ensures { result ≡ bytes.now }
    {
        let mut all = [0; INLINE_NAME];
        all[..bytes.len()].copy_from_slice(bytes);
        Inline {
            size: bytes.len() as u8,
            bytes: all,
        }
    }

    fn copied(&self) -> Inline
        ensures { result ≡ self.now }
    {
        Inline {
            size: self.size,
            bytes: self.bytes,
        }
    }

    // The same with letters from A to Z in lower case.
    fn lower(mut self) -> Inline
        ensures { result ≡ map to_ascii_lowercase self }
    {
        self.bytes.make_ascii_lowercase();
        self
    }

    fn as_slice(&self) -> &[u8]
        ensures is { result.now ≡ self.now }
        ensures few { length self.now ≤ 30 }
    {
        &self.bytes[..usize::from(self.size)]
    }

    // The last ones, so many of them.
    fn last(&self, left: usize) -> Inline
        requires { left ≤ length self.now }
        ensures { result ≡ drop (length self.now - left) self.now }
    {
        let bytes = self.as_slice();
        Inline::of(&bytes[bytes.len() - left..])
    }
}

// Where bytes lie.
pub(crate) enum Place<A: Allocator> {
    // In the value, with the allocator for longer ones.
    Inline(Inline, A),
    Heap(Vec<u8, A>),
}

// By hand, so that whatever drops it calls this.
impl<A: Allocator> Drop for Place<A> {
    fn drop(self) {
        match self {
            Place::Inline(bytes, alloc) => {
                drop(bytes);
                drop(alloc);
            }
            Place::Heap(bytes) => drop(bytes),
        }
    }
}

// The bytes of a name. Contracts see their list.
pub(crate) struct NameBytes<A: Allocator = Global> {
    place: Place<A>,
}

impl<A: Allocator> Model for NameBytes<A> {
    ghost use Rattle.std.specs.Prelude.{List, ℕ};
    ghost use Rattle.dname.specs.Kept.{bytes_in};

    ghost Value = { List ℕ };

    ghost view = { λ b. bytes_in b.place };
}

impl<A: Allocator> Drop for NameBytes<A> {
    fn drop(self) {
        let NameBytes { place } = self;
        drop(place);
    }
}

impl<A: Allocator> NameBytes<A> {
    /// The bytes.
    pub(crate) fn as_slice(&self) -> &[u8]
        ensures { result.now ≡ self.now }
    {
        match &self.place {
            Place::Inline(bytes, _) => bytes.as_slice(),
            Place::Heap(bytes) => bytes.as_slice(),
        }
    }

    /// The allocator that they were made with.
    pub(crate) fn allocator(&self) -> &A {
        match &self.place {
            Place::Inline(_, alloc) => alloc,
            Place::Heap(bytes) => bytes.allocator(),
        }
    }

    /// Leaves the last ones, so many of them.
    pub(crate) fn keep_last(&mut self, left: usize)
        requires { left ≤ length self.old }
        ensures { self.new ≡ drop (length self.old - left) self.old }
    {
        match &mut self.place {
            Place::Inline(bytes, _) => *bytes = bytes.last(left),
            Place::Heap(bytes) => {
                let size = bytes.len();
                bytes.copy_within(size - left.., 0);
                bytes.truncate(left);
            }
        }
    }
}

impl<A: Heap> NameBytes<A> {
    /// These bytes.
    pub(crate) fn new(alloc: A, bytes: &[u8]) -> Result<NameBytes<A>, AllocError>
        ensures { IfOk result (λ b. b ≡ bytes.now) }
    {
        let place = if bytes.len() <= INLINE_NAME {
            Place::Inline(Inline::of(bytes), alloc)
        } else {
            Place::Heap(Vec::from_slice(alloc, bytes)?)
        };
        Ok(NameBytes { place })
    }

    /// Those of a vector, whose memory goes where they are few.
    pub(crate) fn of_vec(bytes: Vec<u8, A>) -> NameBytes<A>
        ensures { result ≡ bytes.items }
    {
        let place = if bytes.len() <= INLINE_NAME {
            Place::Inline(Inline::of(&bytes), *bytes.allocator())
        } else {
            Place::Heap(bytes)
        };
        NameBytes { place }
    }

    /// These bytes, with letters from A to Z in lower case.
    pub(crate) fn lower(alloc: A, bytes: &[u8]) -> Result<NameBytes<A>, AllocError>
        ensures { IfOk result (λ b. b ≡ map to_ascii_lowercase bytes.now) }
    {
        let place = if bytes.len() <= INLINE_NAME {
            Place::Inline(Inline::of(bytes).lower(), alloc)
        } else {
            Place::Heap(bytes.to_ascii_lowercase(alloc)?)
        };
        Ok(NameBytes { place })
    }

    /// Becomes these bytes, in memory that it has where it has some. Running out of memory changes nothing.
    pub(crate) fn set(&mut self, bytes: &[u8]) -> Result<(), AllocError>
        ensures ok { OnOk result (self.new ≡ bytes.now) }
        ensures err { OnErr result (self.new ≡ self.old) }
    {
        if let Place::Heap(kept) = &mut self.place {
            kept.resize(bytes.len(), 0)?;
            kept.copy_from_slice(bytes);
            return Ok(());
        }
        *self = NameBytes::new(*self.allocator(), bytes)?;
        Ok(())
    }
}

impl<A: Heap> Clone for NameBytes<A> {
    ghost is_clone = { λ x y. y ≡ x };

    fn clone(&self) -> Result<NameBytes<A>, AllocError> {
        let place = match &self.place {
            Place::Inline(bytes, alloc) => Place::Inline(bytes.copied(), *alloc),
            Place::Heap(bytes) => Place::Heap(Vec::from_slice(*bytes.allocator(), bytes)?),
        };
        Ok(NameBytes { place })
    }
}
