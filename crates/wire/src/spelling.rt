//! A name with the letters of the query that asks for it.
ghost use Rattle.std.specs.Prelude.{◌≡◌, ◌≤◌, IfOk, length};
ghost use Rattle.dname.specs.Labels.{wire, folded_labels, same_name};
ghost use Rattle.dname.specs.Laws.{same_name_per, same_name_equiv};
ghost use Rattle.dname.specs.Wire.{labels_of, IsSpellingWire};
ghost use Rattle.message_grammar.specs.Messages.{IsSpelling};

use dname::Name;
use memory::{Heap, Starved};
use std::alloc::{AllocError, Allocator, Global};
use std::cmp::Eq;
use std::marker::Model;

/// A name with the letters in which it was written. Contracts see the list of its labels in these letters,
/// the root's empty one last.
#[derive(Drop)]
pub struct Spelling<A: Allocator = Global> {
    // In wire form: each label behind its length, the root's zero last; nothing where these are the name's own
    // letters, as most clients ask in lower case.
    letters: Vec<u8, A>,
    // The name in lower case.
    name: Name<A>,
}

impl<A: Allocator> Model for Spelling<A> {
    ghost use Rattle.std.specs.Prelude.{List, ℕ};
    ghost use Rattle.dname.specs.Wire.{labels_of};
    ghost use Rattle.wire.specs.Spellings.{IsSpelt, letters_of};

    ghost Value = { List (List ℕ) };

    ghost view = { λ s. labels_of (letters_of s.letters.items s.name) };

    ghost invariant = { λ s. IsSpelt (letters_of s.letters.items s.name) s.name };
}

impl<A: Heap> Spelling<A> {
    // A spelling from its wire form, which takes memory of its own if it differs from that of the name in lower case.
    pub(crate) fn of_letters(alloc: A, letters: &[u8]) -> Result<Spelling<A>, Starved>
        requires { IsSpellingWire letters.now }
        ensures { IfOk result (λ s. s ≡ labels_of letters.now) }
    {
        let name = Name::of_letters(alloc, letters)?;
        if letters == name.wire() {
            return Ok(Spelling {
                letters: Vec::new(alloc),
                name,
            });
        }
        let letters = Vec::from_slice(alloc, letters)?;
        Ok(Spelling { letters, name })
    }
}

impl<A: Heap> Clone for Spelling<A> {
    ghost is_clone = { λ x y. y ≡ x };

    fn clone(&self) -> Result<Spelling<A>, AllocError> {
        Ok(Spelling {
            letters: Vec::from_slice(*self.letters.allocator(), &self.letters)?,
            name: self.name.clone()?,
        })
    }
}

impl<A: Allocator> PartialEq for Spelling<A> {
    ghost eq = { same_name };

    ghost laws = { same_name_per };

    fn eq(&self, other: &Spelling<A>) -> bool {
        self.wire() == other.wire()
    }
}

impl<A: Allocator> Eq for Spelling<A> {
    ghost laws = { same_name_equiv };
}

impl<A: Allocator> Spelling<A> {
    /// The spelling in wire form: of `Www`, 3 `Www` 0.
    pub fn wire(&self) -> &[u8]
        ensures is { result.now ≡ wire self.now }
        ensures short { length result.now ≤ 255 }
    {
        match self.letters.as_slice() {
            [] => self.name.wire(),
            letters => letters,
        }
    }

    /// Each spelling has labels of 1 to 63 bytes and then the root's, at most 255 bytes in all.
    pub fn well_formed_law(&self)
        ensures { IsSpelling self.now }
    {
        let _ = self.name.size();
    }

    /// The name in lower case: of `Www`, `www`.
    pub fn name(&self) -> &Name<A>
        ensures { result.now ≡ folded_labels self.now }
    {
        &self.name
    }
}
