//! Character-strings, and the data of a TXT record.
ghost use Rattle.std.specs.Prelude.{◌≡◌, ◌≤◌, [], ◌∷◌, ◌++◌, length, nat_eq, IfOk, OnOk, OnErr, MatchOption};
ghost use Rattle.std.specs.Cmp.{partial_equiv_from_equiv};
ghost use Rattle.std.specs.Cmp.Lexicographic.{pointwise, nat_list_eq_equiv};
ghost use Rattle.dname.specs.Labels.{wire};
ghost use Rattle.rdata.specs.Strings.{strings_of, IsStringsWire, IsTextsWire, IsCut};

use memory::{Heap, Starved};
use std::alloc::{AllocError, Allocator, Global};
use std::marker::Model;

/// A character-string: at most 255 bytes (RFC 1035, section 3.3). Contracts see its bytes.
#[derive(Drop)]
pub struct CharacterString<A: Allocator = Global> {
    bytes: Vec<u8, A>,
}

impl<A: Allocator> Model for CharacterString<A> {
    ghost use Rattle.std.specs.Prelude.{◌≤◌, List, ℕ, length};

    ghost Value = { List ℕ };

    ghost view = { λ s. s.bytes.items };

    ghost invariant = { λ s. length s.bytes.items ≤ 255 };
}

impl<A: Heap> CharacterString<A> {
    /// The string of these bytes: of `v=1`, one of length 3.
    pub fn new(bytes: Vec<u8, A>) -> CharacterString<A>
        requires { length bytes.items ≤ 255 }
        ensures { result ≡ bytes.items }
    {
        CharacterString { bytes }
    }
}

impl<A: Allocator> CharacterString<A> {
    /// Its bytes, 0 to 255 of them: of the string `v=1`, these three.
    pub fn bytes(&self) -> &[u8]
        ensures is { result.now ≡ self.now }
        ensures short { length self.now ≤ 255 }
    {
        &self.bytes
    }
}

impl<A: Allocator> PartialEq for CharacterString<A> {
    ghost eq = { pointwise nat_eq };

    ghost laws = { partial_equiv_from_equiv nat_list_eq_equiv };

    fn eq(&self, other: &CharacterString<A>) -> bool {
        self.bytes.as_slice() == other.bytes.as_slice()
    }
}

impl<A: Heap> Clone for CharacterString<A> {
    ghost is_clone = { λ x y. y ≡ x };

    fn clone(&self) -> Result<CharacterString<A>, AllocError> {
        let bytes = Vec::from_slice(*self.bytes.allocator(), &self.bytes)?;
        Ok(CharacterString { bytes })
    }
}

/// The first string of a TXT record's wire form and the wire form behind it; none where no bytes are left (RFC 1035,
/// section 3.3). A walk over the strings is a loop of these calls.
pub fn next_string(bytes: &[u8]) -> Option<(&[u8], &[u8])>
    requires { IsStringsWire bytes.now }
    ensures { MatchOption result (bytes.now ≡ []) (λ p. IsCut bytes.now p.0.now p.1.now) }
{
    if bytes.is_empty() {
        return None;
    }
    let size = usize::from(bytes[0]);
    let (_, rest) = bytes.split_at(1);
    Some(rest.split_at(size))
}

// One string more behind the others; none of it where memory is refused.
fn append<A: Heap>(bytes: &mut Vec<u8, A>, string: &[u8]) -> Result<(), Starved>
    requires { length string.now ≤ 255 }
    ensures ok { OnOk result (bytes.new.items ≡ bytes.old.items ++ length string.now ∷ string.now) }
    ensures err { OnErr result (bytes.new.items ≡ bytes.old.items) }
{
    bytes.reserve(1 + string.len())?;
    bytes.push_reserved(string.len() as u8);
    bytes.extend_from_slice(string).unwrap();
    Ok(())
}

/// The strings of a TXT record: one or more (RFC 1035, section 3.3.14), in one piece. Contracts see their list.
#[derive(Drop)]
pub struct Texts<A: Allocator = Global> {
    // Each behind its length.
    wire: Vec<u8, A>,
}

impl<A: Allocator> Model for Texts<A> {
    ghost use Rattle.std.specs.Prelude.{List, ℕ};
    ghost use Rattle.rdata.specs.Strings.{strings_of, IsTextsWire};

    ghost Value = { List (List ℕ) };

    ghost view = { λ t. strings_of t.wire.items };

    ghost invariant = { λ t. IsTextsWire t.wire.items };
}

impl<A: Heap> Texts<A> {
    /// The strings of a TXT record that has this one alone: of `v=1`, a list of length 1.
    pub fn new(alloc: A, first: CharacterString<A>) -> Result<Texts<A>, Starved>
        ensures { IfOk result (λ t. t ≡ first ∷ []) }
    {
        let mut wire = Vec::new(alloc);
        append(&mut wire, first.bytes())?;
        Ok(Texts { wire })
    }

    /// The strings that these bytes hold in wire form.
    pub fn of_wire(wire: Vec<u8, A>) -> Texts<A>
        requires { IsTextsWire wire.items }
        ensures { result ≡ strings_of wire.items }
    {
        Texts { wire }
    }

    /// Adds a string at the end: behind `v=1` it is the second.
    pub fn push(&mut self, string: CharacterString<A>) -> Result<(), Starved>
        ensures ok { OnOk result (self.new ≡ self.old ++ string ∷ []) }
        ensures err { OnErr result (self.new ≡ self.old) }
    {
        Ok(append(&mut self.wire, string.bytes())?)
    }
}

impl<A: Allocator> Texts<A> {
    /// The strings in wire form, each behind its length (`next_string`).
    pub fn wire(&self) -> &[u8]
        ensures is { result.now ≡ wire self.now }
        ensures strings { strings_of result.now ≡ self.now }
        ensures form { IsTextsWire result.now }
    {
        &self.wire
    }
}

impl<A: Heap> Clone for Texts<A> {
    ghost is_clone = { λ x y. y ≡ x };

    fn clone(&self) -> Result<Texts<A>, AllocError> {
        let wire = Vec::from_slice(*self.wire.allocator(), &self.wire)?;
        Ok(Texts { wire })
    }
}

impl<A: Allocator> Texts<A> {
    /// Whether both have the same strings in the same order: `a` `b` and `ab` are not the same.
    pub fn is_same(&self, other: &Texts<A>) -> bool
        ensures { result ≡ pointwise (pointwise nat_eq) self.now other.now }
    {
        self.wire() == other.wire()
    }
}
