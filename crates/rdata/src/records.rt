//! Records, and lists of them.
ghost use Rattle.std.specs.Prelude.{◌≡◌, ◌≤◌, [], ◌∷◌, ◌++◌, length, map, IfOk, OnOk, OnErr, ◌↔◌, IsTrue, nat_eq};
ghost use Rattle.rdata.specs.Caps.{capped};
ghost use Rattle.rdata.specs.Data.{type_of};
ghost use Rattle.rdata.specs.Records.{greatest_ttl};
ghost use Rattle.rdata.specs.Sets.{is_repeat, with_ttl};
ghost use Rattle.rdata.specs.Types.{type_number};

use crate::data::RData;
use crate::rtype::RType;
use dname::Name;
use memory::{Heap, Starved};
use std::alloc::{AllocError, Allocator, Global};
use std::marker::Model;

/// The greatest TTL, in seconds (RFC 2181, section 8).
pub const GREATEST_TTL: u32 = 2_147_483_647;

/// A resource record of class IN (RFC 1035, section 3.2.1).
#[derive(Drop)]
pub struct Record<A: Allocator = Global> {
    /// NAME: the name whose node it stands at.
    pub owner: Name<A>,
    /// Time to live in seconds, at most `GREATEST_TTL` (RFC 2181, section 8).
    pub ttl: u32,
    /// TYPE and RDATA: its type and its data.
    pub value: RData<A>,
}

impl<A: Allocator> Model for Record<A> {
    ghost use Rattle.std.specs.Prelude.{◌≤◌};
    ghost use Rattle.rdata.specs.Records.{Record, greatest_ttl};
    ghost use Rattle.rdata.specs.Kept.{datum};

    ghost Value = { Record };

    ghost view = { λ r. record { owner = r.owner; ttl = r.ttl; value = datum r.value } };

    ghost invariant = { λ r. r.ttl ≤ greatest_ttl };
}

impl<A: Allocator> Record<A> {
    /// Whether it is of that type: `a.example. 300 A 192.0.2.1` is of type A.
    pub fn is(&self, kind: RType) -> bool
        ensures { result ≡ nat_eq (type_of self.now.value) (type_number kind) }
    {
        self.value.kind() == kind
    }

    /// Whether both are one record, TTLs aside: of one owner, with the same data (and so of one type). The records of
    /// `a.example. A 192.0.2.1` with the TTLs 60 and 300 are.
    pub fn repeats(&self, other: &Record<A>) -> bool
        ensures { result ≡ is_repeat self.now other.now }
    {
        self.owner == other.owner && self.value.is_same(&other.value)
    }
}

impl<A: Heap> Clone for Record<A> {
    ghost is_clone = { λ x y. y ≡ x };

    fn clone(&self) -> Result<Record<A>, AllocError> {
        Ok(Record {
            owner: self.owner.clone()?,
            ttl: self.ttl,
            value: self.value.clone()?,
        })
    }
}

fn copies<A: Heap>(alloc: A, records: &[Record<A>]) -> Result<Vec<Record<A>, A>, AllocError>
    ensures { IfOk result (λ v. v.items ≡ records.now) }
{
    let mut items = Vec::with_capacity(alloc, records.len())?;
    for record in records {
        items.push(record.clone()?)?;
    }
    Ok(items)
}

fn cap_all<A: Allocator>(records: &mut [Record<A>], most: u32)
    ensures { records.new ≡ map (capped most) records.old }
{
    for record in records.iter_mut() {
        record.ttl = record.ttl.min(most);
    }
}

fn set_all<A: Allocator>(records: &mut [Record<A>], ttl: u32)
    requires { ttl ≤ greatest_ttl }
    ensures { records.new ≡ map (with_ttl ttl) records.old }
{
    for record in records.iter_mut() {
        record.ttl = ttl;
    }
}

/// Records in order. Contracts see their list.
#[derive(Drop)]
pub struct Records<A: Allocator = Global> {
    items: Vec<Record<A>, A>,
}

impl<A: Allocator> Model for Records<A> {
    ghost use Rattle.std.specs.Prelude.{List};
    ghost use Rattle.rdata.specs.Records.{Record};

    ghost Value = { List Record };

    ghost view = { λ r. r.items.items };
}

impl<A: Heap> Records<A> {
    /// No records: a list of length 0. Takes no memory.
    pub fn new(alloc: A) -> Records<A>
        ensures { result ≡ [] }
    {
        Records {
            items: Vec::new(alloc),
        }
    }

    /// No records, with room for so many: a list of length 0 with memory for `expected` records.
    pub fn with_capacity(alloc: A, expected: usize) -> Result<Records<A>, Starved>
        ensures { IfOk result (λ r. r ≡ []) }
    {
        Ok(Records {
            items: Vec::with_capacity(alloc, expected)?,
        })
    }

    /// Adds a record at the end: behind two records it is the third.
    pub fn push(&mut self, rr: Record<A>) -> Result<(), Starved>
        ensures ok { OnOk result (self.new ≡ self.old ++ rr ∷ []) }
        ensures err { OnErr result (self.new ≡ self.old) }
    {
        self.items.push(rr)?;
        Ok(())
    }
}

impl<A: Allocator> Records<A> {
    /// How many records there are: 2 after two of `push`.
    pub fn len(&self) -> usize
        ensures { result ≡ length self.now }
    {
        self.items.len()
    }

    /// Whether there are no records: true of a new list, false after a `push`.
    pub fn is_empty(&self) -> bool
        ensures { IsTrue result ↔ (self.now ≡ []) }
    {
        self.items.is_empty()
    }

    /// Gives each record a TTL of at most so many seconds: its own one, or that where its own is longer (RFC 2181,
    /// section 8). With `most` 300, the TTLs 900 and 60 become 300 and 60.
    pub fn cap_ttl(&mut self, most: u32)
        ensures { self.new ≡ map (capped most) self.old }
    {
        cap_all(&mut self.items, most);
    }

    /// Gives each record this TTL, in seconds: with 60, all have 60, whatever they had.
    pub fn set_ttl(&mut self, ttl: u32)
        requires { ttl ≤ greatest_ttl }
        ensures { self.new ≡ map (with_ttl ttl) self.old }
    {
        set_all(&mut self.items, ttl);
    }

    /// The records in order: after `push` of a first and a second one, these two.
    pub fn as_slice(&self) -> &[Record<A>]
        ensures { result.now ≡ self.now }
    {
        &self.items
    }
}

impl<A: Heap> Clone for Records<A> {
    ghost is_clone = { λ x y. y ≡ x };

    fn clone(&self) -> Result<Records<A>, AllocError> {
        let items = copies(*self.items.allocator(), &self.items)?;
        Ok(Records { items })
    }
}
