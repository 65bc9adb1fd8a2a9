//! RRsets as values (RFC 2181, section 5).
ghost use Rattle.std.specs.Prelude.{◌≡◌, ◌≤◌, ◌<◌, [], ◌∷◌, Some, length, map, IfOk};
ghost use Rattle.rdata.specs.Caps.{capped};
ghost use Rattle.rdata.specs.Records.{greatest_ttl};
ghost use Rattle.rdata.specs.Rows.{row, first_in};
ghost use Rattle.rdata.specs.Sets.{lowest_ttl, with_ttl};

use crate::data::RData;
use crate::records::{Record, Records};
use crate::shared::Values;
use dname::Name;
use memory::{Heap, Starved};
use std::alloc::{AllocError, Allocator, Global};
use std::marker::Model;

/// An RRset: data of one owner, under one TTL, in order, one or more (RFC 2181, section 5). Its clones share the data.
/// Contracts see the list of its records.
#[derive(Drop)]
pub struct RecordSet<A: Allocator = Global> {
    /// The owner of every record of the set.
    pub owner: Name<A>,
    /// Time to live in seconds, at most `GREATEST_TTL` (RFC 2181, sections 5.2 and 8).
    pub ttl: u32,
    /// The data of its records in order, one or more.
    pub values: Values<A>,
}

impl<A: Allocator> Model for RecordSet<A> {
    ghost use Rattle.std.specs.Prelude.{◌≤◌, List};
    ghost use Rattle.rdata.specs.Records.{Record, greatest_ttl};
    ghost use Rattle.rdata.specs.Rows.{plain_rows};

    ghost Value = { List Record };

    ghost view = { λ s. plain_rows s.owner s.ttl s.values };

    ghost invariant = { λ s. s.ttl ≤ greatest_ttl };
}

fn row<A: Heap>(owner: &Name<A>, ttl: u32, value: &RData<A>) -> Result<Record<A>, Starved>
    requires { ttl ≤ greatest_ttl }
    ensures { IfOk result (λ r. r ≡ row owner.now ttl value.now) }
{
    Ok(Record {
        owner: owner.clone()?,
        ttl,
        value: value.clone()?,
    })
}

impl<A: Heap> Clone for RecordSet<A> {
    ghost is_clone = { λ x y. y ≡ x };

    fn clone(&self) -> Result<RecordSet<A>, AllocError> {
        let values = self.values.clone()?;
        Ok(RecordSet {
            owner: self.owner.clone()?,
            ttl: self.ttl,
            values,
        })
    }
}

impl<A: Heap> RecordSet<A> {
    /// The RRset of this record alone: of `a.example. 300 A 192.0.2.1`, one with TTL 300 and that address.
    pub fn alone(alloc: A, only: Record<A>) -> Result<RecordSet<A>, Starved>
        ensures { IfOk result (λ set. set ≡ only ∷ []) }
    {
        let values = Values::alone(alloc, only.value)?;
        Ok(RecordSet {
            owner: only.owner,
            ttl: only.ttl,
            values,
        })
    }

    /// Its first record: of a set of 192.0.2.1 and 192.0.2.2, the one with 192.0.2.1.
    pub fn first(&self) -> Result<Record<A>, Starved>
        ensures { IfOk result (λ r. Some r ≡ first_in self.now) }
    {
        let _ = self.values.len();
        Ok(row(&self.owner, self.ttl, self.values.get(0))?)
    }

    /// Its records, one for each of its data, in order: two of a set of two addresses.
    pub fn to_records(&self, alloc: A) -> Result<Records<A>, Starved>
        ensures { IfOk result (λ rs. rs ≡ self.now) }
    {
        let mut records = Records::with_capacity(alloc, self.values.len())?;
        for index in 0..self.values.len() {
            records.push(row(&self.owner, self.ttl, self.values.get(index))?)?;
        }
        Ok(records)
    }
}

impl<A: Allocator> RecordSet<A> {
    /// How many records there are: 2 in a set of two addresses.
    pub fn len(&self) -> usize
        ensures len { result ≡ length self.now }
        ensures some { 0 < length self.now }
    {
        self.values.len()
    }

    /// The TTL of its records, in seconds: 300 of the set of `a.example. 300 A 192.0.2.1`.
    pub fn ttl(&self) -> u32
        ensures lowest { result ≡ lowest_ttl self.now }
        ensures most { result ≤ greatest_ttl }
    {
        let _ = self.values.len();
        self.ttl
    }

    /// Gives its records a TTL of at most so many seconds: their own one, or that where their own is longer (RFC 2181,
    /// section 8). With `most` 300, a TTL of 900 becomes 300, and one of 60 stays.
    pub fn cap_ttl(&mut self, most: u32)
        ensures { self.new ≡ map (capped most) self.old }
    {
        self.ttl = self.ttl.min(most);
    }

    /// Gives its records this TTL, in seconds: with 60, all have 60, whatever they had.
    pub fn set_ttl(&mut self, ttl: u32)
        requires { ttl ≤ greatest_ttl }
        ensures { self.new ≡ map (with_ttl ttl) self.old }
    {
        self.ttl = ttl;
    }
}
