//! The records of a section, read one after the other in a message's bytes.
ghost use Rattle.std.specs.Prelude.{◌≡◌, ◌≤◌, [], ◌∷◌, IfOk, IsOk, Ok, MatchOption};
ghost use Rattle.dname.specs.Labels.{same_name};
ghost use Rattle.rdata.specs.Data.{type_of};
ghost use Rattle.rdata.specs.Kept.{datum};
ghost use Rattle.rdata.specs.Records.{greatest_ttl};
ghost use Rattle.rdata.specs.Types.{type_number};
ghost use Rattle.wire.specs.Chains.{AreChainEnds};
ghost use Rattle.wire.specs.Entries.{entry_at};
ghost use Rattle.wire.specs.Views.{IsRdataOf};

use crate::fields::{four_at, two_at};
use crate::names::{is_named, name_at, name_end};
use crate::parts::Faults;
use crate::records::ttl_of;
use crate::served::served_type;
use crate::values::value_at;
use dname::Name;
use memory::{Heap, Starved};
use rdata::{RData, RType, Record};
use std::alloc::Allocator;
use std::marker::Model;

/// A record that is read where it stands in a message, and not built. Contracts see the record.
#[derive(Drop)]
pub struct Lent<'a> {
    bytes: &'a [u8],
    ends: &'a [u16],
    at: usize,
    kind: RType,
    ttl: u32,
    start: usize,
    end: usize,
}

impl<'a> Model for Lent<'a> {
    ghost use Rattle.rdata.specs.Records.{Record};
    ghost use Rattle.wire.specs.Views.{lent_record, IsLent};

    ghost Value = { Record };

    ghost view = { λ r. lent_record r.bytes.now r.at r.kind r.ttl r.start r.end };

    ghost invariant = { λ r. IsLent r.bytes.now r.ends.now r.at r.kind r.ttl r.start r.end };
}

/// The records of a section that are still to be walked. Contracts see their list.
#[derive(Drop)]
pub struct Walk<'a> {
    pub(crate) bytes: &'a [u8],
    pub(crate) ends: &'a [u16],
    // How many records the header counts from this place on, skipped ones among them.
    pub(crate) left: u16,
    pub(crate) place: usize,
}

impl<'a> Model for Walk<'a> {
    ghost use Rattle.std.specs.Prelude.{List};
    ghost use Rattle.rdata.specs.Records.{Record};
    ghost use Rattle.wire.specs.Entries.{section_from};
    ghost use Rattle.wire.specs.Views.{listed, IsSection};

    ghost Value = { List Record };

    ghost view = { λ w. listed (section_from w.left w.bytes.now w.place) };

    ghost invariant = { λ w. IsSection w.bytes.now w.ends.now w.left w.place };
}

// The record at a place of a message, unless it is skipped, and its end. Its RDATA are not read.
fn lent_at<'a>(bytes: &'a [u8], ends: &'a [u16], at: usize) -> (Option<Lent<'a>>, usize)
    requires known { AreChainEnds bytes.now ends.now }
    requires there { IsOk (entry_at bytes.now at) }
    ensures { entry_at bytes.now at ≡ Ok (result.0, result.1) }
{
    let Ok(past) = name_end(bytes, ends, at) else {
        unreachable!();
    };
    let start = past + 10;
    let end = start + usize::from(two_at(bytes, past + 8));
    match served_type(two_at(bytes, past), two_at(bytes, past + 2)) {
        None => (None, end),
        Some(kind) => {
            let ttl = ttl_of(four_at(bytes, past + 4));
            let lent = Lent {
                bytes,
                ends,
                at,
                kind,
                ttl,
                start,
                end,
            };
            (Some(lent), end)
        }
    }
}

impl<'a> Walk<'a> {
    /// The next record, and none behind the last one. Records of types that are not served and of classes other than IN
    /// are skipped: of an A, an HTTPS and a TXT record it gives the A, then the TXT, then none.
    pub fn next(&mut self) -> Option<Lent<'a>>
        ensures { MatchOption result (self.old ≡ []) (λ r. self.old ≡ r ∷ self.new) }
    {
        while self.left > 0 {
            let (found, past) = lent_at(self.bytes, self.ends, self.place);
            self.left -= 1;
            self.place = past;
            if found.is_some() {
                return found;
            }
        }
        None
    }
}

impl<'a> Lent<'a> {
    /// Its type: A of `a.example. 300 A 192.0.2.1`.
    pub fn kind(&self) -> RType
        ensures { type_number result ≡ type_of self.now.value }
    {
        self.kind
    }

    /// Its TTL in seconds, 300 of `a.example. 300 A 192.0.2.1`; one with its top bit set is 0 (RFC 2181, section 8).
    pub fn ttl(&self) -> u32
        ensures value { result ≡ self.now.ttl }
        ensures most { result ≤ greatest_ttl }
    {
        self.ttl
    }

    /// Whether this is its owner: `a.example` is that of `a.example. 300 A 192.0.2.1`. Takes no memory.
    pub fn owner_is<A: Allocator>(&self, name: &Name<A>) -> bool
        ensures { result ≡ same_name self.now.owner name.now }
    {
        is_named(self.bytes, self.ends, self.at, name)
    }

    /// Its owner: `a.example` of `a.example. 300 A 192.0.2.1`.
    pub fn owner<A: Heap>(&self, alloc: A) -> Result<Name<A>, Starved>
        ensures { IfOk result (λ n. n ≡ self.now.owner) }
    {
        let faults = Faults::in_message();
        // The name was read before, so only memory can run out.
        match name_at(
            alloc,
            self.bytes,
            self.ends,
            faults,
            self.bytes.len(),
            self.at,
        ) {
            Ok((name, _)) => Ok(name),
            Err(_) => Err(Starved),
        }
    }

    /// Its data: the address of `a.example. 300 A 192.0.2.1`.
    pub fn value<A: Heap>(&self, alloc: A) -> Result<RData<A>, Starved>
        ensures { IfOk result (λ v. datum v ≡ self.now.value) }
    {
        // The data were read before, so only memory can run out.
        match value_at(
            alloc, self.kind, self.bytes, self.ends, self.start, self.end,
        ) {
            Ok(value) => Ok(value),
            Err(_) => Err(Starved),
        }
    }

    /// The bytes of its RDATA as they stand in the message, pointers among them (RFC 1035, section 3.2.1): 192, 0, 2, 1
    /// of `a.example. 300 A 192.0.2.1`. Takes no memory.
    pub fn rdata(&self) -> &'a [u8]
        ensures { IsRdataOf self.now result.now }
    {
        &self.bytes[self.start..self.end]
    }

    /// The record, with memory of its own: `a.example. 300 A 192.0.2.1` with owner, TTL and address.
    pub fn record<A: Heap>(&self, alloc: A) -> Result<Record<A>, Starved>
        ensures { IfOk result (λ r. r ≡ self.now) }
    {
        Ok(Record {
            owner: self.owner(alloc)?,
            ttl: self.ttl(),
            value: self.value(alloc)?,
        })
    }
}
