//! Some records of a zone, and the data of their sets.
ghost use Rattle.std.specs.Prelude.{◌≡◌, ◌<◌, length, map, get_or, IfOk, IfSome};
ghost use Rattle.rdata.specs.Data.{type_of};
ghost use Rattle.rdata.specs.Kept.{datum};
ghost use Rattle.rdata.specs.Records.{Record as RecordSpec};
ghost use Rattle.rdata.specs.Types.{type_number};
ghost use Rattle.zone.specs.Look.{of_type};
ghost use Rattle.zone.specs.Tree.{picks, AreWithin};
ghost use Rattle.zone.specs.Values.{values_of, AreSetsAt};

use crate::scan::is_type;
use memory::{Heap, Starved};
use rdata::{RData, RType, Record, Values, put_once};
use std::alloc::Allocator;
use std::collections::{BTreeSet, HashMap};
use std::hash::{BuildHasherDefault, FoldHasher};
use std::marker::Model;

/// The data of sets of a zone, made once for all answers: each by the place of its first record in the zone's list.
pub type Sets<A> = HashMap<usize, Values<A>, BuildHasherDefault<FoldHasher>, A>;

/// Some records of a zone's list, borrowed by their places in it. Contracts see the records in order.
#[derive(Drop)]
pub struct Held<'a, A: Allocator> {
    records: &'a [Record<A>],
    places: &'a [usize],
    sets: &'a Sets<A>,
}

impl<'a, A: Allocator> Model for Held<'a, A> {
    ghost use Rattle.std.specs.Prelude.{List, length};
    ghost use Rattle.rdata.specs.Records.{Record as RecordSpec};
    ghost use Rattle.zone.specs.Tree.{picks, AreWithin};
    ghost use Rattle.zone.specs.Values.{AreSetsAt};

    ghost Value = { List RecordSpec };

    ghost view = { λ h. picks h.records.now h.places.now };

    ghost invariant = { λ h. AreWithin (length h.records.now) h.places.now × AreSetsAt h.sets.now h.records.now h.places.now };
}

impl<'a, A: Allocator> Held<'a, A> {
    /// The records at these places of a list, and those sets of theirs that were made.
    pub(crate) fn of(
        records: &'a [Record<A>],
        places: &'a [usize],
        sets: &'a Sets<A>,
    ) -> Held<'a, A>
        requires within { AreWithin (length records.now) places.now }
        requires sets { AreSetsAt sets.now records.now places.now }
        ensures { result ≡ picks records.now places.now }
    {
        Held {
            records,
            places,
            sets,
        }
    }

    /// How many records there are: 2 at a name that owns two.
    pub fn len(&self) -> usize
        ensures { result ≡ length self.now }
    {
        self.places.len()
    }

    /// The record at this index: at 0, the first one of the name.
    pub fn get(&self, index: usize) -> &'a Record<A>
        requires { index < length self.now }
        ensures { result.now ≡ get_or self.now index result.now }
    {
        let records = self.records;
        let places = self.places;
        let place = places[index];
        &records[place]
    }

    // The data of that set whose first record stands at this index, where they were made.
    fn made(&self, index: usize) -> Option<&'a Values<A>>
        requires { index < length self.now }
        ensures { IfSome result (λ v. (r : RecordSpec) → v.now ≡ values_of (of_type (type_of (get_or self.now index r).value) self.now)) }
    {
        self.sets.get(&self.places[index])
    }
}

impl<A: Heap> Held<'_, A> {
    /// The data of the set in which the record at this index stands, each once: those of the records of its type. Of the
    /// first record of a set they are shared with all answers; an address alone takes no memory.
    pub fn values(&self, alloc: A, index: usize) -> Result<Values<A>, Starved>
        requires { index < length self.now }
        ensures { IfOk result (λ v. (r : RecordSpec) → v ≡ values_of (of_type (type_of (get_or self.now index r).value) self.now)) }
    {
        match self.made(index) {
            Some(values) => Ok(values.clone()?),
            None => {
                let kind = self.get(index).value.kind();
                let items = values_of(alloc, self, kind)?;
                Ok(Values::new(alloc, items)?)
            }
        }
    }
}

// The data of a type among these records, each once.
fn values_of<A: Heap>(
    alloc: A,
    held: &Held<'_, A>,
    kind: RType,
) -> Result<Vec<RData<A>, A>, Starved>
    ensures { IfOk result (λ v. map datum v.items ≡ values_of (of_type (type_number kind) held.now)) }
{
    let mut values = Vec::with_capacity(alloc, held.len())?;
    let mut later = BTreeSet::new(alloc);
    for index in 0..held.len() {
        let rr = held.get(index);
        if is_type(rr, kind) {
            put_once(&mut values, &mut later, &rr.value)?;
        }
    }
    Ok(values)
}
