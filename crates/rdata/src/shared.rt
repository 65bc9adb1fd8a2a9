//! The data of RRsets where they lie: those of a set are kept once for all that hold them.
ghost use Rattle.std.specs.Prelude.{◌≡◌, ◌<◌, [], ◌∷◌, length, map, slice_index_or, IfOk};
ghost use Rattle.rdata.specs.Kept.{datum};
ghost use Rattle.rdata.specs.Shared.{values_of};

use crate::data::RData;
use memory::{Heap, Starved};
use std::alloc::{AllocError, Allocator, Global};
use std::marker::Model;
use std::sync::Arc;

/// Data of an RRset in order, one or more, kept once for all that hold them: a clone counts up, and the last one
/// frees them. Contracts see the list of the data.
pub struct Shared<A: Allocator = Global> {
    items: Arc<Vec<RData<A>, A>, A>,
}

impl<A: Allocator> Model for Shared<A> {
    ghost use Rattle.std.specs.Prelude.{◌<◌, List, length, map};
    ghost use Rattle.std.specs.Arc.{arc_value};
    ghost use Rattle.rdata.specs.Data.{Datum};
    ghost use Rattle.rdata.specs.Kept.{datum};

    ghost Value = { List Datum };

    ghost view = { λ s. map datum (arc_value s.items).items };

    ghost invariant = { λ s. 0 < length (arc_value s.items).items };
}

impl<A: Heap> Shared<A> {
    /// These data, one or more.
    pub fn new(alloc: A, items: Vec<RData<A>, A>) -> Result<Shared<A>, Starved>
        requires { 0 < length items.items }
        ensures { IfOk result (λ s. s ≡ map datum items.items) }
    {
        Ok(Shared {
            items: Arc::new(alloc, items)?,
        })
    }
}

impl<A: Allocator> Shared<A> {
    /// The data in order.
    pub fn as_slice(&self) -> &[RData<A>]
        ensures is { map datum result.now ≡ self.now }
        ensures some { 0 < length result.now }
    {
        self.items.as_slice()
    }
}

impl<A: Allocator> Clone for Shared<A> {
    ghost is_clone = { λ x y. y ≡ x };

    fn clone(&self) -> Result<Shared<A>, AllocError> {
        Ok(Shared {
            items: self.items.clone()?,
        })
    }
}

// By hand, so that whatever drops it calls this.
impl<A: Allocator> Drop for Shared<A> {
    fn drop(self) {
        let Shared { items } = self;
        drop(items);
    }
}

/// Where the data of a set lie: a single address in place, which takes no memory of its own; others once for all that
/// hold them.
pub enum Place<A: Allocator = Global> {
    /// The only one.
    Alone(RData<A>),
    /// One or more.
    Shared(Shared<A>),
}

impl<A: Allocator> Drop for Place<A> {
    fn drop(self) {
        match self {
            Place::Alone(value) => drop(value),
            Place::Shared(shared) => drop(shared),
        }
    }
}

/// The data of an RRset in order, one or more. Contracts see their list.
pub struct Values<A: Allocator = Global> {
    place: Place<A>,
}

impl<A: Allocator> Model for Values<A> {
    ghost use Rattle.std.specs.Prelude.{List};
    ghost use Rattle.rdata.specs.Data.{Datum};
    ghost use Rattle.rdata.specs.Shared.{values_of};

    ghost Value = { List Datum };

    ghost view = { λ v. values_of v.place };
}

impl<A: Allocator> Drop for Values<A> {
    fn drop(self) {
        let Values { place } = self;
        drop(place);
    }
}

impl<A: Heap> Values<A> {
    /// These data, one or more.
    pub fn new(alloc: A, items: Vec<RData<A>, A>) -> Result<Values<A>, Starved>
        requires { 0 < length items.items }
        ensures { IfOk result (λ v. v ≡ map datum items.items) }
    {
        match items.as_slice() {
            [RData::A(address)] => Ok(Values {
                place: Place::Alone(RData::A(*address)),
            }),
            [RData::Aaaa(address)] => Ok(Values {
                place: Place::Alone(RData::Aaaa(*address)),
            }),
            _ => Ok(Values::of(Shared::new(alloc, items)?)),
        }
    }

    /// One alone. An address takes no memory.
    pub fn alone(alloc: A, value: RData<A>) -> Result<Values<A>, Starved>
        ensures { IfOk result (λ v. v ≡ datum value ∷ []) }
    {
        let place = match &value {
            RData::A(_) | RData::Aaaa(_) => Place::Alone(value),
            _ => {
                let mut items = Vec::with_capacity(alloc, 1)?;
                items.push_reserved(value);
                Place::Shared(Shared::new(alloc, items)?)
            }
        };
        Ok(Values { place })
    }
}

impl<A: Allocator> Values<A> {
    /// Those that are shared.
    pub fn of(shared: Shared<A>) -> Values<A>
        ensures { result ≡ shared }
    {
        Values {
            place: Place::Shared(shared),
        }
    }

    /// Where they lie.
    pub fn place(&self) -> &Place<A>
        ensures { values_of result.now ≡ self.now }
    {
        &self.place
    }

    /// How many there are.
    pub fn len(&self) -> usize
        ensures len { result ≡ length self.now }
        ensures some { 0 < length self.now }
    {
        match &self.place {
            Place::Alone(_) => 1,
            Place::Shared(shared) => shared.as_slice().len(),
        }
    }

    /// The one at this place, counted from 0.
    pub fn get(&self, index: usize) -> &RData<A>
        requires { index < length self.now }
        ensures { datum result.now ≡ slice_index_or self.now index (datum result.now) }
    {
        match &self.place {
            Place::Alone(value) => value,
            Place::Shared(shared) => &shared.as_slice()[index],
        }
    }
}

impl<A: Heap> Clone for Values<A> {
    ghost is_clone = { λ x y. y ≡ x };

    fn clone(&self) -> Result<Values<A>, AllocError> {
        let place = match &self.place {
            Place::Alone(value) => Place::Alone(value.clone()?),
            Place::Shared(shared) => Place::Shared(shared.clone()?),
        };
        Ok(Values { place })
    }
}
