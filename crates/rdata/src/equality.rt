//! Equality of records, their TTLs too, and of lists and sets of them.
ghost use Rattle.std.specs.Prelude.{◌≡◌, ◌↔◌, IsTrue, ◌∷◌, []};
ghost use Rattle.rdata.specs.Equality.{same_record, same_record_per, same_record_equiv, same_records, same_records_per, same_records_equiv};
ghost use Rattle.rdata.specs.Kept.{datum};

use crate::data::RData;
use crate::record_set::RecordSet;
use crate::records::{Record, Records};
use crate::shared::{Place, Shared, Values};
use std::alloc::Allocator;
use std::cmp::Eq;

impl<A: Allocator> PartialEq for Record<A> {
    ghost eq = { same_record };

    ghost laws = { same_record_per };

    fn eq(&self, other: &Record<A>) -> bool {
        self.ttl == other.ttl && self.owner == other.owner && self.value == other.value
    }
}

impl<A: Allocator> Eq for Record<A> {
    ghost laws = { same_record_equiv };
}

impl<A: Allocator> PartialEq for Records<A> {
    ghost eq = { same_records };

    ghost laws = { same_records_per };

    fn eq(&self, other: &Records<A>) -> bool {
        self.as_slice() == other.as_slice()
    }
}

impl<A: Allocator> Eq for Records<A> {
    ghost laws = { same_records_equiv };
}

impl<A: Allocator> PartialEq for RecordSet<A> {
    ghost eq = { same_records };

    ghost laws = { same_records_per };

    fn eq(&self, other: &RecordSet<A>) -> bool {
        let _ = self.values.len();
        self.ttl == other.ttl
            && self.owner == other.owner
            && same_values(&self.values, &other.values)
    }
}

impl<A: Allocator> Eq for RecordSet<A> {
    ghost laws = { same_records_equiv };
}

// Whether the data are equal, and in the same order.
#[tactic(auto, using(crate::proofs::Exact::exact_data))]
fn same_values<A: Allocator>(values: &Values<A>, others: &Values<A>) -> bool
    ensures { IsTrue result ↔ (values.now ≡ others.now) }
{
    match (values.place(), others.place()) {
        (Place::Alone(value), Place::Alone(other)) => value == other,
        (Place::Shared(shared), Place::Shared(other)) => shared.as_slice() == other.as_slice(),
        (Place::Shared(shared), Place::Alone(value))
        | (Place::Alone(value), Place::Shared(shared)) => is_only(shared, value),
    }
}

// Whether these data are this one alone.
fn is_only<A: Allocator>(shared: &Shared<A>, value: &RData<A>) -> bool
    ensures { IsTrue result ↔ (shared.now ≡ datum value.now ∷ []) }
{
    match shared.as_slice() {
        [only] => only == value,
        _ => false,
    }
}
