//! Records of a name or a type, found by a walk over a list.
ghost use Rattle.std.specs.Prelude.{◌≡◌, ◌&&◌, length};
ghost use Rattle.rdata.specs.Types.{type_number};
ghost use Rattle.zone.specs.Look.{is_type, is_owned, of_type, owns, is_address};

use dname::Name;
use rdata::{RType, Record};
use std::alloc::Allocator;

// Whether the record is of that type: `a.example. A 192.0.2.1` is of type A.
pub fn is_type<A: Allocator>(rr: &Record<A>, kind: RType) -> bool
    ensures { result ≡ is_type (type_number kind) rr.now }
{
    rr.is(kind)
}

// Whether the record is an address: one of type A or AAAA is, one of type NS not.
pub fn is_address<A: Allocator>(rr: &Record<A>) -> bool
    ensures { result ≡ is_address rr.now }
{
    is_type(rr, RType::A) || is_type(rr, RType::Aaaa)
}

// Whether the name is the record's owner: `a.example` is that of `a.example. A 192.0.2.1`.
pub fn is_owned<A: Allocator>(rr: &Record<A>, name: &Name<A>) -> bool
    ensures { result ≡ is_owned name.now rr.now }
{
    rr.owner == *name
}

// Whether the record stands at that name and is of that type: `a.example. A 192.0.2.1` does at `a.example` with type A.
pub fn stands_at<A: Allocator>(rr: &Record<A>, name: &Name<A>, kind: RType) -> bool
    ensures { result ≡ (is_owned name.now rr.now && is_type (type_number kind) rr.now) }
{
    is_owned(rr, name) && is_type(rr, kind)
}

// Whether some record of that type stands at that name: of `a.example. A 192.0.2.1` alone, at `a.example` one of type A
// does.
pub fn owns<A: Allocator>(records: &[Record<A>], name: &Name<A>, kind: RType) -> bool
    ensures { result ≡ owns (type_number kind) name.now records.now }
{
    records.iter().any(|record| stands_at(record, name, kind))
}

// How many records are of that type: of two A and one NS, 2 of type A.
pub fn count_of_type<A: Allocator>(records: &[Record<A>], kind: RType) -> usize
    ensures { result ≡ length (of_type (type_number kind) records.now) }
{
    records
        .iter()
        .filter(|record| is_type(record, kind))
        .count()
}
