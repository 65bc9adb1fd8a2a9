//! Links as they are stored: an owner that is the key's name is not stored again, and the TTL of the records once.
ghost use Rattle.std.specs.Prelude.{◌≡◌, ◌≤◌, ℕ, List, map, IfOk, IfSome, Some, option_map};
ghost use Rattle.rdata.specs.Kept.{datum};
ghost use Rattle.rdata.specs.Records.{greatest_ttl};
ghost use Rattle.rdata.specs.Rows.{first_in};
ghost use Rattle.zone.specs.Links.{Found};
ghost use Rattle.zone.specs.Views.{link_view};
ghost use Rattle.cache.specs.Cached.{is_live, as_set, as_alias, with_link, as_kept};
ghost use Rattle.cache.specs.Packed.{owned, link_of, hit_of_packed};
ghost use Rattle.cache.specs.Forms.{form_view};

use crate::denial::Denial;
use crate::hit::{Hit, alias_of, set_of, set_of_one};
use dname::Name;
use memory::{Heap, Starved};
use rdata::{Place, RData, Record, RecordSet, Shared, Values, is_young};
use std::alloc::{Allocator, Global};
use std::marker::Model;
use zone::Link;

// The record with these data and this TTL, in seconds, that the name owns.
fn owned<A: Heap>(name: &Name<A>, ttl: u32, value: &RData<A>) -> Result<Record<A>, Starved>
    requires { ttl ≤ greatest_ttl }
    ensures { IfOk result (λ r. r ≡ owned name.now ttl (datum value.now)) }
{
    Ok(Record {
        owner: name.clone()?,
        ttl,
        value: value.clone()?,
    })
}

// The set of these data that the name owns, with this TTL in seconds. The data are not copied.
fn set_of_shared<A: Heap>(
    name: &Name<A>,
    ttl: u32,
    items: &Shared<A>,
) -> Result<RecordSet<A>, Starved>
    requires { ttl ≤ greatest_ttl }
    ensures { IfOk result (λ rs. rs ≡ map (owned name.now ttl) items.now) }
{
    Ok(RecordSet {
        owner: name.clone()?,
        ttl,
        values: Values::of(items.clone()?),
    })
}

// The first record of that set.
fn first_of_shared<A: Heap>(
    name: &Name<A>,
    ttl: u32,
    items: &Shared<A>,
) -> Result<Record<A>, Starved>
    requires { ttl ≤ greatest_ttl }
    ensures { IfOk result (λ r. Some r ≡ first_in (map (owned name.now ttl) items.now)) }
{
    Ok(owned(name, ttl, &items.as_slice()[0])?)
}

/// A link as it is stored, beside the TTL of its records.
#[derive(Drop)]
pub enum Form<A: Allocator = Global> {
    /// A set of one record, which the key's name owns: its data.
    One(RData<A>),
    /// Any set that the key's name owns: the data of its records, which the set's other holders share.
    Many(Shared<A>),
    /// An alias of the key's name: the data of its record.
    Alias(RData<A>),
    /// A negative answer of the type (NODATA), by an SOA record.
    NoData(Denial<A>),
    /// A negative answer of the name (NXDOMAIN), by an SOA record.
    NxDomain(Denial<A>),
    /// Any other link.
    Whole(Box<Link<A>, A>),
}

// A set that the name owns, and its TTL in seconds.
fn set_of_name<A: Heap>(
    name: &Name<A>,
    set: &RecordSet<A>,
) -> Result<Option<(Form<A>, u32)>, Starved>
    ensures said { IfOk result (λ p. IfSome p (λ p. link_of name.now p.1 (form_view p.0) ≡ Found set.now)) }
    ensures most { IfOk result (λ p. IfSome p (λ p. p.1 ≤ greatest_ttl)) }
{
    if set.owner != *name {
        return Ok(None);
    }
    match set.values.place() {
        Place::Alone(value) => Ok(Some((Form::One(value.clone()?), set.ttl))),
        Place::Shared(shared) => Ok(Some((Form::Many(shared.clone()?), set.ttl))),
    }
}

impl<A: Heap> Form<A> {
    // The form in which a link is stored under a key of this name, and the TTL of its records in seconds; 0 beside a
    // link that is stored whole.
    fn of(alloc: A, name: &Name<A>, link: &Link<A>) -> Result<(Form<A>, u32), Starved>
        ensures said { IfOk result (λ p. link_of name.now p.1 (form_view p.0) ≡ link_view link.now) }
        ensures most { IfOk result (λ p. p.1 ≤ greatest_ttl) }
    {
        match link {
            Link::Found(set) => {
                if let Some(packed) = set_of_name(name, set)? {
                    return Ok(packed);
                }
            }
            Link::Alias(alias) => {
                if alias.owner == *name {
                    return Ok((Form::Alias(alias.value.clone()?), alias.ttl));
                }
            }
            Link::NoData(soa) => {
                if let Some(denial) = Denial::of(alloc, soa)? {
                    return Ok((Form::NoData(denial), soa.ttl));
                }
            }
            Link::NxDomain(soa) => {
                if let Some(denial) = Denial::of(alloc, soa)? {
                    return Ok((Form::NxDomain(denial), soa.ttl));
                }
            }
        }
        Ok((Form::Whole(Box::new(alloc, link.clone()?)?), 0))
    }

    // The link as the answer for the type under which it is cached.
    fn as_set(&self, alloc: A, name: &Name<A>, ttl: u32) -> Result<Link<A>, Starved>
        requires { ttl ≤ greatest_ttl }
        ensures { IfOk result (λ l. link_view l ≡ as_set (link_of name.now ttl (form_view self.now))) }
    {
        match self {
            Form::One(value) | Form::Alias(value) => Ok(set_of_one(
                alloc,
                owned(name, ttl, value)?,
            )?),
            Form::Many(items) => Ok(Link::Found(set_of_shared(name, ttl, items)?)),
            Form::NoData(denial) => Ok(Link::NoData(denial.record(alloc, ttl)?)),
            Form::NxDomain(denial) => Ok(Link::NxDomain(denial.record(alloc, ttl)?)),
            Form::Whole(link) => Ok(set_of(alloc, link)?),
        }
    }

    // The link as an alias, for another type.
    fn as_alias(&self, name: &Name<A>, ttl: u32) -> Result<Option<Link<A>>, Starved>
        requires { ttl ≤ greatest_ttl }
        ensures { IfOk result (λ l. option_map link_view l ≡ as_alias (link_of name.now ttl (form_view self.now))) }
    {
        match self {
            Form::One(value) | Form::Alias(value) => Ok(Some(Link::Alias(owned(
                name, ttl, value,
            )?))),
            Form::Many(items) => Ok(Some(Link::Alias(first_of_shared(name, ttl, items)?))),
            Form::NoData(_) | Form::NxDomain(_) => Ok(None),
            Form::Whole(link) => Ok(alias_of(link)?),
        }
    }
}

/// A cached link as it is stored.
#[derive(Drop)]
pub struct Packed<A: Allocator = Global> {
    form: Form<A>,
    since: u64,
    ttl: u32,
    // The TTL of the link's records, in seconds, where the form leaves it out.
    records_ttl: u32,
}

impl<A: Allocator> Model for Packed<A> {
    ghost use Rattle.cache.specs.Packed.{Packed as PackedSpec};

    ghost Value = { PackedSpec };

    ghost use Rattle.cache.specs.Forms.{form_view};

    ghost view = { λ p. record { form = form_view p.form; records_ttl = p.records_ttl; ttl = p.ttl; since = p.since } };

    ghost use Rattle.std.specs.Prelude.{◌≤◌};
    ghost use Rattle.rdata.specs.Records.{greatest_ttl};

    ghost invariant = { λ p. (p.ttl ≤ greatest_ttl) × (p.records_ttl ≤ greatest_ttl) };
}

impl<A: Heap> Packed<A> {
    // The link to be stored under a key of this name.
    pub(crate) fn of(
        alloc: A,
        name: &Name<A>,
        link: &Link<A>,
        ttl: u32,
        since: u64,
    ) -> Result<Packed<A>, Starved>
        requires { ttl ≤ greatest_ttl }
        ensures { IfOk result (λ p. hit_of_packed name.now p ≡ as_kept (link_view link.now) ttl since) }
    {
        let (form, records_ttl) = Form::of(alloc, name, link)?;
        Ok(Packed {
            form,
            since,
            ttl,
            records_ttl,
        })
    }

    // The hit as the answer for the type under which it is cached.
    pub(crate) fn as_set(&self, alloc: A, name: &Name<A>) -> Result<Hit<A>, Starved>
        ensures { IfOk result (λ h. Some h ≡ with_link (hit_of_packed name.now self.now) (Some (as_set (link_of name.now self.now.records_ttl self.now.form)))) }
    {
        Ok(Hit {
            link: self.form.as_set(alloc, name, self.records_ttl)?,
            ttl: self.ttl,
            since: self.since,
        })
    }

    // The hit as an alias, for another type.
    pub(crate) fn as_alias(&self, name: &Name<A>) -> Result<Option<Hit<A>>, Starved>
        ensures { IfOk result (λ h. h ≡ with_link (hit_of_packed name.now self.now) (as_alias (link_of name.now self.now.records_ttl self.now.form))) }
    {
        match self.form.as_alias(name, self.records_ttl)? {
            Some(link) => Ok(Some(Hit {
                link,
                ttl: self.ttl,
                since: self.since,
            })),
            None => Ok(None),
        }
    }
}

impl<A: Allocator> Packed<A> {
    // Its TTL in seconds, for which it is cached.
    pub(crate) fn ttl(&self) -> u32
        ensures { result ≡ self.now.ttl }
    {
        self.ttl
    }

    // Whether it is younger than its TTL at this moment, under any name.
    pub(crate) fn is_live(&self, now: u64) -> bool
        ensures { (q : List (List ℕ)) → result ≡ is_live now (hit_of_packed q self.now) }
    {
        is_young(self.ttl, self.since, now)
    }
}
