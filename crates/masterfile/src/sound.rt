//! The parts of a record are within the bounds of a zone text: laws on values, for `print`.
ghost use Rattle.std.specs.Prelude.{◌<◌, ◌≤◌, length};
ghost use Rattle.dname.specs.Labels.{IsName};
ghost use Rattle.dname.specs.Spelling.{AreBytes};
ghost use Rattle.rdata.specs.Kept.{datum};
ghost use Rattle.masterfile.specs.Fields.{greatest_16, greatest_32};
ghost use Rattle.masterfile.specs.ReadBack.{AreCharacterStrings, IsAuthority, IsService, FitsMessage, IsSoundData, IsSound};

use dname::Name;
use rdata::{RData, Record, Soa, Srv, Texts};
use std::alloc::Allocator;

/// A record's parts are within their bounds, where its TXT, if it is one, fits a message.
pub(crate) fn record_is_sound<A: Allocator>(record: &Record<A>)
    ensures { FitsMessage «record».now.value → IsSound «record».now }
{
    record.owner.well_formed_law();
    data_is_sound(&record.value);
}

fn data_is_sound<A: Allocator>(value: &RData<A>)
    ensures { FitsMessage (datum value.now) → IsSoundData (datum value.now) }
{
    match value {
        RData::A(address) => bytes_law(&address.0),
        RData::Ns(name) => name.well_formed_law(),
        RData::Cname(name) => name.well_formed_law(),
        RData::Soa(soa) => authority_is_sound(soa),
        RData::Ptr(name) => name.well_formed_law(),
        RData::Mx(preference, name) => exchange_is_sound(*preference, name),
        RData::Txt(texts) => texts_are_sound(texts),
        RData::Aaaa(address) => bytes_law(address),
        RData::Srv(srv) => service_is_sound(srv),
    }
}

fn exchange_is_sound<A: Allocator>(preference: u16, name: &Name<A>)
    ensures { (preference ≤ greatest_16) × IsName name.now }
{
    name.well_formed_law();
}

fn authority_is_sound<A: Allocator>(soa: &Soa<A>)
    ensures { IsAuthority soa.now }
{
    soa.primary.well_formed_law();
    soa.mailbox.well_formed_law();
    number_is_sound(soa.serial);
    number_is_sound(soa.refresh);
    number_is_sound(soa.retry);
    number_is_sound(soa.expire);
    number_is_sound(soa.minimum);
}

fn service_is_sound<A: Allocator>(srv: &Srv<A>)
    ensures { IsService srv.now }
{
    short_is_sound(srv.priority);
    short_is_sound(srv.weight);
    short_is_sound(srv.port);
    srv.target.well_formed_law();
}

fn short_is_sound(number: u16)
    ensures { number ≤ greatest_16 }
{}

fn number_is_sound(number: u32)
    ensures { number ≤ greatest_32 }
{}

fn texts_are_sound<A: Allocator>(texts: &Texts<A>)
    ensures some { 0 < length texts.now }
    ensures strings { AreCharacterStrings texts.now }
{
    bytes_law(texts.wire());
}

#[tactic(auto, using(crate::proofs::KeptRecords::bytes_by))]
fn bytes_law(bytes: &[u8])
    ensures { AreBytes bytes.now }
{
    let _ = bytes.len();
}
