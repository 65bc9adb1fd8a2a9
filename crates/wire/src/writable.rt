//! Each draft can be written: its fields fit their bits, and its names are names. The functions do nothing; they say
//! what the types of a draft's parts keep.
ghost use Rattle.std.specs.Prelude.{◌≡◌, ◌<◌, ◌≤◌, ◌^◌, length};
ghost use Rattle.std.specs.List.{AllByRecursion};
ghost use Rattle.std.specs.Option.{option_copied};
ghost use Rattle.rdata.specs.Data as plain;
ghost use Rattle.rdata.specs.Kept.{datum};
ghost use Rattle.rdata.specs.Records.{greatest_ttl};
ghost use Rattle.rdata.specs.Rows.{row, plain_rows, in_set};
ghost use Rattle.message_grammar.specs.Messages.{FitsRdata, AreNamesOf, IsHeader, IsQuestion, IsRecord, IsWritable};
ghost use Rattle.wire.specs.Drafts.{asked_alone};

use crate::echo::Echo;
use crate::encoder::Draft;
use crate::header::Header;
use crate::message::Question;
use dname::Name;
use rdata::{RData, Record, RecordSet, Soa, Srv, Texts, Values};
use std::alloc::Allocator;

fn short_law(number: u16)
    ensures { number < 65536 }
{}

fn long_law(number: u32)
    ensures { number < 2 ^ 32 }
{}

fn header_law(header: Header)
    ensures { IsHeader header }
{
    let _ = header.id;
}

// ---- records

fn texts_law<A: Allocator>(texts: &Texts<A>)
    ensures { FitsRdata (plain.Txt texts.now) }
{
    let _ = texts.wire();
}

fn soa_law<A: Allocator>(soa: &Soa<A>)
    ensures { FitsRdata (plain.Soa soa.now) × AreNamesOf (plain.Soa soa.now) }
{
    soa.primary.well_formed_law();
    soa.mailbox.well_formed_law();
    long_law(soa.serial);
    long_law(soa.refresh);
    long_law(soa.retry);
    long_law(soa.expire);
    long_law(soa.minimum);
}

fn srv_law<A: Allocator>(srv: &Srv<A>)
    ensures { FitsRdata (plain.Srv srv.now) × AreNamesOf (plain.Srv srv.now) }
{
    short_law(srv.priority);
    short_law(srv.weight);
    short_law(srv.port);
    srv.target.well_formed_law();
}

fn ipv4_law(address: &[u8; 4])
    ensures { length address.now ≡ 4 }
{
    let _ = *address;
}

fn ipv6_law(address: &[u8; 16])
    ensures { length address.now ≡ 16 }
{
    let _ = *address;
}

fn data_law<A: Allocator>(value: &RData<A>)
    ensures { FitsRdata (datum value.now) × AreNamesOf (datum value.now) }
{
    match value {
        RData::A(address) => ipv4_law(&address.0),
        RData::Ns(name) | RData::Cname(name) | RData::Ptr(name) => name.well_formed_law(),
        RData::Soa(soa) => soa_law(soa),
        RData::Mx(preference, name) => {
            short_law(*preference);
            name.well_formed_law();
        }
        RData::Txt(texts) => texts_law(texts),
        RData::Aaaa(address) => ipv6_law(address),
        RData::Srv(srv) => srv_law(srv),
    }
}

fn row_law<A: Allocator>(owner: &Name<A>, ttl: u32, value: &RData<A>)
    requires { ttl ≤ greatest_ttl }
    ensures { IsRecord (row owner.now ttl value.now) }
{
    owner.well_formed_law();
    data_law(value);
}

fn record_law<A: Allocator>(rr: &Record<A>)
    ensures { IsRecord rr.now }
{
    row_law(&rr.owner, rr.ttl, &rr.value);
}

fn records_law<A: Allocator>(records: &[Record<A>])
    ensures { AllByRecursion IsRecord records.now }
{
    for rr in records {
        record_law(rr);
    }
}

fn rows_law<A: Allocator>(owner: &Name<A>, ttl: u32, values: &Values<A>)
    requires { ttl ≤ greatest_ttl }
    ensures { AllByRecursion IsRecord (plain_rows owner.now ttl values.now) }
{
    for index in 0..values.len() {
        row_law(owner, ttl, values.get(index));
    }
}

fn set_law<A: Allocator>(set: Option<&RecordSet<A>>)
    ensures { AllByRecursion IsRecord (in_set (option_copied set.entry)) }
{
    if let Some(set) = set {
        rows_law(&set.owner, set.ttl, &set.values);
    }
}

// ---- questions

#[tactic(auto, using(crate::proofs::Fitting::spelling_of_name))]
fn question_law<A: Allocator>(question: &Question<A>)
    ensures { IsQuestion question.now }
{
    question.name.well_formed_law();
    short_law(question.qtype);
    short_law(question.qclass);
}

fn questions_law<A: Allocator>(questions: &[Question<A>])
    ensures { AllByRecursion IsQuestion questions.now }
{
    for question in questions {
        question_law(question);
    }
}

fn echo_law<A: Allocator>(echo: Option<&Echo<A>>)
    ensures { AllByRecursion IsQuestion (asked_alone (option_copied echo.entry)) }
{
    if let Some(echo) = echo {
        echo.spelling.well_formed_law();
        short_law(echo.qtype);
        short_law(echo.qclass);
    }
}

impl<A: Allocator> Draft<'_, A> {
    /// Each draft can be written: its fields fit their bits, and its names are names (RFC 1035, section 4.1), so that
    /// its encoding is read back as its message before it is written.
    pub fn writable_law(&self)
        ensures { IsWritable self.now }
    {
        header_law(self.header);
        questions_law(self.questions);
        echo_law(self.echo);
        records_law(self.first);
        set_law(self.second);
        records_law(self.authority);
        records_law(self.additional);
    }
}
