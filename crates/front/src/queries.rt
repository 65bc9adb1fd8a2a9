//! Requests of clients, and their answers.
ghost use Rattle.std.specs.Prelude.{◌≡◌, ◌<◌};
ghost use Rattle.std.specs.Option.{option_copied};
ghost use Rattle.rdata.specs.Rows.{in_set};
ghost use Rattle.front.specs.Replies.{refusal_rcode, end_rcode, found_in, denied_by};

use crate::shared::{SharedEcho, SharedQuery};
use crate::start::Start;
use causes::Cause;
use dname::Name;
use rdata::{RType, Record, RecordSet, Records};
use std::alloc::{Allocator, Global};
use wire::{Echo, rcode};

/// Why a query is refused without a look-up.
#[derive(Clone, Copy, Debug, PartialEq, Eq)]
pub enum Refusal {
    /// The bytes are no message of one question (FORMERR).
    FormErr,
    /// Another operation than a query, another class than IN, or a type that is not served (NOTIMP).
    NotImp,
}

impl Refusal {
    /// The RCODE (RFC 1035, section 4.1.1).
    pub fn rcode(self) -> u8
        ensures { result ≡ refusal_rcode self }
    {
        match self {
            Refusal::FormErr => rcode::FORM_ERR,
            Refusal::NotImp => rcode::NOT_IMP,
        }
    }
}

/// A query that can be answered: of class IN and a served type.
#[derive(Drop)]
pub struct Query<A: Allocator = Global> {
    /// The fields of the query's header that the reply repeats.
    pub start: Start,
    /// The name that is asked for, in lower case.
    pub name: Name<A>,
    /// The type that is asked for.
    pub kind: RType,
    /// The question in the client's own letters.
    pub echo: Echo<A>,
}

/// The meaning of a client's bytes.
#[derive(Drop)]
pub enum Request<A: Allocator = Global> {
    /// Dropped: under 12 bytes, or a reply.
    Drop,
    /// A refusal, with the question to repeat, if there is one.
    Refuse(Refusal, Start, Option<SharedEcho<A>>),
    /// A query, shared by all that hold it.
    Query(SharedQuery<A>),
}

/// The end of a CNAME chain.
#[derive(Drop)]
pub enum End<A: Allocator = Global> {
    /// The RRset that was asked for.
    Found(RecordSet<A>),
    /// NODATA: the name has no such records; with the zone's SOA alone.
    NoData(Records<A>),
    /// NXDOMAIN: the name does not exist; with the zone's SOA alone.
    NxDomain(Records<A>),
    /// Nothing is known of the name at the chain's end: it is delegated, or no local zone is over it.
    Outside,
}

impl<A: Allocator> End<A> {
    /// The RCODE of a reply that ends so: 3 for NXDOMAIN, else 0 (RFC 2308, section 2).
    pub fn rcode(&self) -> u8
        ensures is { result ≡ end_rcode self.now }
        ensures fits { result < 16 }
    {
        match self {
            End::NxDomain(_) => rcode::NX_DOMAIN,
            _ => rcode::NO_ERROR,
        }
    }

    /// The RRset that stands behind the CNAME chain in the answer.
    pub fn found(&self) -> Option<&RecordSet<A>>
        ensures { in_set (option_copied result) ≡ found_in self.now }
    {
        match self {
            End::Found(set) => Some(set),
            _ => None,
        }
    }

    /// The SOA of a negative answer, for the authority section (RFC 2308, section 2).
    pub fn denial(&self) -> &[Record<A>]
        ensures { result.now ≡ denied_by self.now }
    {
        match self {
            End::NoData(soa) | End::NxDomain(soa) => soa.as_slice(),
            _ => &[],
        }
    }
}

/// The answer to a query.
#[derive(Drop)]
pub enum Outcome<A: Allocator = Global> {
    /// Whether the link of the name in the question is local, the CNAME chain in order, and its end.
    Answer(bool, Records<A>, End<A>),
    /// The NS RRset of a zone cut, and its glue.
    Referral(Records<A>, Records<A>),
    /// REFUSED: no local zone is over the name.
    Refused,
    /// SERVFAIL, and its cause.
    Fail(Cause),
}
