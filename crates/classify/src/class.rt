//! The classes of a reply, by what it is used for, and why a reply is of no use.
ghost use Rattle.std.specs.Prelude.{◌≡◌, IfOk};
ghost use Rattle.classify.specs.Classes as plain;
ghost use Rattle.classify.specs.Classes.{refer};
ghost use Rattle.classify.specs.Lifetimes.{referral_lifetime};
ghost use Rattle.classify.specs.Views.{failure_number};
ghost use Rattle.referral.specs.Made.{record_cut};

use crate::lifetimes::referral_lifetime;
use dname::Name;
use memory::{Heap, Starved};
use rdata::{Records, lowest_ttl};
use referral::Cut;
use std::alloc::{Allocator, Global};
use zone::Link;

/// Why a reply is of no use.
#[derive(Clone, Copy, Debug, PartialEq, Eq)]
pub enum Failure {
    /// An RCODE other than 0 and 3, or 3 beside records of the name and the type (RFC 1035, section 4.1.1).
    BadCode,
    /// An answer without the bit AA: its server does not hold the zone.
    NoAuthority,
    /// A reply without an answer, a negative answer or a referral.
    Empty,
    /// A negative answer or a referral of another zone: out of bailiwick.
    Foreign,
    /// Truncated, and over TCP (RFC 2181, section 9).
    TruncatedOverTcp,
}

impl Failure {
    /// Its number, 1 to 5.
    pub fn number(self) -> u8
        ensures { result ≡ failure_number self }
    {
        match self {
            Failure::BadCode => 1,
            Failure::NoAuthority => 2,
            Failure::Empty => 3,
            Failure::Foreign => 4,
            Failure::TruncatedOverTcp => 5,
        }
    }
}

/// A referral to a zone beneath the one that was asked (RFC 1034, section 4.3.2, step 3b).
#[derive(Drop)]
pub struct Referral<A: Allocator = Global> {
    /// The zone's name.
    pub owner: Name<A>,
    /// Its NS set.
    pub servers: Records<A>,
    /// Its glue that is used, A records of its servers in bailiwick, in the order of the message.
    pub addresses: Records<A>,
    /// The lowest TTL of all these, in seconds.
    pub ttl: u32,
}

impl<A: Allocator> Referral<A> {
    /// The referral to these servers, with the lowest TTL of all these records.
    pub(crate) fn new(owner: Name<A>, servers: Records<A>, addresses: Records<A>) -> Referral<A>
        ensures { plain.Referral result.owner result.servers result.addresses result.ttl ≡ refer owner servers addresses }
    {
        let ttl = lowest_ttl(servers.as_slice()).min(lowest_ttl(addresses.as_slice()));
        Referral {
            owner,
            servers,
            addresses,
            ttl,
        }
    }

    /// For how many seconds it is cached: its TTL, and a week at most (RFC 2181, sections 5.2 and 8).
    pub fn lifetime(&self) -> u32
        ensures { result ≡ referral_lifetime self.now.ttl }
    {
        referral_lifetime(self.ttl)
    }
}

impl<A: Heap> Referral<A> {
    /// The cut that it leads to: the names of its servers, and their addresses (RFC 1034, section 4.2.1).
    pub fn into_cut(self, alloc: A) -> Result<Cut<A>, Starved>
        ensures { IfOk result (λ c. c ≡ record_cut self.owner self.servers self.addresses) }
    {
        let Referral {
            owner,
            servers,
            addresses,
            ttl: _,
        } = self;
        let cut = Cut::of_records(alloc, owner, servers.as_slice(), addresses.as_slice());
        drop(servers);
        drop(addresses);
        Ok(cut?)
    }
}

/// The class of a reply, by what it is used for.
#[derive(Drop)]
pub enum Class<A: Allocator = Global> {
    /// The link of the name and the type: an RRset, a CNAME, or a negative answer.
    Answer(Link<A>),
    /// The servers of a zone beneath.
    Referral(Referral<A>),
    /// Truncated over UDP: the ask is sent again over TCP.
    Truncated,
    /// Of no use.
    Failed(Failure),
}
