//! The SOA record of a negative answer as it is stored: two pieces in place of five.
ghost use Rattle.std.specs.Prelude.{◌≡◌, ◌≤◌, IfOk, IfSome};
ghost use Rattle.rdata.specs.Records.{greatest_ttl};
ghost use Rattle.cache.specs.Denials.{denied};

use dname::Suffix;
use memory::{Heap, Starved};
use rdata::{RData, Record, Soa};
use std::alloc::{Allocator, Global};
use std::marker::Model;

// The numbers of an SOA record, and how long its owner and its primary server are in wire form.
#[derive(Drop)]
struct Figures {
    owner: u8,
    primary: u8,
    serial: u32,
    refresh: u32,
    retry: u32,
    expire: u32,
    minimum: u32,
}

/// An SOA record without its TTL.
#[derive(Drop)]
pub struct Denial<A: Allocator = Global> {
    // Its owner, primary server and mailbox in wire form, one behind the other.
    names: Vec<u8, A>,
    figures: Box<Figures, A>,
}

impl<A: Allocator> Model for Denial<A> {
    ghost use Rattle.dname.specs.Wire.{labels_of};
    ghost use Rattle.cache.specs.Denials.{Denied, first_wire, second_wire, third_wire, AreNames};

    ghost Value = { Denied };

    ghost view = { λ d. record {
      owner = labels_of (first_wire d.figures.value.owner d.names.items);
      soa = record {
        primary = labels_of (second_wire d.figures.value.owner d.figures.value.primary d.names.items);
        mailbox = labels_of (third_wire d.figures.value.owner d.figures.value.primary d.names.items);
        serial = d.figures.value.serial;
        refresh = d.figures.value.refresh;
        retry = d.figures.value.retry;
        expire = d.figures.value.expire;
        minimum = d.figures.value.minimum;
      };
    } };

    ghost invariant = { λ d. AreNames d.figures.value.owner d.figures.value.primary d.names.items };
}

impl<A: Heap> Denial<A> {
    // The record, if it is an SOA record.
    pub(crate) fn of(alloc: A, source: &Record<A>) -> Result<Option<Denial<A>>, Starved>
        ensures { IfOk result (λ d. IfSome d (λ d. denied source.now.ttl d ≡ source.now)) }
    {
        let RData::Soa(soa) = &source.value else {
            return Ok(None);
        };
        source.owner.wire_law();
        soa.primary.wire_law();
        soa.mailbox.wire_law();
        let (owner, primary, mailbox) = (
            source.owner.wire(),
            soa.primary.wire(),
            soa.mailbox.wire(),
        );
        let mut names = Vec::with_capacity(alloc, owner.len() + primary.len() + mailbox.len())?;
        names.extend_from_slice(owner)?;
        names.extend_from_slice(primary)?;
        names.extend_from_slice(mailbox)?;
        let figures = Figures {
            owner: owner.len() as u8,
            primary: primary.len() as u8,
            serial: soa.serial,
            refresh: soa.refresh,
            retry: soa.retry,
            expire: soa.expire,
            minimum: soa.minimum,
        };
        Ok(Some(Denial {
            names,
            figures: Box::new(alloc, figures)?,
        }))
    }

    // The record with this TTL, in seconds.
    pub(crate) fn record(&self, alloc: A, ttl: u32) -> Result<Record<A>, Starved>
        requires { ttl ≤ greatest_ttl }
        ensures { IfOk result (λ r. r ≡ denied ttl self.now) }
    {
        let figures = &*self.figures;
        let (owner, servers) = self.names.split_at(usize::from(figures.owner));
        let (primary, mailbox) = servers.split_at(usize::from(figures.primary));
        let soa = Soa {
            primary: Suffix::of_wire(primary).to_name(alloc)?,
            mailbox: Suffix::of_wire(mailbox).to_name(alloc)?,
            serial: figures.serial,
            refresh: figures.refresh,
            retry: figures.retry,
            expire: figures.expire,
            minimum: figures.minimum,
        };
        Ok(Record {
            owner: Suffix::of_wire(owner).to_name(alloc)?,
            ttl,
            value: RData::Soa(Box::new(alloc, soa)?),
        })
    }
}
