//! Rows about servers. `failures ROOM`, `fail NAME TYPE SERVER AT` and `fails NAME TYPE SERVER AT` are of what they
//! failed to answer; `penalties ROOM`, `silent SERVER`, `answers SERVER`, `penalty SERVER` and `plan SERVER ..` of
//! the order in which they are asked; `delegations ROOM`, `delegate AT TTL NOW : RECORDS` and `best NAME AT` of cuts;
//! `cut AT : RECORDS` and `hints SERVER ..` of one cut alone.
use crate::row::{Row, hasher, made};
use crate::shown::{put_asked, put_cut, put_number};
use cache::Failures;
use dname::Name;
use lru::DefaultHasher;
use rdata::{Addr, RType};
use referral::{Cut, Delegations};
use retry::{Penalties, Plan};
use std::alloc::Global;
use std::num::NonZeroUsize;
use text_lines::LineKind;

/// What is kept of servers, once rows have made it.
#[derive(Drop)]
pub struct Servers {
    failures: Option<Failures<DefaultHasher>>,
    penalties: Option<Penalties<DefaultHasher>>,
    delegations: Option<Delegations<DefaultHasher>>,
}

// Whom a plan of so many addresses gives in two rounds, and after them.
fn put_plan(out: &mut String, plan: &mut Plan, count: usize) -> Result<(), LineKind> {
    for _ in 0..count.saturating_mul(2) {
        put_asked(out, plan.next(), plan.wait_ms())?;
    }
    put_asked(out, plan.next(), plan.wait_ms())
}

fn put_hints(row: &Row<'_>, out: &mut String, hints: &[Addr]) -> Result<(), LineKind> {
    let cut = Cut::of_hints(row.alloc, hints)?;
    put_made(out, cut)
}

impl Servers {
    /// Nothing is kept.
    pub fn new() -> Servers {
        Servers {
            failures: None,
            penalties: None,
            delegations: None,
        }
    }

    /// What comes of a row.
    pub fn perform(&mut self, row: &mut Row<'_>, out: &mut String) -> Result<(), LineKind> {
        match row.command {
            "failures" | "penalties" | "delegations" => self.begin(row),
            "fail" | "fails" => self.failure(row, out),
            "silent" => self.silent(row),
            "answers" => self.answers(row),
            "penalty" => self.penalty(row, out),
            "plan" => self.plan(row, out),
            "delegate" => self.delegate(row),
            "best" => self.best(row, out),
            "cut" => show_cut(row, out),
            _ => show_hints(row, out),
        }
    }

    fn begin(&mut self, row: &mut Row<'_>) -> Result<(), LineKind> {
        let room = row.room()?;
        match row.command {
            "failures" => self.begin_failures(row.alloc, room),
            "penalties" => self.begin_penalties(row.alloc, room),
            _ => self.begin_delegations(row.alloc, room),
        }
    }

    fn begin_failures(&mut self, alloc: Global, room: NonZeroUsize) -> Result<(), LineKind> {
        self.failures = Some(Failures::new(alloc, room, hasher())?);
        Ok(())
    }

    fn begin_penalties(&mut self, alloc: Global, room: NonZeroUsize) -> Result<(), LineKind> {
        self.penalties = Some(Penalties::new(alloc, room, hasher())?);
        Ok(())
    }

    fn begin_delegations(&mut self, alloc: Global, room: NonZeroUsize) -> Result<(), LineKind> {
        self.delegations = Some(Delegations::new(alloc, room, hasher())?);
        Ok(())
    }

    fn failure(&mut self, row: &mut Row<'_>, out: &mut String) -> Result<(), LineKind> {
        let text = row.word()?;
        let kind = row.rtype()?;
        let server = row.address()?;
        let now = row.number()?;
        let name = text_lines::name(row.alloc, text)?;
        let done = if row.command == "fail" {
            self.fail(&name, kind, server, now)
        } else {
            self.fails(&name, kind, server, now, out)
        };
        drop(name);
        done
    }

    fn fail(&mut self, name: &Name, kind: RType, server: Addr, now: u64) -> Result<(), LineKind> {
        Ok(made(&mut self.failures)?.failed(name, kind, server, now)?)
    }

    fn fails(
        &mut self,
        name: &Name,
        kind: RType,
        server: Addr,
        now: u64,
        out: &mut String,
    ) -> Result<(), LineKind> {
        let fails = made(&mut self.failures)?.is_failed(name, kind, server, now)?;
        Ok(out.push_str(if fails { "fails\n" } else { "may be asked\n" })?)
    }

    /// The penalties that are kept.
    pub fn penalties(&mut self) -> Result<&mut Penalties<DefaultHasher>, LineKind> {
        made(&mut self.penalties)
    }

    fn silent(&mut self, row: &mut Row<'_>) -> Result<(), LineKind> {
        let server = row.address()?;
        self.penalties()?.timed_out(server)?;
        Ok(())
    }

    fn answers(&mut self, row: &mut Row<'_>) -> Result<(), LineKind> {
        let server = row.address()?;
        self.penalties()?.answered(server);
        Ok(())
    }

    fn penalty(&mut self, row: &mut Row<'_>, out: &mut String) -> Result<(), LineKind> {
        let server = row.address()?;
        let penalty = self.penalties()?.of(server);
        put_number(out, "", u64::from(penalty))
    }

    fn plan(&mut self, row: &mut Row<'_>, out: &mut String) -> Result<(), LineKind> {
        let addresses = row.addresses()?;
        self.put_plan(row.alloc, &addresses, out)
    }

    fn put_plan(
        &mut self,
        alloc: Global,
        addresses: &[Addr],
        out: &mut String,
    ) -> Result<(), LineKind> {
        let mut plan = Plan::new(alloc, addresses, self.penalties()?)?;
        put_plan(out, &mut plan, addresses.len())
    }

    fn delegate(&mut self, row: &mut Row<'_>) -> Result<(), LineKind> {
        let cut = row.cut()?;
        self.delegate_cut(row, cut)
    }

    fn delegate_cut(&mut self, row: &mut Row<'_>, cut: Cut) -> Result<(), LineKind> {
        let times = times(row);
        let delegations = made(&mut self.delegations);
        match (times, delegations) {
            (Ok((ttl, now)), Ok(delegations)) => Ok(delegations.keep(cut, ttl, now)?),
            (_, _) => {
                drop(cut);
                Err(LineKind::WordCount)
            }
        }
    }

    fn best_cut(&mut self, row: &mut Row<'_>) -> Result<Option<Cut>, LineKind> {
        let text = row.word()?;
        let now = row.number()?;
        let delegations = made(&mut self.delegations)?;
        let name = text_lines::name(row.alloc, text)?;
        let cut = delegations.best(&name, now);
        drop(name);
        Ok(cut?)
    }

    fn best(&mut self, row: &mut Row<'_>, out: &mut String) -> Result<(), LineKind> {
        let cut = self.best_cut(row)?;
        let put = put_best(out, &cut);
        drop(cut);
        put
    }
}

fn put_best(out: &mut String, cut: &Option<Cut>) -> Result<(), LineKind> {
    match cut {
        Some(cut) => put_cut(out, cut),
        None => Ok(out.push_str("none\n")?),
    }
}

// A time to live in seconds, and a moment.
fn times(row: &mut Row<'_>) -> Result<(u32, u64), LineKind> {
    let ttl = row.seconds()?;
    let now = row.number()?;
    Ok((ttl, now))
}

fn put_made(out: &mut String, cut: Cut) -> Result<(), LineKind> {
    let put = put_cut(out, &cut);
    drop(cut);
    put
}

fn show_cut(row: &mut Row<'_>, out: &mut String) -> Result<(), LineKind> {
    let cut = row.cut()?;
    put_made(out, cut)
}

fn show_hints(row: &mut Row<'_>, out: &mut String) -> Result<(), LineKind> {
    let hints = row.addresses()?;
    put_hints(row, out, &hints)
}
