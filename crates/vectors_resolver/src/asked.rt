//! Rows about one query and what was learnt. `zone ORIGIN HINT : RECORDS` says what every later `resolver ROOM` has at
//! hand, with its one server of the root. `learn NAME AT : RECORDS` and `learn-cut CUT TTL AT : RECORDS` tell it
//! something, and `seek NAME TYPE AT` shows what it knows; `late-server SERVER`, `prompt-server SERVER`, `open CUT :
//! RECORDS` and `join : RECORDS` are of whom a frame asks next, `found : RECORDS` shows which addresses a look-up of
//! a server's name takes, and `accepted NAME AT LATER : RECORD` is of a link alone.
//! `query NAME TYPE AT`, `reply SERVER AT FLAG .. : SECTION RECORD ; ..`, `time-out SERVER AT` and `tcp-failed SERVER
//! AT` are the work on one query; `until-failure` before one of them does it again until the query fails.
use crate::replies::reply;
use crate::row::{Row, hasher, made};
use crate::shown::{put_addresses, put_asked, put_cut, put_link, put_number};
use authority::Catalog;
use classify::read;
use dname::Name;
use frames::Frame;
use iterate::{Input, Job, Next, Started, advance, advance_by_reply, begin_query};
use lookup::{Capacities, Found, Hashers, Home, Stores, Taken, find, found_addresses};
use lru::DefaultHasher;
use rdata::{Addr, INTERNET, RType, Records};
use referral::Cut;
use std::alloc::Global;
use std::num::NonZeroUsize;
use text_lines::LineKind;
use wire::{Question, Questions, Via};
use zone::{Link, Zone};

struct AtHand {
    origin: Name,
    hint: Addr,
    records: Records,
}

impl Drop for AtHand {
    fn drop(self) {
        let Self {
            origin,
            hint: _,
            records,
        } = self;
        drop(origin);
        drop(records);
    }
}

struct Asked {
    home: Home,
    stores: Stores<DefaultHasher>,
    frame: Option<Frame>,
    job: Job,
    // What was asked last, once something was.
    question: Option<Question>,
}

impl Drop for Asked {
    fn drop(self) {
        let Self {
            home,
            stores,
            frame,
            job,
            question,
        } = self;
        drop(home);
        drop(stores);
        drop(frame);
        drop(job);
        drop(question);
    }
}

/// What later resolvers have at hand, and the last one.
#[derive(Drop)]
pub struct Resolvers {
    at_hand: Option<AtHand>,
    asked: Option<Asked>,
}

fn zone(at_hand: &AtHand) -> Result<Zone, LineKind> {
    let origin = at_hand.origin.clone()?;
    let records = at_hand.records.clone()?;
    match Zone::build(origin, records) {
        Ok(zone) => Ok(zone),
        Err(_) => Err(LineKind::BadName),
    }
}

fn home(alloc: Global, at_hand: &AtHand) -> Result<Home, LineKind> {
    let mut zones = Vec::new(alloc);
    zones.push(zone(at_hand)?)?;
    match Catalog::new(zones) {
        Ok(catalog) => Ok(Home::new(alloc, catalog, &[at_hand.hint])?),
        Err(_) => Err(LineKind::BadName),
    }
}

// Room for so many of each that may be learnt.
fn stores(alloc: Global, room: NonZeroUsize) -> Result<Stores<DefaultHasher>, LineKind> {
    let capacities = Capacities {
        links: room,
        cuts: room,
        servers: room,
        failures: room,
    };
    let hashers = Hashers {
        links: hasher(),
        cuts: hasher(),
        servers: hasher(),
        failures: hasher(),
    };
    Ok(Stores::new(alloc, capacities, hashers)?)
}

fn fresh(alloc: Global, at_hand: &AtHand, room: NonZeroUsize) -> Result<Asked, LineKind> {
    let stores = stores(alloc, room)?;
    let job = Job::new(Name::root(alloc)?, RType::A, 0);
    Ok(Asked {
        home: home(alloc, at_hand)?,
        stores,
        frame: None,
        job,
        question: None,
    })
}

fn question(name: &Name, kind: RType) -> Result<Question, LineKind> {
    Ok(Question {
        name: name.clone()?,
        qtype: kind.number(),
        qclass: INTERNET,
    })
}

fn put_aliases(out: &mut String, alloc: Global, aliases: &[Taken]) -> Result<(), LineKind> {
    for alias in aliases {
        put_link(out, alloc, alias.link())?;
    }
    Ok(())
}

// An answer behind aliases.
fn put_done(
    out: &mut String,
    alloc: Global,
    aliases: &[Taken],
    last: &Taken,
) -> Result<(), LineKind> {
    put_number(out, "answer behind ", aliases.len() as u64)?;
    put_aliases(out, alloc, aliases)?;
    put_link(out, alloc, last.link())
}

fn put_ask(
    out: &mut String,
    server: Addr,
    way: &str,
    name: &Name,
    kind: RType,
    asks: u32,
) -> Result<(), LineKind> {
    writeln!(out, "ask {server} over {way} for {name} {kind}, ask {asks}")?;
    Ok(())
}

fn put_next(out: &mut String, alloc: Global, next: &Next, asks: u32) -> Result<(), LineKind> {
    match next {
        Next::AskUdp(server, name, kind) => put_ask(out, *server, "udp", name, *kind, asks),
        Next::AskTcp(server, name, kind) => put_ask(out, *server, "tcp", name, *kind, asks),
        Next::Done(chain, last) => put_done(out, alloc, chain.as_slice(), last),
        Next::Fail(cause) => put_number(out, "fails, cause ", u64::from(cause.number())),
    }
}

// What is known goes out as it is sent at that moment.
fn put_found(out: &mut String, alloc: Global, found: Found, now: u64) -> Result<(), LineKind> {
    match found {
        Found::Known(taken) => put_sent(out, alloc, taken, now),
        Found::Start(cut) => {
            let put = put_cut(out, &cut);
            drop(cut);
            put
        }
    }
}

fn put_sent(out: &mut String, alloc: Global, taken: Taken, now: u64) -> Result<(), LineKind> {
    let link = taken.into_sent(now);
    let put = put_link(out, alloc, &link);
    drop(link);
    put
}

fn put_taken(out: &mut String, taken: &Taken, later: u64) -> Result<(), LineKind> {
    let name = taken.name();
    let dead = taken.is_dead(later);
    writeln!(out, "link of {name}, run out: {dead}")?;
    if let Some(target) = taken.alias_target() {
        writeln!(out, "leads to {target}")?;
    }
    Ok(())
}

fn show_accepted(row: &mut Row<'_>, out: &mut String) -> Result<(), LineKind> {
    let text = row.word()?;
    let now = row.number()?;
    let later = row.number()?;
    let name = text_lines::name(row.alloc, text)?;
    let taken = Taken::accepted(name, row.link_as("alias")?, now);
    put_taken(out, &taken, later)?;
    put_name(out, taken)
}

fn found_by(row: &Row<'_>) -> Result<Vec<Addr>, LineKind> {
    let set = row.set()?;
    let found = found_addresses(row.alloc, &set);
    drop(set);
    Ok(found?)
}

fn show_found(row: &Row<'_>, out: &mut String) -> Result<(), LineKind> {
    let found = found_by(row)?;
    put_addresses(out, found.as_slice())
}

fn put_name(out: &mut String, taken: Taken) -> Result<(), LineKind> {
    let name = taken.into_name();
    writeln!(out, "of {name} alone")?;
    Ok(())
}

impl Asked {
    fn perform(&mut self, row: &mut Row<'_>, out: &mut String) -> Result<(), LineKind> {
        match row.command {
            "learn" => self.learn(row),
            "learn-cut" | "open" => self.take_cut(row, out),
            "seek" => self.seek(row, out),
            "late-server" | "prompt-server" => self.hear_of(row),
            "join" => self.join(row, out),
            "query" => self.query(row, out),
            "reply" => self.reply(row, out),
            _ => self.lose(row, out),
        }
    }

    fn learn(&mut self, row: &mut Row<'_>) -> Result<(), LineKind> {
        let link = row.link_as("set")?;
        let learnt = self.learn_link(row, &link);
        drop(link);
        learnt
    }

    fn learn_link(&mut self, row: &mut Row<'_>, link: &Link) -> Result<(), LineKind> {
        let text = row.word()?;
        let now = row.number()?;
        let owner = text_lines::name(row.alloc, text)?;
        let kept = self.stores.keep_link(&owner, RType::A, link, now);
        drop(owner);
        Ok(kept?)
    }

    fn take_cut(&mut self, row: &mut Row<'_>, out: &mut String) -> Result<(), LineKind> {
        let cut = row.cut()?;
        let taken = self.take_made(row, &cut, out);
        drop(cut);
        taken
    }

    fn take_made(
        &mut self,
        row: &mut Row<'_>,
        cut: &Cut,
        out: &mut String,
    ) -> Result<(), LineKind> {
        match row.command {
            "open" => self.open(row, cut, out),
            _ => self.learn_cut(row, cut),
        }
    }

    fn learn_cut(&mut self, row: &mut Row<'_>, cut: &Cut) -> Result<(), LineKind> {
        let ttl = row.seconds()?;
        let now = row.number()?;
        Ok(self.stores.keep_cut(row.alloc, cut, ttl, now)?)
    }

    fn find(
        &mut self,
        alloc: Global,
        text: &str,
        kind: RType,
        now: u64,
    ) -> Result<Found, LineKind> {
        let name = text_lines::name(alloc, text)?;
        let found = find(alloc, &self.home, &name, kind, &mut self.stores, now);
        drop(name);
        Ok(found?)
    }

    fn seek(&mut self, row: &mut Row<'_>, out: &mut String) -> Result<(), LineKind> {
        let text = row.word()?;
        let kind = row.rtype()?;
        let now = row.number()?;
        let found = self.find(row.alloc, text, kind, now)?;
        put_found(out, row.alloc, found, now)
    }

    fn hear_of(&mut self, row: &mut Row<'_>) -> Result<(), LineKind> {
        let server = row.address()?;
        match row.command {
            "late-server" => Ok(self.stores.timed_out(server)?),
            _ => {
                self.stores.answered(server);
                Ok(())
            }
        }
    }

    fn open(&mut self, row: &Row<'_>, cut: &Cut, out: &mut String) -> Result<(), LineKind> {
        let frame = self.stores.open(row.alloc, cut, 0)?;
        self.frame = Some(frame);
        self.put_asked(out)
    }

    fn put_asked(&mut self, out: &mut String) -> Result<(), LineKind> {
        let frame = made(&mut self.frame)?;
        put_asked(out, frame.next_address(), frame.wait_ms())
    }

    fn add(&mut self, found: &[Addr]) -> Result<(), LineKind> {
        let frame = made(&mut self.frame)?;
        Ok(self.stores.add(frame, found)?)
    }

    fn join(&mut self, row: &Row<'_>, out: &mut String) -> Result<(), LineKind> {
        let found = found_by(row)?;
        let added = self.add(&found);
        drop(found);
        added?;
        self.put_asked(out)
    }

    // What goes out for a query whose work has begun.
    fn begun(&mut self, begun: Started, alloc: Global, out: &mut String) -> Result<(), LineKind> {
        match begun {
            Started::Answered(last) => {
                let put = put_done(out, alloc, &[], &last);
                drop(last);
                put
            }
            Started::Working(job, next) => {
                self.job = job;
                self.go_out(alloc, next, out)
            }
        }
    }

    fn go_out(&mut self, alloc: Global, next: Next, out: &mut String) -> Result<(), LineKind> {
        let put = self.put_next(alloc, &next, out);
        drop(next);
        put
    }

    // Notes what goes out and is asked.
    fn note(&mut self, next: &Next) -> Result<(), LineKind> {
        if let Next::AskUdp(_, name, kind) | Next::AskTcp(_, name, kind) = next {
            self.question = Some(question(name, *kind)?);
        }
        Ok(())
    }

    // Shows what goes out, and notes what it asks.
    fn put_next(&mut self, alloc: Global, next: &Next, out: &mut String) -> Result<(), LineKind> {
        self.note(next)?;
        put_next(out, alloc, next, self.job.asks())
    }

    // The question that was asked last.
    fn question(&self) -> Result<Question, LineKind> {
        let last = self.question.as_ref().ok_or(LineKind::UnknownWord)?;
        Ok(Question {
            name: last.name.clone()?,
            qtype: last.qtype,
            qclass: last.qclass,
        })
    }

    fn begin(
        &mut self,
        alloc: Global,
        text: &str,
        kind: RType,
        now: u32,
    ) -> Result<Started, LineKind> {
        let name = text_lines::name(alloc, text)?;
        let begun = begin_query(
            alloc,
            &name,
            kind,
            &self.home,
            &mut self.stores,
            u64::from(now),
        );
        drop(name);
        Ok(begun?)
    }

    fn query(&mut self, row: &mut Row<'_>, out: &mut String) -> Result<(), LineKind> {
        let text = row.word()?;
        let kind = row.rtype()?;
        let now = row.seconds()?;
        let begun = self.begin(row.alloc, text, kind, now)?;
        self.begun(begun, row.alloc, out)
    }

    fn advance(
        &mut self,
        alloc: Global,
        input: Input,
        now: u64,
        out: &mut String,
    ) -> Result<(), LineKind> {
        let next = advance(
            alloc,
            &mut self.job,
            input,
            &self.home,
            &mut self.stores,
            now,
        )?;
        self.go_out(alloc, next, out)
    }

    fn told(
        &mut self,
        alloc: Global,
        server: Addr,
        bytes: &[u8],
        now: u64,
    ) -> Result<Next, LineKind> {
        let Some(reading) = read(alloc, Via::Udp, bytes)? else {
            return Err(LineKind::BadHex);
        };
        if !self.job.seeks(&reading) {
            return Err(LineKind::UnknownWord);
        }
        Ok(advance_by_reply(
            alloc,
            &mut self.job,
            server,
            &reading,
            &self.home,
            &mut self.stores,
            now,
        )?)
    }

    // A reply to what was asked last, with the flags that are left and the records of the row.
    fn replied(&self, row: &mut Row<'_>) -> Result<Vec<u8>, LineKind> {
        let mut questions = Questions::new(row.alloc);
        questions.push(self.question()?)?;
        reply(row, questions)
    }

    fn reply(&mut self, row: &mut Row<'_>, out: &mut String) -> Result<(), LineKind> {
        let server = row.address()?;
        let now = row.number()?;
        let bytes = self.replied(row)?;
        let next = self.told(row.alloc, server, &bytes, now);
        drop(bytes);
        self.go_out(row.alloc, next?, out)
    }

    fn lose(&mut self, row: &mut Row<'_>, out: &mut String) -> Result<(), LineKind> {
        let input = lost(row)?;
        let now = row.number()?;
        self.advance(row.alloc, input, now, out)
    }
}

fn lost(row: &mut Row<'_>) -> Result<Input, LineKind> {
    let server = row.address()?;
    match row.command {
        "time-out" => Ok(Input::TimedOut(server)),
        "tcp-failed" => Ok(Input::TcpFailed(server)),
        _ => Err(LineKind::UnknownWord),
    }
}

impl Resolvers {
    /// Nothing at hand, and no resolver.
    pub fn new() -> Resolvers {
        Resolvers {
            at_hand: None,
            asked: None,
        }
    }

    /// What comes of a row.
    pub fn perform(&mut self, row: &mut Row<'_>, out: &mut String) -> Result<(), LineKind> {
        match row.command {
            "zone" => self.hold(row),
            "resolver" => self.start(row),
            "accepted" => show_accepted(row, out),
            "found" => show_found(row, out),
            _ => made(&mut self.asked)?.perform(row, out),
        }
    }

    fn hold(&mut self, row: &mut Row<'_>) -> Result<(), LineKind> {
        let text = row.word()?;
        let hint = row.address()?;
        self.at_hand = Some(at_hand(row, text, hint)?);
        Ok(())
    }

    fn start(&mut self, row: &mut Row<'_>) -> Result<(), LineKind> {
        let room = row.room()?;
        let at_hand = made(&mut self.at_hand)?;
        self.asked = Some(fresh(row.alloc, at_hand, room)?);
        Ok(())
    }

    // What comes of one of several rows.
    fn said(&mut self, alloc: Global, text: &str) -> Result<String, LineKind> {
        let mut said = String::new(alloc);
        let mut row = Row::new(alloc, text)?;
        self.perform(&mut row, &mut said)?;
        Ok(said)
    }

    /// What comes of the last of as many such rows as it takes until the query fails, and how many they are.
    pub fn exhaust(&mut self, alloc: Global, text: &str, out: &mut String) -> Result<(), LineKind> {
        for count in 1..100u32 {
            let said = self.said(alloc, text)?;
            if said.starts_with("fails") {
                return put_end(out, count, said.as_str());
            }
        }
        Err(LineKind::BadNumber)
    }
}

fn at_hand(row: &Row<'_>, text: &str, hint: Addr) -> Result<AtHand, LineKind> {
    let origin = text_lines::name(row.alloc, text)?;
    Ok(AtHand {
        origin,
        hint,
        records: row.records()?,
    })
}

fn put_end(out: &mut String, count: u32, said: &str) -> Result<(), LineKind> {
    write!(out, "after {count}: {said}")?;
    Ok(())
}
