//! Rows about the cache: `cache ROOM`, `keep NAME TYPE TTL AT KIND : RECORDS`, `look NAME TYPE AT [TOP]`, and
//! `send NAME FOUND SENT`, a hit for type A that is found at one moment and sent at another.
use crate::row::{Row, hasher, made};
use crate::shown::put_link;
use cache::{Cache, Hit};
use lru::DefaultHasher;
use rdata::RType;
use std::alloc::Global;
use text_lines::{LineKind, name};
use zone::Link;

/// A cache, once a row has made one.
#[derive(Drop)]
pub struct Links {
    cache: Option<Cache<DefaultHasher>>,
}

fn word(link: &Link) -> &'static str {
    match link {
        Link::Found(set) => if set.len() == 1 { "set of one" } else { "set" },
        Link::Alias(_) => "alias",
        Link::NoData(_) => "no data",
        Link::NxDomain(_) => "name error",
    }
}

fn put_hit(out: &mut String, hit: &Hit, now: u64) -> Result<(), LineKind> {
    let word = word(&hit.link);
    let Hit { ttl, since, .. } = hit;
    let left = hit.left(now);
    writeln!(out, "{word} for {ttl} s since {since} ms, {left} s left")?;
    Ok(())
}

fn put_look(out: &mut String, hit: &Option<Hit>, now: u64) -> Result<(), LineKind> {
    match hit {
        Some(hit) => put_hit(out, hit, now),
        None => Ok(out.push_str("nothing\n")?),
    }
}

fn put_sent(row: &Row<'_>, out: &mut String, hit: Hit, sent: u64) -> Result<(), LineKind> {
    let lives = hit.is_live(sent);
    let link = hit.into_link(sent);
    let put = put_link(out, row.alloc, &link);
    drop(link);
    put?;
    out.push_str(if lives { "lives\n" } else { "is over\n" })?;
    Ok(())
}

impl Links {
    /// No cache.
    pub fn new() -> Links {
        Links { cache: None }
    }

    /// What comes of a row.
    pub fn perform(&mut self, row: &mut Row<'_>, out: &mut String) -> Result<(), LineKind> {
        match row.command {
            "cache" => self.begin(row),
            "keep" => self.keep(row),
            "look" => self.look(row, out),
            _ => self.send(row, out),
        }
    }

    fn begin(&mut self, row: &mut Row<'_>) -> Result<(), LineKind> {
        let room = row.room()?;
        self.cache = Some(Cache::new(row.alloc, room, hasher())?);
        Ok(())
    }

    fn keep(&mut self, row: &mut Row<'_>) -> Result<(), LineKind> {
        let text = row.word()?;
        let kind = row.rtype()?;
        let ttl = row.seconds()?;
        let now = row.number()?;
        let link = row.link()?;
        let kept = self.keep_link(row.alloc, text, kind, &link, ttl, now);
        drop(link);
        kept
    }

    fn keep_link(
        &mut self,
        alloc: Global,
        text: &str,
        kind: RType,
        link: &Link,
        ttl: u32,
        now: u64,
    ) -> Result<(), LineKind> {
        let cache = made(&mut self.cache)?;
        let owner = name(alloc, text)?;
        let kept = cache.keep(&owner, kind, link, ttl, now);
        drop(owner);
        Ok(kept?)
    }

    fn hit(
        &mut self,
        row: &Row<'_>,
        text: &str,
        kind: RType,
        top: &str,
        now: u64,
    ) -> Result<Option<Hit>, LineKind> {
        let cache = made(&mut self.cache)?;
        let owner = name(row.alloc, text)?;
        let top = name(row.alloc, top)?;
        Ok(cache.look(&owner, kind, &top, now)?)
    }

    fn look(&mut self, row: &mut Row<'_>, out: &mut String) -> Result<(), LineKind> {
        let text = row.word()?;
        let kind = row.rtype()?;
        let now = row.number()?;
        let top = row.next_word().unwrap_or(".");
        let hit = self.hit(row, text, kind, top, now)?;
        let put = put_look(out, &hit, now);
        drop(hit);
        put
    }

    fn send(&mut self, row: &mut Row<'_>, out: &mut String) -> Result<(), LineKind> {
        let text = row.word()?;
        let found = row.number()?;
        let sent = row.number()?;
        match self.hit(row, text, RType::A, ".", found)? {
            Some(hit) => put_sent(row, out, hit, sent),
            None => Ok(out.push_str("nothing\n")?),
        }
    }
}
