//! What the servers of a world reply.
ghost use Rattle.std.specs.Prelude.{◌≡◌, ◌<◌, ◌++◌, ◌||◌, ℕ, List, Option, IfOk, IfSome, OnOk, Some, option_map};
ghost use Rattle.rdata.specs.Types.{type_number};
ghost use Rattle.message_grammar.specs.Messages.{Message};
ghost use Rattle.zone.specs.Look.{Linked};
ghost use Rattle.zone.specs.Views.{link_view};
ghost use Rattle.authority.specs.Catalogs.{looked, among};
ghost use Rattle.front.specs.declared.queries.Request.TheVariants as asked;
ghost use Rattle.worlds.specs.Rules.{has_name, serves_at, serves};
ghost use Rattle.worlds.specs.Hosting.{IsFollowed, host_header, referral_to, answer_to, IsReplyBy, IsSent, IsReplyFrom, IsHostReply, IsHonestReply};

use crate::world::{Host, World};
use authority::{Catalog, Local};
use dname::Name;
use front::{
    End, Query, Request, Start, Step, alias_target, echo_is_question, read_query, reading_is_one,
};
use limits::MAX_ALIASES;
use memory::{Heap, Starved};
use rdata::{Addr, RType, Records};
use std::alloc::Allocator;
use wire::{Draft, Header, TCP_LIMIT, Writer};
use zone::Link;

fn put_names<A: Heap>(names: &mut Vec<Name<A>, A>, more: &[Name<A>]) -> Result<(), Starved>
    ensures { OnOk result (names.new.items ≡ names.old.items ++ more.now) }
{
    for name in more {
        names.push(name.clone()?)?;
    }
    Ok(())
}

// The origins of one server more, where it has that address.
fn put_origins<A: Heap>(
    origins: &mut Vec<Name<A>, A>,
    host: &Host<A>,
    address: Addr,
) -> Result<(), Starved>
    ensures { OnOk result ((n : List (List ℕ)) → has_name n origins.new.items ≡ (has_name n origins.old.items || serves_at address.0 n host.now)) }
{
    if host.address.0 == address.0 {
        put_names(origins, &host.origins)?;
    }
    Ok(())
}

// The origins of the zones that are served at that address.
fn served_origins<A: Heap>(
    alloc: A,
    hosts: &[Host<A>],
    address: Addr,
) -> Result<Vec<Name<A>, A>, Starved>
    ensures { IfOk result (λ v. (n : List (List ℕ)) → has_name n v.items ≡ serves address.0 n hosts.now) }
{
    let mut origins = Vec::new(alloc);
    for host in hosts {
        put_origins(&mut origins, host, address)?;
    }
    Ok(origins)
}

// The aliases from a name with that link on, through the zones of those origins, and where they end: of a ninth nothing
// is said.
fn follow<A: Heap>(
    alloc: A,
    catalog: &Catalog<A>,
    origins: &[Name<A>],
    kind: RType,
    first: Link<A>,
) -> Result<(Records<A>, End<A>), Starved>
    ensures { (name : List (List ℕ)) → looked (among origins.now catalog.now) name (type_number kind) ≡ Linked (link_view first)
        → IfOk result (λ r. IsFollowed (λ n. looked (among origins.now catalog.now) n (type_number kind)) name r.0 r.1) }
{
    let mut aliases = Records::new(alloc);
    let mut found = Local::Link(first);
    'aliases: loop {
        match Step::of(alloc, found)? {
            Step::Ended(end) => return Ok((aliases, end)),
            Step::Onward(alias) => {
                if aliases.len() == MAX_ALIASES {
                    return Ok((aliases, End::Outside));
                }
                found = catalog.look_among(alloc, origins, alias_target(&alias), kind)?;
                aliases.push(alias)?;
            }
        }
    }
}

fn header(start: Start, aa: bool, rcode: u8) -> Header
    requires { rcode < 16 }
    ensures { result ≡ host_header start aa rcode }
{
    Header {
        aa,
        rcode,
        ..Header::reply(start.id(), start.opcode(), start.wants_recursion())
    }
}

fn referral<'a, A: Allocator>(
    query: &'a Query<A>,
    ns: &'a Records<A>,
    glue: &'a Records<A>,
) -> Draft<'a, A>
    ensures { result ≡ referral_to query.now ns.now glue.now }
{
    Draft {
        header: header(query.start, false, 0),
        questions: &[],
        echo: Some(&query.echo),
        first: &[],
        second: None,
        authority: ns.as_slice(),
        additional: glue.as_slice(),
    }
}

fn answer<'a, A: Allocator>(
    query: &'a Query<A>,
    aliases: &'a Records<A>,
    end: &'a End<A>,
) -> Draft<'a, A>
    ensures { result ≡ answer_to query.now aliases.now end.now }
{
    Draft {
        header: header(query.start, true, end.rcode()),
        questions: &[],
        echo: Some(&query.echo),
        first: aliases.as_slice(),
        second: end.found(),
        authority: end.denial(),
        additional: &[],
    }
}

// The bytes of a reply, where they are few enough.
fn sent<A: Heap>(alloc: A, reply: &Draft<'_, A>) -> Result<Option<Vec<u8, A>>, Starved>
    ensures { IfOk result (λ r. IsSent (Some reply.now) (option_map (λ v. v.items) r)) }
{
    reply.encode(&mut Writer::new(alloc)?, TCP_LIMIT)
}

// The bytes of a referral.
fn refer<A: Heap>(
    alloc: A,
    query: &Query<A>,
    ns: Records<A>,
    glue: Records<A>,
) -> Result<Option<Vec<u8, A>>, Starved>
    ensures { IfOk result (λ r. IsSent (Some (referral_to query.now ns glue)) (option_map (λ v. v.items) r)) }
{
    let given = sent(alloc, &referral(query, &ns, &glue));
    drop(ns);
    drop(glue);
    given
}

// The bytes of the aliases from that link on, and of where they end.
fn say<A: Heap>(
    alloc: A,
    catalog: &Catalog<A>,
    origins: &[Name<A>],
    query: &Query<A>,
    first: Link<A>,
) -> Result<Option<Vec<u8, A>>, Starved>
    ensures { looked (among origins.now catalog.now) query.now.name (type_number query.now.kind) ≡ Linked (link_view first)
        → IfOk result (λ r. (m : Option Message) × IsReplyBy (λ n. looked (among origins.now catalog.now) n (type_number query.now.kind)) query.now (Linked (link_view first)) m × IsSent m (option_map (λ v. v.items) r)) }
{
    let (aliases, end) = follow(alloc, catalog, origins, query.kind, first)?;
    let given = sent(alloc, &answer(query, &aliases, &end));
    drop(aliases);
    drop(end);
    given
}

// The reply of the zones of those origins.
fn reply_among<A: Heap>(
    alloc: A,
    catalog: &Catalog<A>,
    origins: &[Name<A>],
    query: &Query<A>,
) -> Result<Option<Vec<u8, A>>, Starved>
    ensures { IfOk result (λ r. (m : Option Message) × IsReplyBy (λ n. looked (among origins.now catalog.now) n (type_number query.now.kind)) query.now (looked (among origins.now catalog.now) query.now.name (type_number query.now.kind)) m × IsSent m (option_map (λ v. v.items) r)) }
{
    match catalog.look_among(alloc, origins, &query.name, query.kind)? {
        Local::NotHere => Ok(None),
        Local::Cut(_, ns, glue) => refer(alloc, query, ns, glue),
        Local::Link(first) => say(alloc, catalog, origins, query, first),
    }
}

// What the server replies to a query.
fn reply_to<A: Heap>(
    alloc: A,
    world: &World<A>,
    address: Addr,
    query: &Query<A>,
) -> Result<Option<Vec<u8, A>>, Starved>
    ensures { IfOk result (λ r. IsReplyFrom world.now address.0 (asked.Query query.now) (option_map (λ v. v.items) r)) }
{
    let served = served_origins(alloc, world.hosts(), address)?;
    let given = reply_among(alloc, world.catalog(), served.as_slice(), query);
    drop(served);
    given
}

/// What the server at an address of the world replies to a client's bytes (RFC 1034, section 4.3.2): nothing
/// to bytes that are no query of one question, class IN and a served type, where no zone that it serves is over
/// the name, and where the reply had over 65,535 bytes. At a zone cut a referral; else, with AA, the CNAME chain
/// through the zones that it serves, at most eight long, and what they say behind it: nothing of a ninth alias.
/// What is given is a reply to that question, and a message that the server may serve to it.
pub fn host_reply<A: Heap>(
    alloc: A,
    world: &World<A>,
    address: Addr,
    bytes: &[u8],
) -> Result<Option<Vec<u8, A>>, Starved>
    ensures is { IfOk result (λ r. IsHostReply A world.now address.0 bytes.now (option_map (λ v. v.items) r)) }
    ensures honest { IfOk result (λ r. IfSome r (λ v. IsHonestReply A world.now address.0 bytes.now v.items)) }
{
    world.well_formed_law();
    reading_is_one(alloc);
    echo_is_question(alloc);
    match read_query(alloc, bytes)? {
        Request::Query(query) => {
            let given = reply_to(alloc, world, address, &query);
            drop(query);
            given
        }
        Request::Drop | Request::Refuse(_, _, _) => Ok(None),
    }
}
