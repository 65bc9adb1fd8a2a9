//! Copies of typed events and actions: each is the same as what it was copied of, and as no other.
use crate::shared::set_of;
use causes::Cause;
use events::{Ask, Bytes, ClientQuery, Endpoint, Event, Path, read_asked};
use front::{End, Outcome, Request};
use memory::{Heap, Starved};
use rdata::{RType, Records};
use record_fixtures::{Row, Value, address, name, records};
use refusing_alloc::Refusing;
use std::alloc::{Allocator, Global};
use std::test::Fail;
use typed::{TypedAction, TypedActions, TypedEvent, read_event, refuse, reply_to, send};
use wire::{TCP_LIMIT, Via};

// An event, by its moment and the bytes that came; the client, the socket or the ask is always the same.
#[derive(Clone, Copy)]
enum Told {
    Client(u64, &'static [u8]),
    Datagram(u64, &'static [u8]),
    TcpReply(u64, &'static [u8]),
    TcpFailed(u64),
    Tick(u64),
}

// Names of over 30 bytes, which take a growth each.
const OWNER: &str = "www-with-a-name-that-takes-its-own-growth.example";

const HOST: &str = "web-with-a-name-that-takes-its-own-growth.example";

// That name's A of a client, under ID 5 with RD set.
const QUERY: &[u8] =
    b"\0\x05\x01\0\0\x01\0\0\0\0\0\0\x29www-with-a-name-that-takes-its-own-growth\x07example\0\0\x01\0\x01";

// The same in other letters.
const LETTERS: &[u8] =
    b"\0\x05\x01\0\0\x01\0\0\0\0\0\0\x29wWw-with-a-name-that-takes-its-own-growth\x07example\0\0\x01\0\x01";

// The same of class CH, which is refused.
const OTHER_CLASS: &[u8] =
    b"\0\x05\x01\0\0\x01\0\0\0\0\0\0\x29www-with-a-name-that-takes-its-own-growth\x07example\0\0\x01\0\x03";

// 192.0.2.1 and 192.0.2.2 for that name, with TTL 300.
const ANSWER: &[u8] =
    b"\x12\x34\x84\0\0\x01\0\x02\0\0\0\0\x29www-with-a-name-that-takes-its-own-growth\x07example\0\0\x01\0\x01\xc0\x0c\0\x01\0\x01\0\0\x01\x2c\0\x04\xc0\0\x02\x01\xc0\x0c\0\x01\0\x01\0\0\x01\x2c\0\x04\xc0\0\x02\x02";

// The same with 192.0.2.3 in place of the second.
const OTHER_ADDRESS: &[u8] =
    b"\x12\x34\x84\0\0\x01\0\x02\0\0\0\0\x29www-with-a-name-that-takes-its-own-growth\x07example\0\0\x01\0\x01\xc0\x0c\0\x01\0\x01\0\0\x01\x2c\0\x04\xc0\0\x02\x01\xc0\x0c\0\x01\0\x01\0\0\x01\x2c\0\x04\xc0\0\x02\x03";

// Both with TTL 60.
const OTHER_TTL: &[u8] =
    b"\x12\x34\x84\0\0\x01\0\x02\0\0\0\0\x29www-with-a-name-that-takes-its-own-growth\x07example\0\0\x01\0\x01\xc0\x0c\0\x01\0\x01\0\0\0\x3c\0\x04\xc0\0\x02\x01\xc0\x0c\0\x01\0\x01\0\0\0\x3c\0\x04\xc0\0\x02\x02";

// NXDOMAIN, with the SOA record of example.
const DENIAL: &[u8] =
    b"\x12\x34\x84\x03\0\x01\0\0\0\x01\0\0\x29www-with-a-name-that-takes-its-own-growth\x07example\0\0\x01\0\x01\xc0\x36\0\x06\0\x01\0\0\0\x3c\0\x16\0\0\0\0\0\x01\0\0\0\x02\0\0\0\x03\0\0\0\x04\0\0\0\x05";

// The referral to example., whose server ns.example. has 192.0.2.4.
const REFERRAL: &[u8] =
    b"\x12\x34\x80\0\0\x01\0\0\0\x01\0\x01\x29www-with-a-name-that-takes-its-own-growth\x07example\0\0\x01\0\x01\xc0\x36\0\x02\0\x01\0\0\x01\x2c\0\x05\x02ns\xc0\x36\xc0\x4f\0\x01\0\x01\0\0\x01\x2c\0\x04\xc0\0\x02\x04";

const EVENTS: &[(&str, Told)] = &[
    ("a query", Told::Client(5, QUERY)),
    ("the query a millisecond later", Told::Client(6, QUERY)),
    ("the query in other letters", Told::Client(5, LETTERS)),
    ("the query of another class", Told::Client(5, OTHER_CLASS)),
    ("no bytes of a client", Told::Client(5, b"")),
    ("an answer", Told::Datagram(5, ANSWER)),
    ("the answer a millisecond later", Told::Datagram(6, ANSWER)),
    ("another address", Told::Datagram(5, OTHER_ADDRESS)),
    ("another TTL", Told::Datagram(5, OTHER_TTL)),
    ("a denial", Told::Datagram(5, DENIAL)),
    ("a referral", Told::Datagram(5, REFERRAL)),
    ("the answer over TCP", Told::TcpReply(5, ANSWER)),
    ("no bytes over TCP", Told::TcpReply(5, b"")),
    ("TCP that failed", Told::TcpFailed(5)),
    ("a tick", Told::Tick(5)),
    ("the tick a millisecond later", Told::Tick(6)),
];

// Datagrams that reply to no question.
const NO_REPLIES: &[(&str, Told)] = &[
    ("no message", Told::Datagram(5, b"")),
    ("a query", Told::Datagram(5, QUERY)),
];

// These bytes as those of a message.
fn message_bytes<A: Heap>(alloc: A, bytes: &[u8]) -> Result<Bytes<A>, Starved> {
    if bytes.len() > TCP_LIMIT {
        return Err(Starved);
    }
    Ok(Bytes::new(Vec::from_slice(alloc, bytes)?))
}

fn event<A: Heap>(alloc: A, row: Told) -> Result<Event<A>, Starved> {
    Ok(match row {
        Told::Client(moment, bytes) => Event::Client {
            moment,
            client: 3,
            way: Via::Udp,
            bytes: message_bytes(alloc, bytes)?,
        },
        Told::Datagram(moment, bytes) => Event::Datagram {
            moment,
            socket: 7,
            from: Endpoint {
                address: address(1),
                port: 53,
            },
            bytes: message_bytes(alloc, bytes)?,
        },
        Told::TcpReply(moment, bytes) => Event::TcpReply {
            moment,
            number: 9,
            bytes: message_bytes(alloc, bytes)?,
        },
        Told::TcpFailed(moment) => Event::TcpFailed { moment, number: 9 },
        Told::Tick(moment) => Event::Tick { moment },
    })
}

fn typed_event<A: Heap>(alloc: A, row: Told) -> Result<Option<TypedEvent<A>>, Starved> {
    let event = event(alloc, row)?;
    let read = read_event(alloc, &event);
    drop(event);
    read
}

fn push_event<A: Heap>(
    events: &mut Vec<TypedEvent<A>, A>,
    alloc: A,
    row: Told,
) -> Result<(), Starved> {
    match typed_event(alloc, row)? {
        Some(event) => Ok(events.push(event)?),
        None => Ok(()),
    }
}

fn push_events<A: Heap>(events: &mut Vec<TypedEvent<A>, A>, alloc: A) -> Result<(), Starved> {
    for (_, row) in EVENTS {
        push_event(events, alloc, *row)?;
    }
    Ok(())
}

fn typed_events<A: Heap>(alloc: A) -> Result<Vec<TypedEvent<A>, A>, Starved> {
    let mut events = Vec::with_capacity(alloc, EVENTS.len())?;
    push_events(&mut events, alloc)?;
    Ok(events)
}

// A result of a step: what it gives, where it gives one, and whether another query is due.
#[derive(Clone, Copy)]
enum Gives {
    Nothing,
    Answer,
    NoName,
    Referral,
    Fail(Cause),
    Refuse(&'static [u8]),
    Ask(Path),
}

const ACTIONS: &[(&str, Gives, bool)] = &[
    ("nothing", Gives::Nothing, false),
    ("nothing, and more is due", Gives::Nothing, true),
    ("an answer", Gives::Answer, false),
    ("an answer, and more is due", Gives::Answer, true),
    ("a name error", Gives::NoName, false),
    ("a referral", Gives::Referral, false),
    ("a failure in time", Gives::Fail(Cause::DeadlineOver), false),
    (
        "a failure of aliases",
        Gives::Fail(Cause::ChainTooLong),
        false,
    ),
    ("a refused class", Gives::Refuse(OTHER_CLASS), false),
    (
        "a refused header",
        Gives::Refuse(b"\0\x05\x01\0\0\0\0\0\0\0\0\0"),
        false,
    ),
    ("an ask over UDP", Gives::Ask(Path::Udp(7)), false),
    (
        "an ask from another socket",
        Gives::Ask(Path::Udp(8)),
        false,
    ),
    ("an ask over TCP", Gives::Ask(Path::Tcp(7)), false),
];

const ALIAS: &[Row<'static>] = &[(OWNER, 300, Value::Cname(HOST))];

const ADDRESSES: &[Row<'static>] = &[(HOST, 300, Value::A(1)), (HOST, 300, Value::A(2))];

const DENIED: &[Row<'static>] = &[("example", 60, Value::Soa(60))];

const SERVERS: &[Row<'static>] = &[("example", 300, Value::Ns("ns.example"))];

const GLUE: &[Row<'static>] = &[("ns.example", 300, Value::A(4))];

fn found<A: Heap>(alloc: A) -> Result<End<A>, Starved> {
    let addresses = records(alloc, ADDRESSES)?;
    Ok(End::Found(set_of(alloc, addresses.as_slice())?))
}

fn answered<A: Heap>(alloc: A) -> Result<Outcome<A>, Starved> {
    let aliases = records(alloc, ALIAS)?;
    Ok(Outcome::Answer(true, aliases, found(alloc)?))
}

fn denied<A: Heap>(alloc: A) -> Result<Outcome<A>, Starved> {
    let soa = records(alloc, DENIED)?;
    Ok(Outcome::Answer(true, Records::new(alloc), End::NxDomain(soa)))
}

fn referred<A: Heap>(alloc: A) -> Result<Outcome<A>, Starved> {
    let servers = records(alloc, SERVERS)?;
    Ok(Outcome::Referral(servers, records(alloc, GLUE)?))
}

// Client 3 with the query of these bytes.
fn client_query<A: Heap>(alloc: A, bytes: &[u8]) -> Result<ClientQuery<A>, Starved> {
    match read_asked(alloc, bytes)? {
        Request::Query(query) => Ok(ClientQuery {
            client: 3,
            way: Via::Tcp,
            query,
        }),
        _ => Err(Starved),
    }
}

// The reply of that outcome to client 3.
fn reply<A: Heap>(alloc: A, outcome: Outcome<A>) -> Result<Option<TypedAction<A>>, Starved> {
    match client_query(alloc, QUERY) {
        Ok(client_query) => Ok(Some(reply_to(client_query, outcome))),
        Err(starved) => {
            drop(outcome);
            Err(starved)
        }
    }
}

// The refusal of those bytes of client 4.
fn refusal<A: Heap>(alloc: A, bytes: &[u8]) -> Result<Option<TypedAction<A>>, Starved> {
    match read_asked(alloc, bytes)? {
        Request::Refuse(why, start, echo) => Ok(Some(refuse(4, Via::Udp, why, start, echo))),
        _ => Err(Starved),
    }
}

// A of that name, asked of 192.0.2.1 on that path.
fn ask<A: Heap>(alloc: A, path: Path) -> Result<Option<TypedAction<A>>, Starved> {
    let ask = Ask {
        path,
        server: address(1),
        id: 4660,
        name: name(alloc, OWNER)?,
        kind: RType::A,
    };
    Ok(Some(send(alloc, 53, &ask)?))
}

fn given<A: Heap>(alloc: A, gives: Gives) -> Result<Option<TypedAction<A>>, Starved> {
    match gives {
        Gives::Nothing => Ok(None),
        Gives::Answer => reply(alloc, answered(alloc)?),
        Gives::NoName => reply(alloc, denied(alloc)?),
        Gives::Referral => reply(alloc, referred(alloc)?),
        Gives::Fail(cause) => reply(alloc, Outcome::Fail(cause)),
        Gives::Refuse(bytes) => refusal(alloc, bytes),
        Gives::Ask(path) => ask(alloc, path),
    }
}

fn push_action<A: Heap>(
    actions: &mut Vec<TypedActions<A>, A>,
    alloc: A,
    gives: Gives,
    more_due: bool,
) -> Result<(), Starved> {
    let first = given(alloc, gives)?;
    actions.push(TypedActions { first, more_due })?;
    Ok(())
}

fn push_actions<A: Heap>(actions: &mut Vec<TypedActions<A>, A>, alloc: A) -> Result<(), Starved> {
    for (_, gives, more_due) in ACTIONS {
        push_action(actions, alloc, *gives, *more_due)?;
    }
    Ok(())
}

fn typed_actions<A: Heap>(alloc: A) -> Result<Vec<TypedActions<A>, A>, Starved> {
    let mut actions = Vec::with_capacity(alloc, ACTIONS.len())?;
    push_actions(&mut actions, alloc)?;
    Ok(actions)
}

// What can be copied, and compared.
trait Copied: Sized {
    fn copy(&self) -> Result<Self, Starved>;

    fn is(&self, other: &Self) -> bool;
}

impl<A: Heap> Copied for TypedEvent<A> {
    fn copy(&self) -> Result<TypedEvent<A>, Starved> {
        self.copied()
    }

    fn is(&self, other: &TypedEvent<A>) -> bool {
        self.same(other)
    }
}

impl<A: Heap> Copied for TypedActions<A> {
    fn copy(&self) -> Result<TypedActions<A>, Starved> {
        self.copied()
    }

    fn is(&self, other: &TypedActions<A>) -> bool {
        self.same(other)
    }
}

// Whether the copy is the same as the row at that place, and as no other.
fn is_same_at<T: Copied>(rows: &[T], copy: &T, at: usize) -> bool {
    for (place, row) in rows.iter().enumerate() {
        if copy.is(row) != (place == at) {
            return false;
        }
    }
    true
}

// The place of the first row whose copy is the same as another row, or not the same as that row.
fn wrong_copy<T: Copied + Drop>(rows: &[T]) -> Result<Option<usize>, Starved> {
    for (place, row) in rows.iter().enumerate() {
        let copy = row.copy()?;
        if !is_same_at(rows, &copy, place) {
            return Ok(Some(place));
        }
    }
    Ok(None)
}

// The first growth whose refusal goes unsaid, or after which a copy is another one.
fn first_unsaid<T: Copied + Drop, B: Allocator>(
    heap: &Refusing<B>,
    rows: &[T],
    growths: u64,
) -> Option<u64> {
    for n in 0..growths {
        heap.refuse_after(n);
        if wrong_copy(rows).is_ok() || !matches!(wrong_copy(rows), Ok(None)) {
            return Some(n);
        }
    }
    None
}

// The row whose copy goes wrong, how many growths the copies take, and the first of these that is refused in vain.
type CopyReport<P> = (Option<P>, u64, Option<u64>);

// The same, with the row's place.
fn copies<T: Copied + Drop, B: Allocator>(
    heap: &Refusing<B>,
    rows: &[T],
) -> Result<CopyReport<usize>, Starved> {
    let before = heap.growths();
    let wrong = wrong_copy(rows)?;
    let growths = heap.growths().saturating_sub(before);
    Ok((wrong, growths, first_unsaid(heap, rows, growths)))
}

fn copies_of_events(heap: &Refusing<Global>) -> Result<CopyReport<&'static str>, Starved> {
    let events = typed_events(heap)?;
    let copies = copies(heap, &events);
    drop(events);
    let (wrong, growths, unsaid) = copies?;
    let row = match wrong {
        Some(place) => EVENTS.get(place),
        None => None,
    };
    Ok((row.map(|row| row.0), growths, unsaid))
}

fn copies_of_actions(heap: &Refusing<Global>) -> Result<CopyReport<&'static str>, Starved> {
    let actions = typed_actions(heap)?;
    let copies = copies(heap, &actions);
    drop(actions);
    let (wrong, growths, unsaid) = copies?;
    let row = match wrong {
        Some(place) => ACTIONS.get(place),
        None => None,
    };
    Ok((row.map(|row| row.0), growths, unsaid))
}

// The first of these rows that is read as an event, or the first that is not.
fn first_read<A: Heap>(
    alloc: A,
    rows: &[(&'static str, Told)],
    is_read: bool,
) -> Result<Option<&'static str>, Starved> {
    for (what, row) in rows {
        if typed_event(alloc, *row)?.is_some() == is_read {
            return Ok(Some(*what));
        }
    }
    Ok(None)
}

#[test]
fn datagrams_that_reply_to_no_question_are_no_events(rt: HostRuntime) -> Result<(), Fail> {
    assert_eq!(rt; first_read(rt.alloc(), NO_REPLIES, true)?, None);
    assert_eq!(rt; first_read(rt.alloc(), EVENTS, false)?, None);
    Ok(())
}

fn is_read<A: Heap>(alloc: A, event: &Event<A>) -> Result<bool, Starved> {
    match read_event(alloc, event)? {
        Some(read) => {
            drop(read);
            Ok(true)
        }
        None => Ok(false),
    }
}

// The first growth of reading an event whose refusal goes unsaid.
fn first_unread_of<'a, B: Allocator>(
    heap: &'a Refusing<B>,
    event: &Event<&'a Refusing<B>>,
) -> Result<Option<u64>, Starved> {
    let before = heap.growths();
    is_read(heap, event)?;
    let growths = heap.growths().saturating_sub(before);
    for n in 0..growths {
        heap.refuse_after(n);
        if is_read(heap, event).is_ok() {
            return Ok(Some(n));
        }
    }
    Ok(None)
}

fn first_unread<B: Allocator>(heap: &Refusing<B>, row: Told) -> Result<Option<u64>, Starved> {
    let event = event(heap, row)?;
    let first = first_unread_of(heap, &event);
    drop(event);
    first
}

// The first row, and the first growth of reading it, whose refusal goes unsaid.
fn first_unread_row<B: Allocator>(
    heap: &Refusing<B>,
) -> Result<Option<(&'static str, u64)>, Starved> {
    for (what, row) in EVENTS {
        if let Some(n) = first_unread(heap, *row)? {
            return Ok(Some((*what, n)));
        }
    }
    Ok(None)
}

#[test]
fn each_growth_of_reading_is_refused_in_turn(rt: HostRuntime) -> Result<(), Fail> {
    let heap = Refusing::new(rt.alloc());
    assert_eq!(rt; first_unread_row(&heap)?, None);
    Ok(())
}

#[test]
fn copies_of_events_are_the_same(rt: HostRuntime) -> Result<(), Fail> {
    let heap = Refusing::new(rt.alloc());
    // None for a query and for the question that is refused, which are shared. Two for each answer, whose data are
    // shared; two for the denial and three for the referral, whose other names are short. And one more for each of
    // these readings, as it lies in memory of its own.
    assert_eq!(rt; copies_of_events(&heap)?, (None, 22, None));
    Ok(())
}

#[test]
fn copies_of_actions_are_the_same(rt: HostRuntime) -> Result<(), Fail> {
    let heap = Refusing::new(rt.alloc());
    // None for a query and for the question that is refused, which are shared; four for each answer, whose data are
    // shared; two for the denial and two for the referral, whose names are short; one for each ask.
    assert_eq!(rt; copies_of_actions(&heap)?, (None, 15, None));
    Ok(())
}
