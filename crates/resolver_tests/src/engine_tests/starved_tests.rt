//! Two clients wait, another one was answered, and an event for one of the two wants memory: what it leaves.
use crate::engine_tests::fixtures::end;
use engine_fixture::{Ask, Out, TestResolver, under};
use events::{Event, Path};
use memory::{Heap, Starved};
use rdata::Addr;
use refusing_alloc::Refusing;
use std::test::Fail;

// What comes for client 3, who asks at 0 for an address of a name of 51 bytes, which takes a growth of its own: its
// query itself (at that event's own moment), the reply to its ask by either way, the failure of its ask over TCP, and
// the end of its wait.
#[derive(Clone, Copy)]
enum Kind {
    Query,
    Told,
    ToldOverTcp,
    LostOverTcp,
    Late,
}

// Client 3's query, under ID 5 with RD set.
const QUERY: &[u8] =
    b"\0\x05\x01\0\0\x01\0\0\0\0\0\0\x29www-with-a-name-that-takes-its-own-growth\x07example\0\0\x01\0\x01";

// The server's replies behind the ID: truncated, and with an address of that name.
const CUT: &[u8] =
    b"\x86\0\0\x01\0\0\0\0\0\0\x29www-with-a-name-that-takes-its-own-growth\x07example\0\0\x01\0\x01";

const FOUND: &[u8] =
    b"\x84\0\0\x01\0\x01\0\0\0\0\x29www-with-a-name-that-takes-its-own-growth\x07example\0\0\x01\0\x01\xc0\x0c\0\x01\0\x01\0\0\0\x3c\0\x04\xc0\0\x02\x09";

// What client 4 asks at 500, the server's reply behind the ID, and what the client gets: an address of mail.example.
const OTHERS: &[u8] = b"\0\x06\x01\0\0\x01\0\0\0\0\0\0\x04mail\x07example\0\0\x01\0\x01";

const OTHERS_FOUND: &[u8] =
    b"\x84\0\0\x01\0\x01\0\0\0\0\x04mail\x07example\0\0\x01\0\x01\xc0\x0c\0\x01\0\x01\0\0\0\x3c\0\x04\xc0\0\x02\x08";

const OTHERS_REPLY: &[u8] =
    b"\0\x06\x81\x80\0\x01\0\x01\0\0\0\0\x04mail\x07example\0\0\x01\0\x01\xc0\x0c\0\x01\0\x01\0\0\0\x3c\0\x04\xc0\0\x02\x08";

// What client 5 asked before the others, and asks again at 1,000; the server's reply behind the ID; and what the client
// gets then: an address of known.example, for 60 seconds, of which one is over.
const KNOWN: &[u8] = b"\0\x07\x01\0\0\x01\0\0\0\0\0\0\x05known\x07example\0\0\x01\0\x01";

const KNOWN_FOUND: &[u8] =
    b"\x84\0\0\x01\0\x01\0\0\0\0\x05known\x07example\0\0\x01\0\x01\xc0\x0c\0\x01\0\x01\0\0\0\x3c\0\x04\xc0\0\x02\x07";

const KNOWN_REPLY: &[u8] =
    b"\0\x07\x81\x80\0\x01\0\x01\0\0\0\0\x05known\x07example\0\0\x01\0\x01\xc0\x0c\0\x01\0\x01\0\0\0\x3b\0\x04\xc0\0\x02\x07";

// What happens after the event for client 3.
#[derive(Clone, Copy)]
enum Act {
    // A late reply comes to the client's ask.
    Late,
    // One comes to the ask that would have gone out by the event.
    LateForNext,
    // The reply to client 4's ask comes.
    Other,
    // Client 5 asks once more for what it was told.
    Known,
    // Time has come to that moment.
    Tick(u64),
}

// The moment of an event, and what comes of acts after it.
type Sequel = (u64, &'static [(Act, Out)]);

const SEQUELS: &[Sequel] = &[
    (
        1_000,
        &[
            (Act::Late, Out::Nothing),
            (Act::LateForNext, Out::Nothing),
            (Act::Other, Out::Replied),
            (Act::Known, Out::Replied),
        ],
    ),
    // Client 4's ask went at 500, and waits for 1,000 milliseconds, then for 2,000.
    (
        1_000,
        &[
            (Act::Tick(1_499), Out::Nothing),
            (Act::Tick(1_500), Out::Asked(1)),
            (Act::Tick(3_499), Out::Nothing),
            (Act::Tick(3_500), Out::Failed(5)),
        ],
    ),
    // The event came as that wait was over: an earlier moment counts as the event's.
    (1_500, &[(Act::Tick(0), Out::Asked(1))]),
];

// Two clients wait at the resolver, by these asks.
#[derive(Drop)]
struct Scene<A: Heap> {
    resolver: TestResolver<A>,
    mine: Ask,
    others: Ask,
}

// A reply to an ask, by its bytes behind the ID.
fn told<A: Heap>(alloc: A, ask: Ask, moment: u64, rest: &[u8]) -> Result<Event<A>, Starved> {
    Ok(ask.told(moment, under(alloc, ask.id, rest)?))
}

fn is_over_tcp(kind: Kind) -> bool {
    matches!(kind, Kind::ToldOverTcp | Kind::LostOverTcp)
}

// A client asks at that moment.
fn ask<A: Heap>(resolver: &mut TestResolver<A>, client: u64, moment: u64, bytes: &[u8]) -> Ask {
    let query = resolver.query(client, moment, bytes);
    resolver.take(query);
    resolver.ask()
}

// The reply to the last ask comes truncated.
fn cut<A: Heap>(resolver: &mut TestResolver<A>) -> Ask {
    let cut = told(resolver.heap(), resolver.ask(), 0, CUT);
    resolver.take(cut);
    resolver.ask()
}

// Client 3 asks, and over TCP where it is to be so.
fn begin<A: Heap>(resolver: &mut TestResolver<A>, kind: Kind) -> Ask {
    if matches!(kind, Kind::Query) {
        return resolver.ask();
    }
    let asked = ask(resolver, 3, 0, QUERY);
    if is_over_tcp(kind) {
        cut(resolver)
    } else {
        asked
    }
}

// Client 5 asks, and is told.
fn remember<A: Heap>(resolver: &mut TestResolver<A>) {
    let asked = ask(resolver, 5, 0, KNOWN);
    let found = told(resolver.heap(), asked, 0, KNOWN_FOUND);
    resolver.take(found);
}

// What client 5 asked for is known, and both other clients have asked.
fn set_scene<A: Heap>(alloc: A, kind: Kind) -> Result<Scene<A>, Starved> {
    let mut resolver = TestResolver::new(alloc, Addr([192, 0, 2, 1]))?;
    remember(&mut resolver);
    let mine = begin(&mut resolver, kind);
    let others = ask(&mut resolver, 4, 500, OTHERS);
    Ok(Scene {
        resolver,
        mine,
        others,
    })
}

impl<A: Heap> Scene<A> {
    // It is done with.
    fn end(self) {
        let Scene {
            resolver,
            mine: _,
            others: _,
        } = self;
        end(resolver);
    }

    // Whether client 3's ask went the way that it had to.
    fn is_set(&self, kind: Kind) -> bool {
        matches!(self.mine.path, Path::Tcp(_)) == is_over_tcp(kind)
    }

    // The reply with an address to client 3's ask, or to another one.
    fn found(&self, ask: Ask, moment: u64) -> Result<Event<A>, Starved> {
        told(self.resolver.heap(), ask, moment, FOUND)
    }

    // The event for client 3 at that moment.
    fn event(&self, kind: Kind, moment: u64) -> Result<Event<A>, Starved> {
        match kind {
            Kind::Query => self.resolver.query(3, moment, QUERY),
            Kind::Told | Kind::ToldOverTcp => self.found(self.mine, moment),
            Kind::LostOverTcp | Kind::Late => Ok(self.mine.lost(moment)),
        }
    }

    // The event that is an act. `next` is the ask that goes out by the event for client 3 where memory is not refused.
    fn event_of(&self, act: Act, next: Ask) -> Result<Event<A>, Starved> {
        match act {
            Act::Late => self.found(self.mine, 1_000),
            Act::LateForNext => self.found(next, 1_000),
            Act::Other => told(self.resolver.heap(), self.others, 1_000, OTHERS_FOUND),
            Act::Known => self.resolver.query(5, 1_000, KNOWN),
            Act::Tick(moment) => Ok(Event::Tick { moment }),
        }
    }

    // Whether the client that is owed a whole reply at an act was sent it.
    fn is_paid(&self, act: Act) -> bool {
        match act {
            Act::Other => self.resolver.has_sent(4, OTHERS_REPLY),
            Act::Known => self.resolver.has_sent(5, KNOWN_REPLY),
            _ => true,
        }
    }

    // What comes of an act; something else where a client is not sent the whole reply that it is owed.
    fn perform(&mut self, act: Act, next: Ask) -> Out {
        let event = self.event_of(act, next);
        let out = self.resolver.take(event);
        if self.is_paid(act) { out } else { Out::Other }
    }

    // Whether all comes of these acts as it has to.
    fn goes_on(&mut self, acts: &[(Act, Out)], next: Ask) -> bool {
        for (act, out) in acts {
            if self.perform(*act, next) != *out {
                return false;
            }
        }
        true
    }
}

// How many growths the step takes, and the ask that goes out by it if none is refused. None count where client 3's ask
// went another way.
fn growths<A: Heap>(alloc: A, kind: Kind) -> Result<(u64, Ask), Starved> {
    let heap = Refusing::new(alloc);
    let mut scene = set_scene(&heap, kind)?;
    let is_set = scene.is_set(kind);
    let event = scene.event(kind, 1_000);
    let before = heap.growths();
    scene.resolver.take(event);
    let growths = heap.growths().saturating_sub(before);
    let next = scene.resolver.ask();
    scene.end();
    Ok((if is_set { growths } else { 0 }, next))
}

// What comes of the step at the moment of a sequel where one of its growths is refused, and whether all goes on as it
// has to then.
fn without<A: Heap>(
    alloc: A,
    kind: Kind,
    growth: u64,
    next: Ask,
    sequel: Sequel,
) -> Result<(Out, bool), Starved> {
    let heap = Refusing::new(alloc);
    let mut scene = set_scene(&heap, kind)?;
    let event = scene.event(kind, sequel.0);
    heap.refuse_after(growth);
    let out = scene.resolver.take(event);
    let goes_on = scene.goes_on(sequel.1, next);
    scene.end();
    Ok((out, goes_on))
}

// Client 3's query is gone; client 4's ask stands, and is due when it was; what was known is known; the clock is at the
// event's moment.
fn leaves_the_rest<A: Heap>(alloc: A, kind: Kind, growth: u64, next: Ask) -> Result<bool, Starved> {
    for sequel in SEQUELS {
        if without(alloc, kind, growth, next, *sequel)? != (Out::Starved, true) {
            return Ok(false);
        }
    }
    Ok(true)
}

// The first growth that leaves something else when it is refused. A step of no more than so many growths shows too
// little, and counts as wrong at the last of them.
fn wrong_growth<A: Heap>(alloc: A, kind: Kind, least: u64) -> Result<Option<u64>, Starved> {
    let (growths, next) = growths(alloc, kind)?;
    if growths <= least {
        return Ok(Some(growths));
    }
    for growth in 0..growths {
        if !leaves_the_rest(alloc, kind, growth, next)? {
            return Ok(Some(growth));
        }
    }
    Ok(None)
}

// An event, and how many growths its step takes more than.
type Row = (&'static str, Kind, u64);

// The first of these events that goes wrong, and the growth.
fn first_wrong<A: Heap>(alloc: A, rows: &[Row]) -> Result<Option<(&'static str, u64)>, Starved> {
    for (what, kind, least) in rows {
        if let Some(growth) = wrong_growth(alloc, *kind, *least)? {
            return Ok(Some((*what, growth)));
        }
    }
    Ok(None)
}

const ROWS: &[Row] = &[
    ("a query", Kind::Query, 4),
    ("a reply", Kind::Told, 4),
    ("a reply over TCP", Kind::ToldOverTcp, 4),
    ("an ask over TCP that failed", Kind::LostOverTcp, 1),
    ("the end of a wait", Kind::Late, 1),
];

#[test]
fn an_event_that_wants_memory_leaves_the_rest(rt: HostRuntime) -> Result<(), Fail> {
    assert_eq!(rt; first_wrong(rt.alloc(), ROWS)?, None);
    Ok(())
}
