//! Steps of a resolver: of one with so many queries open, and of one that knows the answer.
use crate::answers::Known;
use crate::done::{Done, finish, low};
use anyhow::Result;
use engine::{Config, Core, Settings};
use events::{Action, Actions, Bytes, Endpoint, Event};
use memory::{Heap, Starved};
use rdata::Addr;
use std::fmt;
use std::rt::Runtime;
use std::time::Instant;
use typed::{TypedActions, TypedEvent, read_event};
use wire::{TCP_LIMIT, Via};
use zone::Zone;

/// A kind of step.
#[derive(Clone, Copy)]
pub enum OnSteps {
    /// A datagram of a server that was not asked, while so many queries are open: it is passed over.
    Pass(u16),
    /// A client's query and the datagram that answers it, two steps, so that so many queries are open between the two.
    Answer(u16),
    /// A client's query whose answer is known.
    Serve(Known),
    /// The same, read before and written after what is measured: for so long a server's loop holds the lock.
    Locked(Known),
}

impl fmt::Display for OnSteps {
    fn fmt<W: fmt::Write>(&self, f: &mut fmt::Formatter<W>) -> fmt::Result {
        match self {
            OnSteps::Pass(open) => write!(f, "datagram passed over among {open}"),
            OnSteps::Answer(open) => write!(f, "query answered among {open}"),
            OnSteps::Serve(known) => write!(f, "{known}"),
            OnSteps::Locked(known) => write!(f, "{known}, its step alone"),
        }
    }
}

// The server of the root.
const ROOT: Addr = Addr([192, 0, 2, 1]);

// A server's reply to the query behind its ID: an address that is not kept, its TTL being 0.
const REPLY: &[u8] =
    b"\x84\0\0\x01\0\x01\0\0\0\0\x03www\x07example\0\0\x01\0\x01\xc0\x0c\0\x01\0\x01\0\0\0\0\0\x04\xc0\0\x02\x09";

// A message of that ID and rest.
fn message<A: Heap>(alloc: A, id: &[u8], rest: &[u8]) -> Result<Bytes<A>, Starved> {
    let mut bytes = Vec::from_slice(alloc, id)?;
    bytes.extend_from_slice(rest)?;
    if bytes.len() > TCP_LIMIT {
        return Err(Starved);
    }
    Ok(Bytes::new(bytes))
}

/// A client's query for www.example. A with RD.
pub fn query<A: Heap>(alloc: A) -> Result<Event<A>, Starved> {
    let rest = b"\x01\0\0\x01\0\0\0\0\0\0\x03www\x07example\0\0\x01\0\x01";
    Ok(Event::Client {
        moment: 0,
        client: 1,
        way: Via::Udp,
        bytes: message(alloc, &[0, 5], rest)?,
    })
}

// A datagram that comes to a socket from a server: its ID, and the rest.
fn datagram<A: Heap>(
    alloc: A,
    (socket, id): Sent,
    from: Addr,
    rest: &[u8],
) -> Result<Event<A>, Starved> {
    Ok(Event::Datagram {
        moment: 0,
        socket,
        from: Endpoint {
            address: from,
            port: 53,
        },
        bytes: message(alloc, &id, rest)?,
    })
}

/// A resolver with these local zones.
pub fn core<A: Heap>(alloc: A, local: Vec<Zone<A>, A>) -> Result<Core<A>, Starved> {
    let config = Config {
        local,
        hints: Vec::from_slice(alloc, &[ROOT])?,
        settings: Settings {
            cache: 1_024,
            delegations: 1_024,
            penalties: 1_024,
            failures: 1_024,
            sockets: 16,
            port: 53,
            seed: [7; 32],
        },
    };
    Core::new(alloc, config).map_err(|_| Starved)
}

/// What came of a step: the size of a reply, in bytes, and 1 where nothing goes out.
pub fn weight<A: Heap>(actions: &Actions<A>) -> u64 {
    match &actions.first {
        Some(Action::Reply { bytes, .. }) => low(bytes.as_slice().len()),
        Some(_) => 0,
        None => 1,
    }
}

/// An event that comes so often.
pub fn step_all<A: Heap>(
    core: &mut Core<A>,
    event: &Event<A>,
    rounds: u64,
) -> Result<u64, Starved> {
    let mut sum = 0u64;
    for _ in 0..rounds {
        sum = sum.wrapping_add(weight(&core.step(event)?));
    }
    Ok(sum)
}

// A step as a server takes it: at once where the answer shows at once.
fn serve<A: Heap>(core: &mut Core<A>, event: &TypedEvent<A>) -> Result<TypedActions<A>, Starved> {
    match core.answer(event) {
        Some(actions) => actions,
        None => core.step_typed(event),
    }
}

/// An event that was read before, and comes so often: how many steps give an action.
pub fn step_all_read<A: Heap>(
    core: &mut Core<A>,
    event: &TypedEvent<A>,
    rounds: u64,
) -> Result<u64, Starved> {
    let mut sum = 0u64;
    for _ in 0..rounds {
        let actions = serve(core, event)?;
        sum = sum.wrapping_add(u64::from(actions.first.is_some()));
    }
    Ok(sum)
}

/// The same of an event whose bytes are read first.
pub fn read_and_step_all<A: Heap>(
    alloc: A,
    core: &mut Core<A>,
    event: &Event<A>,
    rounds: u64,
) -> Result<u64, Starved> {
    match read_event(alloc, event)? {
        Some(read) => step_all_read(core, &read, rounds),
        None => Err(Starved),
    }
}

// A datagram of a server that was not asked, so often.
fn pass_all<A: Heap>(alloc: A, core: &mut Core<A>, rounds: u64) -> Result<u64, Starved> {
    let foreign = datagram(alloc, (0, [0, 1]), Addr([192, 0, 2, 2]), REPLY)?;
    step_all(core, &foreign, rounds)
}

/// The socket of an ask that went out in a datagram, and its ID.
pub type Sent = (u16, [u8; 2]);

fn sent<A: Heap>(actions: &Actions<A>) -> Option<Sent> {
    let Some(Action::Send { socket, bytes, .. }) = &actions.first else {
        return None;
    };
    match bytes.as_slice() {
        [high, low, ..] => Some((*socket, [*high, *low])),
        _ => None,
    }
}

/// The ask that goes out for a client's query.
pub fn ask<A: Heap>(core: &mut Core<A>, query: &Event<A>) -> Result<Sent, Starved> {
    let actions = core.step(query)?;
    sent(&actions).ok_or(Starved)
}

/// What goes out for a server's reply to an ask.
pub fn tell<A: Heap>(
    alloc: A,
    core: &mut Core<A>,
    asked: Sent,
    rest: &[u8],
) -> Result<Actions<A>, Starved> {
    let reply = datagram(alloc, asked, ROOT, rest)?;
    let actions = core.step(&reply);
    drop(reply);
    actions
}

// Whether the reply to an ask brings the client's.
fn is_answered<A: Heap>(alloc: A, core: &mut Core<A>, asked: Sent) -> Result<bool, Starved> {
    let actions = tell(alloc, core, asked, REPLY)?;
    Ok(matches!(&actions.first, Some(Action::Reply { cause: None, .. })))
}

// How many of so many queries, one after another, are answered.
fn answer_all<A: Heap>(
    alloc: A,
    core: &mut Core<A>,
    query: &Event<A>,
    rounds: u64,
) -> Result<u64, Starved> {
    let mut sum = 0u64;
    for _ in 0..rounds {
        let asked = ask(core, query)?;
        sum = sum.wrapping_add(u64::from(is_answered(alloc, core, asked)?));
    }
    Ok(sum)
}

impl OnSteps {
    // What comes before: the query so often as makes the others open, or a reply that the cache keeps.
    fn begin<A: Heap>(
        self,
        alloc: A,
        core: &mut Core<A>,
        query: &Event<A>,
    ) -> Result<u64, Starved> {
        match self {
            OnSteps::Pass(open) => step_all(core, query, u64::from(open)),
            OnSteps::Answer(open) => step_all(core, query, u64::from(open.saturating_sub(1))),
            OnSteps::Serve(known) | OnSteps::Locked(known) => known.learn(alloc, core, query),
        }
    }

    // The local zones: none but for the answer that is known from one.
    fn zones<A: Heap>(self, alloc: A) -> Result<Vec<Zone<A>, A>, Starved> {
        match self {
            OnSteps::Serve(known) | OnSteps::Locked(known) => known.zones(alloc),
            OnSteps::Pass(_) | OnSteps::Answer(_) => Ok(Vec::new(alloc)),
        }
    }

    // Does it so often.
    fn times<A: Heap>(
        self,
        alloc: A,
        core: &mut Core<A>,
        query: &Event<A>,
        rounds: u64,
    ) -> Result<u64, Starved> {
        match self {
            OnSteps::Pass(_) => pass_all(alloc, core, rounds),
            OnSteps::Answer(_) => answer_all(alloc, core, query, rounds),
            OnSteps::Serve(_) => step_all(core, query, rounds),
            OnSteps::Locked(_) => read_and_step_all(alloc, core, query, rounds),
        }
    }

    /// Does it so often, and takes the time.
    pub fn run<R: Runtime + AllocGlobal>(self, rt: &R, rounds: u64) -> Result<Done> {
        let query = query(rt.alloc())?;
        let done = self.asked(rt, &query, rounds);
        drop(query);
        done
    }

    // The same, of a resolver that gets this query.
    fn asked<R: Runtime + AllocGlobal>(self, rt: &R, query: &Event, rounds: u64) -> Result<Done> {
        let mut core = core(rt.alloc(), self.zones(rt.alloc())?)?;
        let done = self.timed(rt, &mut core, query, rounds);
        drop(core);
        done
    }

    fn timed<R: Runtime + AllocGlobal>(
        self,
        rt: &R,
        core: &mut Core,
        query: &Event,
        rounds: u64,
    ) -> Result<Done> {
        self.begin(rt.alloc(), core, query)?;
        let start = Instant::now(rt);
        let sum = self.times(rt.alloc(), core, query, rounds);
        finish(rt, start, sum)
    }
}
