//! The dearest single steps of a resolver that strangers can bring about, each built in memory.
//!
//! The time of a step is the shortest of five, beside that of a reference loop in the same minute, so that a slow
//! machine is no fault: 3 milliseconds where 10,000 replies of 45 bytes are decoded in two.
mod bytes;
mod sets;
mod talk;
mod trees;

use crate::done::finish;
use crate::hostile::bytes::{A_TYPE, NS_TYPE, TXT_TYPE, query};
use crate::hostile::talk::{Says, Talk, from_client};
use crate::hostile::trees::{ADDRESSES, SERVERS};
use crate::messages::OnMessages;
use crate::work::Work;
use anyhow::{Result, ensure};
use events::{Action, Actions, Event};
use memory::{Heap, Starved};
use std::alloc::Global;
use std::fmt;
use std::rt::Runtime;
use std::time::Instant;
use wire::Via;

/// A step that is dear.
#[derive(Clone, Copy)]
pub enum Hostile {
    /// A query beneath 274 delegations without glue, the sixteen servers of each named in others.
    Tree,
    /// A referral of 3,600 servers over TCP.
    Referral,
    /// 64 look-ups of servers' names, which find 4,000 addresses each.
    Addresses,
    /// An answer of 4,000 addresses over TCP.
    Accept,
    /// A cached answer of 4,300 names of servers.
    Names,
    /// A cached answer of 3,200 names of servers, all of one size and with one end.
    Twins,
    /// A cached TXT record of 32,000 strings.
    Strings,
    /// A client's query of 65 kB, which has 4,800 records.
    Query,
    /// 64 look-ups of servers' names of 127 labels, in full stores, for a name of as many.
    Labels,
    /// A tick at which 1,024 queries are due.
    Due,
}

/// All of them.
pub const ALL: [Hostile; 10] = [
    Hostile::Tree,
    Hostile::Referral,
    Hostile::Addresses,
    Hostile::Accept,
    Hostile::Names,
    Hostile::Twins,
    Hostile::Strings,
    Hostile::Query,
    Hostile::Labels,
    Hostile::Due,
];

impl fmt::Display for Hostile {
    fn fmt<W: fmt::Write>(&self, f: &mut fmt::Formatter<W>) -> fmt::Result {
        f.write_str(match self {
            Hostile::Tree => "query beneath 274 delegations without glue",
            Hostile::Referral => "referral of 3,600 servers",
            Hostile::Addresses => "64 look-ups that find 4,000 addresses each",
            Hostile::Accept => "answer of 4,000 addresses accepted",
            Hostile::Names => "cached answer of 4,300 servers' names",
            Hostile::Twins => "cached answer of 3,200 servers' names of one size",
            Hostile::Strings => "cached TXT of 32,000 strings",
            Hostile::Query => "query of 65 kB with 4,800 records",
            Hostile::Labels => "64 look-ups of names of 127 labels in full stores",
            Hostile::Due => "tick with 1,024 queries due",
        })
    }
}

// What a step may take at most, in percent of the reference loop's time.
const MOST: u128 = 150;

// A client's query over UDP.
fn asked<A: Heap>(alloc: A, name: &str, kind: u16) -> Result<Event<A>, Starved> {
    Ok(from_client(Via::Udp, query(alloc, name, kind, (0, &[]))?))
}

// So many queries wait for the root's server.
fn open_all<A: Heap>(talk: &mut Talk<A>) -> Result<(), Starved> {
    for n in 0..1_024 {
        let mut name = String::new(talk.heap());
        write!(name, "q{n}")?;
        talk.ask(name.as_str(), A_TYPE)?;
    }
    Ok(())
}

// A query for a name of its own, for which the root's server is asked over TCP.
fn begin_by_tcp<A: Heap>(talk: &mut Talk<A>, round: u8) -> Result<(), Starved> {
    let mut name = String::new(talk.heap());
    write!(name, "x.r{round}")?;
    talk.ask(name.as_str(), A_TYPE)?;
    talk.tell(Says::truncated())
}

fn large_referral<A: Heap>(talk: &mut Talk<A>, round: u8) -> Result<Event<A>, Starved> {
    begin_by_tcp(talk, round)?;
    let records = trees::many_servers(talk)?;
    talk.told(Says::referral(SERVERS, &records))
}

fn large_answer<A: Heap>(talk: &mut Talk<A>, round: u8) -> Result<Event<A>, Starved> {
    begin_by_tcp(talk, round)?;
    let records = trees::many_addresses(talk.heap())?;
    talk.told(Says::answer(ADDRESSES, &records))
}

// A name of 127 labels at the zone e, beneath none of the long names that are kept.
fn long_query<A: Heap>(alloc: A) -> Result<Event<A>, Starved> {
    let mut name = String::new(alloc);
    for _ in 0..126 {
        name.push_str("b.")?;
    }
    name.push('e')?;
    asked(alloc, name.as_str(), A_TYPE)
}

impl Hostile {
    // What the resolver learns before.
    fn begin<A: Heap>(self, talk: &mut Talk<A>) -> Result<(), Starved> {
        match self {
            Hostile::Tree => trees::learn_tree(talk),
            Hostile::Addresses => trees::learn_many_addresses(talk),
            Hostile::Names => sets::learn_root_servers(talk),
            Hostile::Twins => sets::learn_twins(talk),
            Hostile::Strings => sets::learn_strings(talk),
            Hostile::Labels => trees::learn_long_names(talk),
            Hostile::Due => open_all(talk),
            Hostile::Referral | Hostile::Accept | Hostile::Query => Ok(()),
        }
    }

    // The event whose step is dear. What stands in its way in this round comes before.
    fn event<A: Heap>(self, talk: &mut Talk<A>, round: u8) -> Result<Event<A>, Starved> {
        let alloc = talk.heap();
        match self {
            Hostile::Tree => asked(alloc, "x.a", A_TYPE),
            Hostile::Addresses => asked(alloc, "x.e", A_TYPE),
            Hostile::Labels => long_query(alloc),
            Hostile::Strings => asked(alloc, "t", TXT_TYPE),
            Hostile::Names | Hostile::Twins => {
                Ok(from_client(Via::Tcp, query(alloc, "", NS_TYPE, (0, &[]))?))
            }
            Hostile::Query => Ok(from_client(Via::Tcp, sets::large_query(alloc)?)),
            Hostile::Referral => large_referral(talk, round),
            Hostile::Accept => large_answer(talk, round),
            Hostile::Due => Ok(Event::Tick { moment: 1_000 }),
        }
    }

    // The resolver before the step.
    fn begun<A: Heap>(self, alloc: A) -> Result<Talk<A>, Starved> {
        let mut talk = Talk::new(alloc)?;
        self.begin(&mut talk)?;
        Ok(talk)
    }

    // The shortest of five steps, in nanoseconds.
    fn shortest<R: Runtime + AllocGlobal>(self, rt: &R) -> Result<u128> {
        let mut talk = self.begun(rt.alloc())?;
        let mut shortest = u128::MAX;
        for round in 0..5u8 {
            let event = self.event(&mut talk, round)?;
            shortest = shortest.min(timed(rt, &mut talk, &event)?);
        }
        Ok(shortest)
    }

    // Prints the time of the step, and gives it in percent of the reference loop's.
    fn measure<R: Runtime + AllocGlobal>(self, rt: &R) -> Result<u128> {
        let reference = reference(rt)?.max(1);
        let taken = self.shortest(rt)?;
        let percent = taken.saturating_mul(100) / reference;
        println!(rt; "{self}: {taken} ns, {percent} % of the reference loop")?;
        Ok(percent)
    }

    // What comes of the step.
    fn outcome(self, alloc: Global) -> Result<String, Starved> {
        let mut talk = self.begun(alloc)?;
        let event = self.event(&mut talk, 0)?;
        let actions = talk.core().step(&event)?;
        said(alloc, &actions)
    }
}

fn timed<R: Runtime + AllocGlobal>(
    rt: &R,
    talk: &mut Talk<Global>,
    event: &Event<Global>,
) -> Result<u128> {
    let start = Instant::now(rt);
    let actions = talk.core().step(event);
    let done = finish(rt, start, Ok(0));
    drop(actions);
    Ok(done?.taken.as_nanos())
}

// The shortest of five times of the reference loop, in nanoseconds: two milliseconds on a quiet machine.
fn reference<R: Runtime + AllocGlobal>(rt: &R) -> Result<u128> {
    let mut shortest = u128::MAX;
    for _ in 0..5 {
        let done = Work::Messages(OnMessages::Decode(1)).run(rt, 10_000)?;
        shortest = shortest.min(done.taken.as_nanos());
    }
    Ok(shortest)
}

fn said(alloc: Global, actions: &Actions<Global>) -> Result<String, Starved> {
    let mut said = String::new(alloc);
    match &actions.first {
        Some(Action::Reply { bytes, cause, .. }) => {
            write!(said, "reply of {} bytes", bytes.as_slice().len())?;
            if let Some(cause) = cause {
                write!(said, ", cause {}", cause.number())?;
            }
        }
        Some(Action::Send { to, .. }) => write!(said, "ask of {} over UDP", to.address)?,
        Some(Action::TcpAsk { to, .. }) => write!(said, "ask of {} over TCP", to.address)?,
        None => said.push_str("nothing")?,
    }
    if actions.more_due {
        said.push_str(", and more is due")?;
    }
    Ok(said)
}

/// Prints what comes of each.
pub fn sample<R: Runtime + AllocGlobal>(rt: &R) -> Result<()> {
    for step in ALL {
        let outcome = step.outcome(rt.alloc())?;
        println!(rt; "{step}: {outcome}")?;
    }
    Ok(())
}

/// Prints how long each takes, and refuses where one takes over 150 % of the reference loop.
pub fn measure<R: Runtime + AllocGlobal>(rt: &R) -> Result<()> {
    let mut dearest = 0u128;
    for step in ALL {
        dearest = dearest.max(step.measure(rt)?);
    }
    ensure!(
        dearest <= MOST,
        "a step takes {dearest} % of the reference loop, over {MOST}"
    );
    Ok(())
}
