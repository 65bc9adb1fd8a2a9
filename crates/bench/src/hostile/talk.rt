//! A resolver, and what it asked last.
use crate::hostile::bytes::{A_TYPE, bounded, put_ns, query};
use crate::steps::core;
use engine::Core;
use events::{Action, Actions, Bytes, Endpoint, Event, Path};
use memory::{Heap, Starved};
use wire::Via;

/// What a server says: the third and fourth byte of the header, how many records stand in the answer and in the
/// authority section, and the records.
#[derive(Clone, Copy)]
pub struct Says<'r> {
    flags: [u8; 2],
    answers: u16,
    authority: u16,
    records: &'r [u8],
}

impl<'r> Says<'r> {
    /// A reply that is truncated.
    pub fn truncated() -> Says<'r> {
        Says::of([0x82, 0], 0, 0, &[])
    }

    /// That it fails to answer (RFC 1035, section 4.1.1: RCODE 2).
    pub fn failure() -> Says<'r> {
        Says::of([0x80, 2], 0, 0, &[])
    }

    /// An answer of so many records.
    pub fn answer(count: u16, records: &'r [u8]) -> Says<'r> {
        Says::of([0x84, 0], count, 0, records)
    }

    /// A referral of so many records.
    pub fn referral(count: u16, records: &'r [u8]) -> Says<'r> {
        Says::of([0x80, 0], 0, count, records)
    }

    /// That the name does not exist, with the SOA that is given.
    pub fn name_error(soa: &'r [u8]) -> Says<'r> {
        Says::of([0x84, 3], 0, 1, soa)
    }

    fn of(flags: [u8; 2], answers: u16, authority: u16, records: &'r [u8]) -> Says<'r> {
        Says {
            flags,
            answers,
            authority,
            records,
        }
    }
}

// An ask that waits for its reply: on which path, to which server, and its bytes.
#[derive(Drop)]
struct Waits<A: Heap> {
    path: Path,
    to: Endpoint,
    bytes: Bytes<A>,
}

/// A resolver of one server of the root, and what it asked last.
#[derive(Drop)]
pub struct Talk<A: Heap> {
    alloc: A,
    core: Core<A>,
    waits: Option<Waits<A>>,
}

fn asked<A: Heap>(actions: &Actions<A>) -> Result<Option<Waits<A>>, Starved> {
    Ok(match &actions.first {
        Some(Action::Send { socket, to, bytes }) => Some(Waits {
            path: Path::Udp(*socket),
            to: *to,
            bytes: bytes.copied()?,
        }),
        Some(Action::TcpAsk { number, to, bytes }) => Some(Waits {
            path: Path::Tcp(*number),
            to: *to,
            bytes: bytes.copied()?,
        }),
        _ => None,
    })
}

// The servers of a zone.
fn put_servers<A: Heap>(
    out: &mut Vec<u8, A>,
    zone: &str,
    servers: &[String<A>],
) -> Result<(), Starved> {
    for server in servers {
        put_ns(out, zone, server.as_str())?;
    }
    Ok(())
}

/// What comes from a client by this way.
pub fn from_client<A: Heap>(way: Via, bytes: Bytes<A>) -> Event<A> {
    Event::Client {
        moment: 0,
        client: 1,
        way,
        bytes,
    }
}

impl<A: Heap> Talk<A> {
    /// A resolver that knows nothing.
    pub fn new(alloc: A) -> Result<Talk<A>, Starved> {
        Ok(Talk {
            alloc,
            core: core(alloc, Vec::new(alloc))?,
            waits: None,
        })
    }

    /// Whence memory comes.
    pub fn heap(&self) -> A {
        self.alloc
    }

    /// The resolver.
    pub fn core(&mut self) -> &mut Core<A> {
        &mut self.core
    }

    /// How long the question of the last ask is, in bytes.
    pub fn question_size(&self) -> usize {
        match &self.waits {
            Some(waits) => waits.bytes.as_slice().len().saturating_sub(12),
            None => 0,
        }
    }

    /// A step, whose ask is the last one from then on.
    pub fn take(&mut self, event: &Event<A>) -> Result<(), Starved> {
        let actions = self.core.step(event)?;
        self.waits = asked(&actions)?;
        Ok(())
    }

    /// A client asks.
    pub fn ask(&mut self, name: &str, kind: u16) -> Result<(), Starved> {
        let event = from_client(Via::Udp, query(self.alloc, name, kind, (0, &[]))?);
        self.take(&event)
    }

    /// The event in which the server of the last ask says this.
    pub fn told(&self, says: Says<'_>) -> Result<Event<A>, Starved> {
        match &self.waits {
            Some(waits) => waits.told(self.alloc, says),
            None => Err(Starved),
        }
    }

    /// The server of the last ask says this.
    pub fn tell(&mut self, says: Says<'_>) -> Result<(), Starved> {
        let event = self.told(says)?;
        self.take(&event)
    }

    /// The same over TCP, where the server says over UDP that it is too long.
    pub fn tell_by_tcp(&mut self, says: Says<'_>) -> Result<(), Starved> {
        self.tell(Says::truncated())?;
        self.tell(says)
    }

    /// Each server that is asked fails to answer, until the query is over: it asks forty times at most.
    pub fn fail_all(&mut self) -> Result<(), Starved> {
        for _ in 0..64 {
            if self.waits.is_some() {
                self.tell(Says::failure())?;
            }
        }
        Ok(())
    }

    /// A zone is delegated to these servers without addresses. What the query that learns so asks then is not answered.
    pub fn delegate(&mut self, zone: &str, servers: &[String<A>]) -> Result<(), Starved> {
        let mut records = Vec::new(self.alloc);
        put_servers(&mut records, zone, servers)?;
        let asked = self.ask_in(zone);
        let count = u16::try_from(servers.len()).unwrap_or(0);
        match asked {
            Ok(()) => self.tell(Says::referral(count, &records)),
            Err(Starved) => Err(Starved),
        }
    }

    // A client asks for a name in a zone.
    fn ask_in(&mut self, zone: &str) -> Result<(), Starved> {
        let mut name = String::new(self.alloc);
        write!(name, "x.{zone}")?;
        self.ask(name.as_str(), A_TYPE)
    }
}

impl<'r> Says<'r> {
    // Appends the bytes of the message in which a server says this of what was asked in these bytes.
    fn put<A: Heap>(self, out: &mut Vec<u8, A>, asked: &[u8]) -> Result<(), Starved> {
        let [high, low] = self.flags;
        let [answers, more_answers] = self.answers.to_be_bytes();
        let [authority, more_authority] = self.authority.to_be_bytes();
        out.extend_from_slice(asked.get(..2).unwrap_or(&[]))?;
        out.extend_from_slice(&[
            high,
            low,
            0,
            1,
            answers,
            more_answers,
            authority,
            more_authority,
            0,
            0,
        ])?;
        out.extend_from_slice(asked.get(12..).unwrap_or(&[]))?;
        out.extend_from_slice(self.records)?;
        Ok(())
    }
}

impl<A: Heap> Waits<A> {
    // The event in which its server says this.
    fn told(&self, alloc: A, says: Says<'_>) -> Result<Event<A>, Starved> {
        let mut bytes = Vec::new(alloc);
        says.put(&mut bytes, self.bytes.as_slice())?;
        Ok(self.bring(bounded(bytes)?))
    }

    // These bytes come on its path.
    fn bring(&self, bytes: Bytes<A>) -> Event<A> {
        match self.path {
            Path::Udp(socket) => Event::Datagram {
                moment: 0,
                socket,
                from: self.to,
                bytes,
            },
            Path::Tcp(number) => Event::TcpReply {
                moment: 0,
                number,
                bytes,
            },
        }
    }
}
