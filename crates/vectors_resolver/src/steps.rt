//! Rows about a resolver's steps. `core HINT` makes one with that server of the root; `client CLIENT AT BYTES` is what
//! a client says over UDP, `server SERVER AT BYTES` what a server says by the way of the last ask, behind its ID.
//! `stray BY PORT SERVER AT BYTES` is the same where the socket, or the number over TCP, is greater by BY, from that port;
//! `tick AT` time. `client-fronts` and `server-fronts` before the words of such a row are each front of the bytes; what
//! comes of those that follow one another is said once where it is the same.
use crate::row::{Row, made};
use crate::shown::{put_hex, put_reply};
use engine_fixture::{Ask, Out, TestResolver, bounded};
use events::{Action, Actions, Bytes, Endpoint, Event, Path};
use rdata::Addr;
use std::alloc::Global;
use text_lines::LineKind;

/// A resolver, once a row has made one, and whose it is.
#[derive(Drop)]
pub struct Steps {
    hint: Addr,
    resolver: Option<TestResolver<Global>>,
}

fn put_ask(out: &mut String, to: Addr, way: &str, bytes: &[u8]) -> Result<(), LineKind> {
    write!(out, "ask {to} over {way}: ")?;
    put_hex(out, bytes.get(2..).unwrap_or(&[]))
}

fn put_step(out: &mut String, action: &Action) -> Result<(), LineKind> {
    match action {
        Action::Reply {
            client,
            way,
            bytes,
            cause,
        } => put_reply(out, *client, *way, bytes, *cause),
        Action::Send { to, bytes, .. } => put_ask(out, to.address, "udp", bytes.as_slice()),
        Action::TcpAsk { to, bytes, .. } => put_ask(out, to.address, "tcp", bytes.as_slice()),
    }
}

fn put_actions(out: &mut String, actions: &Actions) -> Result<(), LineKind> {
    match &actions.first {
        None => out.push_str("nothing\n")?,
        Some(action) => put_step(out, action)?,
    }
    if actions.more_due {
        out.push_str("more is due\n")?;
    }
    Ok(())
}

// A message under this ID, of which the first so many bytes come.
fn front_of(alloc: Global, id: [u8; 2], rest: &[u8], length: usize) -> Result<Bytes, LineKind> {
    let mut bytes = Vec::from_slice(alloc, &id)?;
    bytes.extend_from_slice(rest)?;
    bytes.truncate(length);
    Ok(bounded(bytes)?)
}

// What comes of an event, also of one that is not made.
fn take(
    resolver: &mut TestResolver<Global>,
    event: Result<Event, LineKind>,
    out: &mut String,
) -> Result<(), LineKind> {
    let event = event?;
    let step = resolver.step(&event);
    drop(event);
    if step == Out::Starved {
        return Err(LineKind::Memory);
    }
    put_actions(out, resolver.last())
}

// Who speaks: a client, or a server to the last ask.
#[derive(Clone, Copy)]
enum Speaker {
    Client(u64),
    Server(Addr),
}

// Who speaks, when and what.
#[derive(Drop)]
struct Speech {
    speaker: Speaker,
    moment: u64,
    bytes: Vec<u8>,
}

fn who_speaks(row: &mut Row<'_>) -> Result<Speaker, LineKind> {
    if row.command.starts_with("client") {
        Ok(Speaker::Client(row.number()?))
    } else {
        Ok(Speaker::Server(row.address()?))
    }
}

fn read_speech(row: &mut Row<'_>) -> Result<Speech, LineKind> {
    let speaker = who_speaks(row)?;
    let moment = row.number()?;
    Ok(Speech {
        speaker,
        moment,
        bytes: row.bytes()?,
    })
}

impl Speech {
    // The first so many bytes of the client's or the server's message.
    fn event(&self, resolver: &TestResolver<Global>, length: usize) -> Result<Event, LineKind> {
        match self.speaker {
            Speaker::Client(client) => {
                let bytes = self.bytes.get(..length).unwrap_or(&[]);
                Ok(resolver.query(client, self.moment, bytes)?)
            }
            Speaker::Server(server) => self.told(resolver, server, length),
        }
    }

    // What a server says to the last ask.
    fn told(
        &self,
        resolver: &TestResolver<Global>,
        server: Addr,
        length: usize,
    ) -> Result<Event, LineKind> {
        let ask = Ask {
            server,
            ..resolver.ask()
        };
        let bytes = front_of(resolver.heap(), ask.id, &self.bytes, length)?;
        Ok(ask.told(self.moment, bytes))
    }

    fn say(
        &self,
        resolver: &mut TestResolver<Global>,
        length: usize,
        out: &mut String,
    ) -> Result<(), LineKind> {
        let event = self.event(resolver, length);
        take(resolver, event, out)
    }

    // The server says its message from this port where nobody waits for it, so far behind the ask's socket or number.
    fn stray(
        &self,
        resolver: &TestResolver<Global>,
        server: Addr,
        by: u16,
        port: u16,
    ) -> Result<Event, LineKind> {
        let ask = resolver.ask();
        let bytes = front_of(resolver.heap(), ask.id, &self.bytes, self.whole())?;
        Ok(match ask.path {
            Path::Udp(socket) => Event::Datagram {
                moment: self.moment,
                socket: socket.saturating_add(by),
                from: Endpoint {
                    address: server,
                    port,
                },
                bytes,
            },
            Path::Tcp(number) => Event::TcpReply {
                moment: self.moment,
                number: number.saturating_add(u64::from(by)),
                bytes,
            },
        })
    }

    // How long the message is: a server's has its ID before these bytes.
    fn whole(&self) -> usize {
        match self.speaker {
            Speaker::Client(_) => self.bytes.len(),
            Speaker::Server(_) => self.bytes.len().saturating_add(2),
        }
    }
}

// What came of the last front, and from which length on.
#[derive(Drop)]
struct Fronts {
    from: usize,
    said: String,
}

impl Fronts {
    fn note(&mut self, length: usize, said: String, out: &mut String) -> Result<(), LineKind> {
        if said.as_str() == self.said.as_str() {
            return Ok(());
        }
        self.put(length, out)?;
        self.from = length;
        self.said = said;
        Ok(())
    }

    // What came of the lengths from `from` to this one.
    fn put(&self, length: usize, out: &mut String) -> Result<(), LineKind> {
        if length > self.from {
            let from = self.from;
            let said = self.said.as_str();
            write!(out, "{from} to {length}: {said}")?;
        }
        Ok(())
    }
}

impl Steps {
    /// No resolver.
    pub fn new() -> Steps {
        Steps {
            hint: Addr([0, 0, 0, 0]),
            resolver: None,
        }
    }

    /// What comes of a row.
    pub fn perform(&mut self, row: &mut Row<'_>, out: &mut String) -> Result<(), LineKind> {
        match row.command {
            "core" => self.begin(row),
            "client" | "server" => self.say(row, out),
            "stray" => self.stray(row, out),
            "client-fronts" | "server-fronts" => self.say_fronts(row, out),
            _ => self.tick(row, out),
        }
    }

    fn begin(&mut self, row: &mut Row<'_>) -> Result<(), LineKind> {
        self.hint = row.address()?;
        self.renew(row.alloc)
    }

    fn renew(&mut self, alloc: Global) -> Result<(), LineKind> {
        self.resolver = Some(TestResolver::new(alloc, self.hint)?);
        Ok(())
    }

    fn say(&mut self, row: &mut Row<'_>, out: &mut String) -> Result<(), LineKind> {
        let speech = read_speech(row)?;
        speech.say(made(&mut self.resolver)?, speech.whole(), out)
    }

    fn stray(&mut self, row: &mut Row<'_>, out: &mut String) -> Result<(), LineKind> {
        let by = row.short()?;
        let port = row.short()?;
        let speech = read_speech(row)?;
        let resolver = made(&mut self.resolver)?;
        let event = match speech.speaker {
            Speaker::Client(_) => Err(LineKind::UnknownWord),
            Speaker::Server(server) => speech.stray(resolver, server, by, port),
        };
        take(resolver, event, out)
    }

    fn tick(&mut self, row: &mut Row<'_>, out: &mut String) -> Result<(), LineKind> {
        let moment = row.number()?;
        take(made(&mut self.resolver)?, Ok(Event::Tick { moment }), out)
    }

    // What comes of the first so many bytes: those of a client are said to a new resolver.
    fn front(&mut self, alloc: Global, speech: &Speech, length: usize) -> Result<String, LineKind> {
        if let Speaker::Client(_) = speech.speaker {
            self.renew(alloc)?;
        }
        let mut said = String::new(alloc);
        speech.say(made(&mut self.resolver)?, length, &mut said)?;
        Ok(said)
    }

    // Each front of the message is said.
    fn note_fronts(
        &mut self,
        alloc: Global,
        speech: &Speech,
        fronts: &mut Fronts,
        out: &mut String,
    ) -> Result<(), LineKind> {
        for length in 0..speech.whole() {
            fronts.note(length, self.front(alloc, speech, length)?, out)?;
        }
        fronts.put(speech.whole(), out)
    }

    fn say_fronts(&mut self, row: &mut Row<'_>, out: &mut String) -> Result<(), LineKind> {
        let speech = read_speech(row)?;
        let mut fronts = no_fronts(row.alloc);
        self.note_fronts(row.alloc, &speech, &mut fronts, out)
    }
}

fn no_fronts(alloc: Global) -> Fronts {
    Fronts {
        from: 0,
        said: String::new(alloc),
    }
}
