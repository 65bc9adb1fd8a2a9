//! One query, from its first ask to its reply.
ghost use Rattle.std.specs.Prelude.{◌≤◌, IfOk, IfSome, length};

use crate::lines::{Loss, indent, put_cause, put_class, put_loss, put_search};
use crate::peers::Peers;
use crate::searches::Searches;
use causes::Cause;
use classify::{Class, classify};
use dispatch::{Reach, repeats};
use dname::Name;
use engine::Core;
use events::{Action, Bytes, Endpoint, Event};
use limits::{QUERY_LIFETIME_MS, TCP_WAIT_MS};
use memory::{Heap, Starved};
use rdata::RType;
use reply_lines::{put_ask_bytes, put_reply_bytes};
use score::query_bytes;
use std::alloc::Allocator;
use wire::{TCP_LIMIT, Via, View, WireError, decode};

// The number of the client in the printed reply.
const CLIENT: u64 = 1;

// How long a datagram is waited for before the resolver is told the time, in milliseconds, as a server does.
const SLICE_MS: u64 = 50;

// How many events there are at most, where no clock can be read: else the resolver ends the query in time.
const MOST_EVENTS: u32 = 1_000_000;

// An ask that waits.
#[derive(Drop)]
struct OpenAsk<A: Allocator> {
    socket: u16,
    to: Endpoint,
    bytes: Bytes<A>,
    moment: u64,
    // Whether it is said already that nothing can come.
    is_lost: bool,
    // Whether it is said already that a datagram of another came.
    is_disturbed: bool,
}

// What was seen of a query.
#[derive(Drop)]
struct Resolution<A: Allocator> {
    alloc: A,
    core: Core<A>,
    reach: Reach,
    searches: Searches<A>,
    asks: u64,
    open: Option<OpenAsk<A>>,
    text: String<A>,
    // Whether the reply came.
    is_over: bool,
}

/// Asks a resolver for a name and a type, as a client over TCP does, and its servers through `peers`, those alone that
/// are in reach: the lines of all that happens, the reply among them. The resolver ends it within its ten seconds.
pub fn trace<A: Heap, P: Peers>(
    alloc: A,
    core: Core<A>,
    reach: Reach,
    name: Name<A>,
    kind: RType,
    peers: &mut P,
) -> Result<String<A>, Starved> {
    let bytes = query_bytes(alloc, CLIENT, name, kind, true)?;
    let mut resolution = Resolution::new(alloc, core, reach)?;
    let mut next = resolution.step(Event::Client {
        moment: peers.moment(),
        client: CLIENT,
        way: Via::Tcp,
        bytes,
    })?;
    for _ in 0..MOST_EVENTS {
        if resolution.is_over {
            break;
        }
        next = match next {
            Some(action) => resolution.act(peers, action)?,
            None => resolution.wait(peers)?,
        };
    }
    drop(next);
    Ok(resolution.into_text())
}

impl<A: Heap> Resolution<A> {
    fn new(alloc: A, core: Core<A>, reach: Reach) -> Result<Resolution<A>, Starved> {
        Ok(Resolution {
            alloc,
            core,
            reach,
            searches: Searches::new(alloc)?,
            asks: 0,
            open: None,
            text: String::new(alloc),
            is_over: false,
        })
    }

    fn step(&mut self, event: Event<A>) -> Result<Option<Action<A>>, Starved> {
        let actions = self.core.step(&event)?;
        drop(event);
        Ok(actions.first)
    }

    // The lines alone.
    fn into_text(self) -> String<A> {
        let Resolution {
            alloc: _,
            core,
            reach: _,
            searches,
            asks: _,
            open,
            text,
            is_over: _,
        } = self;
        drop(core);
        drop(searches);
        drop(open);
        text
    }

    // What the resolver does is done: what it does next, if that is known at once.
    fn act<P: Peers>(
        &mut self,
        peers: &mut P,
        action: Action<A>,
    ) -> Result<Option<Action<A>>, Starved> {
        match action {
            Action::Reply {
                client: _client,
                way: _way,
                bytes,
                cause,
            } => {
                self.reply(bytes.as_slice(), cause)?;
                Ok(None)
            }
            Action::Send { socket, to, bytes } => {
                self.send(peers, socket, to, bytes)?;
                Ok(None)
            }
            Action::TcpAsk { number, to, bytes } => {
                self.exchange(peers, number, to, bytes.as_slice())
            }
        }
    }

    // The lines of the reply, and its cause in words.
    fn reply(&mut self, bytes: &[u8], cause: Option<Cause>) -> Result<(), Starved> {
        self.is_over = true;
        put_reply_bytes(self.alloc, &mut self.text, CLIENT, bytes, cause)?;
        match cause {
            Some(cause) => put_cause(&mut self.text, cause),
            None => Ok(()),
        }
    }

    // The line of an ask, and before it one where a search for a server's address begins.
    fn announce(&mut self, way: Via, to: Endpoint, bytes: &[u8]) -> Result<(), Starved> {
        self.asks = self.asks.saturating_add(1);
        self.search_for(bytes)?;
        self.text.push_str(indent(self.searches.depth()))?;
        put_ask_bytes(
            self.alloc,
            &mut self.text,
            self.asks,
            way,
            to.address,
            bytes,
        )
    }

    // The search to which an ask of these bytes belongs is the innermost from now on.
    fn search_for(&mut self, bytes: &[u8]) -> Result<(), Starved> {
        let message = match decode(self.alloc, bytes) {
            Ok(message) => message,
            Err(WireError::Memory) => return Err(Starved),
            Err(_) => return Ok(()),
        };
        let [question] = message.questions.as_slice() else {
            return Ok(());
        };
        let Some(kind) = RType::from_number(question.qtype) else {
            return Ok(());
        };
        if self.searches.ask(self.alloc, &question.name, kind)? {
            let outer = self.searches.depth().saturating_sub(1);
            put_search(&mut self.text, outer, &question.name, kind)?;
        }
        Ok(())
    }

    // Asks a server in a datagram.
    fn send<P: Peers>(
        &mut self,
        peers: &mut P,
        socket: u16,
        to: Endpoint,
        bytes: Bytes<A>,
    ) -> Result<(), Starved> {
        self.announce(Via::Udp, to, bytes.as_slice())?;
        let moment = peers.moment();
        let loss = if !self.reach.has(to.address) {
            peers.close();
            Some(Loss::Barred)
        } else if !peers.send(to, bytes.as_slice()) {
            Some(Loss::Unsent)
        } else {
            None
        };
        if let Some(loss) = loss {
            put_loss(&mut self.text, self.searches.depth(), 0, loss)?;
        }
        self.open = Some(OpenAsk {
            socket,
            to,
            bytes,
            moment,
            is_lost: loss.is_some(),
            is_disturbed: false,
        });
        Ok(())
    }

    // Waits a little for a datagram: what the resolver does next, if anything.
    fn wait<P: Peers>(&mut self, peers: &mut P) -> Result<Option<Action<A>>, Starved> {
        let came = peers.receive(self.alloc, SLICE_MS)?;
        let moment = peers.moment();
        match came {
            Some(bytes) => self.take(moment, bytes),
            None => self.tick(moment),
        }
    }

    // Time passes: the ask is over where the resolver goes on.
    fn tick(&mut self, moment: u64) -> Result<Option<Action<A>>, Starved> {
        let next = self.step(Event::Tick { moment })?;
        let told = if next.is_some() {
            self.tell_silence(moment)
        } else {
            Ok(())
        };
        match told {
            Ok(()) => Ok(next),
            Err(starved) => {
                drop(next);
                Err(starved)
            }
        }
    }

    // The line of an ask that is waited for no more.
    fn tell_silence(&mut self, moment: u64) -> Result<(), Starved> {
        let Some(began) = self.waiting_since() else {
            return Ok(());
        };
        let passed = moment.saturating_sub(began);
        put_loss(&mut self.text, self.searches.depth(), passed, Loss::Silent)
    }

    // When the ask went out that a reply may come to.
    fn waiting_since(&self) -> Option<u64> {
        match &self.open {
            Some(ask) if !ask.is_lost => Some(ask.moment),
            _ => None,
        }
    }

    // A datagram came at the socket of the open ask.
    fn take(&mut self, moment: u64, bytes: Vec<u8, A>) -> Result<Option<Action<A>>, Starved> {
        let is_reply = bytes.len() <= TCP_LIMIT && self.is_repeated_by(&bytes)?;
        if is_reply {
            self.accept(moment, bytes)
        } else {
            drop(bytes);
            self.tell_stranger(moment)?;
            self.tick(moment)
        }
    }

    // Whether the bytes repeat the open ask.
    fn is_repeated_by(&self, bytes: &[u8]) -> Result<bool, Starved> {
        match &self.open {
            Some(ask) => Ok(repeats(self.alloc, ask.bytes.as_slice(), bytes)?),
            None => Ok(false),
        }
    }

    // The line of a datagram that repeats no ask, once of each ask.
    fn tell_stranger(&mut self, moment: u64) -> Result<(), Starved> {
        let Some(ask) = &mut self.open else {
            return Ok(());
        };
        if ask.is_disturbed {
            return Ok(());
        }
        ask.is_disturbed = true;
        let passed = moment.saturating_sub(ask.moment);
        put_loss(&mut self.text, self.searches.depth(), passed, Loss::Foreign)
    }

    // The reply to the open ask came.
    fn accept(&mut self, moment: u64, bytes: Vec<u8, A>) -> Result<Option<Action<A>>, Starved>
        requires { length bytes.items ≤ 65535 }
    {
        let Some(ask) = self.open.take() else {
            return Ok(None);
        };
        let passed = moment.saturating_sub(ask.moment);
        let (socket, from) = (ask.socket, ask.to);
        drop(ask);
        let told = self.tell(Via::Udp, passed, &bytes);
        let event = Event::Datagram {
            moment,
            socket,
            from,
            bytes: Bytes::new(bytes),
        };
        told?;
        self.step(event)
    }

    // Asks a server over TCP: what the resolver does next.
    fn exchange<P: Peers>(
        &mut self,
        peers: &mut P,
        number: u64,
        to: Endpoint,
        bytes: &[u8],
    ) -> Result<Option<Action<A>>, Starved> {
        self.announce(Via::Tcp, to, bytes)?;
        let began = peers.moment();
        let (came, loss) = self.reply_over_tcp(peers, began, to, bytes)?;
        let moment = peers.moment();
        let passed = moment.saturating_sub(began);
        match came {
            Some(reply) => {
                self.tell(Via::Tcp, passed, &reply)?;
                self.step(Event::TcpReply {
                    moment,
                    number,
                    bytes: Bytes::new(reply),
                })
            }
            None => {
                put_loss(&mut self.text, self.searches.depth(), passed, loss)?;
                self.step(Event::TcpFailed { moment, number })
            }
        }
    }

    // What a server replies over TCP, or why there is nothing.
    fn reply_over_tcp<P: Peers>(
        &mut self,
        peers: &mut P,
        began: u64,
        to: Endpoint,
        bytes: &[u8],
    ) -> Result<(Option<Vec<u8, A>>, Loss), Starved>
        ensures { IfOk result (λ r. IfSome r.0 (λ v. length v.items ≤ 65535)) }
    {
        if !self.reach.has(to.address) {
            return Ok((None, Loss::Barred));
        }
        let wait_ms = TCP_WAIT_MS.min(QUERY_LIFETIME_MS.saturating_sub(began));
        match peers.exchange(self.alloc, to, bytes, wait_ms)? {
            Some(reply) if reply.len() <= TCP_LIMIT && repeats(self.alloc, bytes, &reply)? => {
                Ok((Some(reply), Loss::Broken))
            }
            _ => Ok((None, Loss::Broken)),
        }
    }

    // The line of a reply that repeats its ask, and what it says is known from now on.
    fn tell(&mut self, way: Via, passed: u64, bytes: &[u8]) -> Result<(), Starved> {
        let Some((class, rcode)) = self.class_of(way, bytes)? else {
            return Ok(());
        };
        let put = put_class(&mut self.text, self.searches.depth(), passed, &class, rcode);
        let learnt = self.searches.learn(class);
        put?;
        learnt
    }

    // What a reply is used for, and its RCODE.
    fn class_of(&self, way: Via, bytes: &[u8]) -> Result<Option<(Class<A>, u8)>, Starved> {
        let Ok(view) = View::new(self.alloc, bytes) else {
            return Ok(None);
        };
        let (Some(zone), Some(search)) = (self.searches.zone(), self.searches.innermost()) else {
            return Ok(None);
        };
        let class = classify(self.alloc, zone, &search.name, search.kind, way, &view)?;
        Ok(Some((class, view.header().rcode)))
    }
}
