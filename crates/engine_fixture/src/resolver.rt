//! A resolver, its last ask, and what went out last.
use crate::ask::{Ask, PORT, bounded};
use crate::out::Out;
use engine::{Config, Core, Settings};
use events::{Action, Actions, Event, Path};
use memory::{Heap, Starved};
use rdata::Addr;
use wire::Via;

/// A resolver with one hint; what it asked last, and what went out last.
#[derive(Drop)]
pub struct TestResolver<A: Heap> {
    alloc: A,
    core: Core<A>,
    ask: Ask,
    last: Actions<A>,
}

// The stores have room for nine entries each, and asks leave by four sockets.
fn core<A: Heap>(alloc: A, hint: Addr) -> Result<Core<A>, Starved> {
    let config = Config {
        local: Vec::new(alloc),
        hints: Vec::from_slice(alloc, &[hint])?,
        settings: Settings {
            cache: 9,
            delegations: 9,
            penalties: 9,
            failures: 9,
            sockets: 4,
            port: PORT,
            seed: [7; 32],
        },
    };
    match Core::new(alloc, config) {
        Ok(core) => Ok(core),
        Err(_) => Err(Starved),
    }
}

// The ask among these actions.
fn ask_of<A: Heap>(actions: &Actions<A>) -> Option<Ask> {
    match &actions.first {
        Some(action) => Ask::of(action),
        None => None,
    }
}

impl<A: Heap> TestResolver<A> {
    /// A new resolver with that server of the root, and no zones of its own.
    pub fn new(alloc: A, hint: Addr) -> Result<TestResolver<A>, Starved> {
        Ok(TestResolver::of(alloc, core(alloc, hint)?))
    }

    /// This resolver, which has asked nothing yet.
    pub fn of(alloc: A, core: Core<A>) -> TestResolver<A> {
        TestResolver {
            alloc,
            core,
            ask: Ask {
                path: Path::Udp(0),
                server: Addr([0, 0, 0, 0]),
                id: [0, 0],
            },
            last: Actions {
                first: None,
                more_due: false,
            },
        }
    }

    /// Whence its memory comes.
    pub fn heap(&self) -> A {
        self.alloc
    }

    /// The ask that went out last.
    pub fn ask(&self) -> Ask {
        self.ask
    }

    /// What went out last.
    pub fn last(&self) -> &Actions<A> {
        &self.last
    }

    // What goes out is noted.
    fn note(&mut self, actions: Actions<A>) -> Out {
        let out = Out::of(&actions);
        if let Some(ask) = ask_of(&actions) {
            self.ask = ask;
        }
        self.last = actions;
        out
    }

    /// The resolver is told of this.
    pub fn step(&mut self, event: &Event<A>) -> Out {
        match self.core.step(event) {
            Ok(actions) => self.note(actions),
            Err(_) => Out::Starved,
        }
    }

    /// The resolver is told of this, if the event could be made.
    pub fn take(&mut self, event: Result<Event<A>, Starved>) -> Out {
        match event {
            Ok(event) => self.step(&event),
            Err(_) => Out::Other,
        }
    }

    /// Bytes from a client, over UDP.
    pub fn query(&self, client: u64, moment: u64, bytes: &[u8]) -> Result<Event<A>, Starved> {
        Ok(Event::Client {
            moment,
            client,
            way: Via::Udp,
            bytes: bounded(Vec::from_slice(self.alloc, bytes)?)?,
        })
    }

    /// Whether what went out last are these bytes to that client, over UDP.
    pub fn has_sent(&self, client: u64, wanted: &[u8]) -> bool {
        match &self.last.first {
            Some(
                Action::Reply {
                    client: to,
                    way: Via::Udp,
                    bytes,
                    ..
                },
            ) => *to == client && bytes.as_slice() == wanted,
            _ => false,
        }
    }
}
