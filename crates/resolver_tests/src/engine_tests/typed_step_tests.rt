//! Steps on bytes, and steps on what was read of them, at once where the answer is at hand: both give the same actions.
use crate::engine_tests::world_tests::{
    ALIAS, APP, APP_TO_EXAMPLE, DENIED, FOUND, GONE, GONE_TO_EXAMPLE, TO_EXAMPLE, TO_LAB, WWW,
};
use engine::{Config, Core, Settings};
use engine_fixture::{Ask, bounded, under};
use events::{Actions, Event, Path};
use memory::{Heap, Starved};
use rdata::Addr;
use std::test::Fail;
use typed::{TypedActions, TypedEvent, read_event, write_actions};
use wire::{Via, Writer};

const SETTINGS: Settings = Settings {
    cache: 9,
    delegations: 9,
    penalties: 9,
    failures: 9,
    sockets: 4,
    port: 53,
    seed: [7; 32],
};

const QUERIES: &[&[u8]] = &[
    WWW,
    GONE,
    APP,
    b"\0\x05\x01\0\0\x01\0\0\0\0\0\0\x03www\x03lab\x07example\0\0\x01\0\x03",
    b"",
];

// What servers say behind the ID: referrals, an answer, an alias, a denial, a truncated reply, a failure, a query, half
// a header.
const REPLIES: &[&[u8]] = &[
    TO_EXAMPLE,
    TO_LAB,
    FOUND,
    ALIAS,
    APP_TO_EXAMPLE,
    DENIED,
    GONE_TO_EXAMPLE,
    b"\x86\0\0\x01\0\0\0\0\0\0\x03www\x03lab\x07example\0\0\x01\0\x01",
    b"\x80\x02\0\x01\0\0\0\0\0\0\x03www\x03lab\x07example\0\0\x01\0\x01",
    b"\x01\0\0\x01\0\0\0\0\0\0\x03www\x03lab\x07example\0\0\x01\0\x01",
    b"\x84\0\0",
];

// Numbers that follow from a seed, by a linear congruential generator.
#[derive(Clone, Copy)]
struct Dice {
    state: u64,
}

impl Dice {
    // A number under that many sides.
    fn roll(&mut self, sides: u64) -> u64 {
        self.state = self
            .state
            .wrapping_mul(6_364_136_223_846_793_005)
            .wrapping_add(1_442_695_040_888_963_407);
        (self.state >> 33).checked_rem(sides).unwrap_or(0)
    }

    // One of these messages.
    fn one(&mut self, messages: &'static [&'static [u8]]) -> &'static [u8] {
        let place = self.roll(messages.len() as u64) as usize;
        messages.get(place).copied().unwrap_or(&[])
    }
}

// A resolver that takes bytes, and one whose events are read before its steps and whose actions are written after them.
#[derive(Drop)]
struct Both<A: Heap> {
    alloc: A,
    by_bytes: Core<A>,
    by_parts: Core<A>,
    writer: Writer<A>,
    // What was asked last.
    ask: Ask,
    // How many steps gave an action.
    spoken: u32,
    // How many were taken at once.
    at_once: u32,
}

fn core<A: Heap>(alloc: A) -> Result<Core<A>, Starved> {
    let config = Config {
        local: Vec::new(alloc),
        hints: Vec::from_slice(alloc, &[Addr([198, 51, 100, 1])])?,
        settings: SETTINGS,
    };
    Core::new(alloc, config).map_err(|_| Starved)
}

impl<A: Heap> Both<A> {
    fn new(alloc: A) -> Result<Both<A>, Starved> {
        Ok(Both {
            alloc,
            by_bytes: core(alloc)?,
            by_parts: core(alloc)?,
            writer: Writer::new(alloc)?,
            ask: Ask {
                path: Path::Udp(0),
                server: Addr([198, 51, 100, 1]),
                id: [0, 0],
            },
            spoken: 0,
            at_once: 0,
        })
    }

    // What the second one gives: nothing for an event that is none once it is read.
    fn give_parts(&mut self, event: &Event<A>) -> Result<Actions<A>, Starved> {
        match read_event(self.alloc, event)? {
            None => Ok(Actions {
                first: None,
                more_due: false,
            }),
            Some(event) => {
                let given = self.step_parts(&event)?;
                write_actions(self.alloc, &mut self.writer, &given)
            }
        }
    }

    // Its step on what was read.
    fn step_parts(&mut self, event: &TypedEvent<A>) -> Result<TypedActions<A>, Starved> {
        match self.by_parts.answer(event) {
            Some(given) => {
                self.at_once = self.at_once.saturating_add(1);
                given
            }
            None => self.by_parts.step_typed(event),
        }
    }

    // Whether both give the same.
    fn agree(&mut self, event: &Event<A>) -> Result<bool, Starved> {
        let given = self.by_bytes.step(event)?;
        if let Some(action) = &given.first {
            self.spoken = self.spoken.saturating_add(1);
            if let Some(ask) = Ask::of(action) {
                self.ask = ask;
            }
        }
        let other = self.give_parts(event)?;
        Ok(given.same(&other))
    }

    // A client's request, what a server says to the last ask, its loss, or time.
    fn event(&self, moment: u64, dice: &mut Dice) -> Result<Event<A>, Starved> {
        match dice.roll(8) {
            0 | 1 => Ok(Event::Client {
                moment,
                client: dice.roll(5),
                way: if dice.roll(2) == 0 {
                    Via::Udp
                } else {
                    Via::Tcp
                },
                bytes: bounded(Vec::from_slice(self.alloc, dice.one(QUERIES))?)?,
            }),
            2 | 3 | 4 | 5 => {
                let reply = dice.one(REPLIES);
                Ok(
                    self.ask
                        .told(moment, under(self.alloc, self.ask.id, reply)?),
                )
            }
            6 => Ok(self.ask.lost(moment)),
            _ => Ok(Event::Tick { moment }),
        }
    }

    // The first of 100 events after which they differ.
    fn first_differing(&mut self, dice: &mut Dice) -> Result<Option<u32>, Starved> {
        let mut moment = 0u64;
        for place in 0..100u32 {
            moment = moment.saturating_add(dice.roll(400));
            let event = self.event(moment, dice)?;
            if !self.agree(&event)? {
                return Ok(Some(place));
            }
        }
        Ok(None)
    }
}

// Where the two differ on events that are made from a seed, how many steps gave an action, and how many were taken at
// once.
fn differing_of<A: Heap>(alloc: A, seed: u64) -> Result<(Option<u32>, u32, u32), Starved> {
    let mut both = Both::new(alloc)?;
    let place = both.first_differing(&mut Dice { state: seed })?;
    Ok((place, both.spoken, both.at_once))
}

#[test]
fn both_steps_give_the_same(rt: HostRuntime) -> Result<(), Fail> {
    let (mut spoken, mut at_once) = (0u32, 0u32);
    for seed in 0..200u64 {
        let (place, actions, answers) = differing_of(rt.alloc(), seed)?;
        assert_eq!(rt; place, None, "seed {seed}");
        spoken = spoken.saturating_add(actions);
        at_once = at_once.saturating_add(answers);
    }
    assert!(rt; spoken > 4_000, "only {spoken} actions");
    assert!(rt; at_once > 0, "no answer at once");
    Ok(())
}
