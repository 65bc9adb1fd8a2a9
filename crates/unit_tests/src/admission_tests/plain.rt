//! The definition in its plainest form: one list of queries, each with what it does, which every call goes through.
use crate::admission_tests::moves::{Answer, Move, domain_of, is_of_answered};
use admission::{Limits, OPEN_MS, WAIT_MS};
use memory::Starved;
use std::alloc::Global;

#[derive(Clone, Copy, PartialEq, Eq)]
enum Stage {
    Entering,
    Open,
    Ready,
    Waiting,
}

// `turn` is the number of the change that brought it to its stage, and `moment` that of the call.
#[derive(Clone, Copy)]
struct Query {
    key: u64,
    client: u64,
    moment: u64,
    payload: u64,
    stage: Stage,
    turn: u64,
}

/// All that was admitted, is called in or waits.
#[derive(Drop)]
pub struct Plain {
    limits: Limits,
    queries: Vec<Query>,
    turn: u64,
}

impl Plain {
    /// No query.
    pub fn new(alloc: Global, limits: Limits) -> Plain {
        Plain {
            limits,
            queries: Vec::new(alloc),
            turn: 0,
        }
    }

    fn next_turn(&mut self) -> u64 {
        self.turn = self.turn.saturating_add(1);
        self.turn
    }

    fn inside(&self) -> usize {
        self.queries
            .iter()
            .filter(|query| query.stage != Stage::Waiting)
            .count()
    }

    fn of_key(&self, key: u64) -> usize {
        self.queries
            .iter()
            .filter(|query| query.stage != Stage::Waiting && query.key == key)
            .count()
    }

    fn of_address(&self, address: u64) -> usize {
        self.queries
            .iter()
            .filter(|query| query.client / 65_536 == address)
            .count()
    }

    fn of_domain(&self, domain: u64) -> usize {
        self.queries
            .iter()
            .filter(|query| query.stage != Stage::Waiting && domain_of(query.key) == domain)
            .count()
    }

    // The one of that stage that came to it first: of that key, where one is given, of that client, where one is
    // given, and since that moment or before, where one is given.
    fn first(
        &self,
        stage: Stage,
        key: Option<u64>,
        client: Option<u64>,
        until: u64,
    ) -> Option<usize> {
        let mut first: Option<(usize, u64)> = None;
        for (place, query) in self.queries.iter().enumerate() {
            let fits = query.stage == stage
                && key.unwrap_or(query.key) == query.key
                && client.unwrap_or(query.client) == query.client
                && query.moment <= until;
            if fits && query.turn <= first.map_or(u64::MAX, |best| best.1) {
                first = Some((place, query.turn));
            }
        }
        first.map(|best| best.0)
    }

    fn admit(
        &mut self,
        key: u64,
        client: u64,
        moment: u64,
        payload: u64,
    ) -> Result<Answer, Starved> {
        let from_address = self.of_address(client / 65_536);
        let in_domain = self.of_domain(domain_of(key));
        let for_others = if is_of_answered(key) {
            0
        } else {
            self.limits.answered
        };
        let inside = self.inside();
        let shut = from_address >= self.limits.each
            || inside >= self.limits.places
            || (from_address > 0
                && inside.saturating_add(self.limits.reserve) >= self.limits.places)
            || (self.limits.each < self.limits.places
                && from_address.saturating_add(inside) >= self.limits.places)
            || (in_domain / 3)
                .saturating_add(inside)
                .saturating_add(for_others)
                >= self.limits.places;
        let waiting = self.queries.len().saturating_sub(inside);
        let enters = self.of_key(key) < self.limits.equal;
        if shut || (!enters && waiting >= self.limits.waiting) {
            return Ok(Answer::Refused(payload));
        }
        let turn = self.next_turn();
        let stage = if enters {
            Stage::Entering
        } else {
            Stage::Waiting
        };
        self.queries.push(Query {
            key,
            client,
            moment,
            payload,
            stage,
            turn,
        })?;
        Ok(if enters {
            Answer::In(payload)
        } else {
            Answer::Waits
        })
    }

    fn change(&mut self, place: usize, stage: Stage, moment: u64) {
        let turn = self.next_turn();
        if let Some(query) = self.queries.get_mut(place) {
            query.stage = stage;
            query.turn = turn;
            if stage == Stage::Open {
                query.moment = moment;
            }
        }
    }

    fn taken(&mut self, place: Option<usize>) -> Option<Query> {
        let place = place?;
        if place < self.queries.len() {
            return Some(self.queries.remove(place));
        }
        None
    }

    fn leave(&mut self, place: Option<usize>) -> bool {
        let Some(gone) = self.taken(place) else {
            return false;
        };
        if let Some(next) = self.first(Stage::Waiting, Some(gone.key), None, u64::MAX) {
            self.change(next, Stage::Ready, 0);
        }
        true
    }

    fn handed(query: Option<Query>) -> Answer {
        match query {
            Some(query) => Answer::Handed(query.key, query.client, query.moment, query.payload),
            None => Answer::Nobody,
        }
    }

    fn next(&mut self) -> Answer {
        let Some(place) = self.first(Stage::Ready, None, None, u64::MAX) else {
            return Answer::Nobody;
        };
        self.change(place, Stage::Entering, 0);
        Plain::handed(self.queries.get(place).copied())
    }

    fn drop_late(&mut self, until: u64) -> usize {
        let before = self.queries.len();
        self.queries.retain(|query| query.stage != Stage::Waiting || query.moment > until);
        before.saturating_sub(self.queries.len())
    }

    /// Makes the move; the payload of who comes is this one.
    pub fn made(&mut self, step: Move, payload: u64) -> Result<Answer, Starved> {
        let done = match step {
            Move::Admit(key, client, moment) => return self.admit(key, client, moment, payload),
            Move::Opened(key, client, moment) => {
                if let Some(place) = self.first(
                    Stage::Entering,
                    Some(key),
                    Some(client),
                    u64::MAX,
                ) {
                    self.change(place, Stage::Open, moment);
                }
                Answer::Done
            }
            Move::Settled(key, client) => {
                self.leave(self.first(Stage::Entering, Some(key), Some(client), u64::MAX));
                Answer::Done
            }
            Move::Closed(key, client) => {
                self.leave(self.first(Stage::Open, Some(key), Some(client), u64::MAX));
                Answer::Done
            }
            Move::Expire(now) => match now.checked_sub(OPEN_MS) {
                Some(until) => Answer::Expired(self.leave(self.first(
                    Stage::Open,
                    None,
                    None,
                    until,
                ))),
                None => Answer::Expired(false),
            },
            Move::Fail(key) => {
                let place = self.first(Stage::Waiting, Some(key), None, u64::MAX);
                Plain::handed(self.taken(place))
            }
            Move::Next => self.next(),
            Move::DropLate(now) => match now.checked_sub(WAIT_MS) {
                Some(until) => Answer::Dropped(self.drop_late(until)),
                None => Answer::Dropped(0),
            },
        };
        Ok(done)
    }
}
