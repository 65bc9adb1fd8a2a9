//! Admission of queries: which are admitted, which wait, and which are called in.
ghost use Rattle.std.specs.Prelude.{◌≡◌, ◌+◌, ◌<◌, nat_le, ◌≤◌, false, [], ◌∷◌, ◌++◌, length, slice_index_or, None, IfOk, IfSome, IsSome, ◌↔◌};
ghost use Rattle.std.specs.Option.{is_some};
ghost use Rattle.std.specs.List.{count_by, remove};
ghost use Rattle.std.specs.VecDeque.{deque_capacity};
ghost use Rattle.admission.specs.declared.queries.Admitted.{Admitted};
ghost use Rattle.admission.specs.States.{state, address_in, held_with, held_from, inside, of_key, of_address, of_domain, left_for, domain_has_share, has_share, has_enough, leaves_out, is_full, is_shut, IsKept};
ghost use Rattle.admission.specs.Moves.{Admits, AdmitsNext, admitted, is_entering, is_open, is_late, opened, left, domain_in, called, first_of, without_first, taken, dropped};

use crate::limits::{DOMAIN_SHARE, Limits};
use crate::places::{
    address_in, admitted_from, admitted_in, admitted_with, held_from, held_in, held_with,
    place_of_entering, place_of_late, place_of_open,
};
use crate::queries::{Admitted, Decision, Held};
use crate::queue::Queue;
use memory::{Heap, Starved};
use std::alloc::{Allocator, Global};
use std::collections::VecDeque;
use std::marker::Model;

/// The queries that were admitted, those that are called in and those that wait.
#[derive(Drop)]
pub struct Admission<T, A: Allocator = Global> {
    limits: Limits,
    admitted: Vec<Admitted, A>,
    ready: VecDeque<Held<T>, A>,
    waiting: Queue<T, A>,
}

impl<T, A: Allocator> Model for Admission<T, A> {
    ghost use Rattle.std.specs.Prelude.{◌≤◌, vec_capacity};
    ghost use Rattle.std.specs.VecDeque.{deque_capacity};
    ghost use Rattle.admission.specs.States.{State, state, IsKept};

    ghost Value = { State T };

    ghost view = { λ d. state d.limits d.admitted.items d.ready.items d.waiting.items };

    ghost invariant = { λ d. IsKept (state d.limits d.admitted.items d.ready.items d.waiting.items) × (d.limits.places ≤ vec_capacity d.admitted) × (d.limits.places ≤ deque_capacity d.ready) × (d.limits.waiting ≤ d.waiting.room) };
}

impl<T: Drop, A: Heap> Admission<T, A> {
    /// An admission in which there is no query. It takes the room for all of them at once, so that no later call
    /// wants memory.
    pub fn new(alloc: A, limits: Limits) -> Result<Admission<T, A>, Starved>
        ensures { IfOk result (λ d. d ≡ state limits [] [] []) }
    {
        let admitted = Vec::with_capacity(alloc, limits.places)?;
        let ready = VecDeque::with_capacity(alloc, limits.places)?;
        let waiting = Queue::new(alloc, limits.waiting)?;
        Ok(Admission {
            limits,
            admitted,
            ready,
            waiting,
        })
    }
}

impl<T: Drop, A: Allocator> Admission<T, A> {
    /// A query comes, with what is needed to put it in. It is admitted where fewer equal ones are inside than may be,
    /// and waits where not. It is refused, and nothing changes, where its address or the places are full, its address
    /// has as many as places are free, its domain three times as many as are left for it, or too many wait. The last
    /// places are for domains of which a name was answered.
    pub fn admit(
        &mut self,
        key: u64,
        client: u64,
        domain: u64,
        was_answered: bool,
        moment: u64,
        payload: T,
    ) -> Decision<T>
        ensures { Admits self.old key client domain was_answered moment payload result self.new }
    {
        if self.is_shut(client, domain, was_answered) {
            return Decision::Refused(payload);
        }
        if self.of_key(key) < self.limits.equal {
            self.admit_now(key, client, domain, was_answered);
            return Decision::In(payload);
        }
        if self.limits.waiting <= self.waiting.len() {
            return Decision::Refused(payload);
        }
        let query = Held {
            key,
            client,
            domain,
            since: moment,
            payload,
        };
        self.waiting.push(query);
        Decision::Waits
    }

    /// Whether a query with this key would wait: as many equal ones are inside as may be.
    pub fn is_crowded(&self, key: u64) -> bool
        ensures { result ≡ nat_le self.now.limits.equal (of_key key self.now) }
    {
        self.limits.equal <= self.of_key(key)
    }

    /// The step of a query has asked other servers: the query is open from that moment on. Nothing changes where no
    /// such query enters.
    pub fn opened(&mut self, key: u64, client: u64, moment: u64)
        ensures { self.new ≡ opened key client moment self.old }
    {
        let Some(place) = place_of_entering(&self.admitted, key, client) else {
            return;
        };
        let entering = self.admitted.remove(place);
        let query = Admitted {
            opened: Some(moment),
            ..entering
        };
        self.admitted.push(query).unwrap();
    }

    /// The step of a query has answered it, or lost it: it leaves, and the first that waits for its key is called in.
    /// Nothing changes where no such query enters.
    pub fn settled(&mut self, key: u64, client: u64)
        ensures { self.new ≡ left (is_entering key client) self.old }
    {
        if let Some(place) = place_of_entering(&self.admitted, key, client) {
            self.leave(place);
        }
    }

    /// A reply to an open query has gone out: it leaves, and the first that waits for its key is called in. Its domain, or
    /// None, and no change, where no such query is open.
    pub fn closed(&mut self, key: u64, client: u64) -> Option<u64>
        ensures left { self.new ≡ left (is_open key client) self.old }
        ensures domain { result ≡ domain_in (first_of (is_open key client) self.old.admitted) }
    {
        let Some(place) = place_of_open(&self.admitted, key, client) else {
            return None;
        };
        let domain = self.admitted[place].domain;
        self.leave(place);
        Some(domain)
    }

    /// The first query that has been open for its time leaves, and the first that waits for its key is called in;
    /// whether there was one. To be called until there is none.
    pub fn expire(&mut self, now: u64) -> bool
        ensures some { result ≡ is_some (first_of (is_late now) self.old.admitted) }
        ensures left { self.new ≡ left (is_late now) self.old }
    {
        let Some(place) = place_of_late(&self.admitted, now) else {
            return false;
        };
        self.leave(place);
        true
    }

    /// A query with this key has failed: the first that waits with it, which no longer waits, to be told so. To be
    /// called until there is none, before `closed`.
    pub fn fail(&mut self, key: u64) -> Option<Held<T>>
        ensures first { result ≡ first_of (held_with key) self.old.waiting }
        ensures others { self.new ≡ taken key self.old }
    {
        self.waiting.take_first(key)
    }

    /// The first query that is called in, which is admitted: its step is to be taken now.
    pub fn next(&mut self) -> Option<Held<T>>
        ensures { AdmitsNext self.old result self.new }
    {
        let query = self.ready.pop_front()?;
        let admitted = Admitted {
            key: query.key,
            client: query.client,
            domain: query.domain,
            opened: None,
        };
        self.admitted.push(admitted).unwrap();
        Some(query)
    }

    /// The query that waits at this place; the first that came is at 0. None past the last.
    pub fn waits_at(&self, place: usize) -> Option<&Held<T>>
        ensures there { IsSome result ↔ (place < length self.now.waiting) }
        ensures query { IfSome result (λ q. q.now ≡ slice_index_or self.now.waiting place q.now) }
    {
        self.waiting.get(place)
    }

    /// Drops the queries that have waited for their time, and says how many.
    pub fn drop_late(&mut self, now: u64) -> usize
        ensures dropped { self.new ≡ dropped now self.old }
        ensures count { result + length self.new.waiting ≡ length self.old.waiting }
    {
        self.waiting.drop_late(now)
    }

    // Whether no query from the address of that client in that domain, of which a name was answered or not, is admitted
    // now, nor held.
    fn is_shut(&self, client: u64, domain: u64, was_answered: bool) -> bool
        ensures { result ≡ is_shut (address_in client) domain was_answered self.now }
    {
        let from_address = self.of_address(address_in(client));
        self.is_full(from_address) || self.leaves_out(from_address, domain, was_answered)
    }

    // Whether a query is left out that is from an address of so many, in that domain.
    fn leaves_out(&self, from_address: usize, domain: u64, was_answered: bool) -> bool
        ensures { result ≡ leaves_out from_address domain was_answered self.now }
    {
        self.has_enough(from_address) || self.domain_has_share(self.of_domain(domain), was_answered)
    }

    // Whether a domain of so many queries has its share: three times as many as places are left for it.
    fn domain_has_share(&self, in_domain: usize, was_answered: bool) -> bool
        ensures { result ≡ domain_has_share in_domain was_answered self.now }
    {
        self.left_for(was_answered) <= in_domain / DOMAIN_SHARE
    }

    // How many places are left for a query in a domain of which a name was answered, or none was.
    fn left_for(&self, was_answered: bool) -> usize
        ensures { result ≡ left_for was_answered self.now }
    {
        let others = if was_answered {
            0
        } else {
            self.limits.answered
        };
        self.limits
            .places
            .saturating_sub(others)
            .saturating_sub(self.inside())
    }

    // Whether an address of so many queries has as many as one address may have, or all places are taken.
    fn is_full(&self, from_address: usize) -> bool
        ensures { result ≡ is_full from_address self.now }
    {
        self.limits.each <= from_address || self.limits.places <= self.inside()
    }

    // Whether an address of so many queries has enough while others may come: it has some and only the reserve is left,
    // or it has its share.
    fn has_enough(&self, from_address: usize) -> bool
        ensures { result ≡ has_enough from_address self.now }
    {
        (0 < from_address
            && self.limits.places.saturating_sub(self.limits.reserve) <= self.inside())
            || self.has_share(from_address)
    }

    // Whether an address of so many queries has its share: as many as places are free.
    fn has_share(&self, from_address: usize) -> bool
        ensures { result ≡ has_share from_address self.now }
    {
        self.limits.each < self.limits.places
            && self.limits.places.saturating_sub(self.inside()) <= from_address
    }

    /// What holds of an admission at all times: of equal queries, of one address' and in all as many are here as may
    /// be, and none waits in vain.
    pub fn always_law(&self)
        ensures { IsKept self.now }
    {
        let _ = &self.limits;
    }

    /// How many queries are called in, and come with `next`.
    pub fn ready(&self) -> usize
        ensures { result ≡ length self.now.ready }
    {
        self.ready.len()
    }

    /// How many queries wait.
    pub fn waiting(&self) -> usize
        ensures { result ≡ length self.now.waiting }
    {
        self.waiting.len()
    }

    /// How many queries are inside.
    pub fn inside(&self) -> usize
        ensures { result ≡ inside self.now }
    {
        self.admitted.len() + self.ready.len()
    }

    // How many with this key are inside.
    fn of_key(&self, key: u64) -> usize
        ensures { result ≡ of_key key self.now }
    {
        admitted_with(&self.admitted, key) + held_with(&self.ready, key)
    }

    // How many from this address are inside or wait.
    fn of_address(&self, address: u64) -> usize
        ensures { result ≡ of_address address self.now }
    {
        admitted_from(&self.admitted, address)
            + held_from(&self.ready, address)
            + self.waiting.from_address(address)
    }

    // How many in this domain are inside.
    fn of_domain(&self, domain: u64) -> usize
        ensures { result ≡ of_domain domain self.now }
    {
        admitted_in(&self.admitted, domain) + held_in(&self.ready, domain)
    }

    // Admits a query, whose step then runs.
    fn admit_now(&mut self, key: u64, client: u64, domain: u64, was_answered: bool)
        requires { (of_key key self.old < self.old.limits.equal) × (is_shut (address_in client) domain was_answered self.old ≡ false) }
        ensures { self.new ≡ state self.old.limits (self.old.admitted ++ admitted key client domain None ∷ []) self.old.ready self.old.waiting }
    {
        let query = Admitted {
            key,
            client,
            domain,
            opened: None,
        };
        self.admitted.push(query).unwrap();
    }

    // The query at that place leaves, and the first that waits for its key is called in. None waits where fewer equal
    // ones are inside than may be, and then those that wait are not looked through.
    fn leave(&mut self, place: usize)
        requires { place < length self.old.admitted }
        ensures { (q : Admitted) → self.new ≡ called (slice_index_or self.old.admitted place q).key (record self.old { admitted = remove self.old.admitted place }) }
    {
        let gone = self.admitted.remove(place);
        let left = admitted_with(&self.admitted, gone.key) + held_with(&self.ready, gone.key);
        let waits = self.limits.equal <= left + 1;
        if let Some(query) = self.waiting.take_where(gone.key, waits) {
            self.ready.push_back(query).unwrap();
        }
    }
}
