//! Clients' messages on their way through the machine: each is read before the lock is taken, its step is taken while
//! it is held, and what that gives is written behind it. A message whose answer is at hand is answered at once
//! (`answer`); only the others see whether they have to ask for admission (`ask`), and those that do are decided on
//! (`enter`).
ghost use Rattle.std.specs.Prelude.{◌≡◌, ◌↔◌, true, IsTrue, Some, None, IfOk, IfSome, IfNone, MatchOption, OnOk, IfErr};
ghost use Rattle.std.specs.Bool.{OnTrue, OnFalse};
ghost use Rattle.runs.specs.States.{Client, told_moment};
ghost use Rattle.events.specs.Views.{event_view};
ghost use Rattle.typed.specs.Events.{ReadAs};
ghost use Rattle.pool.specs.Closings.{IsEventRefused};
ghost use Rattle.server.specs.Entries.{StandsAs, StandsBy, IsLetBy, first_standing, is_here, is_passed, is_too_long, told};
ghost use Rattle.server.specs.Passages.{AnswersAtOnce, Enters, IsAnswered, IsClients, IsOfQuery, TakesStep, asks_server};

use crate::query::{Asker, Query};
use crate::shared_admission::{Question, SharedAdmission};
use crate::tally::Arrival;
use admission::{Admission, Decision};
use book::{Answering, Book, Machine, Ticket};
use events::{Actions, Event};
use memory::Starved;
use pool::{PoolError, answer_locked, step_locked};
use std::alloc::Global;
use std::marker::{Model, PhantomData};
use std::sync::ledger::Ledger;
use typed::{TypedAction, TypedActions, TypedEvent, read_event, write_actions};
use wire::Writer;

// Bytes of a message that waits in admission at most: as many as a datagram may have (RFC 1035, section 2.3.4).
const MOST_HELD_BYTES: usize = 512;

/// How a message stands in admission.
#[derive(Clone, Copy)]
pub(crate) enum Standing {
    /// It is still to be seen whether it has to ask for it: its answer may be at hand.
    Comes,
    /// It never asks: its answer was at hand, and its step is taken.
    Answered,
    /// It needs none: it is no query, or one whose answer the machine holds. Its step is still to be taken.
    Free,
    /// It is still to ask for it.
    Asks(Question),
    /// It was admitted.
    Admitted(Question),
    /// It waits there.
    Held,
    /// It was dropped.
    Dropped,
    /// It was dropped, and no memory was left to see whether the machine holds its answer.
    Unseen,
}

// Whether a query is too long to be held where it would have to wait.
fn is_too_long(admission: &Admission<Query>, key: u64, query: &Query) -> bool
    ensures { result ≡ is_too_long admission.now key query.now.bytes }
{
    query.bytes.as_slice().len() > MOST_HELD_BYTES && admission.is_crowded(key)
}

// How a question stands from now on that came at this moment in that query, and the query where it is still here. A
// long one does not wait, since it would be held whole.
fn stand(
    admission: &mut Admission<Query>,
    question: Question,
    moment: u64,
    query: Query,
) -> (Standing, Option<Query>)
    ensures stands { StandsBy admission.old question moment query result.0 result.1 admission.new }
    ensures here { OnTrue (is_here result.0) (result.1 ≡ Some query) }
{
    if is_too_long(admission, question.key, &query) {
        return (Standing::Dropped, Some(query));
    }
    let Question {
        key,
        client,
        domain,
        was_answered,
    } = question;
    match admission.admit(key, client, domain, was_answered, moment, query) {
        Decision::In(query) => (Standing::Admitted(question), Some(query)),
        Decision::Waits => (Standing::Held, None),
        Decision::Refused(query) => (Standing::Dropped, Some(query)),
    }
}

// Whether the machine holds the answer to what was read. None where memory is refused.
fn holds<M: Answering<Event = TypedEvent, Out = TypedActions>, L: Ledger>(
    book: &Book<M, L>,
    parsed: &TypedEvent,
) -> Option<bool>
    ensures { IfSome result (λ held. IsTrue held ↔ M.has_answer book.now.state parsed.now) }
{
    M::holds(book.state(), parsed).ok()
}

// How a question stands by what admission decided. One that is dropped is free where the machine holds its answer: its
// step asks no server, so that it needs no place.
fn let_by<M: Answering<Event = TypedEvent, Out = TypedActions>, L: Ledger>(
    book: &Book<M, L>,
    parsed: &TypedEvent,
    decided: Standing,
) -> Standing
    ensures by { IsLetBy (M.has_answer book.now.state parsed.now) decided result }
    ensures here { OnTrue (is_passed result) (is_here decided ≡ true) }
{
    match decided {
        Standing::Dropped => match holds(book, parsed) {
            Some(true) => Standing::Free,
            Some(false) => Standing::Dropped,
            None => Standing::Unseen,
        },
        _ => decided,
    }
}

/// A client's message that was read, and what its step gave. Contracts see how it stands in admission, and the event,
/// unless it waits there.
#[derive(Drop)]
pub(crate) struct Passage<M: Machine<Event = TypedEvent, Out = TypedActions>> {
    /// How it stands in admission.
    pub standing: Standing,
    /// Whose it is and when it came, where queries are counted.
    pub came: Option<Arrival>,
    moment: u64,
    query: Option<Query>,
    parsed: TypedEvent,
    given: Option<TypedActions>,
    // Which machine's step it takes.
    machine: PhantomData<M>,
}

impl<M: Machine<Event = TypedEvent, Out = TypedActions>> Model for Passage<M> {
    ghost use Rattle.server.specs.Passages.{PassageView, IsOnItsWay, passage_view};
    ghost use Rattle.std.specs.Global.{Global};
    ghost use Rattle.typed.specs.declared.action.TypedActions.{TypedActions};

    ghost Value = { PassageView (TypedActions Global) };

    ghost view = { λ p. passage_view p.standing p.moment p.query p.parsed p.given };

    ghost invariant = { λ p. IsOnItsWay M.moves M.begins (passage_view p.standing p.moment p.query p.parsed p.given) };
}

impl<M: Machine<Event = TypedEvent, Out = TypedActions>> Passage<M> {
    /// A client's message, read: it comes at this moment. Unless that question was admitted before, it is still to be
    /// seen whether it has to ask for admission.
    pub fn read(
        alloc: Global,
        moment: u64,
        query: Query,
        admitted: Option<Question>,
        came: Option<Arrival>,
    ) -> Result<Passage<M>, Starved>
        ensures event { IfOk result (λ p. p.event ≡ Some (Client moment query.asker.client query.asker.way query.bytes)) }
        ensures standing { IfOk result (λ p. p.standing ≡ first_standing admitted) }
    {
        let event = query.into_event(moment);
        match read_event(alloc, &event) {
            Ok(Some(parsed)) => {
                let standing = match admitted {
                    Some(question) => Standing::Admitted(question),
                    None => Standing::Comes,
                };
                Ok(Passage::of(event, parsed, standing, came))
            }
            // Only of what is no client's nothing is read.
            Ok(None) => unreachable!(),
            Err(starved) => {
                drop(event);
                Err(starved)
            }
        }
    }

    // The query of a client that is this event, of which that was read.
    fn of(event: Event, parsed: TypedEvent, standing: Standing, came: Option<Arrival>) -> Passage<M>
        requires read { ReadAs (event_view event) parsed }
        requires client { IsClients (event_view event) }
        ensures event { result.event ≡ Some (event_view event) }
        ensures parsed { result.parsed ≡ parsed }
        ensures standing { result.standing ≡ standing }
    {
        match event {
            Event::Client {
                moment,
                client,
                way,
                bytes,
            } => Passage {
                standing,
                came,
                moment,
                query: Some(Query {
                    asker: Asker { client, way },
                    bytes,
                }),
                parsed,
                given: None,
                machine: PhantomData,
            },
            _ => unreachable!(),
        }
    }

    /// Sees whether it has to ask for admission, where that is still to be seen: each query has to, and nothing else.
    pub fn ask(&mut self, admission: &SharedAdmission)
        ensures stands { StandsAs admission.now.start self.old.parsed self.old.standing self.new.standing }
        ensures rest { self.new ≡ record self.old { standing = self.new.standing } }
    {
        if matches!(self.standing, Standing::Comes) {
            self.standing = admission.standing_of(self.parsed.parsed());
        }
    }

    /// When it came, or was called in, in milliseconds.
    pub fn moment(&self) -> u64
        ensures { IfSome self.now.event (λ e. result ≡ told_moment e) }
    {
        self.moment
    }

    /// The machine takes its step.
    pub fn step<L: Ledger>(
        &mut self,
        book: &mut Book<M, L>,
        ticket: &mut Ticket<L>,
    ) -> Result<(), PoolError>
        ensures ok { OnOk result (TakesStep M.moves M.begins ticket.old self.old self.new ticket.new) }
        ensures err { IfErr result (λ e. (self.new ≡ self.old) × IsEventRefused ticket.old ticket.new e) }
    {
        let given = step_locked(book, ticket, &self.parsed)?;
        self.given = Some(given);
        Ok(())
    }

    /// Tells admission what the step gave: the query is open where a server is asked, and else it is settled.
    pub fn settle(&self, admission: &mut Admission<Query>)
        ensures { IfSome self.now.event (λ e. admission.new ≡ told self.now.standing (asks_server self.now.given) (told_moment e) admission.old) }
    {
        if let Standing::Admitted(Question { key, client, .. }) = self.standing {
            if self.asks() {
                admission.opened(key, client, self.moment);
            } else {
                admission.settled(key, client);
            }
        }
    }

    // Whether its step asks a server.
    fn asks(&self) -> bool
        ensures { result ≡ asks_server self.now.given }
    {
        match &self.given {
            Some(given) => matches!(given.first, Some(TypedAction::Ask { .. })),
            None => false,
        }
    }

    /// What its step gave, written. None where no step was taken, or it wanted memory.
    pub fn write(&self, alloc: Global, writer: &mut Writer) -> Result<Option<Actions>, Starved>
        ensures some { IfOk result (λ o. IfSome o (IsAnswered M.moves M.begins self.now.event)) }
        ensures none { IfOk result (λ o. IfNone o (self.now.given ≡ None)) }
    {
        match &self.given {
            Some(given) => Ok(Some(write_actions(alloc, writer, given)?)),
            None => Ok(None),
        }
    }

    /// What came, if it does not wait in admission: it is not here any more.
    pub fn take_query(&mut self) -> Option<Query>
        ensures { MatchOption result (self.old.event ≡ None) (IsOfQuery self.old.event) }
    {
        self.query.take()
    }
}

impl<M: Answering<Event = TypedEvent, Out = TypedActions>> Passage<M> {
    /// The machine takes its step at once, where its answer is at hand and it has not asked for admission; whether it
    /// did. It stands as answered from then on, with what the step gave: nothing, where that wanted memory.
    pub fn answer<L: Ledger>(&mut self, book: &mut Book<M, L>, ticket: &mut Ticket<L>) -> bool
        ensures none { OnFalse result ((self.new ≡ self.old) × (ticket.new ≡ ticket.old)) }
        ensures answered { OnTrue result (AnswersAtOnce M.moves M.begins (M.has_answer book.old.state) ticket.old self.old self.new ticket.new) }
    {
        if !matches!(self.standing, Standing::Comes) {
            return false;
        }
        let Some(given) = answer_locked(book, ticket, &self.parsed) else {
            return false;
        };
        self.standing = Standing::Answered;
        self.given = given.ok();
        true
    }

    /// Asks for admission, where it has to; whether its step is to be taken now. What admission drops is answered all
    /// the same where the machine holds its answer.
    pub fn enter<L: Ledger>(&mut self, admission: &mut Admission<Query>, book: &Book<M, L>) -> bool
        ensures passed { result ≡ is_passed self.new.standing }
        ensures here { OnTrue result (self.new ≡ record self.old { standing = self.new.standing }) }
        ensures asked { Enters (M.has_answer book.now.state) self.old.standing admission.old self.old self.new admission.new }
    {
        if let Standing::Asks(question) = self.standing
            && let Some(query) = self.query.take()
        {
            let (decided, query) = stand(admission, question, self.moment, query);
            self.standing = let_by(book, &self.parsed, decided);
            self.query = query;
        }
        matches!(self.standing, Standing::Free | Standing::Admitted(_))
    }
}
