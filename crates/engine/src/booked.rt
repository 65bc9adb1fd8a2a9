//! The resolver as the machine of a book: workers on several threads share it, and one history of its steps leads
//! to each of its states.
ghost use Rattle.engine.specs.AtHand.{AtHandAsksNobody};
ghost use Rattle.engine.specs.Histories.{HistoryIsRun, TypedHistoryIsRun};

use crate::machine::Core;
use book::{Answering, Machine, Measured};
use counters::StoreSizes;
use events::{Actions, Event};
use memory::Starved;
use std::alloc::Allocator;
use typed::{TypedActions, TypedEvent};

impl Machine for Core {
    type State = Core;

    type Event = Event;

    type Out = Actions;

    ghost use Rattle.engine.specs.Beginnings.{IsBegun};
    ghost use Rattle.engine.specs.Histories.{Moves};

    ghost moves = { λ s e r t. Moves s e r t };

    ghost begins = { IsBegun };

    fn step(state: &mut Core, event: &Event) -> Result<Actions, Starved> {
        state.step(event)
    }

    fn copy_event(event: &Event) -> Result<Event, Starved> {
        event.copied()
    }

    fn copy_out(out: &Actions) -> Result<Actions, Starved> {
        out.copied()
    }

    fn same_event(a: &Event, b: &Event) -> bool {
        a.same(b)
    }

    fn same_out(a: &Actions, b: &Actions) -> bool {
        a.same(b)
    }
}

/// The resolver as a machine whose events were read before its steps, and whose actions are written after them: while
/// it is locked no bytes are read or written.
pub struct TypedCore;

impl Machine for TypedCore {
    type State = Core;

    type Event = TypedEvent;

    type Out = TypedActions;

    ghost use Rattle.engine.specs.Beginnings.{IsBegun};
    ghost use Rattle.engine.specs.Histories.{TypedMoves};

    ghost moves = { λ s e r t. TypedMoves s e r t };

    ghost begins = { IsBegun };

    fn step(state: &mut Core, event: &TypedEvent) -> Result<TypedActions, Starved> {
        // For the proof: the event was read of some bytes.
        let _ = event.parsed();
        state.step_typed(event)
    }

    fn copy_event(event: &TypedEvent) -> Result<TypedEvent, Starved> {
        event.copied()
    }

    fn copy_out(out: &TypedActions) -> Result<TypedActions, Starved> {
        out.copied()
    }

    fn same_event(a: &TypedEvent, b: &TypedEvent) -> bool {
        a.same(b)
    }

    fn same_out(a: &TypedActions, b: &TypedActions) -> bool {
        a.same(b)
    }
}

impl Measured for TypedCore {
    type Sizes = StoreSizes;

    ghost use Rattle.lookup.specs.Views.{sizes_of};

    ghost sizes_of = { λ s. sizes_of s.stores };

    fn sizes(state: &Core) -> StoreSizes {
        state.sizes()
    }
}

impl Answering for TypedCore {
    ghost use Rattle.engine.specs.AtHand.{HasAnswer};

    ghost has_answer = { λ s e. HasAnswer s e };

    fn holds(state: &Core, event: &TypedEvent) -> Result<bool, Starved> {
        state.holds(event)
    }

    fn answer(state: &mut Core, event: &TypedEvent) -> Option<Result<TypedActions, Starved>> {
        // For the proof: the event was read of some bytes.
        let _ = event.parsed();
        state.answer(event)
    }
}

/// The history of such a book, from a resolver that has done nothing yet, is a run: each law of runs holds of it,
/// whichever worker took which step.
pub fn history_is_run<A: Allocator>(_alloc: A)
    ensures { HistoryIsRun A }
{}

/// The history of a book of the machine whose messages are read and written outside of its steps is a run too: a step
/// is one on the bytes that its event was read from, and its actions are the ones that are written of it.
pub fn typed_history_is_run<A: Allocator>(_alloc: A)
    ensures { TypedHistoryIsRun A }
{}

/// A step on a query whose answer is at hand (`Core::holds`) gives its reply, and asks no server.
pub fn at_hand_law()
    ensures { AtHandAsksNobody }
{}
