//! What a machine is, so that one thread or many may drive it.
ghost use Rattle.std.specs.Prelude.{◌≡◌, ◌↔◌, IfOk, MatchOption, IsTrue};

use memory::Starved;

/// A machine that one thread could run alone: it has a state, and each step takes an event and gives what
/// comes out.
pub trait Machine {
    /// What a step reads and changes.
    type State: Drop + Send;

    /// What a step is given.
    type Event: Drop + Send;

    /// What comes out of a step.
    type Out: Drop + Send;

    ghost use Rattle.std.specs.Prelude.{Result};
    ghost use Rattle.memory.specs.declared.Starved.{Starved};

    /// What a step may do: the old state, the event, what comes out, or out of memory, and the new state.
    ghost moves: { Self.State → Self.Event → Result Self.Out Starved → Self.State → Type 0 };

    /// What the state may be before the first step.
    ghost begins: { Self.State → Type 0 };

    /// One step. Where it wants memory the state may have changed, as `moves` says.
    fn step(state: &mut Self::State, event: &Self::Event) -> Result<Self::Out, Starved>
        ensures { moves state.old event.now result state.new };

    /// An equal event.
    fn copy_event(event: &Self::Event) -> Result<Self::Event, Starved>
        ensures { IfOk result (λ e. e ≡ event.now) };

    /// An equal outcome.
    fn copy_out(out: &Self::Out) -> Result<Self::Out, Starved>
        ensures { IfOk result (λ o. o ≡ out.now) };

    /// Whether two events are equal.
    fn same_event(a: &Self::Event, b: &Self::Event) -> bool
        ensures { IsTrue result ↔ (a.now ≡ b.now) };

    /// Whether two outcomes are equal.
    fn same_out(a: &Self::Out, b: &Self::Out) -> bool
        ensures { IsTrue result ↔ (a.now ≡ b.now) };
}

/// A machine of whose state sizes can be told, beside its steps.
pub trait Measured: Machine {
    /// What is told.
    type Sizes;

    /// The sizes of a state.
    ghost sizes_of: { Self.State → Self.Sizes };

    /// The sizes of this state.
    fn sizes(state: &Self::State) -> Self::Sizes
        ensures { result ≡ sizes_of state.now };
}

/// A machine that can tell before a step whether its state has the answer to an event.
pub trait Answering: Machine {
    /// Whether the answer to this event is there in this state.
    ghost has_answer: { Self.State → Self.Event → Type 0 };

    /// Whether the answer to this event is there. Nothing changes by that.
    fn holds(state: &Self::State, event: &Self::Event) -> Result<bool, Starved>
        ensures { IfOk result (λ b. IsTrue b ↔ has_answer state.now event.now) };

    /// Takes the step on this event where its answer is there and that shows at once. None, and no change, where not.
    fn answer(state: &mut Self::State, event: &Self::Event) -> Option<Result<Self::Out, Starved>>
        ensures { MatchOption result (state.new ≡ state.old) (λ r. has_answer state.old event.now × Self.moves state.old event.now r state.new) };
}
