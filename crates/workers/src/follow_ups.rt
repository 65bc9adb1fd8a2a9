//! Machines that call for follow-up events.
ghost use Rattle.std.specs.Prelude.{◌≡◌, ◌++◌, IfOk, OnOk};

use book::Machine;
use memory::Starved;
use std::collections::VecDeque;

/// A machine that workers put queries to, and which calls for follow-up events: events that are to follow what came out
/// of a step, as a datagram that was sent is to be carried.
pub trait FollowUps: Machine {
    /// What a worker has to put.
    type Query: Drop + Send + Sync;

    ghost use Rattle.std.specs.Prelude.{Result, List};
    ghost use Rattle.memory.specs.declared.Starved.{Starved};

    /// The event of a query.
    ghost event_of: { Self.Query → Self.Event };

    /// The events that are to follow a step, in their order.
    ghost follow_ups: { Self.Event → Result Self.Out Starved → List Self.Event };

    /// The event of a query.
    fn event(query: &Self::Query) -> Result<Self::Event, Starved>
        ensures { IfOk result (λ e. e ≡ event_of query.now) };

    /// What is to follow a step, behind what waits already.
    fn add_follow_ups(
        event: &Self::Event,
        out: &Result<Self::Out, Starved>,
        waiting: &mut VecDeque<Self::Event>,
    ) -> Result<(), Starved>
        ensures { OnOk result (waiting.new.items ≡ waiting.old.items ++ follow_ups event.now out.now) };
}
