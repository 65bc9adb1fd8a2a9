//! A network as a machine whose history several workers share.

use crate::action::SimActions;
use crate::event::SimEvent;
use crate::sim::Sim;
use book::Machine;
use memory::Starved;

/// A step needs memory for a copy of its event: where that is refused nothing changes.
impl Machine for Sim {
    type State = Sim;

    type Event = SimEvent;

    type Out = SimActions;

    ghost use Rattle.simnet.specs.Beginnings.{Begins};
    ghost use Rattle.simnet.specs.Promises.{Moves};

    ghost moves = { λ s e r t. Moves s e r t };

    ghost begins = { Begins };

    fn step(state: &mut Sim, event: &SimEvent) -> Result<SimActions, Starved> {
        state.step(event.copied()?)
    }

    fn copy_event(event: &SimEvent) -> Result<SimEvent, Starved> {
        event.copied()
    }

    fn copy_out(out: &SimActions) -> Result<SimActions, Starved> {
        out.copied()
    }

    fn same_event(a: &SimEvent, b: &SimEvent) -> bool {
        a.same(b)
    }

    fn same_out(a: &SimActions, b: &SimActions) -> bool {
        a.same(b)
    }
}
