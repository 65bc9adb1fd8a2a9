//! A network as a machine that workers share, whose follow-up events are the replies to its asks.
ghost use Rattle.std.specs.Prelude.{◌≡◌, [], ◌∷◌};
ghost use Rattle.simnet.specs.Views.{sim_action_view};
ghost use Rattle.storm.specs.FollowUps.{moment_of, is_follow_up};

use crate::query::StormQuery;
use book::Machine;
use memory::Starved;
use simnet::{Sim, SimAction, SimActions, SimEvent};
use std::collections::VecDeque;
use std::marker::{Brand, PhantomData};
use workers::FollowUps;

/// From which networks a history may begin. Each run picks the one that it is given.
pub trait Beginning {
    ghost use Rattle.network.specs.Networks.{Network};

    ghost begins: { Network → Type 0 };
}

impl Beginning for Brand {
    ghost begins = { λ _. Unit {0} };
}

/// A network that begins as `P` says.
pub struct Within<P: Beginning> {
    of: PhantomData<P>,
}

impl<P: Beginning> Machine for Within<P> {
    type State = Sim;

    type Event = SimEvent;

    type Out = SimActions;

    ghost use Rattle.simnet.specs.Promises.{Moves};

    ghost moves = { λ s e r t. Moves s e r t };

    ghost begins = { λ s. P.begins s };

    fn step(state: &mut Sim, event: &SimEvent) -> Result<SimActions, Starved> {
        state.step(event.copied()?)
    }

    fn copy_event(event: &SimEvent) -> Result<SimEvent, Starved> {
        event.copied()
    }

    fn copy_out(out: &SimActions) -> Result<SimActions, Starved> {
        out.copied()
    }

    fn same_event(a: &SimEvent, b: &SimEvent) -> bool {
        a.same(b)
    }

    fn same_out(a: &SimActions, b: &SimActions) -> bool {
        a.same(b)
    }
}

/// The reply to each ask that goes out is carried, at the moment of the event that it came of.
impl<P: Beginning> FollowUps for Within<P> {
    type Query = StormQuery;

    ghost use Rattle.storm.specs.FollowUps.{asked, follow_ups_of};

    ghost event_of = { asked };

    ghost follow_ups = { follow_ups_of };

    fn event(query: &StormQuery) -> Result<SimEvent, Starved> {
        Ok(SimEvent::Client {
            moment: query.moment,
            client: query.client,
            way: query.way,
            bytes: query.bytes.copied()?,
        })
    }

    fn add_follow_ups(
        event: &SimEvent,
        out: &Result<SimActions, Starved>,
        waiting: &mut VecDeque<SimEvent>,
    ) -> Result<(), Starved> {
        let Ok(actions) = out else {
            return Ok(());
        };
        let Some(follow_up) = follow_up_after(moment_of(event), actions) else {
            return Ok(());
        };
        waiting.push_back(follow_up)?;
        Ok(())
    }
}

// The moment of an event.
fn moment_of(event: &SimEvent) -> u64
    ensures { result ≡ moment_of event.now }
{
    match event {
        SimEvent::Client { moment, .. } => *moment,
        SimEvent::Carry { moment, .. } => *moment,
        SimEvent::CarryTruncated { moment, .. } => *moment,
        SimEvent::CarryTcp { moment, .. } => *moment,
        SimEvent::Lose { moment, .. } => *moment,
        SimEvent::Tick { moment } => *moment,
    }
}

// What carries the reply to the ask that went out, if one did.
fn follow_up_after(moment: u64, actions: &SimActions) -> Option<SimEvent>
    ensures { is_follow_up moment actions.now result }
{
    match &actions.first {
        Some(action) => follow_up_of(moment, action),
        None => None,
    }
}

fn follow_up_of(moment: u64, action: &SimAction) -> Option<SimEvent>
    ensures { is_follow_up moment (sim_action_view action.now ∷ []) result }
{
    match *action {
        SimAction::Sent { number } => Some(SimEvent::Carry { moment, number }),
        SimAction::Asked { number } => Some(SimEvent::CarryTcp { moment, number }),
        SimAction::Reply { .. } => None,
    }
}
