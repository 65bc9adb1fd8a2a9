//! A network in memory: a resolver and the servers of a world.
ghost use Rattle.std.specs.Prelude.{◌≡◌, Some, None, IfOk, OnErr, MatchResult, length, option_copied, option_map};
ghost use Rattle.network.specs.Networks.{NetworkEvent, Carry, CarryTruncated, CarryTcp, Lose, sent_at, Reaches, NetworkStep};
ghost use Rattle.events.specs.Views.{event_view};
ghost use Rattle.simnet.specs.Beginnings.{IsNetworkOf, SimRefuses};
ghost use Rattle.simnet.specs.Promises.{StaysRight, StaysRun};
ghost use Rattle.simnet.specs.Views.{sim_event_view};

use crate::action::SimActions;
use crate::begin::resolver_of;
use crate::event::SimEvent;
use crate::fault::SimError;
use crate::reach::{lost, over_tcp, truncated_over_udp, whole_over_udp};
use crate::sent::Sent;
use crate::show::shown;
use engine::{Core, Settings};
use events::Event;
use memory::{Heap, Starved};
use network::network_law;
use std::alloc::{Allocator, Global};
use std::marker::Model;
use worlds::World;

/// A network in memory: a resolver, the servers of a world, which reply to its asks, and all asks that went out.
pub struct Sim<A: Allocator = Global> {
    alloc: A,
    world: World<A>,
    resolver: Core<A>,
    sends: Vec<Sent<A>, A>,
}

// By hand, so that whatever drops a network calls this, and does not spell out all that it holds.
impl<A: Allocator> Drop for Sim<A> {
    fn drop(self) {
        let Sim {
            alloc: _,
            world,
            resolver,
            sends,
        } = self;
        drop(world);
        drop(resolver);
        drop(sends);
    }
}

impl<A: Allocator> Model for Sim<A> {
    ghost use Rattle.network.specs.Networks.{Network};

    ghost Value = { Network };

    ghost view = { λ s. record { world = s.world; resolver = s.resolver; sends = s.sends.items } };
}

impl<A: Allocator> Sim<A> {
    /// The world whose servers reply.
    pub fn world(&self) -> &World<A>
        ensures { result.now ≡ self.now.world }
    {
        &self.world
    }

    /// How many asks went out: they have the numbers from 1 on.
    pub fn asks(&self) -> u64
        ensures { result ≡ length self.now.sends }
    {
        self.sends.len() as u64
    }

    /// The ask of this number, where it went out.
    pub fn sent(&self, number: u64) -> Option<&Sent<A>>
        ensures { option_copied result ≡ sent_at self.now.sends number }
    {
        if number == 0 {
            return None;
        }
        self.sends.get((number - 1) as usize)
    }
}

impl<A: Heap> Sim<A> {
    /// A network of that world before its first event. The first that holds is refused: a setting out of its
    /// limits (1), out of memory (2).
    pub fn new(alloc: A, world: World<A>, settings: Settings) -> Result<Sim<A>, SimError>
        ensures { MatchResult result (IsNetworkOf world settings) (λ e. SimRefuses e settings) }
    {
        let resolver = resolver_of(alloc, &world, settings)?;
        Ok(Sim {
            alloc,
            world,
            resolver,
            sends: Vec::new(alloc),
        })
    }

    // What a datagram that is carried brings: the reply as it comes.
    fn carried(&self, moment: u64, number: u64) -> Result<Option<Event<A>>, Starved>
        ensures { IfOk result (λ e. Reaches self.now (Carry moment number) (option_map event_view e)) }
    {
        match self.sent(number) {
            None => Ok(None),
            Some(sent) => Ok(whole_over_udp(self.alloc, &self.world, sent, moment)?),
        }
    }

    fn carried_truncated(&self, moment: u64, number: u64) -> Result<Option<Event<A>>, Starved>
        ensures { IfOk result (λ e. Reaches self.now (CarryTruncated moment number) (option_map event_view e)) }
    {
        match self.sent(number) {
            None => Ok(None),
            Some(sent) => Ok(truncated_over_udp(self.alloc, &self.world, sent, moment)?),
        }
    }

    fn carried_over_tcp(&self, moment: u64, number: u64) -> Result<Option<Event<A>>, Starved>
        ensures { IfOk result (λ e. Reaches self.now (CarryTcp moment number) (option_map event_view e)) }
    {
        match self.sent(number) {
            None => Ok(None),
            Some(sent) => Ok(over_tcp(self.alloc, &self.world, sent, moment)?),
        }
    }

    fn lost(&self, moment: u64, number: u64) -> Option<Event<A>>
        ensures { Reaches self.now (Lose moment number) (option_map event_view result) }
    {
        match self.sent(number) {
            None => None,
            Some(sent) => lost(sent, moment),
        }
    }

    // What an event is to the resolver: an event of its own, or nothing.
    fn reached(&self, event: SimEvent<A>) -> Result<Option<Event<A>>, Starved>
        ensures { IfOk result (λ e. Reaches self.now (sim_event_view event) (option_map event_view e)) }
    {
        match event {
            SimEvent::Client {
                moment,
                client,
                way,
                bytes,
            } => Ok(Some(Event::Client {
                moment,
                client,
                way,
                bytes,
            })),
            SimEvent::Carry { moment, number } => Ok(self.carried(moment, number)?),
            SimEvent::CarryTruncated { moment, number } => Ok(self.carried_truncated(
                moment, number,
            )?),
            SimEvent::CarryTcp { moment, number } => Ok(self.carried_over_tcp(moment, number)?),
            SimEvent::Lose { moment, number } => Ok(self.lost(moment, number)),
            SimEvent::Tick { moment } => Ok(Some(Event::Tick { moment })),
        }
    }

    // The resolver takes a step by what reaches it. What the network takes for it is taken before.
    fn pass(&mut self, brought: &Event<A>) -> Result<SimActions<A>, Starved>
        ensures ok { IfOk result (λ a. (e : NetworkEvent) → Reaches self.old e (Some (event_view brought.now)) → NetworkStep self.old e (Some a) self.new) }
        ensures err { OnErr result ((e : NetworkEvent) → Reaches self.old e (Some (event_view brought.now)) → NetworkStep self.old e None self.new) }
    {
        self.sends.reserve(1)?;
        let actions = self.resolver.step(brought)?;
        Ok(shown(&mut self.sends, actions))
    }

    /// One step. An event that reaches nobody changes nothing: the reply to an ask that never went out, or went
    /// out the other way. Where memory is wanting before the resolver's step nothing changes; where it is wanting
    /// in that step nothing goes out, and the query that the event was for is gone. Each reply is right, whatever
    /// led here, and is to the query that the resolver's step serves (`network::network_law`).
    pub fn step(&mut self, event: SimEvent<A>) -> Result<SimActions<A>, Starved>
        ensures ok { IfOk result (λ a. NetworkStep self.old (sim_event_view event) (Some a) self.new) }
        ensures err { OnErr result (NetworkStep self.old (sim_event_view event) None self.new) }
        ensures right { IfOk result (λ a. StaysRight self.old (sim_event_view event) (Some a)) }
        ensures run { IfOk result (λ a. StaysRun self.old (sim_event_view event) (Some a) self.new) }
    {
        network_law();
        match self.reached(event)? {
            None => Ok(SimActions::none()),
            Some(brought) => Ok(self.pass(&brought)?),
        }
    }
}
