//! The events of a network and what the resolver does at each, as the lines of a play.
ghost use Rattle.std.specs.Prelude.{◌≡◌, Some, None, OnOk, codes};
ghost use Rattle.network.specs.Networks.{Reply};
ghost use Rattle.simnet.specs.Views.{sim_action_view, sim_event_view};
ghost use Rattle.play.specs.Plays.{Happens};
ghost use Rattle.play.specs.Seen.{seen, with_text, Acts, ActsAll, Heeds, way_action};
ghost use Rattle.play.specs.Shown.{client_of, drop_line};

use causes::Cause;
use memory::{Heap, Starved};
use reply_lines::{Action, put_action};
use score::{Clients, Count, Sends};
use simnet::{Sim, SimAction, SimActions, SimEvent};
use std::alloc::Allocator;
use wire::Via;

/// A network, and what was seen in it so far.
#[derive(Drop)]
pub(crate) struct Show<A: Allocator> {
    pub alloc: A,
    pub network: Sim<A>,
    pub clients: Clients<A>,
    pub sends: Sends<A>,
    pub count: Count,
    /// The lines so far.
    pub text: String<A>,
}

impl<A: Heap> Show<A> {
    /// An event of no client happens, and what the resolver does is printed.
    pub fn happen(&mut self, event: SimEvent<A>) -> Result<(), Starved>
        requires { client_of (sim_event_view event) ≡ None }
        ensures is { OnOk result (Happens (sim_event_view event) (seen self.old) (seen self.new)) }
        ensures passed { OnOk result (self.new.sends.passed ≡ self.old.sends.passed) }
    {
        match self.network.step(event) {
            Ok(actions) => self.show(actions),
            Err(Starved) => self.starve(),
        }
    }

    /// A client's bytes come; they are dropped where the resolver does nothing.
    pub fn ask(&mut self, client: u64, event: SimEvent<A>) -> Result<(), Starved>
        requires { client_of (sim_event_view event) ≡ Some client }
        ensures { OnOk result (Happens (sim_event_view event) (seen self.old) (seen self.new)) }
    {
        match self.network.step(event) {
            Ok(actions) => self.heed(client, actions),
            Err(Starved) => self.starve(),
        }
    }

    // What comes out after a client's bytes is printed; where that is nothing they are dropped.
    fn heed(&mut self, client: u64, actions: SimActions<A>) -> Result<(), Starved>
        ensures { OnOk result (Heeds client actions (seen self.old) (seen self.new)) }
    {
        if actions.first.is_none() && !actions.more_due {
            return self.let_fall(client);
        }
        self.show(actions)
    }

    // The bytes of a client are dropped.
    fn let_fall(&mut self, client: u64) -> Result<(), Starved>
        ensures { OnOk result (seen self.new ≡ with_text (drop_line client) (seen self.old)) }
    {
        put_action(self.alloc, &mut self.text, Action::Drop { client })?;
        Ok(())
    }

    // Memory was wanting in the step.
    fn starve(&mut self) -> Result<(), Starved>
        ensures is { OnOk result (seen self.new ≡ with_text (codes "starved\n") (seen self.old)) }
        ensures passed { OnOk result (self.new.sends.passed ≡ self.old.sends.passed) }
    {
        put_action(self.alloc, &mut self.text, Action::Starved)?;
        Ok(())
    }

    // What comes out of a step is printed: an action, and whether another query is due.
    fn show(&mut self, actions: SimActions<A>) -> Result<(), Starved>
        ensures is { OnOk result (ActsAll actions (seen self.old) (seen self.new)) }
        ensures passed { OnOk result (self.new.sends.passed ≡ self.old.sends.passed) }
    {
        let SimActions { first, more_due } = actions;
        if let Some(action) = first {
            self.action(action)?;
        }
        if more_due {
            put_action(self.alloc, &mut self.text, Action::Due)?;
        }
        Ok(())
    }

    fn action(&mut self, action: SimAction<A>) -> Result<(), Starved>
        ensures is { OnOk result (Acts (sim_action_view action) (seen self.old) (seen self.new)) }
        ensures passed { OnOk result (self.new.sends.passed ≡ self.old.sends.passed) }
    {
        match action {
            SimAction::Reply {
                client,
                way,
                bytes,
                cause,
            } => self.reply(client, way, bytes.as_slice(), cause),
            SimAction::Sent { number } => self.went_out(number, Via::Udp),
            SimAction::Asked { number } => self.went_out(number, Via::Tcp),
        }
    }

    // A reply is printed, and counted where the client's query is recursive.
    fn reply(
        &mut self,
        client: u64,
        _way: Via,
        bytes: &[u8],
        cause: Option<Cause>,
    ) -> Result<(), Starved>
        ensures is { OnOk result (Acts (Reply client _way bytes.now cause) (seen self.old) (seen self.new)) }
        ensures passed { OnOk result (self.new.sends.passed ≡ self.old.sends.passed) }
    {
        let shown = Action::Reply {
            client,
            bytes,
            cause,
        };
        put_action(self.alloc, &mut self.text, shown)?;
        if let Some(query) = self.clients.query(client) {
            self.count = self
                .count
                .with(self.alloc, self.network.world(), query, bytes)?;
        }
        Ok(())
    }

    // An ask went out.
    fn went_out(&mut self, number: u64, way: Via) -> Result<(), Starved>
        ensures is { OnOk result (Acts (way_action way number) (seen self.old) (seen self.new)) }
        ensures passed { OnOk result (self.new.sends.passed ≡ self.old.sends.passed) }
    {
        self.sends.push(way)?;
        match self.network.sent(number) {
            None => Ok(()),
            Some(sent) => {
                let shown = Action::Ask {
                    number,
                    way,
                    server: sent.to.address,
                    bytes: sent.bytes.as_slice(),
                };
                put_action(self.alloc, &mut self.text, shown)
            }
        }
    }
}
