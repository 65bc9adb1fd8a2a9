//! Orders carried out one by one.
ghost use Rattle.std.specs.Prelude.{◌≡◌, ◌+◌, ◌++◌, IfOk, OnOk, None, length, map, take, string_bytes};
ghost use Rattle.script.specs.Orders.{order_seen};
ghost use Rattle.script.specs.Orders as order;
ghost use Rattle.simnet.specs.Views.{sim_event_view};
ghost use Rattle.score.specs.Sends.{way_at};
ghost use Rattle.play.specs.Plays.{SendsQuery, Carries, Does, Occurs, Plays, beginning, coming, take_truncated, last_line};
ghost use Rattle.play.specs.Seen.{state_of};
ghost use Rattle.play.specs.Shown.{client_of};
ghost use Rattle.play.specs.Played.{IsPlayed, IsReady, settings};

use crate::show::Show;
use dname::Name;
use engine::Settings;
use events::Bytes;
use memory::{Heap, Starved};
use network::network_law;
use rdata::RType;
use score::{Clients, Count, Sends, query_bytes};
use script::Order;
use simnet::{Sim, SimEvent};
use std::alloc::Allocator;
use wire::{TCP_LIMIT, Via};
use worlds::World;

/// What is printed of a script in a world: a line for each ask, the lines of each reply, a line for bytes of a client
/// that are dropped, for other queries that are due, and for a step without memory; at last how many replies to
/// recursive queries were right, of those that are no SERVFAIL, and each of them is (`network::network_law`).
pub fn play<A: Heap>(
    alloc: A,
    world: World<A>,
    orders: Vec<Order<A>, A>,
) -> Result<String<A>, Starved>
    ensures { IfOk result (λ text. IsPlayed world (map order_seen orders.items) (string_bytes text)) }
{
    network_law();
    world.well_formed_law();
    let mut player = Player::new(alloc, world)?;
    player.follow_all(orders)?;
    player.end()
}

/// What a resolver is set to in a script: servers are asked at the usual port (RFC 1035, section 4.2).
pub fn settings() -> Settings
    ensures { result ≡ settings }
{
    Settings {
        cache: 1_024,
        delegations: 1_024,
        penalties: 1_024,
        failures: 1_024,
        sockets: 16,
        port: 53,
        seed: [0; 32],
    }
}

// Bytes as a client can send them: as many as a message over TCP can have (RFC 1035, section 4.2.2).
fn shortened<A: Heap>(mut bytes: Vec<u8, A>) -> Bytes<A>
    ensures { result ≡ take 65535 bytes.items }
{
    bytes.truncate(TCP_LIMIT);
    Bytes::new(bytes)
}

// The reply to an ask that went out this way comes.
fn coming<A: Allocator>(moment: u64, number: u64, way: Option<Via>) -> SimEvent<A>
    ensures is { sim_event_view result ≡ coming moment number way }
    ensures none { client_of (sim_event_view result) ≡ None }
{
    match way {
        None => SimEvent::Carry { moment, number },
        Some(Via::Udp) => SimEvent::Carry { moment, number },
        Some(Via::Tcp) => SimEvent::CarryTcp { moment, number },
    }
}

// An ask whose reply comes truncated is left no more; over TCP none does.
fn take_truncated<A: Allocator>(sends: &mut Sends<A>, number: u64)
    ensures { sends.new.marks ≡ take_truncated sends.old.marks number (way_at sends.old.marks number) }
{
    match sends.way(number) {
        None => (),
        Some(Via::Udp) => sends.take_off(number),
        Some(Via::Tcp) => (),
    }
}

// Who carries out the orders, and the moment of what follows, in milliseconds.
#[derive(Drop)]
struct Player<A: Allocator> {
    moment: u64,
    show: Show<A>,
}

impl<A: Heap> Player<A> {
    fn new(alloc: A, world: World<A>) -> Result<Player<A>, Starved>
        ensures { IfOk result (λ p. IsReady world (state_of p)) }
    {
        match Sim::new(alloc, world, settings()) {
            Ok(network) => Ok(Player::of(alloc, network)),
            Err(_) => Err(Starved),
        }
    }

    // At the beginning, in that network.
    fn of(alloc: A, network: Sim<A>) -> Player<A>
        ensures { state_of result ≡ beginning network }
    {
        Player {
            moment: 0,
            show: Show {
                alloc,
                network,
                clients: Clients::new(alloc),
                sends: Sends::new(alloc),
                count: Count::new(),
                text: String::new(alloc),
            },
        }
    }

    fn follow_all(&mut self, orders: Vec<Order<A>, A>) -> Result<(), Starved>
        ensures { OnOk result (Plays (map order_seen orders.items) (state_of self.old) (state_of self.new)) }
    {
        for order in orders {
            self.follow(order)?;
        }
        Ok(())
    }

    fn follow(&mut self, order: Order<A>) -> Result<(), Starved>
        ensures { OnOk result (Does (order_seen order) (state_of self.old) (state_of self.new)) }
    {
        match order {
            Order::At(moment) => {
                self.moment = moment;
                Ok(())
            }
            Order::Ask {
                name,
                kind,
                via,
                recursive,
            } => self.query(via, name, kind, recursive),
            Order::Raw { bytes, via } => self.raw(via, bytes),
            Order::Carry(number) => self.carry(number),
            Order::Truncate(number) => self.truncate(number),
            Order::Lose(number) => self.lose(number),
            Order::Run => self.run(),
            Order::Tick => self.tick(),
        }
    }

    // The number of the next client.
    fn next_client(&self) -> Result<u64, Starved>
        ensures { IfOk result (λ n. n ≡ length self.now.show.clients + 1) }
    {
        self.show.clients.next().ok_or(Starved)
    }

    // A client more asks for a name and a type.
    fn query(
        &mut self,
        way: Via,
        name: Name<A>,
        kind: RType,
        recursive: bool,
    ) -> Result<(), Starved>
        ensures { OnOk result (Does (order.ask name kind way recursive) (state_of self.old) (state_of self.new)) }
    {
        let client = self.next_client()?;
        let bytes = query_bytes(self.show.alloc, client, name, kind, recursive)?;
        self.ask(way, bytes)
    }

    // A client more sends bytes as they stand.
    fn raw(&mut self, way: Via, bytes: Vec<u8, A>) -> Result<(), Starved>
        ensures { OnOk result (Does (order.raw bytes.items way) (state_of self.old) (state_of self.new)) }
    {
        self.ask(way, shortened(bytes))
    }

    // A client more sends bytes.
    fn ask(&mut self, way: Via, bytes: Bytes<A>) -> Result<(), Starved>
        ensures { OnOk result (SendsQuery way bytes (state_of self.old) (state_of self.new)) }
    {
        let client = self.show.clients.push(self.show.alloc, bytes.as_slice())?;
        let event = SimEvent::Client {
            moment: self.moment,
            client,
            way,
            bytes,
        };
        self.show.ask(client, event)
    }

    // The reply to an ask comes.
    fn carry(&mut self, number: u64) -> Result<(), Starved>
        ensures { OnOk result (Carries number (state_of self.old) (state_of self.new)) }
    {
        self.show.sends.take_off(number);
        self.come(number)
    }

    // It comes by the way of the ask.
    fn come(&mut self, number: u64) -> Result<(), Starved>
        ensures is { OnOk result (Occurs (coming self.old.moment number (way_at self.old.show.sends.marks number)) (state_of self.old) (state_of self.new)) }
        ensures passed { OnOk result (self.new.show.sends.passed ≡ self.old.show.sends.passed) }
    {
        let way = self.show.sends.way(number);
        self.show.happen(coming(self.moment, number, way))
    }

    // It comes truncated.
    fn truncate(&mut self, number: u64) -> Result<(), Starved>
        ensures { OnOk result (Does (order.truncate number) (state_of self.old) (state_of self.new)) }
    {
        take_truncated(&mut self.show.sends, number);
        self.show.happen(SimEvent::CarryTruncated {
            moment: self.moment,
            number,
        })
    }

    // It never comes.
    fn lose(&mut self, number: u64) -> Result<(), Starved>
        ensures { OnOk result (Does (order.lose number) (state_of self.old) (state_of self.new)) }
    {
        self.show.sends.take_off(number);
        self.show.happen(SimEvent::Lose {
            moment: self.moment,
            number,
        })
    }

    // Replies come to the asks that are left, that of the lowest number first, until none is left.
    fn run(&mut self) -> Result<(), Starved>
        ensures { OnOk result (Does order.run (state_of self.old) (state_of self.new)) }
    {
        while let Some(number) = self.show.sends.take_lowest() {
            self.come(number)?;
        }
        Ok(())
    }

    // Time passes.
    fn tick(&mut self) -> Result<(), Starved>
        ensures { OnOk result (Does order.tick (state_of self.old) (state_of self.new)) }
    {
        self.show.happen(SimEvent::Tick {
            moment: self.moment,
        })
    }

    // The lines, and the last one.
    fn end(self) -> Result<String<A>, Starved>
        ensures { IfOk result (λ text. string_bytes text ≡ string_bytes self.show.text ++ last_line self.show.count) }
    {
        let show = self.show;
        let Count { replies, right } = show.count;
        let mut text = show.text;
        write!(&mut text, "right {right} of {replies}\n")?;
        Ok(text)
    }
}
