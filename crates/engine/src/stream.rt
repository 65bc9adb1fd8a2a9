//! Replies over TCP, and asks over TCP that failed.
ghost use Rattle.std.specs.Result.{IsOkAnd};
ghost use Rattle.std.specs.Prelude.{◌≡◌, ℕ, List, Some, None, IfOk, OnErr, MatchOption, Contains, option_copied};
ghost use Rattle.resolution.specs.Jobs as jobs;
ghost use Rattle.rdata.specs.Types.{type_number};
ghost use Rattle.wire.specs.declared.via.Via.TheVariants as via;
ghost use Rattle.classify.specs.Read.{AreRead};
ghost use Rattle.classify.specs.Views.{read_view};
ghost use Rattle.runs.specs.States.{Open, TcpReply, TcpFailed};
ghost use Rattle.runs.specs.Steps.{IsOfNumber};
ghost use Rattle.open_queries.specs.Lookups.{IsTheOne};
ghost use Rattle.engine.specs.ResolverStates.{state_of, IsSound};
ghost use Rattle.engine.specs.Replies.{alone, if_any};
ghost use Rattle.engine.specs.Moves.{HasBeenRead, IsHeard, IsLost};
ghost use Rattle.engine.specs.Finds.{Finds, OfTheOne, Tells, Untold};
ghost use Rattle.engine.specs.Turns.{Turns, IsQuiet};

use crate::state::ResolverState;
use classify::{Reading, read};
use iterate::Input;
use memory::{Heap, Starved};
use rdata::{Addr, RType};
use typed::TypedAction;
use wire::Via;

impl<A: Heap> ResolverState<A> {
    // The server that the open query of that number asks.
    pub fn server_of(&self, number: u64) -> Addr
        requires { (q : Open) × IsTheOne self.now.queries number q }
        ensures { OfTheOne self.now.queries number (λ q. result ≡ (q.ask).server) }
    {
        match self.queries.get(number) {
            Some(open) => open.ask().server,
            None => unreachable!(),
        }
    }

    // The open query whose ask went over TCP under this number.
    fn asked_over(&self, ask: u64) -> Option<u64>
        ensures { MatchOption result ((q : Open) → Contains self.now.queries q → IsOfNumber ask q → ⊥) (λ k. Finds (IsOfNumber ask) self.now.queries k) }
    {
        self.queries.apart_law();
        self.queries.find_tcp(ask)
    }

    // The type that the ask of the open query of that number is for.
    pub fn kind_of(&self, number: u64) -> RType
        requires { (q : Open) × IsTheOne self.now.queries number q }
        ensures { OfTheOne self.now.queries number (λ q. (q.ask).kind ≡ type_number result) }
    {
        match self.queries.get(number) {
            Some(open) => open.ask().kind,
            None => unreachable!(),
        }
    }

    // Treats the open ask of the query of that number as failed.
    fn fail_ask(&mut self, number: u64) -> Result<TypedAction<A>, Starved>
        requires sound { IsSound (state_of self.old) }
        requires there { (q : Open) × IsTheOne self.old.queries number q }
        ensures ok { IfOk result (λ a. Tells (state_of self.old) number jobs.TcpFailed (alone a) (state_of self.new)) }
        ensures err { OnErr result (Untold (state_of self.old) number jobs.TcpFailed (state_of self.new)) }
    {
        let server = self.server_of(number);
        self.go_on(number, Input::TcpFailed(server))
    }

    // Serves the open query of that number by what was read of the reply to its ask over TCP, where that is accepted.
    fn hear_over(
        &mut self,
        ask: u64,
        number: u64,
        reading: Option<&Reading<A>>,
    ) -> Result<Option<TypedAction<A>>, Starved>
        requires sound { IsSound (state_of self.old) }
        requires there { (q : Open) × IsTheOne self.old.queries number q }
        requires asked { OfTheOne self.old.queries number (IsOfNumber ask) }
        requires read { HasBeenRead via.Tcp (read_view (option_copied reading)) }
        ensures ok { (now : ℕ) (bytes : List ℕ) → AreRead via.Tcp bytes (read_view (option_copied reading.entry)) → IfOk result (λ o. IsHeard (state_of self.old) number (TcpReply now ask bytes) o (state_of self.new)) }
        ensures err { (now : ℕ) (bytes : List ℕ) → AreRead via.Tcp bytes (read_view (option_copied reading.entry)) → OnErr result (IsLost (state_of self.old) number (TcpReply now ask bytes) (state_of self.new)) }
    {
        match reading {
            Some(reading) => self.hear(number, reading),
            None => {
                self.kind_of(number);
                Ok(None)
            }
        }
    }

    // Treats what was read of a reply over TCP: the query of its ask is served by it, or by the failure of that ask
    // where it is not accepted.
    pub fn read_reply(
        &mut self,
        ask: u64,
        reading: Option<&Reading<A>>,
    ) -> Result<Option<TypedAction<A>>, Starved>
        requires sound { IsSound (state_of self.old) }
        requires read { HasBeenRead via.Tcp (read_view (option_copied reading)) }
        ensures ok { (now : ℕ) (bytes : List ℕ) → AreRead via.Tcp bytes (read_view (option_copied reading.entry)) → IfOk result (λ a. Turns (state_of self.old) (TcpReply now ask bytes) (Some (if_any a)) (state_of self.new)) }
        ensures err { (now : ℕ) (bytes : List ℕ) → AreRead via.Tcp bytes (read_view (option_copied reading.entry)) → OnErr result (Turns (state_of self.old) (TcpReply now ask bytes) None (state_of self.new)) }
    {
        let Some(number) = self.asked_over(ask) else {
            return Ok(None);
        };
        match self.hear_over(ask, number, reading)? {
            Some(given) => Ok(Some(given)),
            None => Ok(Some(self.fail_ask(number)?)),
        }
    }

    // Treats a reply over TCP. Only one to an open ask is read.
    pub fn tcp_reply(&mut self, ask: u64, bytes: &[u8]) -> Result<Option<TypedAction<A>>, Starved>
        requires sound { IsSound (state_of self.old) }
        ensures ok { (now : ℕ) → IfOk result (λ a. Turns (state_of self.old) (TcpReply now ask bytes.now) (Some (if_any a)) (state_of self.new)) }
        ensures err { (now : ℕ) → OnErr result (Turns (state_of self.old) (TcpReply now ask bytes.now) None (state_of self.new)) }
        ensures quiet { (now : ℕ) → IsQuiet (state_of self.old) (TcpReply now ask bytes.now) → IsOkAnd result (λ o. o ≡ None) }
    {
        let Some(number) = self.asked_over(ask) else {
            return Ok(None);
        };
        match read(self.alloc, Via::Tcp, bytes) {
            Err(starved) => {
                self.forget(number);
                Err(starved)
            }
            Ok(reading) => {
                let given = self.read_reply(ask, reading.as_ref());
                drop(reading);
                given
            }
        }
    }

    // Treats the failure of the ask over TCP of this number.
    pub fn tcp_failed(&mut self, ask: u64) -> Result<Option<TypedAction<A>>, Starved>
        requires sound { IsSound (state_of self.old) }
        ensures ok { (now : ℕ) → IfOk result (λ a. Turns (state_of self.old) (TcpFailed now ask) (Some (if_any a)) (state_of self.new)) }
        ensures err { (now : ℕ) → OnErr result (Turns (state_of self.old) (TcpFailed now ask) None (state_of self.new)) }
        ensures quiet { (now : ℕ) → IsQuiet (state_of self.old) (TcpFailed now ask) → IsOkAnd result (λ o. o ≡ None) }
    {
        match self.asked_over(ask) {
            Some(number) => Ok(Some(self.fail_ask(number)?)),
            None => Ok(None),
        }
    }
}
