//! Asks that go out, and the queries that wait for them. Socket and ID are of the generator's next word, and no two
//! open asks over UDP have socket, server and ID in common (RFC 5452, section 4).
ghost use Rattle.std.specs.Prelude.{◌≡◌, ◌+◌, ◌<◌, ◌/◌, ◌%◌, IfOk, OnErr};
ghost use Rattle.rdata.specs.Types.{type_number};
ghost use Rattle.typed.specs.Views.{said_view};
ghost use Rattle.runs.specs.States.{open_query, word_of, word_taken};
ghost use Rattle.runs.specs.Steps.{WaitsByUdp, WaitsByTcp};
ghost use Rattle.open_queries.specs.Lookups.{HasNo, IsFree};
ghost use Rattle.engine.specs.ResolverStates.{state_of, IsSound};
ghost use Rattle.engine.specs.Moves.{Puts, Halts};
ghost use Rattle.engine.specs.Replies.{alone};

use crate::state::ResolverState;
use dname::Name;
use events::{Ask, ClientQuery, Path};
use iterate::Job;
use limits::TCP_WAIT_MS;
use memory::{Heap, Starved};
use open_queries::Open;
use rand_core::utils::NextWord;
use rdata::{Addr, RType};
use typed::{TypedAction, send};

impl<A: Heap> ResolverState<A> {
    // The next word of the generator.
    fn word(&mut self) -> u32
        ensures is { result ≡ word_of self.old.generator }
        ensures state { state_of self.new ≡ record (state_of self.old) { generator = word_taken self.old.generator } }
    {
        self.generator.next_word()
    }

    // Sends a query's ask, which is like no other one; the query waits for it.
    fn put(
        &mut self,
        number: u64,
        client_query: ClientQuery<A>,
        job: Job<A>,
        ask: Ask<A>,
        due: u64,
    ) -> Result<TypedAction<A>, Starved>
        requires fresh { HasNo self.old.queries number }
        requires free { IsFree self.old.queries ask }
        ensures ok { IfOk result (λ a. Puts (state_of self.old) (open_query number client_query job ask due) (said_view a) (state_of self.new)) }
        ensures err { OnErr result (state_of self.new ≡ state_of self.old) }
    {
        let open = Open {
            number,
            client_query,
            job,
            ask,
            due,
        };
        match send(self.alloc, self.port, &open.ask) {
            Err(starved) => {
                drop(open);
                Err(starved)
            }
            Ok(action) => match self.queries.put(open) {
                Err(starved) => {
                    drop(action);
                    Err(starved)
                }
                Ok(()) => Ok(action),
            },
        }
    }

    // Asks a server in a datagram. The ID and the socket are of a word of the generator, the ID raised until no other
    // open ask is like it.
    pub fn ask_udp(
        &mut self,
        number: u64,
        client_query: ClientQuery<A>,
        job: Job<A>,
        server: Addr,
        name: Name<A>,
        kind: RType,
    ) -> Result<TypedAction<A>, Starved>
        requires sound { IsSound (state_of self.old) }
        requires fresh { HasNo self.old.queries number }
        ensures ok { IfOk result (λ a. WaitsByUdp (state_of self.old) client_query number self.old.opened server name (type_number kind) job self.old.stores (alone a) (state_of self.new)) }
        ensures err { OnErr result (Halts (state_of self.old) (state_of self.new)) }
    {
        let word = self.word();
        let socket = (word / 65_536 % u32::from(self.sockets)) as u16;
        let id = self.queries.free_id(socket, server, (word % 65_536) as u16);
        let due = self.clock + u64::from(job.wait_ms());
        let ask = Ask {
            path: Path::Udp(socket),
            server,
            id,
            name,
            kind,
        };
        self.put(number, client_query, job, ask, due)
    }

    // Asks a server over TCP, under the next number. The ID is of a word of the generator.
    pub fn ask_tcp(
        &mut self,
        number: u64,
        client_query: ClientQuery<A>,
        job: Job<A>,
        server: Addr,
        name: Name<A>,
        kind: RType,
    ) -> Result<TypedAction<A>, Starved>
        requires sound { IsSound (state_of self.old) }
        requires fresh { HasNo self.old.queries number }
        ensures ok { IfOk result (λ a. WaitsByTcp (state_of self.old) client_query number self.old.opened server name (type_number kind) job self.old.stores (alone a) (state_of self.new)) }
        ensures err { OnErr result (Halts (state_of self.old) (state_of self.new)) }
    {
        if self.tcp_asks == u64::MAX {
            drop(client_query);
            drop(job);
            drop(name);
            return Err(Starved);
        }
        let id = (self.word() % 65_536) as u16;
        let due = self.clock + TCP_WAIT_MS;
        let ask = Ask {
            path: Path::Tcp(self.tcp_asks),
            server,
            id,
            name,
            kind,
        };
        let action = self.put(number, client_query, job, ask, due)?;
        self.tcp_asks += 1;
        Ok(action)
    }
}
