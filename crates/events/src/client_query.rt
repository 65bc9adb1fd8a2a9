//! A query with its client.
ghost use Rattle.std.specs.Prelude.{◌≡◌, ◌↔◌, IsTrue};

use front::SharedQuery;
use memory::Heap;
use std::alloc::{AllocError, Allocator, Global};
use std::marker::Model;
use wire::Via;

/// A client by its number, the way by which it asks and is answered, and its query.
#[derive(Drop)]
pub struct ClientQuery<A: Allocator = Global> {
    /// The number under which the sockets know where the reply goes.
    pub client: u64,
    /// UDP or TCP; over UDP a reply of more than 512 bytes is truncated.
    pub way: Via,
    /// The query, with the fields that the reply repeats: ID, RD, and the question in its own letters. It is shared by
    /// all that hold it.
    pub query: SharedQuery<A>,
}

impl<A: Allocator> Model for ClientQuery<A> {
    ghost use Rattle.runs.specs.States.{ClientQuery};
    ghost use Rattle.events.specs.Plain.{plain};

    ghost Value = { ClientQuery };

    ghost view = { λ a. record { client = a.client; way = a.way; query = plain a.query } };
}

impl<A: Heap> Clone for ClientQuery<A> {
    ghost is_clone = { λ x y. y ≡ x };

    fn clone(&self) -> Result<ClientQuery<A>, AllocError> {
        Ok(ClientQuery {
            client: self.client,
            way: self.way,
            query: self.query.clone()?,
        })
    }
}

impl<A: Allocator> ClientQuery<A> {
    /// Whether both are one client's, by one way, and the same query.
    pub fn same(&self, other: &ClientQuery<A>) -> bool
        ensures { IsTrue result ↔ (self.now ≡ other.now) }
    {
        self.client == other.client && self.way == other.way && self.query.same(&other.query)
    }
}
