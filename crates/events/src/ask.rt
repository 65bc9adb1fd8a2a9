//! Asks: queries to servers.
ghost use Rattle.std.specs.Prelude.{◌≡◌, ◌↔◌, IsTrue};
ghost use Rattle.rdata.specs.Types.{type_number};
ghost use Rattle.events.specs.Paths.{path_view};

use crate::path::Path;
use dname::Name;
use memory::Heap;
use rdata::{Addr, RType};
use std::alloc::{AllocError, Allocator, Global};
use std::marker::Model;

/// A query to a server: how it goes and to which server, under which ID, for which name and type.
#[derive(Drop)]
pub struct Ask<A: Allocator = Global> {
    /// The socket that it leaves, or its number over TCP.
    pub path: Path,
    /// The server that is asked, and whose reply alone is accepted.
    pub server: Addr,
    /// The ID of its header, which the reply has to repeat (RFC 1035, section 4.1.1).
    pub id: u16,
    /// QNAME (RFC 1035, section 4.1.2).
    pub name: Name<A>,
    /// QTYPE; the class is IN.
    pub kind: RType,
}

impl<A: Allocator> Model for Ask<A> {
    ghost use Rattle.rdata.specs.Types.{type_number};
    ghost use Rattle.runs.specs.States.{Ask};
    ghost use Rattle.events.specs.Paths.{path_view};

    ghost Value = { Ask };

    ghost view = { λ a. record { path = path_view a.path; server = a.server; id = a.id; name = a.name; kind = type_number a.kind } };
}

impl<A: Heap> Clone for Ask<A> {
    ghost is_clone = { λ x y. y ≡ x };

    fn clone(&self) -> Result<Ask<A>, AllocError> {
        Ok(Ask {
            path: self.path,
            server: self.server,
            id: self.id,
            name: self.name.clone()?,
            kind: self.kind,
        })
    }
}

impl<A: Allocator> Ask<A> {
    /// Whether both ask one server the same, on one path and under one ID.
    pub fn same(&self, other: &Ask<A>) -> bool
        ensures { IsTrue result ↔ (self.now ≡ other.now) }
    {
        self.id == other.id
            && self.goes_to(other.path, other.server)
            && self.is_for(&other.name, other.kind)
    }

    // Whether it goes to that server, on that path.
    fn goes_to(&self, path: Path, server: Addr) -> bool
        ensures { IsTrue result ↔ ((self.now.path ≡ path_view path) × (self.now.server ≡ server)) }
    {
        self.path == path && self.server == server
    }

    // Whether it asks for that name and type.
    #[tactic(auto, using(rdata::proofs::Exact::exact))]
    fn is_for(&self, name: &Name<A>, kind: RType) -> bool
        ensures { IsTrue result ↔ ((self.now.name ≡ name.now) × (self.now.kind ≡ type_number kind)) }
    {
        self.kind == kind && self.name == *name
    }
}
