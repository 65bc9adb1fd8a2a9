//! What a command comes to.
ghost use Rattle.std.specs.Prelude.{◌≡◌, None};
ghost use Rattle.engine.specs.Beginnings.{IsBegun};

use engine::Core;
use server::Bounds;
use std::alloc::{Allocator, Global};
use std::marker::Model;

/// A server that is started and does not run yet: a resolver that has done nothing, and what its file says of its
/// loops.
#[derive(Drop)]
pub struct Server<A: Allocator = Global> {
    pub(crate) core: Core<A>,
    pub(crate) bounds: Bounds,
}

impl<A: Allocator> Model for Server<A> {
    ghost use Rattle.commands.specs.Servers.{Prepared};
    ghost use Rattle.engine.specs.Beginnings.{IsBegun};

    ghost Value = { Prepared };

    ghost view = { λ s. record { resolver = s.core; bounds = s.bounds } };

    ghost invariant = { λ s. IsBegun s.core };
}

impl<A: Allocator> Server<A> {
    /// One of this resolver, within these bounds.
    pub(crate) fn new(core: Core<A>, bounds: Bounds) -> Server<A>
        requires { IsBegun core }
        ensures { result ≡ record { resolver = core; bounds = bounds } }
    {
        Server { core, bounds }
    }

    /// The resolver.
    pub fn into_core(self) -> Core<A>
        ensures is { result ≡ self.resolver }
        ensures begun { IsBegun result }
    {
        self.core
    }
}

/// What a command comes to: its exit status, and the server that it started, which is to be run.
#[derive(Drop)]
pub struct Outcome<A: Allocator = Global> {
    /// The exit status.
    pub status: u8,
    /// The server, only where the status is 0.
    pub server: Option<Server<A>>,
}

impl<A: Allocator> Outcome<A> {
    /// That of a command which started no server.
    pub(crate) fn without_server(status: u8) -> Outcome<A>
        ensures status { result.status ≡ status }
        ensures none { result.server ≡ None }
    {
        Outcome {
            status,
            server: None,
        }
    }
}
