//! The loops of a server.
ghost use Rattle.std.specs.Prelude.{◌≡◌};
ghost use Rattle.dispatch.specs.Roles.{IsRole, loop_count};

/// What a loop does, over and over.
#[derive(Clone, Copy, Debug, PartialEq, Eq)]
pub enum Role {
    /// Takes the datagrams of clients.
    Datagrams,
    /// Takes the streams of clients, and their frames.
    Streams,
    /// Lets time pass.
    Clock,
    /// Takes other servers' datagrams.
    Upstream,
    /// Asks servers over TCP.
    Asks,
}

// Streams, clock, upstream and asks.
const OTHER_LOOPS: usize = 4;

/// How many loops there are where so many take clients' datagrams.
pub fn loop_count(takers: u16) -> usize
    ensures { result ≡ loop_count takers }
{
    usize::from(takers) + OTHER_LOOPS
}

/// What the loop of this number does: the first five have a role each, and all behind them take clients' datagrams, as
/// the first does.
pub fn role_of(worker: usize) -> Role
    ensures { IsRole worker result }
{
    match worker {
        1 => Role::Streams,
        2 => Role::Clock,
        3 => Role::Upstream,
        4 => Role::Asks,
        _ => Role::Datagrams,
    }
}
