//! What the resolver does, as it is shown: its asks stand in the network from now on.
ghost use Rattle.std.specs.Prelude.{◌≡◌, ◌+◌, ◌<◌, [], ◌∷◌, ◌++◌, length, vec_len, vec_capacity};
ghost use Rattle.network.specs.Networks.{numbered, sends_among};
ghost use Rattle.events.specs.Views.{action_view};
ghost use Rattle.simnet.specs.Views.{sim_action_view};

use crate::action::{SimAction, SimActions};
use crate::sent::Sent;
use events::{Action, Actions, Path};
use std::alloc::Allocator;

// An ask goes out; its number.
fn note<A: Allocator>(sends: &mut Vec<Sent<A>, A>, sent: Sent<A>) -> u64
    requires { vec_len sends.old < vec_capacity sends.old }
    ensures number { result ≡ length sends.old.items + 1 }
    ensures stands { sends.new.items ≡ sends.old.items ++ sent ∷ [] }
{
    sends.push_reserved(sent);
    sends.len() as u64
}

// An action as it is shown; there is room for one ask more.
fn shown_action<A: Allocator>(sends: &mut Vec<Sent<A>, A>, action: Action<A>) -> SimAction<A>
    requires { vec_len sends.old < vec_capacity sends.old }
    ensures shown { sim_action_view result ∷ [] ≡ numbered (length sends.old.items) (action_view action ∷ []) }
    ensures stands { sends.new.items ≡ sends.old.items ++ sends_among (action_view action ∷ []) }
{
    match action {
        Action::Reply {
            client,
            way,
            bytes,
            cause,
        } => SimAction::Reply {
            client,
            way,
            bytes,
            cause,
        },
        Action::Send { socket, to, bytes } => SimAction::Sent {
            number: note(
                sends,
                Sent {
                    path: Path::Udp(socket),
                    to,
                    bytes,
                },
            ),
        },
        Action::TcpAsk { number, to, bytes } => SimAction::Asked {
            number: note(
                sends,
                Sent {
                    path: Path::Tcp(number),
                    to,
                    bytes,
                },
            ),
        },
    }
}

/// All that comes out of the resolver's step as it is shown; there is room for one ask more.
pub fn shown<A: Allocator>(sends: &mut Vec<Sent<A>, A>, actions: Actions<A>) -> SimActions<A>
    requires { vec_len sends.old < vec_capacity sends.old }
    ensures shown { result ≡ numbered (length sends.old.items) actions }
    ensures stands { sends.new.items ≡ sends.old.items ++ sends_among actions }
{
    let Actions { first, more_due } = actions;
    match first {
        None => SimActions {
            first: None,
            more_due,
        },
        Some(action) => SimActions {
            first: Some(shown_action(sends, action)),
            more_due,
        },
    }
}
