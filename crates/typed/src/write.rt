//! Typed actions written, after the resolver is unlocked.
ghost use Rattle.std.specs.Prelude.{◌≡◌, IfOk};
ghost use Rattle.events.specs.Views.{action_view};
ghost use Rattle.typed.specs.Views.{said_view, said_listed};

use crate::action::{TypedAction, TypedActions};
use events::{Action, Actions};
use front::lent_echo;
use memory::{Heap, Starved};
use wire::Writer;

/// The action of a typed one, with its bytes. A reply that is too long for its way is truncated on UDP, and a SERVFAIL
/// with its cause on TCP (RFC 1035, section 4.2.1; RFC 2181, section 9).
pub fn write_action<A: Heap>(
    alloc: A,
    writer: &mut Writer<A>,
    action: &TypedAction<A>,
) -> Result<Action<A>, Starved>
    ensures { IfOk result (λ a. action_view a ≡ said_view action.now) }
{
    match action {
        TypedAction::Reply {
            client_query,
            outcome,
        } => Ok(events::reply_to(writer, client_query, outcome)?),
        TypedAction::Refusal {
            client,
            way,
            refusal,
            start,
            echo,
        } => Ok(events::refuse(writer, *client, *way, *refusal, *start, lent_echo(echo))?),
        TypedAction::Ask { port, ask } => Ok(events::send(alloc, *port, ask)?),
    }
}

/// The result of a step, its action written.
pub fn write_actions<A: Heap>(
    alloc: A,
    writer: &mut Writer<A>,
    actions: &TypedActions<A>,
) -> Result<Actions<A>, Starved>
    ensures { IfOk result (λ a. a ≡ said_listed actions.now.first actions.now.more_due) }
{
    let first = match &actions.first {
        None => None,
        Some(action) => Some(write_action(alloc, writer, action)?),
    };
    Ok(Actions {
        first,
        more_due: actions.more_due,
    })
}
