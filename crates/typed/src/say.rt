//! Typed actions made.
ghost use Rattle.std.specs.Prelude.{IfOk};
ghost use Rattle.runs.specs.Messages.{IsReply, IsRefusal, IsSent};
ghost use Rattle.events.specs.Plain.{plain_outcome};
ghost use Rattle.typed.specs.Views.{said_view};

use crate::action::TypedAction;
use crate::laws::{ask_law, refusal_law, reply_law};
use events::{Ask, ClientQuery};
use front::{Outcome, Refusal, SharedEcho, Start, lent_echo};
use memory::{Heap, Starved};
use wire::Via;

/// The reply of an outcome to the client who asked, by its way. Takes no memory.
pub fn reply_to<A: Heap>(client_query: ClientQuery<A>, outcome: Outcome<A>) -> TypedAction<A>
    ensures { IsReply client_query (plain_outcome outcome) (said_view result) }
{
    reply_law(&client_query, &outcome);
    TypedAction::Reply {
        client_query,
        outcome,
    }
}

/// The refusal of bytes that are no query to be answered, to the client who sent them; with its question, if there is
/// one. Takes no memory.
pub fn refuse<A: Heap>(
    client: u64,
    way: Via,
    refusal: Refusal,
    start: Start,
    echo: Option<SharedEcho<A>>,
) -> TypedAction<A>
    ensures { IsRefusal client way refusal start echo (said_view result) }
{
    refusal_law(client, way, refusal, start, lent_echo(&echo));
    TypedAction::Refusal {
        client,
        way,
        refusal,
        start,
        echo,
    }
}

/// The ask as it goes out on its path, to the server's `port`. Takes memory for its name.
pub fn send<A: Heap>(alloc: A, port: u16, ask: &Ask<A>) -> Result<TypedAction<A>, Starved>
    ensures { IfOk result (λ a. IsSent port ask.now (said_view a)) }
{
    ask_law(port, ask);
    let ask = Ask {
        path: ask.path,
        server: ask.server,
        id: ask.id,
        name: ask.name.copied(alloc)?,
        kind: ask.kind,
    };
    Ok(TypedAction::Ask { port, ask })
}
