//! What a typed action is before it is written: functions that do nothing, whose clauses are proved.
ghost use Rattle.std.specs.Prelude.{option_copied};
ghost use Rattle.runs.specs.Messages.{IsReply, IsRefusal, IsSent};
ghost use Rattle.events.specs.Plain.{plain_outcome};
ghost use Rattle.typed.specs.Actions.{replied, refused, asked};

use events::{Ask, ClientQuery, ask_is_message};
use front::{Outcome, Refusal, Start, refusal_is_message, reply_is_message};
use memory::Heap;
use wire::{Echo, Via};

/// What is written of an outcome is its reply to the client who asked, by its way and within its limit (RFC 1035,
/// section 4.2.1).
pub fn reply_law<A: Heap>(client_query: &ClientQuery<A>, outcome: &Outcome<A>)
    ensures { IsReply client_query.now (plain_outcome outcome.now) (replied client_query.now (plain_outcome outcome.now)) }
{
    reply_is_message(&client_query.query, outcome, client_query.way);
}

/// What is written of a refusal is that refusal, to the client whose bytes are refused.
pub fn refusal_law<A: Heap>(
    client: u64,
    way: Via,
    refusal: Refusal,
    start: Start,
    echo: Option<&Echo<A>>,
)
    ensures { IsRefusal client way refusal start (option_copied echo.entry) (refused client way refusal start (option_copied echo.entry)) }
{
    refusal_is_message(refusal, start, echo);
}

/// What is written of an ask is that ask, to the server's `port`.
pub fn ask_law<A: Heap>(port: u16, ask: &Ask<A>)
    ensures { IsSent port ask.now (asked port ask.now) }
{
    ask_is_message(ask);
}
