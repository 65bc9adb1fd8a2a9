//! The replies of a history, counted and judged.
ghost use Rattle.std.specs.Prelude.{◌≡◌, ◌+◌, [], ◌∷◌, IfOk};
ghost use Rattle.simnet.specs.Views.{sim_action_view};
ghost use Rattle.score.specs.Clients.{query_of};
ghost use Rattle.score.specs.Counts.{IsCountedFor};
ghost use Rattle.storm.specs.Counts.{Counts, CountsAll, CountsOut, CountsStep, none_yet, replies_in, replies_of, replies_shown};
ghost use Rattle.storm.specs.Runs.{out_of};

use crate::within::{Beginning, Within};
use book::Entry;
use memory::Starved;
use score::{Clients, Count};
use simnet::{SimAction, SimActions};
use std::alloc::Global;
use worlds::World;

/// What a storm came to.
#[derive(Clone, Copy)]
pub struct Totals {
    /// How many replies there were.
    pub replies: u64,
    /// How many of them were to recursive queries and no SERVFAIL, and how many of these were right.
    pub count: Count,
}

/// How many replies a history shows.
pub fn count_replies<P: Beginning>(history: &[Entry<Within<P>>]) -> Result<u64, Starved>
    ensures { IfOk result (λ n. n ≡ replies_shown history.now) }
{
    let mut replies = 0;
    for entry in history {
        replies = with_replies(entry.out(), replies)?;
    }
    Ok(replies)
}

// With those that came out of a step.
fn with_replies(out: &Result<SimActions, Starved>, replies: u64) -> Result<u64, Starved>
    ensures { IfOk result (λ n. n ≡ replies + replies_of (out_of out.now)) }
{
    match out {
        Ok(actions) => replies.checked_add(replies_among(actions)).ok_or(Starved),
        Err(_) => Ok(replies),
    }
}

fn replies_among(actions: &SimActions) -> u64
    ensures { result ≡ replies_in actions.now }
{
    match &actions.first {
        Some(action) => replies_by(action),
        None => 0,
    }
}

fn replies_by(action: &SimAction) -> u64
    ensures { result ≡ replies_in (sim_action_view action.now ∷ []) }
{
    match action {
        SimAction::Reply { .. } => 1,
        SimAction::Sent { .. } => 0,
        SimAction::Asked { .. } => 0,
    }
}

/// How many replies of a history to recursive queries were no SERVFAIL, and how many of these were right.
pub fn count_all<P: Beginning>(
    alloc: Global,
    world: &World,
    clients: &Clients<Global>,
    history: &[Entry<Within<P>>],
) -> Result<Count, Starved>
    ensures { IfOk result (CountsAll world.now clients.now history.now none_yet) }
{
    let mut count = Count::new();
    for entry in history {
        count = with_step(alloc, world, clients, entry.out(), count)?;
    }
    Ok(count)
}

// With what came out of a step.
fn with_step(
    alloc: Global,
    world: &World,
    clients: &Clients<Global>,
    out: &Result<SimActions, Starved>,
    count: Count,
) -> Result<Count, Starved>
    ensures { IfOk result (CountsStep world.now clients.now (out_of out.now) count) }
{
    match out {
        Ok(actions) => with_actions(alloc, world, clients, actions, count),
        Err(_) => Ok(count),
    }
}

fn with_actions(
    alloc: Global,
    world: &World,
    clients: &Clients<Global>,
    actions: &SimActions,
    count: Count,
) -> Result<Count, Starved>
    ensures { IfOk result (CountsOut world.now clients.now actions.now count) }
{
    match &actions.first {
        Some(action) => with_action(alloc, world, clients, action, count),
        None => Ok(count),
    }
}

fn with_action(
    alloc: Global,
    world: &World,
    clients: &Clients<Global>,
    action: &SimAction,
    count: Count,
) -> Result<Count, Starved>
    ensures { IfOk result (Counts world.now clients.now (sim_action_view action.now) count) }
{
    match action {
        SimAction::Reply { client, bytes, .. } => {
            with_reply(alloc, world, clients, *client, bytes.as_slice(), count)
        }
        SimAction::Sent { .. } => Ok(count),
        SimAction::Asked { .. } => Ok(count),
    }
}

fn with_reply(
    alloc: Global,
    world: &World,
    clients: &Clients<Global>,
    client: u64,
    bytes: &[u8],
    count: Count,
) -> Result<Count, Starved>
    ensures { IfOk result (IsCountedFor world.now (query_of clients.now client) bytes.now count) }
{
    match clients.query(client) {
        Some(query) => count.with(alloc, world, query, bytes),
        None => Ok(count),
    }
}
