//! The indexes, and how each changes with one query.
ghost use Rattle.std.specs.Prelude.{◌≡◌, ℕ, ◌<◌, ◌≤◌, ◌&&◌, true, false, cond, nat_eq, OnOk, OnErr};
ghost use Rattle.std.specs.HashMap.{spare};
ghost use Rattle.asks.specs.declared.ask.AskKey.{AskKey as AskKeySpec};
ghost use Rattle.asks.specs.Waits.{AreSame};
ghost use Rattle.asks.specs.Indexes.{points, lists, is_ask, has_ask, is_due};

use crate::ask::{AskKey, Waiting};
use memory::{Heap, Starved};
use std::collections::{BTreeSet, HashMap};
use std::hash::{BuildHasherDefault, FoldHasher};

// What each open query waits for, by its number.
pub type Open<A> = HashMap<u64, Waiting, BuildHasherDefault<FoldHasher>, A>;

// The query of each open ask.
pub type ByAsk<A> = HashMap<AskKey, u64, BuildHasherDefault<FoldHasher>, A>;

// The due moments of all open queries, each with the query's number.
pub type ByDue<A> = BTreeSet<(u64, u64), A>;

// Room for one more query and one more ask.
pub fn make_room<A: Heap>(open: &mut Open<A>, by_ask: &mut ByAsk<A>) -> Result<(), Starved>
    ensures open { AreSame «open».old.entries «open».new.entries }
    ensures by_ask { (ask : AskKeySpec) (query : ℕ) → points by_ask.new.entries ask query ≡ points by_ask.old.entries ask query }
    ensures room { OnOk result ((0 < spare «open».new) × (0 < spare by_ask.new)) }
{
    open.reserve(1)?;
    by_ask.reserve(1)?;
    Ok(())
}

// Lists the query under this due moment in place of what it had.
pub fn change_due<A: Heap>(
    by_due: &mut ByDue<A>,
    query: u64,
    had: Option<Waiting>,
    due: u64,
) -> Result<(), Starved>
    requires { (d : ℕ) → lists by_due.old.keys d query ≡ is_due d had }
    ensures ok { OnOk result ((d q : ℕ) → lists by_due.new.keys d q ≡ cond (nat_eq query q) (nat_eq due d) (lists by_due.old.keys d q)) }
    ensures err { OnErr result (by_due.new.keys ≡ by_due.old.keys) }
{
    by_due.insert((due, query))?;
    if let Some(had) = had {
        if had.due != due {
            drop_due(by_due, query, had.due);
        }
    }
    Ok(())
}

// Takes the query's due moment out.
pub fn drop_due<A: Heap>(by_due: &mut ByDue<A>, query: u64, due: u64)
    ensures { (d q : ℕ) → lists by_due.new.keys d q ≡ cond (nat_eq due d && nat_eq query q) false (lists by_due.old.keys d q) }
{
    by_due.remove(&(due, query));
}

// Takes the query's ask out.
pub fn drop_ask<A: Heap>(by_ask: &mut ByAsk<A>, query: u64, ask: Option<AskKey>)
    requires { (a : AskKeySpec) → points by_ask.old.entries a query ≡ is_ask a ask }
    ensures is { (a : AskKeySpec) (q : ℕ) → points by_ask.new.entries a q ≡ cond (nat_eq query q) false (points by_ask.old.entries a q) }
    ensures room { spare by_ask.old ≤ spare by_ask.new }
{
    if let Some(ask) = ask {
        by_ask.remove(&ask);
    }
}

// Puts an ask in for a query that has none, where no other query has it.
pub fn put_ask<A: Heap>(by_ask: &mut ByAsk<A>, query: u64, ask: Option<AskKey>)
    requires room { 0 < spare by_ask.old }
    requires none { (a : AskKeySpec) → points by_ask.old.entries a query ≡ false }
    requires free { (a : AskKeySpec) (q : ℕ) → is_ask a ask ≡ true → points by_ask.old.entries a q ≡ false }
    ensures { (a : AskKeySpec) (q : ℕ) → points by_ask.new.entries a q ≡ cond (nat_eq query q) (is_ask a ask) (points by_ask.old.entries a q) }
{
    if let Some(ask) = ask {
        let put: Result<_, _> = by_ask.insert(ask, query);
        put.unwrap();
    }
}

// Lets the query's ask stand in place of what it had.
pub fn change_ask<A: Heap>(
    by_ask: &mut ByAsk<A>,
    query: u64,
    had: Option<Waiting>,
    ask: Option<AskKey>,
)
    requires room { 0 < spare by_ask.old }
    requires had { (a : AskKeySpec) → points by_ask.old.entries a query ≡ has_ask a had }
    requires free { (a : AskKeySpec) (q : ℕ) → is_ask a ask ≡ true → points by_ask.old.entries a q ≡ true → q ≡ query }
    ensures { (a : AskKeySpec) (q : ℕ) → points by_ask.new.entries a q ≡ cond (nat_eq query q) (is_ask a ask) (points by_ask.old.entries a q) }
{
    if let Some(had) = had {
        drop_ask(by_ask, query, had.ask);
    }
    put_ask(by_ask, query, ask);
}
