//! Scripts as lists of what is asked.
ghost use Rattle.std.specs.Prelude.{◌≡◌, IfOk, IfSome, IfNone, length, map};
ghost use Rattle.script.specs.Orders.{order_seen};
ghost use Rattle.storm.specs.Lists.{AsksQueries, AsksAll, AsksOne, HasOther, OneHasOther};

use crate::query::StormQuery;
use dname::Name;
use memory::Starved;
use rdata::RType;
use score::{Clients, query_bytes};
use script::Order;
use std::alloc::Global;
use wire::Via;

/// What each of these scripts asks, all at moment 0 up to the first `at`. Their clients are numbered on over the
/// scripts in their order. None where a script has other lines than `at` and `ask`.
pub fn lists_of(
    alloc: Global,
    scripts: Vec<Vec<Order>>,
    clients: &mut Clients<Global>,
) -> Result<Option<Vec<Vec<StormQuery>>>, Starved>
    ensures many { IfOk result (λ o. IfSome o (λ v. length v.items ≡ length scripts.items)) }
    ensures asks { IfOk result (λ o. IfSome o (λ v. AsksAll (map (λ s. map order_seen s.items) scripts.items) clients.old (map (λ l. l.items) v.items) clients.new)) }
    ensures none { IfOk result (λ o. IfNone o (OneHasOther (map (λ s. map order_seen s.items) scripts.items))) }
{
    let mut lists = Vec::with_capacity(alloc, scripts.len())?;
    for script in scripts {
        let Some(list) = list_of(alloc, script, clients)? else {
            return Ok(None);
        };
        lists.push(list)?;
    }
    Ok(Some(lists))
}

fn list_of(
    alloc: Global,
    script: Vec<Order>,
    clients: &mut Clients<Global>,
) -> Result<Option<Vec<StormQuery>>, Starved>
    ensures asks { IfOk result (λ o. IfSome o (λ v. AsksQueries 0 (map order_seen script.items) clients.old v.items clients.new)) }
    ensures none { IfOk result (λ o. IfNone o (HasOther (map order_seen script.items))) }
{
    let mut moment = 0;
    let mut list = Vec::new(alloc);
    for order in script {
        match order {
            Order::At(now) => moment = now,
            Order::Ask {
                name,
                kind,
                via,
                recursive,
            } => {
                let asking = asking(alloc, moment, name, kind, via, recursive, clients)?;
                list.push(asking)?;
            }
            _ => return Ok(None),
        }
    }
    Ok(Some(list))
}

// What the next client asks at a moment.
fn asking(
    alloc: Global,
    moment: u64,
    name: Name,
    kind: RType,
    way: Via,
    recursive: bool,
    clients: &mut Clients<Global>,
) -> Result<StormQuery, Starved>
    ensures { IfOk result (λ q. AsksOne moment name kind way recursive q clients.old clients.new) }
{
    let Some(next) = clients.next() else {
        return Err(Starved);
    };
    let bytes = query_bytes(alloc, next, name, kind, recursive)?;
    let client = clients.push(alloc, bytes.as_slice())?;
    Ok(StormQuery {
        moment,
        client,
        way,
        bytes,
    })
}
