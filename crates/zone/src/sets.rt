//! The data of a zone's sets, made once for all answers.
ghost use Rattle.std.specs.Prelude.{◌≡◌, IfOk, OnOk};
ghost use Rattle.zone.specs.Look.{is_owned};
ghost use Rattle.zone.specs.Tree.{places, IsTree};
ghost use Rattle.zone.specs.Values.{AreSets};

use crate::held::{Held, Sets};
use crate::nodes::Nodes;
use dname::Name;
use memory::{Heap, Starved};
use rdata::{Place, RType, Record};
use std::collections::HashMap;

// Keeps the data of each set of a name that owns the records at these places. An address alone takes no memory, and is
// not kept.
fn keep_sets<A: Heap>(
    sets: &mut Sets<A>,
    records: &[Record<A>],
    owner: &Name<A>,
    own: &[usize],
) -> Result<(), Starved>
    requires owned { own.now ≡ places (is_owned owner.now) records.now }
    requires sets { AreSets sets.old records.now }
    ensures { OnOk result (AreSets sets.new records.now) }
{
    let none = HashMap::new(owner.allocator());
    let held = Held::of(records, own, &none);
    let mut kinds: Vec<RType, A> = Vec::new(owner.allocator());
    for index in 0..held.len() {
        let kind = held.get(index).value.kind();
        if !kinds.iter().any(|known| *known == kind) {
            kinds.push(kind)?;
            let values = held.values(owner.allocator(), index)?;
            if let Place::Shared(_) = values.place() {
                sets.insert(own[index], values)?;
            }
        }
    }
    Ok(())
}

/// The data of the sets of these records but those of an address alone, by these nodes of theirs: of two addresses of
/// `a.b` and one of `b`, those of the set at `a.b`.
pub fn sets_of<A: Heap>(
    alloc: A,
    nodes: &Nodes<A>,
    records: &[Record<A>],
) -> Result<Sets<A>, Starved>
    requires { IsTree nodes.now records.now }
    ensures { IfOk result (λ m. AreSets m records.now) }
{
    let mut sets = HashMap::new(alloc);
    for place in 0..records.len() {
        let record = &records[place];
        record.owner.well_formed_law();
        if let Some(node) = nodes.get(record.owner.wire())
            && node.own.first() == Some(&place)
        {
            keep_sets(&mut sets, records, &record.owner, &node.own)?;
        }
    }
    Ok(sets)
}
