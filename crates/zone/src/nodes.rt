//! The nodes of a zone's tree.
ghost use Rattle.std.specs.Prelude.{◌≡◌, ◌∷◌, ℕ, List, IfOk, OnOk};
ghost use Rattle.dname.specs.Keys.{at_name};
ghost use Rattle.dname.specs.Labels.{same_name, is_under};
ghost use Rattle.zone.specs.Tree.{put_place, seen, spot, spot_after, IsTree};

use dname::Name;
use memory::{Heap, Starved};
use rdata::Record;
use std::alloc::Allocator;
use std::collections::HashMap;
use std::hash::{BuildHasherDefault, FoldHasher};

/// A node of a zone's tree: where its own records stand in the zone's list, and those of the wildcard
/// right under it (RFC 1034, section 4.3.3), whose name may be too long for a name.
#[derive(Drop)]
pub struct Node<A: Allocator> {
    /// The places of the records that the node's name owns, in order.
    pub own: Vec<usize, A>,
    /// The places of the records of the wildcard right under that name, in order.
    pub wild: Vec<usize, A>,
}

/// The nodes of a zone by the wire forms of their names, so that a name that is lent finds one.
pub type Nodes<A> = HashMap<Vec<u8, A>, Node<A>, BuildHasherDefault<FoldHasher>, A>;

// Adds the record's place to the node of a name, if the record is the name's own or its wildcard's.
fn put_place<A: Heap>(
    node: &mut Node<A>,
    name: &Name<A>,
    owner: &Name<A>,
    place: usize,
) -> Result<(), Starved>
    ensures { OnOk result (seen node.new ≡ put_place name.now owner.now place (seen node.old)) }
{
    if *owner == *name {
        node.own.push(place)?;
    }
    if owner.is_wildcard_of(name) {
        node.wild.push(place)?;
    }
    Ok(())
}

// Adds the record's place at a name, which may have no node as yet.
fn put_node<A: Heap>(
    nodes: &mut Nodes<A>,
    name: &Name<A>,
    owner: &Name<A>,
    place: usize,
) -> Result<(), Starved>
    ensures { OnOk result ((q : List (List ℕ)) → spot (at_name nodes.new q) ≡ spot_after (same_name name.now q) name.now owner.now place (spot (at_name nodes.old q))) }
{
    if let Some(node) = nodes.get_mut(name.wire()) {
        put_place(node, name, owner, place)?;
        return Ok(());
    }
    let mut node = Node {
        own: Vec::new(name.allocator()),
        wild: Vec::new(name.allocator()),
    };
    put_place(&mut node, name, owner, place)?;
    let key = Vec::from_slice(name.allocator(), name.wire())?;
    nodes.insert(key, node)?;
    Ok(())
}

// Adds the record's place at a name and at each name above it.
fn put_up<A: Heap>(
    nodes: &mut Nodes<A>,
    up: &mut Name<A>,
    owner: &Name<A>,
    place: usize,
) -> Result<(), Starved>
    ensures { OnOk result ((l : List ℕ) (ls : List (List ℕ)) → spot (at_name nodes.new (l ∷ ls)) ≡ spot_after (is_under up.old (l ∷ ls)) (l ∷ ls) owner.now place (spot (at_name nodes.old (l ∷ ls)))) }
{
    put_node(nodes, up, owner, place)?;
    if up.ascend() {
        put_up(nodes, up, owner, place)?;
    }
    Ok(())
}

/// The nodes of these records: of one record at `a.b`, those of `a.b`, `b` and the root.
pub fn nodes_of<A: Heap>(alloc: A, records: &[Record<A>]) -> Result<Nodes<A>, Starved>
    ensures { IfOk result (λ m. IsTree m records.now) }
{
    let mut nodes = HashMap::new(alloc);
    let mut place = 0;
    for record in records {
        let mut up = record.owner.clone()?;
        put_up(&mut nodes, &mut up, &record.owner, place)?;
        place += 1;
    }
    Ok(nodes)
}
