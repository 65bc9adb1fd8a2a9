//! A zone's records by name.
ghost use Rattle.std.specs.Prelude.{◌≡◌, false, IfOk, MatchOption};
ghost use Rattle.zone.specs.Tree.{has_under, IsTree, IsStand};
ghost use Rattle.zone.specs.Values.{AreSets};

use crate::held::{Held, Sets};
use crate::nodes::{Nodes, nodes_of};
use crate::sets::sets_of;
use dname::Suffix;
use memory::{Heap, Starved};
use rdata::{Record, Records};
use std::alloc::{AllocError, Allocator};
use std::marker::Model;

/// The records of a name that exists, and those of the wildcard right under it.
#[derive(Drop)]
pub struct Stand<'a, A: Allocator> {
    /// The records that the name owns.
    pub own: Held<'a, A>,
    /// The records of the wildcard right under it (RFC 4592, section 2.1.1).
    pub wild: Held<'a, A>,
}

// The records of a name and of the wildcard right under it, by these nodes, and the data of their sets.
fn stand_at<'a, A: Allocator>(
    nodes: &'a Nodes<A>,
    sets: &'a Sets<A>,
    records: &'a [Record<A>],
    name: &Suffix<'_>,
) -> Option<Stand<'a, A>>
    requires nodes { IsTree nodes.now records.now }
    requires sets { AreSets sets.now records.now }
    ensures { MatchOption result (has_under name.now records.now ≡ false) (λ s. IsStand name.now records.now s.own s.wild) }
{
    name.well_formed_law();
    match nodes.get(name.wire()) {
        None => None,
        Some(node) => Some(Stand {
            own: Held::of(records, &node.own, sets),
            wild: Held::of(records, &node.wild, sets),
        }),
    }
}

/// Records of a zone by name: the tree of its names (RFC 1034, section 3.1). It is one map from each
/// existing name to its node. The child of a node by a label is the entry of the name that the label makes
/// with the node's: every owner and each name above one has an entry. Contracts see the list of records.
#[derive(Drop)]
pub struct Tree<A: Allocator> {
    records: Records<A>,
    nodes: Nodes<A>,
    sets: Sets<A>,
}

impl<A: Allocator> Model for Tree<A> {
    ghost use Rattle.std.specs.Prelude.{List};
    ghost use Rattle.rdata.specs.Records.{Record as RecordSpec};
    ghost use Rattle.zone.specs.Tree.{IsTree};
    ghost use Rattle.zone.specs.Values.{AreSets};

    ghost Value = { List RecordSpec };

    ghost view = { λ t. t.records };

    ghost invariant = { λ t. IsTree t.nodes t.records × AreSets t.sets t.records };
}

impl<A: Heap> Tree<A> {
    /// The tree of these records: of one at `a.b`, it has the names `a.b`, `b` and the root.
    pub fn build(alloc: A, records: Records<A>) -> Result<Tree<A>, Starved>
        ensures { IfOk result (λ t. t ≡ records) }
    {
        let nodes = nodes_of(alloc, records.as_slice())?;
        let sets = sets_of(alloc, &nodes, records.as_slice())?;
        Ok(Tree {
            records,
            nodes,
            sets,
        })
    }

    /// The same tree with memory of its own: it has the same records.
    pub fn copied(&self, alloc: A) -> Result<Tree<A>, AllocError>
        ensures { IfOk result (λ t. t ≡ self.now) }
    {
        let records = self.records.clone()?;
        match Tree::build(alloc, records) {
            Ok(tree) => Ok(tree),
            Err(_) => Err(AllocError),
        }
    }
}

impl<A: Allocator> Tree<A> {
    /// Its records in the order in which they were given: of `build` of two, these two.
    pub fn records(&self) -> &[Record<A>]
        ensures { result.now ≡ self.now }
    {
        self.records.as_slice()
    }

    /// The records of a name and of its wildcard: with one record at `a.b`, that one at `a.b`, none at `b`, and nothing
    /// at `c`.
    pub fn stand(&self, name: &Suffix<'_>) -> Option<Stand<'_, A>>
        ensures { MatchOption result (has_under name.now self.now ≡ false) (λ s. IsStand name.now self.now s.own s.wild) }
    {
        stand_at(&self.nodes, &self.sets, self.records.as_slice(), name)
    }
}
