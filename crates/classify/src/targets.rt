//! The names that NS records give, sorted, so that one is found without a walk over all.

ghost use Rattle.std.specs.Prelude.{◌≡◌, ◌++◌, ℕ, List, IfOk, OnOk};
ghost use Rattle.std.specs.List.{list_any};
ghost use Rattle.std.specs.List.Sorted.{IsSorted};
ghost use Rattle.dname.specs.Order.{name_cmp};
ghost use Rattle.rdata.specs.Kept.{datum};
ghost use Rattle.rdata.specs.Records.{Record as RecordSpec};
ghost use Rattle.classify.specs.Classes.{names_server};
ghost use Rattle.rdata.specs.Targets.{ns_target, targets_of};
ghost use Rattle.classify.specs.Targets.{is_one_of};

use dname::Name;
use memory::{Heap, Starved};
use rdata::{RData, Record};
use std::alloc::Allocator;

/// The names of the servers that these records give, in the order of names.
pub(crate) fn targets_of<A: Heap>(
    alloc: A,
    servers: &[Record<A>],
) -> Result<Vec<Name<A>, A>, Starved>
    ensures sorted { IfOk result (λ v. IsSorted name_cmp v.items) }
    ensures members { IfOk result (λ v. (n : List (List ℕ)) → is_one_of n v.items ≡ list_any (λ (s : RecordSpec). names_server n s.value) servers.now) }
{
    let mut targets = Vec::new(alloc);
    for server in servers {
        put_target(&mut targets, &server.value)?;
    }
    targets.sort_unstable();
    Ok(targets)
}

// Adds a name, where the data has one.
fn put_target<A: Heap>(targets: &mut Vec<Name<A>, A>, value: &RData<A>) -> Result<(), Starved>
    ensures { OnOk result (targets.new.items ≡ targets.old.items ++ ns_target (datum value.now)) }
{
    if let RData::Ns(target) = value {
        targets.push(target.clone()?)?;
    }
    Ok(())
}

/// Whether a name is one of these, which stand in the order of names.
pub(crate) fn is_one_of<A: Allocator>(name: &Name<A>, targets: &[Name<A>]) -> bool
    requires { IsSorted name_cmp targets.now }
    ensures { result ≡ is_one_of name.now targets.now }
{
    targets.binary_search(name).is_ok()
}
