//! The order of names (RFC 4034, section 6.1).

ghost use Rattle.std.specs.Prelude.{◌≡◌, ◌<◌, length, drop};
ghost use Rattle.std.proofs.Common.{refl};
ghost use Rattle.std.specs.Ordering.{as_partial_cmp};
ghost use Rattle.dname.specs.Wire.{labels_of, IsWire};
ghost use Rattle.dname.specs.Order.{name_cmp, name_cmp_total, name_cmp_ties, name_cmp_partial};

use crate::name::Name;
use crate::walk::next_label;
use std::alloc::Allocator;
use std::cmp::Ordering;

// The wire form without its first `count` labels.
fn behind(bytes: &[u8], count: usize) -> &[u8]
    requires wire { IsWire bytes.now }
    requires fewer { count < length (labels_of bytes.now) }
    ensures wire { IsWire result.now }
    ensures labels { labels_of result.now ≡ drop count (labels_of bytes.now) }
{
    let mut rest = bytes;
    for _ in 0..count {
        if let Some((_, after)) = next_label(rest) {
            rest = after;
        }
    }
    rest
}

impl<A: Allocator> PartialOrd for Name<A> {
    ghost partial_cmp = { as_partial_cmp name_cmp };

    ghost laws = { name_cmp_partial };

    fn partial_cmp(&self, other: &Name<A>) -> Option<Ordering> {
        Some(self.cmp(other))
    }
}

impl<A: Allocator> Ord for Name<A> {
    ghost cmp = { name_cmp };

    ghost total = { name_cmp_total };

    ghost matches_partial_cmp = { λ _ _. refl };

    ghost matches_eq = { name_cmp_ties };

    fn cmp(&self, other: &Name<A>) -> Ordering {
        let (mine, theirs) = (self.labels(), other.labels());
        let mut rest = behind(self.bytes.as_slice(), mine.saturating_sub(theirs));
        let mut others = behind(other.bytes.as_slice(), theirs.saturating_sub(mine));
        let mut order = mine.cmp(&theirs);
        // The labels are compared from the first one on, and the last difference counts: that of the label nearest to
        // the root.
        while let (Some((label, after)), Some((its, after_its))) = (
            next_label(rest),
            next_label(others),
        ) {
            order = label.cmp(its).then(order);
            rest = after;
            others = after_its;
        }
        order
    }
}
