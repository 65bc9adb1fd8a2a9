//! Wildcards among names (RFC 4592, section 2.1.1).
ghost use Rattle.std.specs.Prelude.{◌≡◌};
ghost use Rattle.dname.specs.Stars.{is_wildcard, has_inner_star};

use crate::name::Name;
use crate::walk::next_label;
use std::alloc::Allocator;

impl<A: Allocator> Name<A> {
    /// Whether the first label is `*` (RFC 4592, section 2.1.1): true of `*.example`, false of `a.*.example`.
    pub fn is_wildcard(&self) -> bool
        ensures { result ≡ is_wildcard self.now }
    {
        match next_label(self.bytes.as_slice()) {
            None => false,
            Some((label, _)) => label == b"*".as_slice(),
        }
    }

    /// Whether a label other than the first is `*`: true of `a.*.example`, false of `*.example`.
    pub fn has_inner_star(&self) -> bool
        ensures { result ≡ has_inner_star self.now }
    {
        let Some((_, behind)) = next_label(self.bytes.as_slice()) else {
            return false;
        };
        let mut rest = behind;
        while let Some((label, after)) = next_label(rest) {
            if label == b"*".as_slice() {
                return true;
            }
            rest = after;
        }
        false
    }
}
