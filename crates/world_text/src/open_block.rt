//! A block that no line ended yet.
ghost use Rattle.std.specs.Prelude.{◌<◌, ◌^◌};

use dname::Name;
use std::alloc::Allocator;

/// What the first line of an open block says, and the text behind that line.
#[derive(Drop)]
pub(crate) struct OpenBlock<'t, A: Allocator> {
    pub(crate) origin: Name<A>,
    pub(crate) is_local: bool,
    pub(crate) line: usize,
    pub(crate) behind: &'t str,
    ghost counted: { line < 2 ^ 63 },
}
