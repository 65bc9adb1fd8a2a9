//! The allocator of a name.
use crate::name::Name;
use memory::Heap;

impl<A: Heap> Name<A> {
    /// The allocator that the name was made with: of `Name::root(Global)` it is `Global`.
    pub fn allocator(&self) -> A {
        *self.bytes.allocator()
    }
}
