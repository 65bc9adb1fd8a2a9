//! The hashers for the keys of the stores.
ghost use Rattle.std.specs.Prelude.{◌≡◌};

use std::hash::{BuildHasher, DefaultHasher, Hasher};

// The hasher for the keys of the stores: SipHash behind the resolver's seed.
pub type StoreHasher = Seeded<DefaultHasher>;

// Begins each hash behind a seed: a stranger who chooses names, and does not know the seed, can't choose names that
// collide.
#[derive(Clone, Copy)]
pub struct Seeded<H> {
    start: H,
}

impl<H: Hasher + Copy> Seeded<H> {
    // Hashes that begin as this one, behind this seed.
    pub fn new(start: H, seed: &[u8]) -> Seeded<H>
        ensures { result.start ≡ H.write start seed.now }
    {
        let mut start = start;
        start.write(seed);
        Seeded { start }
    }
}

impl<H: Hasher + Copy> BuildHasher for Seeded<H> {
    type Hasher = H;

    ghost build_hasher = { λ seeded. seeded.start };

    fn build_hasher(&self) -> H {
        self.start
    }
}
