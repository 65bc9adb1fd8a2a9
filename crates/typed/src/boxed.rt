//! What was read of a server's message, in memory of its own.
ghost use Rattle.std.specs.Prelude.{◌≡◌, IfOk, option_copied};

use classify::Reading;
use memory::{Heap, Starved};
use std::alloc::{AllocError, Allocator, Global};
use std::marker::Model;
use std::ops::Deref;

/// A reading in memory of its own, so that an event stays short: it is moved more often than it is read. Contracts see
/// the reading.
pub struct BoxedReading<A: Allocator = Global> {
    reading: Box<Reading<A>, A>,
}

impl<A: Allocator> Model for BoxedReading<A> {
    ghost use Rattle.classify.specs.declared.reading.Reading.{Reading as ReadingSpec};

    ghost Value = { ReadingSpec A };

    ghost view = { λ r. r.reading.value };
}

impl<A: Heap> BoxedReading<A> {
    /// This reading, moved to memory of its own.
    pub fn new(alloc: A, reading: Reading<A>) -> Result<BoxedReading<A>, Starved>
        ensures { IfOk result (λ r. r ≡ reading) }
    {
        Ok(BoxedReading {
            reading: Box::new(alloc, reading)?,
        })
    }
}

/// The reading, if there is one, moved to memory of its own. Refused where no memory is left.
pub fn boxed_reading<A: Heap>(
    alloc: A,
    reading: Option<Reading<A>>,
) -> Result<Option<BoxedReading<A>>, Starved>
    ensures { IfOk result (λ r. r ≡ reading) }
{
    match reading {
        None => Ok(None),
        Some(reading) => Ok(Some(BoxedReading::new(alloc, reading)?)),
    }
}

/// The reading, if there is one, lent.
pub fn lent_reading<A: Allocator>(reading: &Option<BoxedReading<A>>) -> Option<&Reading<A>>
    ensures { option_copied result ≡ reading.now }
{
    match reading {
        None => None,
        Some(reading) => Some(&**reading),
    }
}

impl<A: Allocator> Deref for BoxedReading<A> {
    type Target = Reading<A>;

    ghost deref_gives = { λ r q. q ≡ r };

    fn deref(&self) -> &Reading<A>
        ensures { result.now ≡ self.now }
    {
        &self.reading
    }
}

impl<A: Heap> Clone for BoxedReading<A> {
    ghost is_clone = { λ x y. y ≡ x };

    fn clone(&self) -> Result<BoxedReading<A>, AllocError> {
        let alloc = self.reading.name.allocator();
        Ok(BoxedReading {
            reading: Box::new(alloc, (*self.reading).clone()?)?,
        })
    }
}

// By hand, so that whatever drops it calls this.
impl<A: Allocator> Drop for BoxedReading<A> {
    fn drop(self) {
        let BoxedReading { reading } = self;
        drop(reading);
    }
}
