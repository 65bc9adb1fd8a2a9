//! What comes out of work.
use anyhow::Result;
use memory::Starved;
use std::io;
use std::time::{Clock, Duration, Instant};

/// What was counted beside the time.
#[derive(Clone, Copy)]
pub enum Counted {
    Nothing,
    /// The bytes of a text that was read.
    Text(u64),
    /// The bytes of resident memory that were taken.
    Resident(u64),
    /// The same for the records of a zone as a list, and for the whole zone.
    Grown { list: u64, zone: u64 },
}

/// What came out, as a number so that none of the work can be left out, how long it took, and what was counted.
#[derive(Clone, Copy)]
pub struct Done {
    pub sum: u64,
    pub taken: Duration,
    pub counted: Counted,
}

/// What came out of the work since that start, where nothing else was counted.
pub fn finish<R: Clock>(
    rt: &R,
    start: io::Result<Instant>,
    sum: Result<u64, Starved>,
) -> Result<Done> {
    let taken = start?.elapsed(rt)?;
    Ok(Done {
        sum: sum?,
        taken,
        counted: Counted::Nothing,
    })
}

/// The low sixteen bits of a size.
pub fn low(size: usize) -> u64 {
    (size % 65_536) as u64
}
