//! Moments of a server: milliseconds since it began, those included in which the machine slept.
use libc::types::timespec;
use std::time::{Clock, Instant};

// Linux's clock that goes on while the machine sleeps, so that what ran out meanwhile is not served.
const CLOCK_BOOTTIME: i32 = 7;

/// When a server began.
#[derive(Clone, Copy)]
pub(crate) struct Beginning {
    instant: Instant,
    // Milliseconds of the clock that counts sleep, where it can be read.
    counted: Option<u64>,
}

impl Beginning {
    /// Now. None where no clock can be read.
    pub fn now<R: Clock>(rt: &R) -> Option<Beginning> {
        let instant = Instant::now(rt).ok()?;
        Some(Beginning {
            instant,
            counted: counted_millis(),
        })
    }

    /// Milliseconds since then, by the clock that counts sleep, or by the other where that can't be read. Where neither
    /// can, no time has passed: the machine takes the latest moment that it heard of.
    pub fn moment<R: Clock>(&self, rt: &R) -> u64 {
        if let Some(began) = self.counted
            && let Some(now) = counted_millis()
        {
            return now.saturating_sub(began);
        }
        match self.instant.elapsed(rt) {
            Ok(passed) => u64::try_from(passed.as_millis()).unwrap_or(u64::MAX),
            Err(_) => 0,
        }
    }
}

// Milliseconds of the clock that counts sleep. None where it can't be read.
fn counted_millis() -> Option<u64> {
    let mut time = timespec {
        tv_sec: 0,
        tv_nsec: 0,
    };
    if libc::clock_gettime(CLOCK_BOOTTIME, &mut time) != 0 {
        return None;
    }
    let seconds = u64::try_from(time.tv_sec).ok()?;
    let nanos = u64::try_from(time.tv_nsec).ok()?;
    seconds.checked_mul(1_000)?.checked_add(nanos / 1_000_000)
}
