//! Where workers wait for one another.
use std::sync::{Condvar, Mutex, Wait};
use std::time::{Clock, Duration};

/// Where workers may wait for one another.
pub trait Gate {
    /// Called by each worker before each of its queries, while it holds no lock.
    fn meet<R: Wait>(&self, rt: &R, worker: usize);
}

/// A gate at which nobody waits.
pub struct Open;

impl Gate for Open {
    fn meet<R: Wait>(&self, _rt: &R, _worker: usize) {}
}

/// A gate that opens for the `k`-th time once each of so many workers came for the `k`-th time. Who waits for longer
/// than 10,000 milliseconds goes on alone, and is counted as late.
#[derive(Drop)]
pub struct Meeting<'a, R: Clock + Wait> {
    rt: &'a R,
    workers: u64,
    arrivals: Mutex<Arrivals>,
    opened: Condvar,
}

#[derive(Drop)]
struct Arrivals {
    here: u64,
    rounds: u64,
    late: u64,
}

const PATIENCE: u64 = 10_000;

impl<'a, R: Clock + Wait> Meeting<'a, R> {
    /// A gate for so many workers.
    pub fn new(rt: &'a R, workers: u64) -> Meeting<'a, R> {
        Meeting {
            rt,
            workers,
            arrivals: Mutex::new(Arrivals {
                here: 0,
                rounds: 0,
                late: 0,
            }),
            opened: Condvar::new(),
        }
    }

    /// How often a worker went on alone.
    pub fn late(&self) -> u64 {
        self.arrivals.lock(self.rt).late
    }
}

impl<'a, R: Clock + Wait> Gate for Meeting<'a, R> {
    fn meet<W: Wait>(&self, rt: &W, _worker: usize) {
        let mut arrivals = self.arrivals.lock(rt);
        arrivals.here = arrivals.here.wrapping_add(1);
        if arrivals.here >= self.workers {
            arrivals.here = 0;
            arrivals.rounds = arrivals.rounds.wrapping_add(1);
            self.opened.notify_all();
            return;
        }
        let round = arrivals.rounds;
        let (mut after, waited) = self.opened.wait_timeout_while(
            self.rt,
            arrivals,
            Duration::from_millis(PATIENCE),
            |a: &mut Arrivals| a.rounds == round,
        );
        if waited.timed_out() {
            after.late = after.late.wrapping_add(1);
        }
    }
}
