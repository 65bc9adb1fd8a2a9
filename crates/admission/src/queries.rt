//! Queries as admission sees them: by key, client, domain and moment.
ghost use Rattle.std.specs.Prelude.{◌≡◌, not};
ghost use Rattle.admission.specs.Moves.{may_wait};

use crate::limits::WAIT_MS;

/// A query that was admitted. It is open since the moment `opened`, in milliseconds; while its step runs it has none.
#[derive(Clone, Copy, Debug, PartialEq, Eq)]
pub struct Admitted {
    /// A hash of its question.
    pub key: u64,
    /// The client's address and, in the low sixteen bits, its port.
    pub client: u64,
    /// A hash of the domain in which its name lies.
    pub domain: u64,
    /// The moment since which it is open.
    pub opened: Option<u64>,
}

/// A query that is held back since that moment, in milliseconds, with what the caller needs to put it in.
#[derive(Debug, Drop)]
pub struct Held<T> {
    /// A hash of its question.
    pub key: u64,
    /// The client's address and, in the low sixteen bits, its port.
    pub client: u64,
    /// A hash of the domain in which its name lies.
    pub domain: u64,
    /// The moment since which it is held.
    pub since: u64,
    /// What it is put in with.
    pub payload: T,
}

impl<T> Held<T> {
    /// Whether it has waited for its time at this moment, in milliseconds.
    pub fn is_late(&self, now: u64) -> bool
        ensures { result ≡ not (may_wait now self.now) }
    {
        now.saturating_sub(self.since) >= WAIT_MS
    }
}

/// What is decided of a query that comes. What is not held is given back.
#[derive(Debug, Drop)]
pub enum Decision<T> {
    /// It is inside: its step is to be taken now.
    In(T),
    /// It waits for a reply to an equal query.
    Waits,
    /// It is over a limit, and to be dropped.
    Refused(T),
}
