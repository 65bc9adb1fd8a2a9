//! A step that was taken, as it is written down.
ghost use Rattle.std.specs.Prelude.{◌≡◌, ◌↔◌, IfOk, IsTrue};
ghost use Rattle.book.specs.Histories.{line, IsLast};

use crate::machine::Machine;
use memory::Starved;
use std::marker::Model;

/// One step that was taken: by which worker, on which event, and what came out. Only `Book::put` makes one,
/// apart from copies, so that it is the newest line of some legal history.
#[derive(Drop)]
pub struct Entry<M: Machine> {
    worker: usize,
    number: u64,
    event: M::Event,
    out: Result<M::Out, Starved>,
}

impl<M: Machine> Model for Entry<M> {
    ghost use Rattle.book.specs.Histories.{Line, line, IsLast};

    ghost Value = { Line M.Event M.Out };

    ghost view = { λ e. line e.worker e.number e.event e.out };

    ghost invariant = { λ e. IsLast M.moves M.begins (line e.worker e.number e.event e.out) };
}

impl<M: Machine> Entry<M> {
    pub(crate) fn new(
        worker: usize,
        number: u64,
        event: M::Event,
        out: Result<M::Out, Starved>,
    ) -> Entry<M>
        requires { IsLast M.moves M.begins (line worker number event out) }
        ensures { result ≡ line worker number event out }
    {
        Entry {
            worker,
            number,
            event,
            out,
        }
    }

    /// The worker, counted from 0.
    pub fn worker(&self) -> usize
        ensures { result ≡ self.now.worker }
    {
        self.worker
    }

    /// How many entries of the same worker came before.
    pub fn number(&self) -> u64
        ensures { result ≡ self.now.number }
    {
        self.number
    }

    /// The event.
    pub fn event(&self) -> &M::Event
        ensures { result.now ≡ self.now.event }
    {
        &self.event
    }

    /// What came out of the step, or that it wanted memory.
    pub fn out(&self) -> &Result<M::Out, Starved>
        ensures { result.now ≡ self.now.out }
    {
        &self.out
    }

    // What came out of the step alone.
    pub(crate) fn into_out(self) -> Result<M::Out, Starved>
        ensures { result ≡ self.out }
    {
        let Entry {
            worker: _,
            number: _,
            event,
            out,
        } = self;
        drop(event);
        out
    }

    /// An equal entry.
    pub fn copy(&self) -> Result<Entry<M>, Starved>
        ensures { IfOk result (λ e. e ≡ self.now) }
    {
        self.copy_around(M::copy_event(&self.event)?)
    }

    // An equal entry, which takes this event for its own.
    pub(crate) fn copy_around(&self, event: M::Event) -> Result<Entry<M>, Starved>
        requires { event ≡ self.now.event }
        ensures { IfOk result (λ e. e ≡ self.now) }
    {
        Ok(Entry {
            worker: self.worker,
            number: self.number,
            event,
            out: copy_out::<M>(&self.out)?,
        })
    }

    /// Whether two entries are equal.
    pub fn same(&self, other: &Entry<M>) -> bool
        ensures { IsTrue result ↔ (self.now ≡ other.now) }
    {
        self.worker == other.worker
            && self.number == other.number
            && M::same_event(&self.event, &other.event)
            && same_out::<M>(&self.out, &other.out)
    }

    /// An entry is the newest line of some legal history.
    pub fn last_law(&self)
        ensures { IsLast M.moves M.begins self.now }
    {
        let _ = &self.worker;
    }
}

/// An equal outcome of a step.
fn copy_out<M: Machine>(out: &Result<M::Out, Starved>) -> Result<Result<M::Out, Starved>, Starved>
    ensures { IfOk result (λ o. o ≡ out.now) }
{
    match out {
        Ok(out) => Ok(Ok(M::copy_out(out)?)),
        Err(Starved) => Ok(Err(Starved)),
    }
}

fn same_out<M: Machine>(a: &Result<M::Out, Starved>, b: &Result<M::Out, Starved>) -> bool
    ensures { IsTrue result ↔ (a.now ≡ b.now) }
{
    match (a, b) {
        (Ok(a), Ok(b)) => M::same_out(a, b),
        (Err(Starved), Err(Starved)) => true,
        _ => false,
    }
}
