//! Which asks of servers went out, and which of them are left to be carried.
ghost use Rattle.std.specs.Prelude.{◌≡◌, ◌++◌, ◌∷◌, [], ◌<◌, ◌^◌, OnOk, IfSome, MatchOption, None, take};
ghost use Rattle.score.specs.Sends.{IsLowest, NoneLeft, left_mark, lowest, place_of, taken_off, way_at};

use memory::{Heap, Starved};
use std::alloc::Allocator;
use std::marker::Model;
use wire::Via;

/// An ask that went out: by which way, and whether it is left, which it is until it is carried, truncated or lost.
#[derive(Clone, Copy)]
pub struct Mark {
    /// Over UDP or TCP.
    pub way: Via,
    /// Whether it is still to be carried.
    pub is_left: bool,
}

/// The asks that went out, in the order of their numbers; the first one has number 1.
#[derive(Drop)]
pub struct Sends<A: Allocator> {
    marks: Vec<Mark, A>,
    // So many from the first on, none of them left.
    passed: usize,
}

impl<A: Allocator> Model for Sends<A> {
    ghost use Rattle.std.specs.Prelude.{◌≤◌, length, take};
    ghost use Rattle.score.specs.Sends.{Passage, NoneLeft};

    ghost Value = { Passage };

    ghost view = { λ s. record { marks = s.marks.items; passed = s.passed } };

    ghost invariant = { λ s. (s.passed ≤ length s.marks.items) × NoneLeft (take s.passed s.marks.items) };
}

impl<A: Heap> Sends<A> {
    /// None went out.
    pub fn new(alloc: A) -> Sends<A>
        ensures { result ≡ record { marks = []; passed = 0 } }
    {
        Sends {
            marks: Vec::new(alloc),
            passed: 0,
        }
    }

    /// One more went out, by that way.
    pub fn push(&mut self, way: Via) -> Result<(), Starved>
        ensures { OnOk result (self.new ≡ record { marks = self.old.marks ++ left_mark way ∷ []; passed = self.old.passed }) }
    {
        self.marks.push(Mark { way, is_left: true })?;
        Ok(())
    }
}

impl<A: Allocator> Sends<A> {
    /// How the ask of a number went out, if it did.
    pub fn way(&self, number: u64) -> Option<Via>
        ensures { result ≡ way_at self.now.marks number }
    {
        let mark = self.marks.get(place_of(number)?)?;
        Some(mark.way)
    }

    /// The ask of that number is left no more.
    pub fn take_off(&mut self, number: u64)
        ensures marks { self.new.marks ≡ taken_off self.old.marks number }
        ensures passed { self.new.passed ≡ self.old.passed }
    {
        if let Some(place) = place_of(number) {
            if place < self.marks.len() {
                self.marks[place].is_left = false;
            }
        }
    }

    /// The lowest number of an ask that is left, which it is no more.
    pub fn take_lowest(&mut self) -> Option<u64>
        ensures lowest { result ≡ lowest self.old.marks }
        ensures some { IfSome result (λ k. (self.new.marks ≡ taken_off self.old.marks k) × (self.old.passed < self.new.passed)) }
        ensures none { result ≡ None → self.new.marks ≡ self.old.marks }
        ensures bound { IfSome result (λ _. self.old.passed < 2 ^ 64) }
    {
        match first_left(&self.marks, self.passed) {
            None => {
                self.passed = self.marks.len();
                None
            }
            Some(place) => {
                self.marks[place].is_left = false;
                self.passed = place + 1;
                Some(place as u64 + 1)
            }
        }
    }
}

// The place of the first ask that is left, where none is of so many from the first on.
fn first_left(marks: &[Mark], passed: usize) -> Option<usize>
    requires { NoneLeft (take passed marks.now) }
    ensures { MatchOption result (NoneLeft marks.now) (λ i. IsLowest marks.now passed i) }
{
    let mut place = passed;
    while place < marks.len() {
        if marks[place].is_left {
            return Some(place);
        }
        place += 1;
    }
    None
}

// The place of a number in the list; 0 has none.
fn place_of(number: u64) -> Option<usize>
    ensures { result ≡ place_of number }
{
    if number == 0 {
        None
    } else {
        Some((number - 1) as usize)
    }
}
