ghost use Rattle.std.specs.Prelude.{◌≡◌, ◌<◌, IfOk};

use book::{Book, Entry, Machine, Ticket};
use memory::{Heap, Starved};
use refusing_alloc::Refusing;
use std::alloc::{Allocator, Global};
use std::marker::Brand;
use std::sync::Mutex;
use std::sync::ledger::{Blank, Ledger, Share};
use std::test::Fail;

// Adds each event to its state, and shows the new state; a sum that does not fit is refused.
struct Adding;

impl Machine for Adding {
    type State = u64;

    type Event = u64;

    type Out = u64;

    ghost use Rattle.std.specs.Prelude.{◌≡◌, ◌+◌, MatchResult};

    ghost moves = { λ s e r t. MatchResult r (λ o. (o ≡ s + e) × (t ≡ o)) (λ _. t ≡ s) };

    ghost begins = { λ s. s ≡ 0 };

    fn step(state: &mut u64, event: &u64) -> Result<u64, Starved> {
        let sum = state.checked_add(*event).ok_or(Starved)?;
        *state = sum;
        Ok(sum)
    }

    fn copy_event(event: &u64) -> Result<u64, Starved> {
        Ok(*event)
    }

    fn copy_out(out: &u64) -> Result<u64, Starved> {
        Ok(*out)
    }

    fn same_event(a: &u64, b: &u64) -> bool {
        a == b
    }

    fn same_out(a: &u64, b: &u64) -> bool {
        a == b
    }
}

// Notes the event of each step and shows it; it refuses to copy the event 1 and the outcome 2.
struct Noting;

impl Machine for Noting {
    type State = Vec<u64>;

    type Event = u64;

    type Out = u64;

    ghost use Rattle.std.specs.Prelude.{◌≡◌, [], ◌∷◌, ◌++◌, MatchResult};

    ghost moves = { λ s e r t. MatchResult r (λ o. (o ≡ e) × (t.items ≡ s.items ++ e ∷ [])) (λ _. t.items ≡ s.items) };

    ghost begins = { λ s. s.items ≡ [] };

    fn step(state: &mut Vec<u64>, event: &u64) -> Result<u64, Starved> {
        state.push(*event)?;
        Ok(*event)
    }

    fn copy_event(event: &u64) -> Result<u64, Starved> {
        if *event == 1 {
            return Err(Starved);
        }
        Ok(*event)
    }

    fn copy_out(out: &u64) -> Result<u64, Starved> {
        if *out == 2 {
            return Err(Starved);
        }
        Ok(*out)
    }

    fn same_event(a: &u64, b: &u64) -> bool {
        a == b
    }

    fn same_out(a: &u64, b: &u64) -> bool {
        a == b
    }
}

// Puts an event with the ticket at this place.
fn put<M: Machine, L: Ledger, A: Allocator>(
    book: &mut Book<M, L, A>,
    tickets: &mut [Ticket<L>],
    place: usize,
    event: M::Event,
) -> Result<Entry<M>, Starved> {
    let Some(ticket) = tickets.get_mut(place) else {
        return Err(Starved);
    };
    if !book.owns(ticket) {
        return Err(Starved);
    }
    book.put(ticket, event)
}

// Worker, number, event, and the outcome, if there was memory for the step.
type Row = (usize, u64, u64, Option<u64>);

fn row(entry: &Entry<Adding>) -> Row {
    let out = match entry.out() {
        Ok(out) => Some(*out),
        Err(_) => None,
    };
    (entry.worker(), entry.number(), *entry.event(), out)
}

const ROWS: [Row; 4] = [
    (0, 0, 5, Some(5)),
    (1, 0, 7, Some(12)),
    (0, 1, 1, Some(13)),
    (1, 1, u64::MAX, None),
];

const NEWEST_FIRST: [Row; 4] = [
    (1, 1, u64::MAX, None),
    (0, 1, 1, Some(13)),
    (1, 0, 7, Some(12)),
    (0, 0, 5, Some(5)),
];

// Worker 0 puts 5 and 1, worker 1 puts 7 between them and at the end a number that is too large.
fn put_four<L: Ledger, A: Allocator>(
    book: &mut Book<Adding, L, A>,
    tickets: &mut [Ticket<L>],
) -> Result<(), Starved> {
    for (place, event) in [(0, 5), (1, 7), (0, 1), (1, u64::MAX)] {
        put(book, tickets, place, event)?;
    }
    Ok(())
}

// Whether of the last four entries these are kept, the newest first, and no others.
fn are_kept<L: Ledger, A: Allocator>(book: &Book<Adding, L, A>, expected: &[Row]) -> bool {
    for back in 0..4 {
        if book.recent(back).map(row) != expected.get(back).copied() {
            return false;
        }
    }
    true
}

fn keeps_of_four<L: Ledger, A: Allocator>(
    book: &mut Book<Adding, L, A>,
    tickets: &mut [Ticket<L>],
    expected: &[Row],
) -> Result<bool, Starved> {
    put_four(book, tickets)?;
    Ok(are_kept(book, expected))
}

// The shares of both tickets, as one.
fn shares_of<L: Ledger, A: Allocator>(tickets: Vec<Ticket<L>, A>) -> Result<Share<L>, Starved>
    ensures { IfOk result (λ all. all.parts ≡ 2) }
{
    let mut tickets = tickets;
    let (Some(last), Some(first)) = (tickets.pop(), tickets.pop()) else {
        return Err(Starved);
    };
    let mut all = last.into_share();
    all.merge(first.into_share());
    Ok(all)
}

fn are_rows<A: Heap>(alloc: A, history: &[Entry<Adding>]) -> Result<bool, Starved> {
    let mut rows = Vec::new(alloc);
    for entry in history {
        rows.push(row(entry))?;
    }
    Ok(rows.as_slice() == ROWS.as_slice())
}

// Whether the whole history is ROWS, if it is kept.
fn told<L: Ledger, A: Heap>(alloc: A, book: Book<Adding, L, A>) -> Result<Option<bool>, Starved> {
    if !book.is_whole() {
        return Ok(None);
    }
    let history = book.into_history(alloc)?;
    Ok(Some(are_rows(alloc, &history)?))
}

// What a book shows after four steps: whether it keeps these entries, the newest first, and no others; whether the
// whole history is ROWS, if it is kept; and the number of entries that the shares of both tickets make together.
fn four_steps<L: Ledger, A: Heap>(
    alloc: A,
    blank: Blank,
    keep: usize,
    kept: &[Row],
) -> Result<(bool, Option<bool>, u64), Starved>
    requires name { blank.name ≡ L.name }
    requires parts { (blank.parts ≡ L.parts) × (blank.parts ≡ 2) }
{
    let (mut book, mut tickets) = Book::<Adding, L, A>::new(alloc, blank, 0, 2, keep)?;
    let kept = keeps_of_four(&mut book, &mut tickets, kept)?;
    let mut all = shares_of(tickets)?;
    let audited = book.audit(&mut all);
    Ok((kept, told(alloc, book)?, audited))
}

#[test]
fn one_history_of_two_workers(rt: HostRuntime) -> Result<(), Fail> {
    let shown = four_steps::<Brand, Global>(rt.alloc(), Blank::new(2), 4, &NEWEST_FIRST)?;
    assert_eq!(rt; shown, (true, Some(true), 4));
    Ok(())
}

#[test]
fn the_last_entries_are_kept(rt: HostRuntime) -> Result<(), Fail> {
    let last = &NEWEST_FIRST[..3];
    let shown = four_steps::<Brand, Global>(rt.alloc(), Blank::new(2), 3, last)?;
    assert_eq!(rt; shown, (true, None, 4));
    Ok(())
}

fn are_shown<A: Heap>(alloc: A) -> bool {
    four_steps::<Brand, A>(alloc, Blank::new(2), 4, &NEWEST_FIRST).is_ok()
}

// The first growth that is missed where it is refused, or after which another one is.
fn first_missed<B: Allocator>(heap: &Refusing<B>, growths: u64) -> Option<u64> {
    for n in 0..growths {
        heap.refuse_after(n);
        if are_shown(heap) || !are_shown(heap) {
            return Some(n);
        }
    }
    None
}

#[test]
fn each_growth_refused_in_turn(rt: HostRuntime) -> Result<(), Fail> {
    let heap = Refusing::new(rt.alloc());
    assert!(rt; are_shown(&heap));
    let growths = heap.growths();
    assert!(rt; growths >= 5);
    assert_eq!(rt; first_missed(&heap, growths), None);
    Ok(())
}

// Whether the entry of a put event came back, the ticket's count, entries and steps.
type Left = (bool, u64, u64, usize);

fn leaves<L: Ledger>(
    book: &mut Book<Noting, L>,
    tickets: &mut [Ticket<L>],
    event: u64,
    left: Left,
) -> bool {
    let given = put(book, tickets, 0, event).is_ok();
    match tickets.first() {
        Some(ticket) => (given, ticket.count(), book.entries(), book.state().len()) == left,
        None => false,
    }
}

// Whether one event put by worker 0 of one leaves this, where the book keeps so many.
fn leaves_one<L: Ledger>(
    alloc: Global,
    blank: Blank,
    event: u64,
    keep: usize,
    left: Left,
) -> Result<bool, Starved>
    requires name { blank.name ≡ L.name }
    requires parts { (blank.parts ≡ L.parts) × (blank.parts ≡ 1) }
{
    let (mut book, mut tickets) = Book::<Noting, L>::new(alloc, blank, Vec::new(alloc), 1, keep)?;
    Ok(leaves(&mut book, &mut tickets, event, left))
}

#[test]
fn a_refused_copy(rt: HostRuntime) -> Result<(), Fail> {
    for (event, left) in [
        (0, (true, 1, 1, 1)),
        (1, (false, 0, 0, 0)),
        (2, (false, 1, 1, 1)),
    ] {
        assert!(rt;
            leaves_one::<Brand>(rt.alloc(), Blank::new(1), event, 1, left)?,
            "event {event}"
        );
    }
    Ok(())
}

#[test]
fn a_book_that_keeps_no_entries_copies_nothing(rt: HostRuntime) -> Result<(), Fail> {
    for event in [1, 2] {
        let left = (true, 1, 1, 1);
        assert!(rt;
            leaves_one::<Brand>(rt.alloc(), Blank::new(1), event, 0, left)?,
            "event {event}"
        );
    }
    Ok(())
}

// Whether a copy of the first entry is the same as it, and as the second.
fn copy_compared(first: &Entry<Adding>, second: &Entry<Adding>) -> Result<(bool, bool), Starved> {
    let copy = first.copy()?;
    Ok((copy.same(first), copy.same(second)))
}

// The same of two entries of one event.
fn put_twice<L: Ledger>(
    book: &mut Book<Adding, L>,
    tickets: &mut [Ticket<L>],
) -> Result<(bool, bool), Starved> {
    let first = put(book, tickets, 0, 3)?;
    let second = put(book, tickets, 0, 3)?;
    copy_compared(&first, &second)
}

fn compared<L: Ledger>(alloc: Global, blank: Blank) -> Result<(bool, bool), Starved>
    requires name { blank.name ≡ L.name }
    requires parts { (blank.parts ≡ L.parts) × (blank.parts ≡ 1) }
{
    let (mut book, mut tickets) = Book::<Adding, L>::new(alloc, blank, 0, 1, 1)?;
    put_twice(&mut book, &mut tickets)
}

#[test]
fn entries_are_compared(rt: HostRuntime) -> Result<(), Fail> {
    assert!(rt; compared::<Brand>(rt.alloc(), Blank::new(1))? == (true, false));
    Ok(())
}

fn sends<T: Send + Drop>(_value: T) {}

fn shares<T: Sync>(_value: &T) {}

// A book under a lock, its tickets and its entries can cross threads, whatever the machine.
fn crosses<M: Machine + Send + Sync, L: Ledger + Send + Sync>(
    book: Book<M, L>,
    ticket: Ticket<L>,
    entry: Entry<M>,
) {
    let shared = Mutex::new(book);
    shares(&shared);
    sends(shared);
    sends(ticket);
    sends(entry);
}

// The same of one machine, whose state has memory of its own.
fn notes_cross<L: Ledger + Send + Sync>(book: Book<Noting, L>, entry: Entry<Noting>) {
    let shared = Mutex::new(book);
    shares(&shared);
    sends(shared);
    sends(entry);
}
