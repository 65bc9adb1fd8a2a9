ghost use Rattle.std.specs.Prelude.{◌≡◌, ◌<◌};

use book::{Book, Entry, Machine, Ticket};
use memory::{Heap, Starved};
use pool::{Closed, Kept, PoolError, Shared, gather, submit};
use refusing_alloc::Refusing;
use std::alloc::Global;
use std::marker::Brand;
use std::sync::Wait;
use std::sync::ledger::{Blank, Ledger};
use std::test::Fail;

// Counts up by each event and shows the count. It refuses to copy the event 1 and the count 2.
struct Counting;

impl Machine for Counting {
    type State = u64;

    type Event = u64;

    type Out = u64;

    ghost use Rattle.std.specs.Prelude.{◌≡◌, ◌+◌, MatchResult};

    ghost moves = { λ s e r t. MatchResult r (λ o. (o ≡ s + e) × (t ≡ o)) (λ _. t ≡ s) };

    ghost begins = { λ s. s ≡ 0 };

    fn step(state: &mut u64, event: &u64) -> Result<u64, Starved> {
        let sum = state.checked_add(*event).ok_or(Starved)?;
        *state = sum;
        Ok(sum)
    }

    fn copy_event(event: &u64) -> Result<u64, Starved> {
        if *event == 1 {
            return Err(Starved);
        }
        Ok(*event)
    }

    fn copy_out(out: &u64) -> Result<u64, Starved> {
        if *out == 2 {
            return Err(Starved);
        }
        Ok(*out)
    }

    fn same_event(a: &u64, b: &u64) -> bool {
        a == b
    }

    fn same_out(a: &u64, b: &u64) -> bool {
        a == b
    }
}

// Worker, number, event, and the count behind it.
type Row = (usize, u64, u64, Option<u64>);

fn row(entry: &Entry<Counting>) -> Row {
    let out = match entry.out() {
        Ok(out) => Some(*out),
        Err(_) => None,
    };
    (entry.worker(), entry.number(), *entry.event(), out)
}

const ROWS: [Row; 4] = [
    (0, 0, 5, Some(5)),
    (1, 0, 7, Some(12)),
    (0, 1, 6, Some(18)),
    (1, 1, 8, Some(26)),
];

// A worker's entry for one event, and its place in the worker's list.
fn put<L: Ledger, A: Heap, R: Wait>(
    rt: &R,
    shared: &Shared<Counting, L, A>,
    ticket: &mut Ticket<L>,
    list: &mut Vec<Entry<Counting>, A>,
    event: u64,
) -> Result<(), PoolError> {
    let entry = submit(rt, shared, ticket, event)?;
    Ok(list.push(entry)?)
}

// Worker 0 puts 5 and 6, and worker 1 puts 7 between them and 8 at the end; each keeps its entries.
fn put_four<L: Ledger, A: Heap, R: Wait>(
    rt: &R,
    shared: &Shared<Counting, L, A>,
    tickets: &mut [Ticket<L>],
    lists: &mut [Vec<Entry<Counting>, A>],
) -> Result<(), PoolError> {
    for (place, event) in [(0, 5), (1, 7), (0, 6), (1, 8)] {
        match (tickets.get_mut(place), lists.get_mut(place)) {
            (Some(ticket), Some(list)) => put(rt, shared, ticket, list, event)?,
            _ => return Err(PoolError::Memory),
        }
    }
    Ok(())
}

// The lists of both workers. With `swapped` the entries of worker 0 change places.
fn two_lists<L: Ledger, A: Heap, R: Wait>(
    rt: &R,
    alloc: A,
    shared: &Shared<Counting, L, A>,
    tickets: &mut [Ticket<L>],
    swapped: bool,
) -> Result<Vec<Vec<Entry<Counting>, A>, A>, PoolError> {
    let mut lists = Vec::new(alloc);
    lists.push(Vec::new(alloc))?;
    lists.push(Vec::new(alloc))?;
    put_four(rt, shared, tickets, &mut lists)?;
    if swapped && let Some(list) = lists.first_mut() {
        list.reverse();
    }
    Ok(lists)
}

// One worker hands back its ticket and its list.
fn hand_back<L: Ledger, A: Heap>(
    kept: &mut Vec<Kept<Counting, L, A>, A>,
    ticket: Ticket<L>,
    list: Option<Vec<Entry<Counting>, A>>,
) -> Result<(), Starved> {
    match list {
        Some(list) => Ok(kept.push(Kept::new(ticket, list))?),
        None => Err(Starved),
    }
}

// What the workers hand back.
fn handed_back<L: Ledger, A: Heap>(
    alloc: A,
    tickets: Vec<Ticket<L>, A>,
    lists: Vec<Vec<Entry<Counting>, A>, A>,
) -> Result<Vec<Kept<Counting, L, A>, A>, Starved> {
    let mut kept = Vec::new(alloc);
    let mut lists = lists.into_iter();
    for ticket in tickets {
        hand_back(&mut kept, ticket, lists.next())?;
    }
    Ok(kept)
}

// Whether the history is ROWS.
fn are_rows(history: &[Entry<Counting>]) -> bool {
    for (place, entry) in history.iter().enumerate() {
        if ROWS.get(place).copied() != Some(row(entry)) {
            return false;
        }
    }
    history.len() == ROWS.len()
}

// Whether the history is ROWS after both workers put two events each, where the book keeps so many.
fn closing<L: Ledger, A: Heap, R: Wait>(
    rt: &R,
    alloc: A,
    blank: Blank,
    keep: usize,
    swapped: bool,
) -> Result<bool, PoolError>
    requires name { blank.name ≡ L.name }
    requires parts { (blank.parts ≡ L.parts) × (blank.parts ≡ 2) }
{
    let (book, mut tickets) = Book::<Counting, L, A>::new(alloc, blank, 0, 2, keep)?;
    let shared = Shared::new(book);
    let lists = two_lists(rt, alloc, &shared, &mut tickets, swapped)?;
    let kept = handed_back(alloc, tickets, lists)?;
    let closed = gather(alloc, shared.into_book(), kept)?;
    Ok(are_rows(&closed.history))
}

#[test]
fn true_lists_close(rt: HostRuntime) -> Result<(), Fail> {
    assert!(rt; closing::<Brand, Global, _>(&rt, rt.alloc(), Blank::new(2), 4, false)?);
    Ok(())
}

#[test]
fn a_false_list_differs(rt: HostRuntime) -> Result<(), Fail> {
    let closed = closing::<Brand, Global, _>(&rt, rt.alloc(), Blank::new(2), 4, true);
    assert!(rt; closed.err() == Some(PoolError::Differs));
    Ok(())
}

#[test]
fn a_forgotten_entry_comes_first(rt: HostRuntime) -> Result<(), Fail> {
    for swapped in [false, true] {
        let closed = closing::<Brand, Global, _>(&rt, rt.alloc(), Blank::new(2), 3, swapped);
        assert!(rt; closed.err() == Some(PoolError::Forgot));
    }
    Ok(())
}

#[test]
fn each_growth_refused_in_turn(rt: HostRuntime) -> Result<(), Fail> {
    let heap = Refusing::new(rt.alloc());
    assert!(rt; closing::<Brand, _, _>(&rt, &heap, Blank::new(2), 4, false).is_ok());
    let growths = heap.growths();
    assert!(rt; growths >= 8);
    for n in 0..growths {
        heap.refuse_after(n);
        let closed = closing::<Brand, _, _>(&rt, &heap, Blank::new(2), 4, false);
        assert!(rt; closed.err() == Some(PoolError::Memory), "growth {n}");
    }
    Ok(())
}

// What the first worker is refused, and the ticket's count after it.
fn submit_first<L: Ledger, R: Wait>(
    rt: &R,
    shared: &Shared<Counting, L>,
    tickets: &mut [Ticket<L>],
    event: u64,
) -> (Option<PoolError>, Option<u64>) {
    match tickets.first_mut() {
        Some(ticket) => (
            submit(rt, shared, ticket, event).err(),
            Some(ticket.count()),
        ),
        None => (None, None),
    }
}

// What one event of one worker leaves: whether the entry came back, the ticket's count, the entries and the machine's
// count.
fn after_one<L: Ledger, R: Wait>(
    rt: &R,
    alloc: Global,
    blank: Blank,
    event: u64,
) -> Result<(Option<PoolError>, Option<u64>, u64, u64), PoolError>
    requires name { blank.name ≡ L.name }
    requires parts { (blank.parts ≡ L.parts) × (blank.parts ≡ 1) }
{
    let (book, mut tickets) = Book::<Counting, L>::new(alloc, blank, 0, 1, 1)?;
    let shared = Shared::new(book);
    let (refusal, count) = submit_first(rt, &shared, &mut tickets, event);
    let book = shared.into_book();
    Ok((refusal, count, book.entries(), *book.state()))
}

#[test]
fn each_copy_refused(rt: HostRuntime) -> Result<(), Fail> {
    let alloc = rt.alloc();
    assert!(rt; after_one::<Brand, _>(&rt, alloc, Blank::new(1), 3)? == (None, Some(1), 1, 3));
    let starved = Some(PoolError::Memory);
    assert!(rt; after_one::<Brand, _>(&rt, alloc, Blank::new(1), 1)? == (starved, Some(0), 0, 0));
    assert!(rt; after_one::<Brand, _>(&rt, alloc, Blank::new(1), 2)? == (starved, Some(1), 1, 2));
    Ok(())
}

fn sends<T: Send + Drop>(_value: T) {}

fn shares<T: Sync>(_value: &T) {}

// A shared machine, what workers hand back and what comes of it can cross threads, whatever the machine.
fn crosses<M: Machine + Send + Sync, L: Ledger + Send + Sync>(
    shared: Shared<M, L>,
    kept: Kept<M, L>,
    closed: Closed<M>,
) {
    shares(&shared);
    sends(shared);
    sends(kept);
    sends(closed);
}
