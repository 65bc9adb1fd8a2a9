//! The suffixes of the names that a message has so far, and the longest that a name ends with.
ghost use Rattle.std.specs.Bool.{OnTrue, OnFalse};
ghost use Rattle.std.specs.Prelude.{◌≡◌, ◌≢◌, ◌<◌, ◌≤◌, ◌++◌, ◌-◌, [], ◌∷◌, length, drop, IfOk, IfSome, OnOk, OnErr, vec_len, vec_capacity, min, ◌+◌};
ghost use Rattle.dname.specs.Labels.{wire};
ghost use Rattle.dname.specs.Wire.{labels_of, IsWire};
ghost use Rattle.message_grammar.specs.Packing.{find};
ghost use Rattle.suffixes.specs.Kept.{kept_bytes, texts_of, bytes_at, notes_of, IsKept, AreKept};
ghost use Rattle.suffixes.specs.Branches.{branch, AreLinked, AreFirsts, IsPut, ArePut, IsEndOf};
ghost use Rattle.suffixes.specs.Longest.{longest, first_notes};

use dname::{LONGEST_NAME, Name, next_label};
use memory::{Heap, Starved};
use std::alloc::{Allocator, Global};
use std::marker::Model;

/// Places of a message from here on are out of a pointer's reach: it has 14 bits (RFC 1035, section 4.1.4).
pub const POINTER_LIMIT: usize = 16_384;

// The sizes of suffixes: 1 to 255 bytes (RFC 1035, section 2.3.4).
const SIZES: usize = LONGEST_NAME + 1;

// Room at first for the suffixes of a few names.
const COMMON_NOTES: usize = 16;

// The branches at a note: two bits of a suffix tell which one it takes.
const BRANCHES: usize = 4;

/// The longest suffix of a name that was written before.
#[derive(Clone, Copy, Debug)]
pub struct Found {
    /// The labels of the name before the suffix.
    pub labels: usize,
    /// The bytes that these labels take in wire form, with their length bytes.
    pub bytes: usize,
    /// Where the suffix was written first: its place in the message, below `POINTER_LIMIT`.
    pub place: u16,
}

// A suffix, never the root: its bytes among those of the names, and where it was written.
#[derive(Clone, Copy)]
pub struct Noted {
    start: usize,
    size: usize,
    place: u16,
    // The numbers of the notes that its branches lead to: 0 where there is none.
    next: [usize; BRANCHES],
}

// Where the path of a suffix ends.
#[derive(Clone, Copy)]
pub enum End {
    // Where it begins: no note has its size.
    Nowhere,
    // Behind the note of this number, on this branch: no note has the suffix.
    Behind { number: usize, branch: usize },
    // At the note of this number, which has the suffix.
    At(usize),
}

/// The suffixes of the names that a message has so far. Contracts see them with their places, in the order
/// in which they were written.
#[derive(Drop)]
pub struct Suffixes<A: Allocator = Global> {
    // The names in wire form, one behind the other: the suffixes of a name are ends of it and share its bytes.
    names: Vec<u8, A>,
    notes: Vec<Noted, A>,
    // By size, the number of the first note of that size, where the paths of such suffixes begin: 0 where none has it.
    firsts: [usize; SIZES],
}

impl<A: Allocator> Model for Suffixes<A> {
    ghost use Rattle.std.specs.Prelude.{List};
    ghost use Rattle.message_grammar.specs.Packing.{Note};
    ghost use Rattle.suffixes.specs.Kept.{notes_of, AreKept};
    ghost use Rattle.suffixes.specs.Branches.{ArePut};

    ghost Value = { List Note };

    ghost view = { λ s. notes_of s.names.items s.notes.items };

    ghost invariant = { λ s. (AreKept s.names.items s.notes.items) × (ArePut s.names.items s.notes.items s.firsts) };
}

// The table without notes.
fn no_firsts() -> [usize; SIZES]
    ensures { ArePut [] [] result }
{
    [0; SIZES]
}

impl Noted {
    // Whether it has this suffix.
    fn has(&self, names: &[u8], suffix: &[u8]) -> bool
        requires kept { IsKept names.now self.now }
        ensures yes { OnTrue result (kept_bytes names.now self.now ≡ suffix.now) }
        ensures no { OnFalse result (kept_bytes names.now self.now ≢ suffix.now) }
    {
        self.size == suffix.len() && &names[self.start..self.start + self.size] == suffix
    }
}

// Which branch a suffix takes where it has passed so many notes: two bits of it, from its first byte on. So suffixes of
// one size part where they differ first, and a path has no more than four notes for each byte.
fn branch_at(suffix: &[u8], depth: usize) -> usize
    ensures is { result ≡ branch suffix.now depth }
    ensures few { result < 4 }
{
    let byte = suffix.get(depth / 4).copied().unwrap_or(0);
    let bits = match depth % 4 {
        0 => byte,
        1 => byte / 4,
        2 => byte / 16,
        _ => byte / 64,
    };
    usize::from(bits % 4)
}

// Follows the path of a suffix from this note on.
fn end_of(notes: &[Noted], first: usize, names: &[u8], suffix: &[u8]) -> End
    requires kept { AreKept names.now notes.now }
    requires linked { AreLinked notes.now }
    requires wire { IsWire suffix.now }
    requires first { first ≤ length notes.now }
    ensures { IsEndOf (texts_of names.now notes.now) notes.now first suffix.now result }
{
    let mut end = End::Nowhere;
    let mut number = first;
    let mut depth = 0;
    while number > 0 {
        let note = &notes[number - 1];
        if note.has(names, suffix) {
            return End::At(number);
        }
        let branch = branch_at(suffix, depth);
        end = End::Behind { number, branch };
        number = note.next[branch];
        depth += 1;
    }
    end
}

// Puts the last note, which has this suffix, at the end of its path, unless one of the same suffix stands there.
fn link(notes: &mut [Noted], firsts: &mut [usize; SIZES], names: &[u8], suffix: &[u8])
    requires kept { AreKept names.now notes.old }
    requires wire { IsWire suffix.now }
    requires short { length suffix.now < 256 }
    requires some { 0 < length notes.old }
    requires last { bytes_at names.now notes.old (length notes.old - 1) ≡ suffix.now }
    requires put { IsPut (texts_of names.now notes.old) notes.old firsts.old (length notes.old - 1) }
    ensures put { ArePut names.now notes.new firsts.new }
    ensures kept { AreKept names.now notes.new }
    ensures same { notes_of names.now notes.new ≡ notes_of names.now notes.old }
{
    let last = notes.len();
    match end_of(notes, firsts[suffix.len()], names, suffix) {
        End::At(_) => {}
        End::Behind { number, branch } => notes[number - 1].next[branch] = last,
        End::Nowhere => firsts[suffix.len()] = last,
    }
}

// Makes the table of these notes the one without notes: a message has few of its sizes.
fn unlink(notes: &[Noted], firsts: &mut [usize; SIZES])
    requires { AreFirsts notes.now firsts.old }
    ensures { ArePut [] [] firsts.new }
{
    for note in notes {
        if note.size < SIZES {
            firsts[note.size] = 0;
        }
    }
}

// Notes the suffixes that begin with the first `written` labels of the name in wire form that is kept from
// `start` on and stands at `at`, each with the place of its first label, as far as a pointer can reach. There
// is room for them.
fn note_labels<A: Allocator>(
    notes: &mut Vec<Noted, A>,
    firsts: &mut [usize; SIZES],
    names: &[u8],
    start: usize,
    written: usize,
    at: usize,
)
    requires starts { start ≤ length names.now }
    requires wire { IsWire (drop start names.now) }
    requires short { length (drop start names.now) < 256 }
    requires kept { AreKept names.now notes.old.items }
    requires put { ArePut names.now notes.old.items firsts.old }
    requires room { vec_len notes.old + min written (length (drop start names.now)) ≤ vec_capacity notes.old }
    ensures kept { AreKept names.now notes.new.items }
    ensures put { ArePut names.now notes.new.items firsts.new }
    ensures noted { notes_of names.now notes.new.items ≡ notes_of names.now notes.old.items ++ first_notes written at (labels_of (drop start names.now)) }
{
    let (_, mut rest) = names.split_at(start);
    let mut place = at;
    for _ in 0..written {
        let Some((label, after)) = next_label(rest) else {
            return;
        };
        if place >= POINTER_LIMIT {
            return;
        }
        let size = rest.len();
        notes.push_reserved(Noted {
            start: names.len() - size,
            size,
            place: place as u16,
            next: [0; BRANCHES],
        });
        link(notes, firsts, names, rest);
        place += 1 + label.len();
        rest = after;
    }
}

impl<A: Heap> Suffixes<A> {
    /// No names yet, with room for a few: two growths serve most messages.
    pub fn new(alloc: A) -> Result<Suffixes<A>, Starved>
        ensures { IfOk result (λ s. s ≡ []) }
    {
        Ok(Suffixes {
            // Room for any one name.
            names: Vec::with_capacity(alloc, LONGEST_NAME)?,
            notes: Vec::with_capacity(alloc, COMMON_NOTES)?,
            firsts: no_firsts(),
        })
    }

    /// Notes the suffixes that begin with the first `written` labels of a name that stands at `at`, each
    /// with the place of its first label, as far as a pointer can reach. After a refusal nothing is noted.
    pub fn note(&mut self, name: &Name<A>, written: usize, at: usize) -> Result<(), Starved>
        ensures ok { OnOk result (self.new ≡ self.old ++ first_notes written at name.now) }
        ensures err { OnErr result (self.new ≡ self.old) }
    {
        if written == 0 || at >= POINTER_LIMIT {
            return Ok(());
        }
        name.well_formed_law();
        let bytes = name.wire();
        let start = self.names.len();
        self.notes.reserve(written.min(bytes.len()))?;
        self.names.extend_from_slice(bytes)?;
        note_labels(
            &mut self.notes,
            &mut self.firsts,
            &self.names,
            start,
            written,
            at,
        );
        Ok(())
    }
}

impl<A: Allocator> Suffixes<A> {
    /// Forgets all names, and keeps their room.
    pub fn clear(&mut self)
        ensures { self.new ≡ [] }
    {
        unlink(&self.notes, &mut self.firsts);
        self.notes.clear();
        self.names.clear();
    }

    // The place of the earliest note of a suffix, which stands on its path.
    fn find(&self, suffix: &[u8]) -> Option<u16>
        requires wire { IsWire suffix.now }
        requires short { length suffix.now < 256 }
        ensures is { result ≡ find self.now (labels_of suffix.now) }
        ensures reach { IfSome result (λ place. place < POINTER_LIMIT) }
    {
        let first = self.firsts[suffix.len()];
        match end_of(&self.notes, first, &self.names, suffix) {
            End::At(number) => Some(self.notes[number - 1].place),
            End::Nowhere => None,
            End::Behind { .. } => None,
        }
    }

    /// The longest suffix of a name, other than the root, that was noted, at its earliest place. Takes no
    /// memory.
    pub fn longest(&self, name: &Name<A>) -> Option<Found>
        ensures is { result ≡ longest self.now name.now }
        ensures within { IfSome result (λ f. (f.labels < length name.now) × (f.bytes < length (wire name.now)) × (f.place < POINTER_LIMIT)) }
    {
        name.well_formed_law();
        let mut rest = name.wire();
        let mut labels = 0;
        let mut bytes = 0;
        while let Some((label, after)) = next_label(rest) {
            if let Some(place) = self.find(rest) {
                return Some(Found {
                    labels,
                    bytes,
                    place,
                });
            }
            labels += 1;
            bytes += 1 + label.len();
            rest = after;
        }
        None
    }
}
