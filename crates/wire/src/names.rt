//! Names read at a place of a message, their pointers followed (RFC 1035, section 4.1.4).
ghost use Rattle.std.specs.Prelude.{◌≡◌, ℕ, ◌≤◌, ◌<◌, ◌+◌, List, [], ◌∷◌, ◌++◌, length, IfOk, IfSome, IsOk};
ghost use Rattle.arrayvec.specs.ArrayVec.{array_vec_len};
ghost use Rattle.dname.specs.Labels.{same_name, folded_labels};
ghost use Rattle.dname.specs.Wire.{labels_of, IsSpellingWire};
ghost use Rattle.wire.specs.Parts.{message_faults, rdata_faults, spelt_before, spelt_at, name_at, full_name_at};
ghost use Rattle.wire.specs.Chains.{AreChainEnds};
ghost use Rattle.wire.specs.Results.{Gives, end_of};
ghost use Rattle.wire.specs.Spellings.{spelt_by};
ghost use Rattle.wire.specs.Plain.{IsPlain};
ghost use Rattle.wire.specs.Views.{labels_in};

use crate::chains::chain_behind;
use crate::error::WireError;
use crate::parts::{Faults, Part, part_at};
use crate::spelling::Spelling;
use arrayvec::ArrayVec;
use dname::Name;
use memory::Heap;
use std::alloc::Allocator;

// Adds a label, behind its length, to a spelling that has room for it.
fn put_letters(letters: &mut ArrayVec<u8, 255>, label: &[u8])
    requires short { length label.now < 64 }
    requires room { array_vec_len letters.old + length label.now < 255 }
    ensures { letters.new.items ≡ (letters.old.items ++ length label.now ∷ []) ++ label.now }
{
    letters.push(label.len() as u8);
    if letters.try_extend_from_slice(label).is_err() {
        unreachable!();
    }
}

// Gathers the name at a place in its own letters and in wire form (RFC 1035, section 4.1.4): the one walk over names.
// Gives the end of what lies there, which ends at the limit at the latest. The pointers of the name's own part lead
// strictly before `before`. Chains of pointers whose ends are known are passed in one step. It takes no memory.
fn letters_at(
    letters: &mut ArrayVec<u8, 255>,
    bytes: &[u8],
    ends: &[u16],
    faults: Faults,
    limit: usize,
    before: usize,
    at: usize,
) -> Result<usize, WireError>
    requires empty { letters.old.items ≡ [] }
    requires fits { limit ≤ length bytes.now }
    requires known { AreChainEnds bytes.now ends.now }
    ensures is { spelt_by letters.new.items result ≡ spelt_before bytes.now faults limit before at }
    ensures spelling { IfOk result (λ _. IsSpellingWire letters.new.items) }
    ensures within { IfOk result (λ end. end ≤ limit) }
{
    let mut start = before;
    let mut stop = limit;
    let mut border = faults.border;
    let mut place = at;
    let mut room = 255;
    let mut end = None;
    'parts: loop {
        match part_at(bytes, stop, border, faults.bad_label, place)? {
            Part::End => {
                letters.push(0);
                return Ok(end.unwrap_or(place + 1));
            }
            Part::Label(size) => {
                if room < size + 2 {
                    return Err(faults.too_long);
                }
                if stop - place - 1 < size {
                    return Err(border);
                }
                put_letters(letters, &bytes[place + 1..place + 1 + size]);
                place += 1 + size;
                room -= size + 1;
            }
            Part::Pointer(target) => {
                if target >= start {
                    return Err(faults.not_earlier);
                }
                end = end.or(Some(place + 2));
                let next = chain_behind(ends, target);
                start = next;
                stop = bytes.len();
                border = WireError::Short;
                place = next;
            }
        }
    }
}

// The end of a name that stands at a place in full, as those of clients' questions do: 15 of 1 `a` 0 at 12. None where it
// has a pointer, or is no name.
fn plain_end(bytes: &[u8], at: usize) -> Option<usize>
    ensures { IfSome result (IsPlain bytes.now at) }
{
    let mut place = at;
    let mut room = 255;
    'labels: loop {
        let size = usize::from(*bytes.get(place)?);
        if size == 0 {
            return Some(place + 1);
        }
        if size >= 64 || room < size + 2 || bytes.len() - place - 1 < size {
            return None;
        }
        place += 1 + size;
        room -= size + 1;
    }
}

// The name at a place, whose own part ends at the limit at the latest, and the end of that part. At 12, the bytes 1 `A`
// 0 are the name `a`, and the end is 15.
pub fn name_at<A: Heap>(
    alloc: A,
    bytes: &[u8],
    ends: &[u16],
    faults: Faults,
    limit: usize,
    at: usize,
) -> Result<(Name<A>, usize), WireError>
    requires fits { limit ≤ length bytes.now }
    requires known { AreChainEnds bytes.now ends.now }
    ensures is { Gives {Y = List (List ℕ) × ℕ} (λ x. (x.0, x.1)) result (name_at bytes.now faults limit at) }
    ensures within { IfOk result (λ x. x.1 ≤ limit) }
{
    let mut letters = ArrayVec::new();
    let end = letters_at(&mut letters, bytes, ends, faults, limit, at, at)?;
    Ok((Name::of_letters(alloc, &letters)?, end))
}

// The name at a place that is to stand there in full, up to the limit, and its end: 15 of 1 `a` 0 at 12. Each pointer
// is refused, as one that leads to no earlier place.
pub fn full_name_at<A: Heap>(
    alloc: A,
    bytes: &[u8],
    faults: Faults,
    limit: usize,
    at: usize,
) -> Result<(Name<A>, usize), WireError>
    requires { limit ≤ length bytes.now }
    ensures is { Gives {Y = List (List ℕ) × ℕ} (λ x. (x.0, x.1)) result (full_name_at bytes.now faults limit at) }
    ensures within { IfOk result (λ x. x.1 ≤ limit) }
{
    let mut letters = ArrayVec::new();
    let end = letters_at(&mut letters, bytes, &[], faults, limit, 0, at)?;
    Ok((Name::of_letters(alloc, &letters)?, end))
}

// The end of the name at a place of a message, where one stands there as `name_at` decides it: 15 of 1 `a` 0 at 12. No
// name is built.
pub fn name_end(bytes: &[u8], ends: &[u16], at: usize) -> Result<usize, WireError>
    requires { AreChainEnds bytes.now ends.now }
    ensures is { result ≡ end_of (name_at bytes.now message_faults (length bytes.now) at) }
    ensures within { IfOk result (λ end. end ≤ length bytes.now) }
{
    let mut letters = ArrayVec::new();
    letters_at(
        &mut letters,
        bytes,
        ends,
        Faults::in_message(),
        bytes.len(),
        at,
        at,
    )
}

// The end of a name in RDATA that end at `end`, as `name_end` gives it: 15 of 1 `a` 0 at 12.
pub fn name_end_within(
    bytes: &[u8],
    ends: &[u16],
    at: usize,
    end: usize,
) -> Result<usize, WireError>
    requires fits { end ≤ length bytes.now }
    requires known { AreChainEnds bytes.now ends.now }
    ensures is { result ≡ end_of (name_at bytes.now rdata_faults end at) }
    ensures within { IfOk result (λ past. past ≤ end) }
{
    let mut letters = ArrayVec::new();
    letters_at(&mut letters, bytes, ends, Faults::in_rdata(), end, at, at)
}

// The end of a name in RDATA that is to stand there in full: 15 of 1 `a` 0 at 12; a pointer is refused.
pub fn full_name_end(bytes: &[u8], at: usize, end: usize) -> Result<usize, WireError>
    requires { end ≤ length bytes.now }
    ensures is { result ≡ end_of (full_name_at bytes.now rdata_faults end at) }
    ensures within { IfOk result (λ past. past ≤ end) }
{
    let mut letters = ArrayVec::new();
    letters_at(&mut letters, bytes, &[], Faults::in_rdata(), end, 0, at)
}

// Whether letters in wire form spell the name.
fn is_spelt<A: Allocator>(name: &Name<A>, letters: &[u8]) -> bool
    requires { IsSpellingWire letters.now }
    ensures { result ≡ same_name (folded_labels (labels_of letters.now)) name.now }
{
    name.well_formed_law();
    name.wire().eq_ignore_ascii_case(letters)
}

// Whether the name at a place of a message is this one: 1 `A` 0 is `a`. No name is built.
pub fn is_named<A: Allocator>(bytes: &[u8], ends: &[u16], at: usize, name: &Name<A>) -> bool
    requires known { AreChainEnds bytes.now ends.now }
    requires there { IsOk (name_at bytes.now message_faults (length bytes.now) at) }
    ensures { result ≡ same_name (labels_in (name_at bytes.now message_faults (length bytes.now) at)) name.now }
{
    let mut letters = ArrayVec::new();
    let walked = letters_at(
        &mut letters,
        bytes,
        ends,
        Faults::in_message(),
        bytes.len(),
        at,
        at,
    );
    match walked {
        Ok(_) => is_spelt(name, &letters),
        Err(_) => unreachable!(),
    }
}

// The name at a place of a message, its letters gathered. Kept apart from the caller, which would make the room for
// letters each time.
#[inline(never)]
fn gathered_spelling_at<A: Heap>(
    alloc: A,
    bytes: &[u8],
    at: usize,
) -> Result<(Spelling<A>, usize), WireError>
    ensures is { Gives {Y = List (List ℕ) × ℕ} (λ x. (x.0, x.1)) result (spelt_at bytes.now message_faults (length bytes.now) at) }
    ensures within { IfOk result (λ x. x.1 ≤ length bytes.now) }
{
    let mut letters = ArrayVec::new();
    let end = letters_at(
        &mut letters,
        bytes,
        &[],
        Faults::in_message(),
        bytes.len(),
        at,
        at,
    )?;
    Ok((Spelling::of_letters(alloc, &letters)?, end))
}

// The name at a place of a message as `name_at` reads it, with its own letters, and the end of its own part: of 1 `A` 0
// at 12 it is `a` with the letter `A`, and 15.
pub fn spelling_at<A: Heap>(
    alloc: A,
    bytes: &[u8],
    at: usize,
) -> Result<(Spelling<A>, usize), WireError>
    ensures is { Gives {Y = List (List ℕ) × ℕ} (λ x. (x.0, x.1)) result (spelt_at bytes.now message_faults (length bytes.now) at) }
    ensures within { IfOk result (λ x. x.1 ≤ length bytes.now) }
{
    match plain_end(bytes, at) {
        Some(end) => Ok((Spelling::of_letters(alloc, &bytes[at..end])?, end)),
        None => gathered_spelling_at(alloc, bytes, at),
    }
}
