//! Entries read one by one, records and directives, each under the origin, owner and TTL in force.
ghost use Rattle.std.specs.Prelude.{◌≡◌, [], ◌∷◌, Ok, Err, None, Some, IfOk, OnOk, false};
ghost use Rattle.master_lexer.specs.Lexemes.{plain as plain_text};
ghost use Rattle.master_lexer.specs.Views.{lead_of};
ghost use Rattle.masterfile.specs.Entries.{is_internet as internet_test, is_foreign_class as foreign_test, take_head, record_of, begins_directive, directive_in, record_of_named, entry_in, IsTtl};
ghost use Rattle.masterfile.specs.Files.{start};
ghost use Rattle.masterfile.specs.Given.{GivesHead, GivesEntry, GivesContext};

use crate::faults::FileKind;
use crate::fields::{end, name, name_of_word, number_field, plain, rdata};
use crate::numbers::{is_number, number};
use dname::Name;
use master_lexer::{Lead, Word, Words};
use memory::Heap;
use rdata::{GREATEST_TTL, RType, Record, is_same_word};
use std::alloc::{Allocator, Global};
use std::marker::Model;

/// The origin, owner and TTLs that entries leave to the later ones.
#[derive(Drop)]
pub(crate) struct Context<A: Allocator = Global> {
    pub(crate) origin: Name<A>,
    /// The last owner.
    owner: Option<Name<A>>,
    /// The TTL that `$TTL` set.
    standing: Option<u32>,
    /// The last TTL that a record stated.
    stated: Option<u32>,
}

impl<A: Allocator> Model for Context<A> {
    ghost use Rattle.masterfile.specs.Entries.{Context};

    ghost Value = { Context };

    ghost use Rattle.masterfile.specs.Entries.{IsTtl};

    ghost view = { λ c. record { origin = c.origin; owner = c.owner; standing = c.standing; stated = c.stated } };

    ghost invariant = { λ c. IsTtl c.standing × IsTtl c.stated };
}

/// The fields before a record's data: its TTL, if one is stated, and its type.
#[derive(Clone, Copy)]
struct Head {
    ttl: Option<u32>,
    kind: RType,
}

fn is_internet(word: &[u8]) -> bool
    ensures { result ≡ internet_test word.now }
{
    is_same_word(word, b"IN")
}

fn is_foreign_class(word: &[u8]) -> bool
    ensures { result ≡ foreign_test word.now }
{
    is_same_word(word, b"CS") || is_same_word(word, b"CH") || is_same_word(word, b"HS")
}

/// TTL, class and type of a record whose first word behind the owner is `first`.
fn read_head(first: &[u8], words: &mut Words<'_>) -> Result<Head, FileKind>
    ensures value { GivesHead result words.new.words (take_head None false (plain_text first.now ∷ words.old.words)) }
    ensures ttl { IfOk result (λ h. IsTtl h.ttl) }
    ensures later { words.new.later ≡ words.old.later }
{
    let mut word = first;
    let mut ttl: Option<u32> = None;
    let mut classed = false;
    'words: loop {
        if is_number(word) {
            if ttl.is_some() {
                return Err(FileKind::UnknownType);
            }
            ttl = Some(number(word, GREATEST_TTL)?);
            word = plain(words)?;
        } else if is_internet(word) {
            if classed {
                return Err(FileKind::UnknownType);
            }
            classed = true;
            word = plain(words)?;
        } else if is_foreign_class(word) {
            return Err(if classed {
                FileKind::UnknownType
            } else {
                FileKind::BadClass
            });
        } else {
            let kind = RType::from_word(word).ok_or(FileKind::UnknownType)?;
            return Ok(Head { ttl, kind });
        }
    }
}

impl<A: Heap> Context<A> {
    /// The state before the first entry.
    pub(crate) fn new(origin: Name<A>) -> Context<A>
        ensures { result ≡ start origin }
    {
        Context {
            origin,
            owner: None,
            standing: None,
            stated: None,
        }
    }

    /// Reads a record of this owner.
    fn record(
        &mut self,
        alloc: A,
        owner: Name<A>,
        first: &[u8],
        words: &mut Words<'_>,
    ) -> Result<Option<Record<A>>, FileKind>
        ensures value { GivesEntry result self.new (record_of self.old owner (plain_text first.now ∷ words.old.words)) }
        ensures all { OnOk result (words.new.words ≡ []) }
        ensures later { words.new.later ≡ words.old.later }
    {
        let Head { ttl: stated, kind } = read_head(first, words)?;
        let ttl = stated
            .or(self.standing)
            .or(self.stated)
            .ok_or(FileKind::NoTtl)?;
        let value = rdata(alloc, words, &self.origin, kind)?;
        end(words)?;
        self.owner = Some(owner.copied(alloc)?);
        if stated.is_some() {
            self.stated = stated;
        }
        Ok(Some(Record { owner, ttl, value }))
    }

    /// Reads a directive: `$ORIGIN` or `$TTL`.
    fn directive(&mut self, alloc: A, word: &[u8], words: &mut Words<'_>) -> Result<(), FileKind>
        ensures value { GivesContext result self.new (directive_in self.old word.now words.old.words) }
        ensures all { OnOk result (words.new.words ≡ []) }
        ensures later { words.new.later ≡ words.old.later }
    {
        if is_same_word(word, b"$ORIGIN") {
            let origin = name(alloc, words, &self.origin)?;
            end(words)?;
            self.origin = origin;
        } else if is_same_word(word, b"$TTL") {
            let ttl = number_field(words, GREATEST_TTL)?;
            end(words)?;
            self.standing = Some(ttl);
        } else {
            return Err(FileKind::UnknownDirective);
        }
        Ok(())
    }

    /// Reads an entry by the beginning of its line: a record, or none where it is empty or a directive.
    pub(crate) fn entry(
        &mut self,
        alloc: A,
        lead: Lead,
        words: &mut Words<'_>,
    ) -> Result<Option<Record<A>>, FileKind>
        ensures value { GivesEntry result self.new (entry_in self.old (lead_of lead) words.old.words) }
        ensures all { OnOk result (words.new.words ≡ []) }
        ensures later { words.new.later ≡ words.old.later }
    {
        let word = match words.next() {
            None => return Ok(None),
            Some(Word::Plain(word)) => word,
            Some(Word::Quoted(_)) => return Err(FileKind::BadData),
            Some(Word::Broken) => return Err(FileKind::OpenText),
        };
        match lead {
            Lead::Blank => {
                let Some(owner) = &self.owner else {
                    return Err(FileKind::NoOwner);
                };
                let owner = owner.copied(alloc)?;
                self.record(alloc, owner, word, words)
            }
            Lead::Margin if is_directive(word) => {
                self.directive(alloc, word, words)?;
                Ok(None)
            }
            Lead::Margin => self.named_record(alloc, word, words),
            Lead::Shifted => self.named_record(alloc, word, words),
        }
    }

    /// Reads a record whose owner the word `name` writes.
    fn named_record(
        &mut self,
        alloc: A,
        name: &[u8],
        words: &mut Words<'_>,
    ) -> Result<Option<Record<A>>, FileKind>
        ensures value { GivesEntry result self.new (record_of_named self.old name.now words.old.words) }
        ensures all { OnOk result (words.new.words ≡ []) }
        ensures later { words.new.later ≡ words.old.later }
    {
        let owner = name_of_word(alloc, name, &self.origin)?;
        let first = plain(words)?;
        self.record(alloc, owner, first, words)
    }
}

/// Whether a word at a line's start is a directive's.
fn is_directive(word: &[u8]) -> bool
    ensures { result ≡ begins_directive word.now }
{
    matches!(word, [b'$', ..])
}
