//! The fields of an entry, read word by word.
ghost use Rattle.std.specs.Prelude.{◌≡◌, ◌≤◌, [], length, IfOk, OnOk, MatchResult, Ok, Err, None, Some};
ghost use Rattle.master_lexer.specs.Views.{word_of};
ghost use Rattle.rdata.specs.Kept.{datum};
ghost use Rattle.masterfile.specs.Faults.{FaultIn};
ghost use Rattle.masterfile.specs.Strings.{string_word, take_strings};
ghost use Rattle.masterfile.specs.Given.{GivesRest, ReadsRest, same};
ghost use Rattle.masterfile.specs.Fields.{plain_word, name_of, left_over, take_name, take_number, take_authority, take_exchange, take_service, take_data};

use crate::addresses::{ipv4, ipv6};
use crate::faults::FileKind;
use crate::numbers::number;
use crate::strings::string;
use dname::{Name, NameError};
use master_lexer::{Word, Words};
use memory::Heap;
use rdata::{Addr, CharacterString, RData, RType, Soa, Srv, Texts};

/// The next word, where it has no quotes.
pub(crate) fn plain<'a>(words: &mut Words<'a>) -> Result<&'a [u8], FileKind>
    ensures value { ReadsRest (λ w. w.now) result words.new.words (plain_word words.old.words) }
    ensures later { words.new.later ≡ words.old.later }
{
    match words.next() {
        Some(Word::Plain(word)) => Ok(word),
        Some(Word::Broken) => Err(FileKind::OpenText),
        Some(Word::Quoted(_)) | None => Err(FileKind::BadData),
    }
}

/// A name, relative to the origin where no dot ends it.
pub(crate) fn name_of_word<A: Heap>(
    alloc: A,
    word: &[u8],
    origin: &Name<A>,
) -> Result<Name<A>, FileKind>
    ensures { MatchResult result (λ n. name_of origin.now word.now ≡ Ok n) (λ e. FaultIn e (name_of origin.now word.now)) }
{
    if word == b"@".as_slice() {
        return Ok(origin.copied(alloc)?);
    }
    match Name::under(alloc, word, origin) {
        Ok(name) => Ok(name),
        Err(NameError::Memory) => Err(FileKind::Memory),
        Err(_) => Err(FileKind::BadName),
    }
}

pub(crate) fn name<A: Heap>(
    alloc: A,
    words: &mut Words<'_>,
    origin: &Name<A>,
) -> Result<Name<A>, FileKind>
    ensures value { GivesRest same result words.new.words (take_name origin.now words.old.words) }
    ensures later { words.new.later ≡ words.old.later }
{
    let word = plain(words)?;
    name_of_word(alloc, word, origin)
}

/// A number up to `limit`.
pub(crate) fn number_field(words: &mut Words<'_>, limit: u32) -> Result<u32, FileKind>
    ensures value { ReadsRest same result words.new.words (take_number limit words.old.words) }
    ensures within { IfOk result (λ n. n ≤ limit) }
    ensures later { words.new.later ≡ words.old.later }
{
    let word = plain(words)?;
    number(word, limit)
}

/// The end of the entry: a word that is left over is a fault.
pub(crate) fn end(words: &mut Words<'_>) -> Result<(), FileKind>
    ensures left { MatchResult result (λ _. left_over words.old.words ≡ None) (λ e. left_over words.old.words ≡ Some e) }
    ensures done { OnOk result ((words.old.words ≡ []) × (words.new ≡ words.old)) }
    ensures later { words.new.later ≡ words.old.later }
{
    match words.next() {
        None => Ok(()),
        Some(Word::Broken) => Err(FileKind::OpenText),
        Some(_) => Err(FileKind::BadData),
    }
}

/// A string of a TXT record, in quotes or not.
fn string_of_word<A: Heap>(alloc: A, word: Word<'_>) -> Result<CharacterString<A>, FileKind>
    ensures value { MatchResult result (λ s. string_word (word_of word.entry) ≡ Ok s) (λ e. FaultIn e (string_word (word_of word.entry))) }
    ensures short { IfOk result (λ s. length s ≤ 255) }
{
    match word {
        Word::Plain(text) | Word::Quoted(text) => string(alloc, text),
        Word::Broken => Err(FileKind::OpenText),
    }
}

/// The strings of a TXT record: one or more, from all words that are left of the entry.
#[tactic(auto, using(crate::proofs::Fronts::onto_front))]
fn texts<A: Heap>(alloc: A, words: &mut Words<'_>) -> Result<Texts<A>, FileKind>
    ensures value { MatchResult result (λ t. take_strings words.old.words ≡ Ok t) (λ e. FaultIn e (take_strings words.old.words)) }
    ensures all { OnOk result (words.new.words ≡ []) }
    ensures later { words.new.later ≡ words.old.later }
{
    let Some(word) = words.next() else {
        return Err(FileKind::BadData);
    };
    let first = string_of_word(alloc, word)?;
    // Each string takes its bytes and a length byte.
    let mut size = 1 + first.bytes().len();
    let mut texts = Texts::new(alloc, first)?;
    'strings: while let Some(word) = words.next() {
        let string = string_of_word(alloc, word)?;
        size += 1 + string.bytes().len();
        if size > MAX_DATA {
            return Err(FileKind::BadData);
        }
        texts.push(string)?;
    }
    Ok(texts)
}

/// The greatest size of a record's data in a message (RFC 1035, section 3.2.1).
const MAX_DATA: usize = 65_535;

fn soa<A: Heap>(alloc: A, words: &mut Words<'_>, origin: &Name<A>) -> Result<Soa<A>, FileKind>
    ensures value { GivesRest same result words.new.words (take_authority origin.now words.old.words) }
    ensures later { words.new.later ≡ words.old.later }
{
    let primary = name(alloc, words, origin)?;
    let mailbox = name(alloc, words, origin)?;
    let serial = number_field(words, u32::MAX)?;
    let refresh = number_field(words, u32::MAX)?;
    let retry = number_field(words, u32::MAX)?;
    let expire = number_field(words, u32::MAX)?;
    let minimum = number_field(words, u32::MAX)?;
    Ok(Soa {
        primary,
        mailbox,
        serial,
        refresh,
        retry,
        expire,
        minimum,
    })
}

fn mx<A: Heap>(alloc: A, words: &mut Words<'_>, origin: &Name<A>) -> Result<RData<A>, FileKind>
    ensures value { GivesRest datum result words.new.words (take_exchange origin.now words.old.words) }
    ensures later { words.new.later ≡ words.old.later }
{
    let preference = number_field(words, 65_535)?;
    let exchange = name(alloc, words, origin)?;
    Ok(RData::Mx(preference as u16, exchange))
}

fn srv<A: Heap>(alloc: A, words: &mut Words<'_>, origin: &Name<A>) -> Result<Srv<A>, FileKind>
    ensures value { GivesRest same result words.new.words (take_service origin.now words.old.words) }
    ensures later { words.new.later ≡ words.old.later }
{
    let priority = number_field(words, 65_535)?;
    let weight = number_field(words, 65_535)?;
    let port = number_field(words, 65_535)?;
    let target = name(alloc, words, origin)?;
    Ok(Srv {
        priority: priority as u16,
        weight: weight as u16,
        port: port as u16,
        target,
    })
}

/// The data of a record of this type.
pub(crate) fn rdata<A: Heap>(
    alloc: A,
    words: &mut Words<'_>,
    origin: &Name<A>,
    kind: RType,
) -> Result<RData<A>, FileKind>
    ensures value { GivesRest datum result words.new.words (take_data origin.now kind words.old.words) }
    ensures later { words.new.later ≡ words.old.later }
{
    match kind {
        RType::A => Ok(RData::A(Addr(ipv4(plain(words)?)?))),
        RType::Ns => Ok(RData::Ns(name(alloc, words, origin)?)),
        RType::Cname => Ok(RData::Cname(name(alloc, words, origin)?)),
        RType::Soa => Ok(RData::Soa(Box::new(alloc, soa(alloc, words, origin)?)?)),
        RType::Ptr => Ok(RData::Ptr(name(alloc, words, origin)?)),
        RType::Mx => mx(alloc, words, origin),
        RType::Txt => Ok(RData::Txt(texts(alloc, words)?)),
        RType::Aaaa => Ok(RData::Aaaa(ipv6(plain(words)?)?)),
        RType::Srv => Ok(RData::Srv(Box::new(alloc, srv(alloc, words, origin)?)?)),
    }
}
