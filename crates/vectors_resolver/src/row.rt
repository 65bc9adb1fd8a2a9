//! A row of a script: its command, its words, and the records behind ` : `, parted by semicolons.
use dname::Name;
use lru::DefaultHasher;
use masterfile::{FileError, FileKind};
use rdata::{Addr, RType, Record, RecordSet, Records, set_at};
use referral::Cut;
use std::alloc::Global;
use std::hash::BuildHasherDefault;
use std::mem;
use std::num::NonZeroUsize;
use text_lines::{LineKind, LineWords};
use zone::Link;

/// What hashes the keys of a store.
pub fn hasher() -> DefaultHasher {
    BuildHasherDefault::new()
}

/// What a row has made, where one has.
pub fn made<T>(kept: &mut Option<T>) -> Result<&mut T, LineKind> {
    match kept {
        Some(made) => Ok(made),
        None => Err(LineKind::UnknownWord),
    }
}

/// A row that is read word by word.
#[derive(Drop)]
pub struct Row<'r> {
    /// Whence memory comes.
    pub alloc: Global,
    /// Its first word.
    pub command: &'r str,
    words: LineWords<'r>,
    records: &'r str,
}

impl<'r> Row<'r> {
    /// A row behind whose words records may stand.
    pub fn new(alloc: Global, row: &'r str) -> Result<Row<'r>, LineKind> {
        let (head, records) = row.split_once(" : ").unwrap_or((row, ""));
        let mut words = LineWords::new(head);
        let command = words.word()?;
        Ok(Row {
            alloc,
            command,
            words,
            records,
        })
    }

    /// The next word, if one is left.
    pub fn next_word(&mut self) -> Option<&'r str> {
        self.words.next()
    }

    /// All words that are left.
    pub fn rest(&mut self) -> LineWords<'r> {
        mem::replace(&mut self.words, LineWords::new(""))
    }

    /// The next word.
    pub fn word(&mut self) -> Result<&'r str, LineKind> {
        self.words.word()
    }

    /// The next word as a number.
    pub fn number(&mut self) -> Result<u64, LineKind> {
        self.words.number(0, u64::MAX)
    }

    /// The next word as a number of 32 bits, as seconds are.
    pub fn seconds(&mut self) -> Result<u32, LineKind> {
        Ok(self.words.number(0, u64::from(u32::MAX))? as u32)
    }

    /// The next word as a number of 16 bits, as ports are.
    pub fn short(&mut self) -> Result<u16, LineKind> {
        Ok(self.words.number(0, u64::from(u16::MAX))? as u16)
    }

    /// The next word as a count.
    pub fn count(&mut self) -> Result<usize, LineKind> {
        Ok(self.number()? as usize)
    }

    /// The next word as room for so many, at least one.
    pub fn room(&mut self) -> Result<NonZeroUsize, LineKind> {
        let count = self.count()?;
        NonZeroUsize::new(count).ok_or(LineKind::BadNumber)
    }

    /// The next word as how deep a look-up stands.
    pub fn nesting(&mut self) -> Result<u8, LineKind> {
        Ok(self.words.number(0, u64::from(u8::MAX))? as u8)
    }

    /// The next word as an address.
    pub fn address(&mut self) -> Result<Addr, LineKind> {
        self.words.address()
    }

    /// The words that are left as addresses.
    pub fn addresses(&mut self) -> Result<Vec<Addr>, LineKind> {
        let mut found = Vec::new(self.alloc);
        for word in self.rest() {
            found.push(text_lines::address(word)?)?;
        }
        Ok(found)
    }

    /// The next word as a name.
    pub fn name(&mut self) -> Result<Name, LineKind> {
        self.words.name(self.alloc)
    }

    /// The next word as a type.
    pub fn rtype(&mut self) -> Result<RType, LineKind> {
        self.words.rtype()
    }

    /// The next word as bytes in hexadecimal digits.
    pub fn bytes(&mut self) -> Result<Vec<u8>, LineKind> {
        let word = self.words.word()?;
        match vectors::bytes(self.alloc, word)? {
            Some(bytes) => Ok(bytes),
            None => Err(LineKind::BadHex),
        }
    }

    /// The records behind the words.
    pub fn records(&self) -> Result<Records, LineKind> {
        self.section("")
    }

    /// Those of the records that stand behind this word.
    pub fn section(&self, word: &str) -> Result<Records, LineKind> {
        let mut text = String::new(self.alloc);
        for part in self.records.split(';') {
            put_part(&mut text, part.trim(), word)?;
        }
        read_records(self.alloc, text.as_str())
    }

    /// The records as a link of the kind that the next word says.
    pub fn link(&mut self) -> Result<Link, LineKind> {
        let word = self.words.word()?;
        self.link_as(word)
    }

    /// The records as a set: those of the first one's owner and type.
    pub fn set(&self) -> Result<RecordSet, LineKind> {
        let records = self.records()?;
        set_of(self.alloc, &records)
    }

    /// The records as a link of the kind of that word.
    pub fn link_as(&self, word: &str) -> Result<Link, LineKind> {
        let records = self.records()?;
        link_of(self.alloc, word, &records)
    }

    /// The records as a cut, at the name that the next word says.
    pub fn cut(&mut self) -> Result<Cut, LineKind> {
        let text = self.word()?;
        let records = self.records()?;
        cut_of(self.alloc, text, records.as_slice())
    }
}

fn cut_of(alloc: Global, text: &str, records: &[Record]) -> Result<Cut, LineKind> {
    let at = text_lines::name(alloc, text)?;
    Ok(Cut::of_records(alloc, at, records, records)?)
}

// A line more, where the part begins with the word.
fn put_part(text: &mut String, part: &str, word: &str) -> Result<(), LineKind> {
    if let Some(line) = part.strip_prefix(word) {
        text.push_str(line.trim())?;
        text.push('\n')?;
    }
    Ok(())
}

fn kind_of(error: FileError) -> LineKind {
    match error.kind {
        FileKind::Memory => LineKind::Memory,
        _ => LineKind::BadName,
    }
}

fn read_records(alloc: Global, text: &str) -> Result<Records, LineKind> {
    let root = Name::root(alloc)?;
    masterfile::read(alloc, &root, text).map_err(kind_of)
}

fn first(records: &Records) -> Result<&Record, LineKind> {
    records.as_slice().first().ok_or(LineKind::WordCount)
}

// The records of the first one's owner and type.
fn set_of(alloc: Global, records: &Records) -> Result<RecordSet, LineKind> {
    let first = first(records)?;
    let kind = first.value.kind();
    match set_at(alloc, records.as_slice(), &first.owner, kind)? {
        Some(set) => Ok(set),
        None => Err(LineKind::WordCount),
    }
}

fn copy_of_first(records: &Records) -> Result<Record, LineKind> {
    Ok(first(records)?.clone()?)
}

fn link_of(alloc: Global, word: &str, records: &Records) -> Result<Link, LineKind> {
    match word {
        "set" => Ok(Link::Found(set_of(alloc, records)?)),
        "alias" => Ok(Link::Alias(copy_of_first(records)?)),
        "no-data" => Ok(Link::NoData(copy_of_first(records)?)),
        "name-error" => Ok(Link::NxDomain(copy_of_first(records)?)),
        _ => Err(LineKind::UnknownWord),
    }
}
