//! Messages written, whole or from parts that are borrowed.
ghost use Rattle.std.specs.Prelude.{◌≡◌, ◌≤◌, ◌<◌, ◌+◌, ◌%◌, ◌++◌, length, flat_map, OnOk, IfOk, IfErr, IfSome, MatchOption, Ok};
ghost use Rattle.std.specs.List.{AllByRecursion};
ghost use Rattle.std.specs.Option.{option_copied};
ghost use Rattle.rdata.specs.Rows.{in_set};
ghost use Rattle.message_grammar.specs.Pieces.{after};
ghost use Rattle.message_grammar.specs.Compression.{IsCompressed};
ghost use Rattle.message_grammar.specs.Messages.{encoding, question_pieces, record_pieces, IsQuestion, IsRecord, IsMessage, folded_message};
ghost use Rattle.wire.specs.Drafts.{RefusesText, asked_alone};
ghost use Rattle.wire.specs.Entries.{message_of};
ghost use Rattle.wire.specs.Puts.{Puts};

use crate::echo::Echo;
use crate::error::WireError;
use crate::header::Header;
use crate::message::{Message, Question};
use crate::via::TCP_LIMIT;
use crate::writer::{Tally, Writer};
use memory::{Heap, Starved};
use rdata::{Record, RecordSet};
use std::alloc::{Allocator, Global};
use std::marker::Model;

/// A message whose parts are borrowed: no record is cloned for it. Contracts see the message.
#[derive(Drop)]
pub struct Draft<'a, A: Allocator = Global> {
    /// The header but for the counts, which are those of the parts.
    pub header: Header,
    /// The first questions, in lower case.
    pub questions: &'a [Question<A>],
    /// The question behind them that a reply repeats, in the client's own letters.
    pub echo: Option<&'a Echo<A>>,
    /// The first records of the answer section: in a reply, the CNAME chain.
    pub first: &'a [Record<A>],
    /// The RRset behind them in the answer section.
    pub second: Option<&'a RecordSet<A>>,
    /// The records of the authority section.
    pub authority: &'a [Record<A>],
    /// The records of the additional section.
    pub additional: &'a [Record<A>],
}

impl<'a, A: Allocator> Model for Draft<'a, A> {
    ghost use Rattle.std.specs.Option.{option_copied};
    ghost use Rattle.rdata.specs.Rows.{in_set};
    ghost use Rattle.message_grammar.specs.Messages.{Message};
    ghost use Rattle.wire.specs.Drafts.{drafted};

    ghost Value = { Message };

    ghost view = { λ d. drafted d.header d.questions.now (option_copied d.echo) d.first.now (in_set (option_copied d.second)) d.authority.now d.additional.now };
}

/// The encoding of a message (RFC 1035, section 4), names compressed: bytes that `decode` reads as this message. The
/// query `www.example. A` has 29 bytes. Refused where it is longer than `limit`, or where a growth is refused.
pub fn encode<A: Heap>(alloc: A, m: &Message<A>, limit: usize) -> Result<Vec<u8, A>, WireError>
    requires { limit ≤ TCP_LIMIT }
    ensures ok { IfOk result (λ v. (v.items ≡ encoding m.now) × (length (encoding m.now) ≤ limit)) }
    ensures message { IfOk result (λ v. IsMessage v.items (folded_message m.now)) }
    ensures read { IfOk result (λ v. message_of v.items ≡ Ok m.now) }
    ensures compressed { IfOk result (λ v. IsCompressed v.items m.now) }
    ensures err { IfErr result (λ e. RefusesText e (encoding m.now) limit) }
{
    let lent = Draft {
        header: m.header,
        questions: m.questions.as_slice(),
        echo: None,
        first: m.answer.as_slice(),
        second: None,
        authority: m.authority.as_slice(),
        additional: m.additional.as_slice(),
    };
    m.questions.lower_case_law();
    let mut writer = Writer::new(alloc)?;
    lent.encode(&mut writer, limit)?.ok_or(WireError::OverLimit)
}

// How many questions a reply repeats.
fn count_of<A: Allocator>(echo: Option<&Echo<A>>) -> usize
    ensures { result ≡ length (asked_alone (option_copied echo.entry)) }
{
    match echo {
        None => 0,
        Some(_) => 1,
    }
}

// How many records a set has, where there is one.
fn len_of<A: Heap>(set: Option<&RecordSet<A>>) -> usize
    ensures { result ≡ length (in_set (option_copied set.entry)) }
{
    match set {
        None => 0,
        Some(set) => set.len(),
    }
}

// A number with the lowest 16 bits of the sum of two counts; it has 17 bits at most.
fn low_count(first: usize, second: usize) -> usize
    ensures { result ≡ first % 65536 + second % 65536 }
{
    first % 65_536 + second % 65_536
}

// The question that a reply repeats, where there is one.
fn put_repeated<A: Heap>(writer: &mut Writer<A>, echo: Option<&Echo<A>>) -> Result<(), Starved>
    ensures written { OnOk result (writer.new ≡ after writer.old (flat_map question_pieces (asked_alone (option_copied echo.entry)))) }
    ensures fits { OnOk result (AllByRecursion IsQuestion (asked_alone (option_copied echo.entry))) }
{
    match echo {
        None => Ok(()),
        Some(echo) => writer.put_echo(echo),
    }
}

// Writes the records of a set, where there is one, until the message is over the limit, as `Writer::put_records` does.
fn put_lent<A: Heap>(
    writer: &mut Writer<A>,
    set: Option<&RecordSet<A>>,
    limit: usize,
) -> Result<(), Starved>
    ensures { OnOk result (Puts limit (AllByRecursion IsRecord (in_set (option_copied set.entry))) (flat_map record_pieces (in_set (option_copied set.entry))) writer.old writer.new) }
{
    match set {
        None => Ok(()),
        Some(set) => writer.put_set(set, limit),
    }
}

// Writes the sections of records, until the message is over the limit.
fn put_sections<A: Heap>(
    writer: &mut Writer<A>,
    first: &[Record<A>],
    second: Option<&RecordSet<A>>,
    authority: &[Record<A>],
    additional: &[Record<A>],
    limit: usize,
) -> Result<(), Starved>
    ensures { OnOk result (Puts limit (((AllByRecursion IsRecord first.now × AllByRecursion IsRecord (in_set (option_copied second.entry))) × AllByRecursion IsRecord authority.now) × AllByRecursion IsRecord additional.now) (((flat_map record_pieces first.now ++ flat_map record_pieces (in_set (option_copied second.entry))) ++ flat_map record_pieces authority.now) ++ flat_map record_pieces additional.now) writer.old writer.new) }
{
    writer.put_records(first, limit)?;
    put_lent(writer, second, limit)?;
    writer.put_records(authority, limit)?;
    writer.put_records(additional, limit)
}

impl<A: Heap> Draft<'_, A> {
    /// The bytes of the message, in its one encoding; none where they are more than `limit`, which is at most 65,535
    /// (RFC 1035, sections 4.1 and 4.2). The reply to `a. A` with one address has 35 bytes, and none with `limit` 34.
    /// They are read back as the message, its question in lower case. Past the limit no further record is written. The
    /// writer may have written other messages before, or a part of one where memory was refused.
    pub fn encode(
        &self,
        writer: &mut Writer<A>,
        limit: usize,
    ) -> Result<Option<Vec<u8, A>>, Starved>
        requires { limit ≤ TCP_LIMIT }
        ensures bytes { IfOk result (λ o. MatchOption o (limit < length (encoding self.now)) (λ v. (v.items ≡ encoding self.now) × (length v.items ≤ limit))) }
        ensures message { IfOk result (λ o. IfSome o (λ v. IsMessage v.items (folded_message self.now))) }
        ensures compressed { IfOk result (λ o. IfSome o (λ v. IsCompressed v.items self.now)) }
    {
        writer.begin_message()?;
        writer.put_header(
            self.header,
            Tally {
                questions: low_count(self.questions.len(), count_of(self.echo)),
                answer: low_count(self.first.len(), len_of(self.second)),
                authority: self.authority.len(),
                additional: self.additional.len(),
            },
        )?;
        writer.put_questions(self.questions)?;
        put_repeated(writer, self.echo)?;
        put_sections(
            writer,
            self.first,
            self.second,
            self.authority,
            self.additional,
            limit,
        )?;
        Ok(writer.finish(limit))
    }
}
