//! The bytes of a message as it is written, names compressed.
ghost use Rattle.std.specs.Prelude.{◌≡◌, ◌+◌, ◌<◌, ◌≤◌, length, OnOk, IfOk, IsTrue, ◌↔◌, MatchOption, flat_map};
ghost use Rattle.std.specs.Int.{bytes_high_first};
ghost use Rattle.std.specs.List.{AllByRecursion};
ghost use Rattle.dname.specs.Labels.{IsName};
ghost use Rattle.rdata.specs.Data as plain;
ghost use Rattle.rdata.specs.Kept.{datum};
ghost use Rattle.rdata.specs.Records.{greatest_ttl};
ghost use Rattle.rdata.specs.Rows.{row};
ghost use Rattle.message_grammar.specs.Pieces.{put_flat, put_flats, put, after, empty, plain_bytes, short_number, long_number, packed_name, asked_name, full_name, sized_group};
ghost use Rattle.message_grammar.specs.Packing.{pointer};
ghost use Rattle.message_grammar.specs.Messages.{data_flats, record_pieces, question_pieces, header_pieces, strings_bytes, FitsRdata, AreNamesOf, IsSpelling, IsHeader, IsQuestion, IsRecord};
ghost use Rattle.wire.specs.Drafts.{counts_by};
ghost use Rattle.wire.specs.Puts.{Puts};

use crate::echo::Echo;
use crate::header::Header;
use crate::message::Question;
use crate::spelling::Spelling;
use crate::via::UDP_LIMIT;
use byteorder::{BigEndian, ByteOrder};
use dname::Name;
use memory::{Heap, Starved};
use rdata::{INTERNET, RData, Record, Soa, Srv, Texts};
use std::alloc::{Allocator, Global};
use std::marker::Model;
use std::mem;
use suffixes::{POINTER_LIMIT, Suffixes};

// How many questions and records a header announces (RFC 1035, section 4.1.1).
#[derive(Clone, Copy)]
pub struct Tally {
    /// QDCOUNT: questions.
    pub questions: usize,
    /// ANCOUNT: records of the answer section.
    pub answer: usize,
    /// NSCOUNT: records of the authority section.
    pub authority: usize,
    /// ARCOUNT: records of the additional section.
    pub additional: usize,
}

/// Writes messages, one after the other: it is lent to each, so that a message takes memory for its bytes alone.
/// Contracts see the bytes of the message that is being written, and the notes of its names.
// What is written fits its bits by the bounds of its type (the clauses `fits`), so the bytes are read back as the
// message.
#[derive(Drop)]
pub struct Writer<A: Allocator = Global> {
    bytes: Vec<u8, A>,
    names: Suffixes<A>,
}

impl<A: Allocator> Model for Writer<A> {
    ghost use Rattle.message_grammar.specs.Pieces.{Text};

    ghost Value = { Text };

    ghost view = { λ w. record { start = 0; bytes = w.bytes.items; notes = w.names } };
}

// A pointer: two top bits set, then fourteen bits of offset.
fn pointer_to(place: u16) -> [u8; 2]
    requires { place < POINTER_LIMIT }
    ensures { result ≡ pointer place }
{
    (0xc000 + place).to_be_bytes()
}

// A count: its lowest 16 bits. A message with more than 65,535 of anything is over every limit.
fn low_bytes(count: usize) -> [u8; 2]
    ensures { result ≡ bytes_high_first 2 count }
{
    ((count % 65_536) as u16).to_be_bytes()
}

impl<A: Heap> Writer<A> {
    /// A writer of no bytes yet. One growth serves a message that fits a datagram, and two the names of most: with it
    /// `Draft::encode` writes a first reply, and then others.
    pub fn new(alloc: A) -> Result<Writer<A>, Starved>
        ensures { IfOk result (λ w. w ≡ empty) }
    {
        Ok(Writer {
            bytes: Vec::with_capacity(alloc, UDP_LIMIT)?,
            names: Suffixes::new(alloc)?,
        })
    }

    #[tactic(auto, using(crate::proofs::Writing::plain_put))]
    fn put_bytes(&mut self, bytes: &[u8]) -> Result<(), Starved>
        ensures { OnOk result (self.new ≡ put_flat self.old (plain_bytes bytes.now)) }
    {
        self.bytes.extend_from_slice(bytes)?;
        Ok(())
    }

    // A number of 16 bits.
    fn put_two(&mut self, number: u16) -> Result<(), Starved>
        ensures { OnOk result (self.new ≡ put_flat self.old (plain_bytes (bytes_high_first 2 number))) }
    {
        let mut two = [0; 2];
        BigEndian::write_u16(&mut two, number);
        self.put_bytes(&two)
    }

    // A question's type and class.
    fn put_type_and_class(&mut self, kind: u16, class: u16) -> Result<(), Starved>
        ensures { OnOk result (self.new ≡ put_flat (put_flat self.old (short_number kind)) (short_number class)) }
    {
        let [k, l] = kind.to_be_bytes();
        let [c, d] = class.to_be_bytes();
        self.put_bytes(&[k, l, c, d])
    }

    // A record's type, class IN and TTL.
    fn put_type_and_ttl(&mut self, kind: u16, ttl: u32) -> Result<(), Starved>
        ensures { OnOk result (self.new ≡ put_flat (put_flat (put_flat self.old (short_number kind)) (short_number INTERNET)) (long_number ttl)) }
    {
        let [k, l] = kind.to_be_bytes();
        let [c, d] = INTERNET.to_be_bytes();
        let [t, u, v, w] = ttl.to_be_bytes();
        self.put_bytes(&[k, l, c, d, t, u, v, w])
    }

    // A name, compressed (RFC 1035, section 4.1.4).
    fn put_name(&mut self, name: &Name<A>) -> Result<(), Starved>
        ensures written { OnOk result (self.new ≡ put_flat self.old (packed_name name.now)) }
        ensures named { IsName name.now }
    {
        name.well_formed_law();
        let at = self.bytes.len();
        match self.names.longest(name) {
            None => {
                self.bytes.extend_from_slice(name.wire())?;
                self.names.note(name, name.labels(), at)
            }
            Some(found) => {
                let (before, _) = name.wire().split_at(found.bytes);
                self.bytes.extend_from_slice(before)?;
                self.bytes.extend_from_slice(&pointer_to(found.place))?;
                self.names.note(name, found.labels, at)
            }
        }
    }

    // A name in full, into which no later pointer leads (RFC 2782).
    #[tactic(auto, using(crate::proofs::Writing::full_put))]
    fn put_full(&mut self, name: &Name<A>) -> Result<(), Starved>
        ensures written { OnOk result (self.new ≡ put_flat self.old (full_name name.now)) }
        ensures named { IsName name.now }
    {
        name.well_formed_law();
        self.put_bytes(name.wire())
    }

    // A question's name, in full.
    fn put_asked(&mut self, name: &Name<A>) -> Result<(), Starved>
        ensures written { OnOk result (self.new ≡ put_flat self.old (asked_name name.now)) }
        ensures named { IsName name.now }
    {
        name.well_formed_law();
        let at = self.bytes.len();
        self.bytes.extend_from_slice(name.wire())?;
        self.names.note(name, name.labels(), at)
    }

    // A question's name, in full and in its own letters.
    fn put_spelling(&mut self, spelling: &Spelling<A>) -> Result<(), Starved>
        ensures written { OnOk result (self.new ≡ put_flat self.old (asked_name spelling.now)) }
        ensures spelt { IsSpelling spelling.now }
    {
        spelling.well_formed_law();
        let name = spelling.name();
        name.well_formed_law();
        let at = self.bytes.len();
        self.bytes.extend_from_slice(spelling.wire())?;
        self.names.note(name, name.labels(), at)
    }

    // RDATA without its length.
    fn put_data(&mut self, value: &RData<A>) -> Result<(), Starved>
        ensures written { OnOk result (self.new ≡ put_flats self.old (data_flats (datum value.now))) }
        ensures fits { OnOk result (FitsRdata (datum value.now) × AreNamesOf (datum value.now)) }
    {
        match value {
            RData::A(address) => self.put_bytes(&address.0),
            RData::Ns(name) | RData::Cname(name) | RData::Ptr(name) => self.put_name(name),
            RData::Soa(soa) => self.put_soa(soa),
            RData::Mx(preference, name) => {
                self.put_two(*preference)?;
                self.put_name(name)
            }
            RData::Txt(texts) => self.put_texts(texts),
            RData::Aaaa(address) => self.put_bytes(address),
            RData::Srv(srv) => self.put_srv(srv),
        }
    }

    // The five numbers of an SOA.
    fn put_numbers(
        &mut self,
        serial: u32,
        refresh: u32,
        retry: u32,
        expire: u32,
        minimum: u32,
    ) -> Result<(), Starved>
        ensures { OnOk result (self.new ≡ put_flat (put_flat (put_flat (put_flat (put_flat self.old (long_number serial)) (long_number refresh)) (long_number retry)) (long_number expire)) (long_number minimum)) }
    {
        let [s, t, u, v] = serial.to_be_bytes();
        let [f, g, h, i] = refresh.to_be_bytes();
        let [r, q, p, o] = retry.to_be_bytes();
        let [e, d, c, b] = expire.to_be_bytes();
        let [m, n, k, l] = minimum.to_be_bytes();
        self.put_bytes(&[s, t, u, v, f, g, h, i, r, q, p, o, e, d, c, b, m, n, k, l])
    }

    fn put_soa(&mut self, soa: &Soa<A>) -> Result<(), Starved>
        ensures written { OnOk result (self.new ≡ put_flats self.old (data_flats (plain.Soa soa.now))) }
        ensures fits { OnOk result (FitsRdata (plain.Soa soa.now) × AreNamesOf (plain.Soa soa.now)) }
    {
        self.put_name(&soa.primary)?;
        self.put_name(&soa.mailbox)?;
        self.put_numbers(soa.serial, soa.refresh, soa.retry, soa.expire, soa.minimum)
    }

    fn put_srv(&mut self, srv: &Srv<A>) -> Result<(), Starved>
        ensures written { OnOk result (self.new ≡ put_flats self.old (data_flats (plain.Srv srv.now))) }
        ensures fits { OnOk result (FitsRdata (plain.Srv srv.now) × AreNamesOf (plain.Srv srv.now)) }
    {
        self.put_two(srv.priority)?;
        self.put_two(srv.weight)?;
        self.put_two(srv.port)?;
        self.put_full(&srv.target)
    }

    fn put_texts(&mut self, texts: &Texts<A>) -> Result<(), Starved>
        ensures written { OnOk result (self.new ≡ put_flat self.old (plain_bytes (strings_bytes texts.now))) }
        ensures fits { OnOk result (FitsRdata (plain.Txt texts.now)) }
    {
        Ok(self.put_bytes(texts.wire())?)
    }

    // RDATA behind its length.
    fn put_group(&mut self, value: &RData<A>) -> Result<(), Starved>
        ensures written { OnOk result (self.new ≡ put self.old (sized_group (data_flats (datum value.now)))) }
        ensures fits { OnOk result (FitsRdata (datum value.now) × AreNamesOf (datum value.now)) }
    {
        let at = self.bytes.len();
        self.put_bytes(&[0, 0])?;
        self.put_data(value)?;
        let size = self.bytes.len() - at - 2;
        self.bytes[at] = (size / 256 % 256) as u8;
        self.bytes[at + 1] = (size % 256) as u8;
        Ok(())
    }

    // A record of these parts.
    #[tactic(auto, unfolding(message_grammar::specs::Pieces::put))]
    pub(crate) fn put_row(
        &mut self,
        owner: &Name<A>,
        ttl: u32,
        value: &RData<A>,
    ) -> Result<(), Starved>
        requires { ttl ≤ greatest_ttl }
        ensures written { OnOk result (self.new ≡ after self.old (record_pieces (row owner.now ttl value.now))) }
        ensures fits { OnOk result (IsRecord (row owner.now ttl value.now)) }
    {
        self.put_name(owner)?;
        self.put_type_and_ttl(value.kind().number(), ttl)?;
        self.put_group(value)
    }

    fn put_record(&mut self, rr: &Record<A>) -> Result<(), Starved>
        ensures written { OnOk result (self.new ≡ after self.old (record_pieces rr.now)) }
        ensures fits { OnOk result (IsRecord rr.now) }
    {
        self.put_row(&rr.owner, rr.ttl, &rr.value)
    }

    // Whether the message is longer than the limit.
    pub(crate) fn is_over(&self, limit: usize) -> bool
        ensures { IsTrue result ↔ (limit < length (self.now).bytes) }
    {
        self.bytes.len() > limit
    }

    // Writes the records in order, until the message is longer than the limit. The walk over them finds that each fits
    // its bits and that its names are names.
    pub(crate) fn put_records(&mut self, records: &[Record<A>], limit: usize) -> Result<(), Starved>
        ensures { OnOk result (Puts limit (AllByRecursion IsRecord records.now) (flat_map record_pieces records.now) self.old self.new) }
    {
        for rr in records {
            if self.is_over(limit) {
                return Ok(());
            }
            self.put_record(rr)?;
        }
        Ok(())
    }

    #[tactic(auto, using(crate::proofs::Fitting::spelling_of_name), unfolding(message_grammar::specs::Pieces::put))]
    fn put_question(&mut self, question: &Question<A>) -> Result<(), Starved>
        ensures written { OnOk result (self.new ≡ after self.old (question_pieces question.now)) }
        ensures fits { OnOk result (IsQuestion question.now) }
    {
        self.put_asked(&question.name)?;
        self.put_type_and_class(question.qtype, question.qclass)
    }

    // Writes the questions in order. The walk over them finds that each fits its bits.
    pub(crate) fn put_questions(&mut self, questions: &[Question<A>]) -> Result<(), Starved>
        ensures written { OnOk result (self.new ≡ after self.old (flat_map question_pieces questions.now)) }
        ensures fits { OnOk result (AllByRecursion IsQuestion questions.now) }
    {
        for question in questions {
            self.put_question(question)?;
        }
        Ok(())
    }

    #[tactic(auto, unfolding(message_grammar::specs::Pieces::put))]
    // A question in its own letters.
    pub(crate) fn put_echo(&mut self, echo: &Echo<A>) -> Result<(), Starved>
        ensures written { OnOk result (self.new ≡ after self.old (question_pieces echo.now)) }
        ensures fits { OnOk result (IsQuestion echo.now) }
    {
        self.put_spelling(&echo.spelling)?;
        self.put_type_and_class(echo.qtype, echo.qclass)
    }

    #[tactic(auto, unfolding(message_grammar::specs::Pieces::put))]
    // A header with its counts.
    pub(crate) fn put_header(&mut self, header: Header, counts: Tally) -> Result<(), Starved>
        ensures written { OnOk result (self.new ≡ after self.old (header_pieces header (counts_by counts))) }
        ensures fits { OnOk result (IsHeader header) }
    {
        let high = u8::from(header.qr) * 128
            + header.opcode * 8
            + u8::from(header.aa) * 4
            + u8::from(header.tc) * 2
            + u8::from(header.rd);
        let low = u8::from(header.ra) * 128 + header.z * 16 + header.rcode;
        let [i, d] = header.id.to_be_bytes();
        let [q, r] = low_bytes(counts.questions);
        let [a, b] = low_bytes(counts.answer);
        let [n, o] = low_bytes(counts.authority);
        let [x, y] = low_bytes(counts.additional);
        self.put_bytes(&[i, d, high, low, q, r, a, b, n, o, x, y])
    }

    /// Writes the next message in this memory, of a message that was sent, where the writer has none.
    pub fn reuse(&mut self, room: Vec<u8, A>)
        ensures { (self.new).notes ≡ (self.old).notes }
    {
        if self.bytes.capacity() == 0 {
            drop(mem::replace(&mut self.bytes, room));
        } else {
            drop(room);
        }
    }

    // Begins another message.
    pub(crate) fn begin_message(&mut self) -> Result<(), Starved>
        ensures { OnOk result (self.new ≡ empty) }
    {
        self.names.clear();
        self.bytes.clear();
        self.bytes.reserve(UDP_LIMIT)?;
        Ok(())
    }

    // The bytes of the message, where it is within the limit.
    pub(crate) fn finish(&mut self, limit: usize) -> Option<Vec<u8, A>>
        ensures { MatchOption result (limit < length (self.old).bytes) (λ v. (v.items ≡ (self.old).bytes) × (length (self.old).bytes ≤ limit)) }
    {
        if self.is_over(limit) {
            return None;
        }
        let empty = Vec::new(*self.bytes.allocator());
        Some(mem::replace(&mut self.bytes, empty))
    }
}
