//! Names in text (RFC 1035, section 5.1).

ghost use Rattle.std.specs.Prelude.{◌≡◌, ◌<◌, [], ◌∷◌, ◌++◌, length, drop, string_bytes, Some, Ok, OnOk, OnErr, IfOk, MatchOption, MatchResult};
ghost use Rattle.std.specs.Fmt.{WritesOnOk};
ghost use Rattle.dname.specs.Tokens.{token_of};
ghost use Rattle.dname.specs.Text.{Byte, Bad, tokens, escaped_token, spelled, with_origin, name_under, name_of_text, IsFault, fault_of, is_special, number_text, byte_text, label_text, name_text, fault_number, fault_text, TextIsReadBack};
ghost use Rattle.dname.specs.Draft.{empty_draft};
ghost use Rattle.dname.specs.Spelling.{TextWritesName, FirstFaultCounts};
ghost use Rattle.dname.specs.Wire.{labels_of, IsNameWire};

use crate::builder::{Builder, Overflow};
use crate::bytes::NameBytes;
use crate::name::{LONGEST_NAME, Name};
use crate::walk::next_label;
use memory::{Heap, Starved};
use std::alloc::{AllocError, Allocator};
use std::fmt;

/// Why a text is no name. The fault that stands first in the text counts.
#[derive(Clone, Copy, Debug, PartialEq, Eq)]
pub enum NameError {
    /// A label without bytes, at the dot that closes it or at the end of the text.
    EmptyLabel,
    /// A label of more than 63 bytes, at its 64th.
    LongLabel,
    /// A name of more than 255 bytes in a message, at the byte with which it must have them.
    LongName,
    /// A bad escape, or a byte outside 33 to 126 that no backslash precedes.
    BadByte,
    /// Memory was refused.
    Memory,
}

impl NameError {
    /// The refusal's number, from 1 on in the order of the variants: `LongLabel` is 2.
    pub fn number(self) -> u8
        ensures { result ≡ fault_number self }
    {
        match self {
            NameError::EmptyLabel => 1,
            NameError::LongLabel => 2,
            NameError::LongName => 3,
            NameError::BadByte => 4,
            NameError::Memory => 5,
        }
    }
}

impl fmt::Display for NameError {
    ghost output = { λ e. Some (fault_text e) };

    fn fmt<W: fmt::Write>(&self, f: &mut fmt::Formatter<W>) -> fmt::Result {
        f.write_str(match self {
            NameError::EmptyLabel => "empty label",
            NameError::LongLabel => "label over 63 bytes",
            NameError::LongName => "name over 255 bytes",
            NameError::BadByte => "bad escape or byte",
            NameError::Memory => "out of memory",
        })
    }
}

impl std::error::Error for NameError {}

impl From<Starved> for NameError {
    ghost use Rattle.dname.specs.declared.text.NameError.TheVariants.{Memory};

    ghost from_gives = { λ _ e. e ≡ Memory };

    fn from(_error: Starved) -> NameError {
        NameError::Memory
    }
}

impl From<AllocError> for NameError {
    ghost use Rattle.dname.specs.declared.text.NameError.TheVariants.{Memory};

    ghost from_gives = { λ _ e. e ≡ Memory };

    fn from(_error: AllocError) -> NameError {
        NameError::Memory
    }
}

impl From<Overflow> for NameError {
    ghost from_gives = { λ o e. e ≡ fault_of o };

    fn from(error: Overflow) -> NameError {
        match error {
            Overflow::LongLabel => NameError::LongLabel,
            Overflow::LongName => NameError::LongName,
            Overflow::Memory => NameError::Memory,
        }
    }
}

// ---- written

/// The name as text: each label and a dot, the root as a dot alone. The bytes that mean something in a master file have
/// a backslash, and those outside 33 to 126 are three decimal digits behind one (RFC 1035, section 5.1).
impl<A: Allocator> fmt::Display for Name<A> {
    ghost output = { λ n. Some (name_text n) };

    fn fmt<W: fmt::Write>(&self, f: &mut fmt::Formatter<W>) -> fmt::Result {
        if self.is_root() {
            return f.write_str(".");
        }
        let mut rest = self.bytes.as_slice();
        while let Some((label, after)) = next_label(rest) {
            write_label(f, label)?;
            f.write_str(".")?;
            rest = after;
        }
        Ok(())
    }
}

/// The name's text.
impl<A: Allocator> fmt::Debug for Name<A> {
    ghost debug_output = { λ n. Some (name_text n) };

    fn fmt<W: fmt::Write>(&self, f: &mut fmt::Formatter<W>) -> fmt::Result {
        fmt::Display::fmt(self, f)
    }
}

fn write_label<W: fmt::Write>(f: &mut fmt::Formatter<W>, label: &[u8]) -> fmt::Result
    ensures { WritesOnOk W.write_str_gives f.old result (label_text label.now) f.new }
{
    for byte in label {
        write_byte(f, *byte)?;
    }
    Ok(())
}

// Whether this byte of a label has a meaning in a master file, so that a backslash is written before it.
fn is_special(byte: u8) -> bool
    ensures { result ≡ is_special byte }
{
    matches!(byte, b'.' | b'\\' | b'"' | b';' | b'(' | b')' | b'@' | b'$')
}

fn write_byte<W: fmt::Write>(f: &mut fmt::Formatter<W>, byte: u8) -> fmt::Result
    ensures { WritesOnOk W.write_str_gives f.old result (byte_text byte) f.new }
{
    if is_special(byte) {
        f.write_char('\\')?;
        f.write_char(char::from(byte))
    } else if (33..=126).contains(&byte) {
        f.write_char(char::from(byte))
    } else {
        write_number(f, byte)
    }
}

/// Writes a byte as three decimal digits behind a backslash (RFC 1035, section 5.1): 7 as `\007`.
pub fn write_number<W: fmt::Write>(f: &mut fmt::Formatter<W>, byte: u8) -> fmt::Result
    ensures { WritesOnOk W.write_str_gives f.old result (number_text byte) f.new }
{
    write!(f, "\\{byte:03}")
}

/// Appends the name as text, as it is displayed: of `www.example`, `www.example.`. Where memory is refused, nothing is
/// appended: the text is written apart first.
pub fn put_name<A: Allocator, B: Heap>(out: &mut String<B>, name: &Name<A>) -> Result<(), Starved>
    ensures ok { OnOk result (string_bytes out.new ≡ string_bytes out.old ++ name_text name.now) }
    ensures err { OnErr result (string_bytes out.new ≡ string_bytes out.old) }
{
    let text = name.to_string(*out.allocator())?;
    Ok(out.push_str(&text)?)
}

impl<A: Heap> Name<A> {
    /// The name as text, as it is displayed, on the name's allocator: of `www.example`, `www.example.`.
    pub fn to_text(&self) -> Result<String<A>, Starved>
        ensures { IfOk result (λ s. string_bytes s ≡ name_text self.now) }
    {
        Ok(self.to_string(*self.bytes.allocator())?)
    }
}

// ---- read

// The first dot or byte that a text writes.
#[derive(Clone, Copy)]
enum Spelt {
    Dot,
    Byte(u8),
    Bad,
}

// The first dot or byte that a text writes, and the text behind it. Where the first is bad, that text has no meaning.
fn first(text: &[u8]) -> Option<(Spelt, &[u8])>
    ensures value { MatchOption result (text.now ≡ []) (λ p. tokens text.now ≡ token_of p.0 ∷ tokens p.1.now) }
    ensures shorter { MatchOption result (text.now ≡ []) (λ p. length p.1.now < length text.now) }
{
    match text {
        [] => None,
        [b'\\', rest @ ..] => match escape(rest) {
            Some((byte, after)) => Some((Spelt::Byte(byte), after)),
            None => Some((Spelt::Bad, rest)),
        },
        [b'.', rest @ ..] => Some((Spelt::Dot, rest)),
        [byte @ 33..=126, rest @ ..] => Some((Spelt::Byte(*byte), rest)),
        [_, rest @ ..] => Some((Spelt::Bad, rest)),
    }
}

/// The byte that an escape writes, whose backslash stands before this text, and the text behind the escape: of `046x`
/// the byte 46, a dot, and `x`. `None` where the escape is bad (RFC 1035, section 5.1).
pub fn escape(text: &[u8]) -> Option<(u8, &[u8])>
    ensures byte { MatchOption result ((escaped_token text.now).0 ≡ Bad) (λ p. (escaped_token text.now).0 ≡ Byte p.0) }
    ensures rest { MatchOption result ((escaped_token text.now).1 ≡ 0) (λ p. p.1.now ≡ drop (escaped_token text.now).1 text.now) }
    ensures shorter { MatchOption result (Unit {0}) (λ p. length p.1.now < length text.now) }
{
    match text {
        [d @ b'0'..=b'9', e @ b'0'..=b'9', f @ b'0'..=b'9', rest @ ..] => {
            let value = 100 * u16::from(d - b'0') + 10 * u16::from(e - b'0') + u16::from(f - b'0');
            let byte = u8::try_from(value).ok()?;
            Some((byte, rest))
        }
        [b'0'..=b'9', ..] | [] => None,
        [byte, rest @ ..] => Some((*byte, rest)),
    }
}

// The labels that a text writes. The label behind its last dot is left open.
fn spell<A: Heap>(alloc: A, text: &[u8]) -> Result<Builder<A>, NameError>
    ensures { MatchResult result (λ b. spelled empty_draft (tokens text.now) ≡ Ok b) (λ e. IsFault e (spelled empty_draft (tokens text.now))) }
{
    let mut builder = Builder::new(alloc)?;
    let mut rest = text;
    'tokens: while let Some((spelt, after)) = first(rest) {
        match spelt {
            Spelt::Byte(byte) => builder.push(byte)?,
            Spelt::Dot => {
                if builder.open_len() == 0 {
                    return Err(NameError::EmptyLabel);
                }
                builder.close()?;
            }
            Spelt::Bad => return Err(NameError::BadByte),
        }
        rest = after;
    }
    Ok(builder)
}

impl<A: Heap> Builder<A> {
    // The name of these labels with `origin`, a name in wire form, behind them.
    fn finish_under(self, origin: &[u8]) -> Result<Name<A>, NameError>
        requires shut { self.opened ≡ [] }
        requires origin { IsNameWire origin.now }
        ensures { MatchResult result (λ n. with_origin (labels_of origin.now) self.closed ≡ Ok n) (λ e. IsFault e (with_origin (labels_of origin.now) self.closed)) }
    {
        let Builder { mut bytes, start } = self;
        if start + origin.len() > LONGEST_NAME {
            return Err(NameError::LongName);
        }
        bytes.truncate(start);
        bytes.extend_from_slice(origin)?;
        Ok(Name::from_wire(NameBytes::of_vec(bytes)))
    }
}

// The name that a text writes under `origin`, a name in wire form.
fn read<A: Heap>(alloc: A, text: &[u8], origin: &[u8]) -> Result<Name<A>, NameError>
    requires { IsNameWire origin.now }
    ensures { MatchResult result (λ n. name_under (labels_of origin.now) text.now ≡ Ok n) (λ e. IsFault e (name_under (labels_of origin.now) text.now)) }
{
    if text.is_empty() {
        return Err(NameError::EmptyLabel);
    }
    if text == b".".as_slice() {
        return Ok(Name::root(alloc)?);
    }
    let mut builder = spell(alloc, text)?;
    if builder.open_len() == 0 {
        return Ok(builder.finish());
    }
    builder.close()?;
    Ok(builder.finish_under(origin)?)
}

impl<A: Heap> Name<A> {
    /// The name that a text writes: labels parted by dots, a closing dot or none, `.` alone the root. `\X` is the byte
    /// X, and `\DDD` the byte of that decimal number (RFC 1035, section 5.1). Letters are folded: `Www.Example.` is
    /// `www.example`. Refused by the fault that stands first in the text, or where memory is refused.
    pub fn from_text(alloc: A, text: &str) -> Result<Name<A>, NameError>
        ensures { MatchResult result (λ n. name_of_text text.now ≡ Ok n) (λ e. IsFault e (name_of_text text.now)) }
    {
        read(alloc, text.as_bytes(), &[0])
    }

    /// The name that a text of a master file writes: one that no dot ends is relative to `origin` (RFC 1035, section
    /// 5.1). With the origin `example`, `www` is `www.example`, and `www.` is `www`. A name that is too long with the
    /// origin is refused as a long name.
    pub fn under<B: Allocator>(
        alloc: A,
        text: &[u8],
        origin: &Name<B>,
    ) -> Result<Name<A>, NameError>
        ensures { MatchResult result (λ n. name_under origin.now text.now ≡ Ok n) (λ e. IsFault e (name_under origin.now text.now)) }
    {
        read(alloc, text, origin.bytes.as_slice())
    }
}

/// A law: a text is read as a name exactly where it writes that name.
pub fn text_writes_name()
    ensures { TextWritesName }
{}

/// A law: a text is refused by the first of its dots and bytes that is at fault.
pub fn first_fault_counts()
    ensures { FirstFaultCounts }
{}

/// A law: the text of a name is read as that name.
pub fn text_is_read_back()
    ensures { TextIsReadBack }
{}
