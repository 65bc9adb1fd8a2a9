//! Data in text, as a master file and the program's output lines have them (RFC 1035, section 5.1).
ghost use Rattle.std.specs.Prelude.{◌≡◌, ◌++◌, Some, OnOk, OnErr, string_bytes, flat_map};
ghost use Rattle.std.specs.Fmt.{WritesOnOk};
ghost use Rattle.rdata.specs.Kept.{datum};
ghost use Rattle.rdata.specs.Text.{record_text, data_text, soa_text, srv_text, spaced_string, ipv4_text, ipv6_text, group_text, next_group_text, glyph, quoted};

use crate::addr::Addr;
use crate::data::RData;
use crate::records::Record;
use crate::soa::Soa;
use crate::srv::Srv;
use crate::texts::{CharacterString, Texts, next_string};
use dname::write_number;
use memory::{Heap, Starved};
use std::alloc::Allocator;
use std::fmt;

/// The record as it stands in a line of a master file: `OWNER TTL IN TYPE DATA`.
impl<A: Allocator> fmt::Display for Record<A> {
    ghost output = { λ r. Some (record_text r) };

    fn fmt<W: fmt::Write>(&self, f: &mut fmt::Formatter<W>) -> fmt::Result {
        let Record { owner, ttl, value } = self;
        write!(f, "{owner} {ttl} IN {value}")
    }
}

/// Type and data as they stand in a line of a master file: the type's word, then each field behind a space. Names
/// are absolute, addresses of IPv6 in eight groups, strings in quotes.
impl<A: Allocator> fmt::Display for RData<A> {
    ghost output = { λ d. Some (data_text (datum d)) };

    fn fmt<W: fmt::Write>(&self, f: &mut fmt::Formatter<W>) -> fmt::Result {
        match self {
            RData::A(address) => write!(f, "A {address}"),
            RData::Ns(name) => write!(f, "NS {name}"),
            RData::Cname(name) => write!(f, "CNAME {name}"),
            RData::Soa(soa) => write!(f, "SOA {soa}"),
            RData::Ptr(name) => write!(f, "PTR {name}"),
            RData::Mx(preference, name) => write!(f, "MX {preference} {name}"),
            RData::Txt(texts) => write!(f, "TXT{texts}"),
            RData::Aaaa(address) => write!(f, "AAAA {}", Groups(*address)),
            RData::Srv(srv) => write!(f, "SRV {srv}"),
        }
    }
}

/// The record's line.
impl<A: Allocator> fmt::Debug for Record<A> {
    ghost debug_output = { λ r. Some (record_text r) };

    fn fmt<W: fmt::Write>(&self, f: &mut fmt::Formatter<W>) -> fmt::Result {
        fmt::Display::fmt(self, f)
    }
}

/// Type and data, as they are displayed.
impl<A: Allocator> fmt::Debug for RData<A> {
    ghost debug_output = { λ d. Some (data_text (datum d)) };

    fn fmt<W: fmt::Write>(&self, f: &mut fmt::Formatter<W>) -> fmt::Result {
        fmt::Display::fmt(self, f)
    }
}

/// The fields, parted by spaces.
impl<A: Allocator> fmt::Display for Soa<A> {
    ghost output = { λ s. Some (soa_text s) };

    fn fmt<W: fmt::Write>(&self, f: &mut fmt::Formatter<W>) -> fmt::Result {
        let (serial, refresh, retry) = (self.serial, self.refresh, self.retry);
        let (expire, minimum) = (self.expire, self.minimum);
        write!(f, "{} {}", self.primary, self.mailbox)?;
        write!(f, " {serial} {refresh} {retry} {expire} {minimum}")
    }
}

/// The fields, parted by spaces.
impl<A: Allocator> fmt::Display for Srv<A> {
    ghost output = { λ s. Some (srv_text s) };

    fn fmt<W: fmt::Write>(&self, f: &mut fmt::Formatter<W>) -> fmt::Result {
        let Srv {
            priority,
            weight,
            port,
            target,
        } = self;
        write!(f, "{priority} {weight} {port} {target}")
    }
}

/// Each string in quotes, behind a space.
impl<A: Allocator> fmt::Display for Texts<A> {
    ghost output = { λ strings. Some (flat_map spaced_string strings) };

    fn fmt<W: fmt::Write>(&self, f: &mut fmt::Formatter<W>) -> fmt::Result {
        let mut rest = self.wire();
        while let Some((string, after)) = next_string(rest) {
            f.write_str(" ")?;
            write_quoted(f, string)?;
            rest = after;
        }
        Ok(())
    }
}

/// The string in quotes, with escapes where a byte needs one.
impl<A: Allocator> fmt::Display for CharacterString<A> {
    ghost output = { λ s. Some (quoted s) };

    fn fmt<W: fmt::Write>(&self, f: &mut fmt::Formatter<W>) -> fmt::Result {
        write_quoted(f, self.bytes())
    }
}

// A string in quotes.
fn write_quoted<W: fmt::Write>(f: &mut fmt::Formatter<W>, string: &[u8]) -> fmt::Result
    ensures { WritesOnOk W.write_str_gives f.old result (quoted string.now) f.new }
{
    f.write_str("\"")?;
    for byte in string {
        write_byte(f, *byte)?;
    }
    f.write_str("\"")
}

fn write_byte<W: fmt::Write>(f: &mut fmt::Formatter<W>, byte: u8) -> fmt::Result
    ensures { WritesOnOk W.write_str_gives f.old result (glyph byte) f.new }
{
    if matches!(byte, b'"' | b'\\') {
        f.write_char('\\')?;
        f.write_char(char::from(byte))
    } else if (32..=126).contains(&byte) {
        f.write_char(char::from(byte))
    } else {
        write_number(f, byte)
    }
}

// Two bytes as a group of an IPv6 address: hexadecimal digits in lower case, without zeros in front.
#[derive(Clone, Copy)]
struct Group(u8, u8);

impl fmt::Display for Group {
    ghost output = { λ g. Some (group_text g.0 g.1) };

    fn fmt<W: fmt::Write>(&self, f: &mut fmt::Formatter<W>) -> fmt::Result {
        let group = u16::from(self.0) * 256 + u16::from(self.1);
        write!(f, "{group:x}")
    }
}

// A further group, behind its colon.
#[derive(Clone, Copy)]
struct Next(u8, u8);

impl fmt::Display for Next {
    ghost output = { λ g. Some (next_group_text g.0 g.1) };

    fn fmt<W: fmt::Write>(&self, f: &mut fmt::Formatter<W>) -> fmt::Result {
        write!(f, ":{}", Group(self.0, self.1))
    }
}

// An IPv6 address: eight groups, parted by colons.
#[derive(Clone, Copy)]
struct Groups([u8; 16]);

impl fmt::Display for Groups {
    ghost output = { λ g. Some (ipv6_text g.0) };

    fn fmt<W: fmt::Write>(&self, f: &mut fmt::Formatter<W>) -> fmt::Result {
        let bytes = self.0;
        let a = Group(bytes[0], bytes[1]);
        let b = Next(bytes[2], bytes[3]);
        let c = Next(bytes[4], bytes[5]);
        let d = Next(bytes[6], bytes[7]);
        let e = Next(bytes[8], bytes[9]);
        let g = Next(bytes[10], bytes[11]);
        let h = Next(bytes[12], bytes[13]);
        let i = Next(bytes[14], bytes[15]);
        write!(f, "{a}{b}{c}{d}{e}{g}{h}{i}")
    }
}

/// Appends type and data as they are displayed: `MX 10 mail.example.`. Where memory is refused, nothing is appended:
/// the text is written apart first.
pub fn put_data<A: Allocator, B: Heap>(out: &mut String<B>, value: &RData<A>) -> Result<(), Starved>
    ensures ok { OnOk result (string_bytes out.new ≡ string_bytes out.old ++ data_text (datum value.now)) }
    ensures err { OnErr result (string_bytes out.new ≡ string_bytes out.old) }
{
    let text = value.to_string(*out.allocator())?;
    Ok(out.push_str(&text)?)
}

/// Appends an IPv4 address, four numbers parted by dots: of the bytes 192, 0, 2, 1 it is `192.0.2.1`. Where memory is
/// refused, nothing is appended.
pub fn put_ipv4<A: Heap>(out: &mut String<A>, address: &[u8; 4]) -> Result<(), Starved>
    ensures ok { OnOk result (string_bytes out.new ≡ string_bytes out.old ++ ipv4_text address.now) }
    ensures err { OnErr result (string_bytes out.new ≡ string_bytes out.old) }
{
    let text = Addr(*address).to_string(*out.allocator())?;
    Ok(out.push_str(&text)?)
}
