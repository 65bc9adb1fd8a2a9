//! Texts of files, as they are shown at a terminal.
ghost use Rattle.std.specs.Prelude.{Some};
ghost use Rattle.std.specs.Fmt.{WritesOnOk};
ghost use Rattle.config_report.specs.Shown.{shown_byte, shown_text};

use dname::write_number;
use std::fmt;

/// A text whose printable bytes and tabs stand as they are. Of each other byte three digits stand behind a backslash,
/// as in the text of a name, so that no byte of a file rules a terminal.
#[derive(Clone, Copy)]
pub(crate) struct Shown<'a>(pub &'a str);

impl fmt::Display for Shown<'_> {
    ghost output = { λ s. Some (shown_text s.0.now) };

    fn fmt<W: fmt::Write>(&self, f: &mut fmt::Formatter<W>) -> fmt::Result {
        write_text(f, self.0.as_bytes())
    }
}

fn write_text<W: fmt::Write>(f: &mut fmt::Formatter<W>, text: &[u8]) -> fmt::Result
    ensures { WritesOnOk W.write_str_gives f.old result (shown_text text.now) f.new }
{
    for byte in text {
        write_shown(f, *byte)?;
    }
    Ok(())
}

fn write_shown<W: fmt::Write>(f: &mut fmt::Formatter<W>, byte: u8) -> fmt::Result
    ensures { WritesOnOk W.write_str_gives f.old result (shown_byte byte) f.new }
{
    if byte == b'\t' {
        f.write_char(char::from(byte))
    } else if (32..=126).contains(&byte) {
        f.write_char(char::from(byte))
    } else {
        write_number(f, byte)
    }
}
