//! Rows about a frame. `frame AT NESTING : RECORDS` opens one at a cut, by the penalties at work, and `trimmed-frame`
//! at what a frame can use of it, which `trim AT : RECORDS` shows. `lost NAME NESTING` is a look-up that failed.
//! `nesting`, `addresses` and `unknown` show it; `ask COUNT`, `name`, `find SERVER ..` and `find-rounds ROUNDS COUNT`
//! do something with it.
use crate::row::{Row, made};
use crate::shown::{put_addresses, put_asked, put_cut, put_number};
use frames::{Failed, Frame, trimmed};
use lru::DefaultHasher;
use rdata::Addr;
use referral::Cut;
use retry::Penalties;
use text_lines::LineKind;

struct Opened {
    frame: Frame,
    failed: Failed,
}

impl Drop for Opened {
    fn drop(self) {
        let Self { frame, failed } = self;
        drop(frame);
        drop(failed);
    }
}

/// A frame, once a row has opened one.
#[derive(Drop)]
pub struct Frames {
    opened: Option<Opened>,
}

type Levels = Penalties<DefaultHasher>;

fn trimmed_cut(row: &mut Row<'_>) -> Result<Cut, LineKind> {
    let cut = row.cut()?;
    let trimmed = trimmed(row.alloc, &cut);
    drop(cut);
    Ok(trimmed?)
}

fn cut(row: &mut Row<'_>) -> Result<Cut, LineKind> {
    match row.command {
        "frame" => row.cut(),
        _ => trimmed_cut(row),
    }
}

fn open(row: &mut Row<'_>, cut: &Cut, levels: &Levels) -> Result<Opened, LineKind> {
    let nesting = row.nesting()?;
    let frame = Frame::start(row.alloc, cut, nesting, levels)?;
    Ok(Opened {
        frame,
        failed: Failed::new(row.alloc),
    })
}

// The addresses 10.0.0.0, 10.0.0.1 and so on, as many as are counted.
fn push_round(found: &mut Vec<Addr>, count: u16) -> Result<(), LineKind> {
    for n in 0..count {
        let [high, low] = n.to_be_bytes();
        found.push(Addr([10, 0, high, low]))?;
    }
    Ok(())
}

fn rounds(row: &mut Row<'_>) -> Result<Vec<Addr>, LineKind> {
    let rounds = row.short()?;
    let count = row.short()?;
    let mut found = Vec::new(row.alloc);
    for _ in 0..rounds {
        push_round(&mut found, count)?;
    }
    Ok(found)
}

impl Opened {
    fn show(&mut self, row: &mut Row<'_>, out: &mut String) -> Result<(), LineKind> {
        match row.command {
            "nesting" => put_number(out, "", u64::from(self.frame.nesting())),
            "addresses" => put_addresses(out, self.frame.addresses()),
            "known" => put_number(out, "", self.frame.addresses().len() as u64),
            "unknown" => self.show_unknown(out),
            "ask" => self.ask(row, out),
            "name" => self.next_name(out),
            _ => self.lose(row),
        }
    }

    fn show_unknown(&self, out: &mut String) -> Result<(), LineKind> {
        for name in self.frame.unknown_names() {
            writeln!(out, "{name}")?;
        }
        Ok(())
    }

    fn ask(&mut self, row: &mut Row<'_>, out: &mut String) -> Result<(), LineKind> {
        let count = row.short()?;
        for _ in 0..count {
            let asked = self.frame.next_address();
            put_asked(out, asked, self.frame.wait_ms())?;
        }
        Ok(())
    }

    fn next_name(&mut self, out: &mut String) -> Result<(), LineKind> {
        match self.frame.next_name(&self.failed)? {
            Some(name) => writeln!(out, "{name}")?,
            None => writeln!(out, "none")?,
        }
        Ok(())
    }

    fn lose(&mut self, row: &mut Row<'_>) -> Result<(), LineKind> {
        let text = row.word()?;
        let nesting = row.nesting()?;
        let name = text_lines::name(row.alloc, text)?;
        let marked = self.failed.mark(&name, nesting);
        drop(name);
        Ok(marked?)
    }

    fn find(&mut self, found: &[Addr], levels: &Levels, out: &mut String) -> Result<(), LineKind> {
        let is_new = self.frame.add(found, levels)?;
        out.push_str(if is_new { "new\n" } else { "known\n" })?;
        Ok(())
    }
}

impl Frames {
    /// No frame.
    pub fn new() -> Frames {
        Frames { opened: None }
    }

    /// What comes of a row that opens a frame, or finds addresses for it.
    pub fn perform_by(
        &mut self,
        row: &mut Row<'_>,
        levels: &Levels,
        out: &mut String,
    ) -> Result<(), LineKind> {
        match row.command {
            "frame" | "trimmed-frame" => self.start(row, levels),
            "find" => self.find(row, levels, out),
            _ => self.find_rounds(row, levels, out),
        }
    }

    /// What comes of any other row.
    pub fn perform(&mut self, row: &mut Row<'_>, out: &mut String) -> Result<(), LineKind> {
        match row.command {
            "trim" => show_trimmed(row, out),
            _ => made(&mut self.opened)?.show(row, out),
        }
    }

    fn start(&mut self, row: &mut Row<'_>, levels: &Levels) -> Result<(), LineKind> {
        let cut = cut(row)?;
        let opened = open(row, &cut, levels);
        drop(cut);
        self.opened = Some(opened?);
        Ok(())
    }

    fn find(
        &mut self,
        row: &mut Row<'_>,
        levels: &Levels,
        out: &mut String,
    ) -> Result<(), LineKind> {
        let found = row.addresses()?;
        made(&mut self.opened)?.find(&found, levels, out)
    }

    fn find_rounds(
        &mut self,
        row: &mut Row<'_>,
        levels: &Levels,
        out: &mut String,
    ) -> Result<(), LineKind> {
        let found = rounds(row)?;
        made(&mut self.opened)?.find(&found, levels, out)
    }
}

fn show_trimmed(row: &mut Row<'_>, out: &mut String) -> Result<(), LineKind> {
    let cut = trimmed_cut(row)?;
    let put = put_cut(out, &cut);
    drop(cut);
    put
}
