//! Texts that several rows use: `text NAME`, its lines, and `end-text`.

use crate::notation;
use crate::unanswered::Unanswered;
use std::alloc::Global;

/// Texts by name, the last of which may still take lines.
#[derive(Drop)]
pub struct NamedTexts {
    texts: Vec<(String, String)>,
    is_open: bool,
}

impl NamedTexts {
    /// No texts; takes no memory.
    pub fn new(alloc: Global) -> NamedTexts {
        NamedTexts {
            texts: Vec::new(alloc),
            is_open: false,
        }
    }

    /// Opens the text of a name.
    pub fn open(&mut self, alloc: Global, name: &str) -> Result<(), Unanswered> {
        let name = String::from_str(alloc, name)?;
        self.texts.push((name, String::new(alloc)))?;
        self.is_open = true;
        Ok(())
    }

    /// Takes a row that is a line of the open text or its end; false where no text is open.
    pub fn take_line(&mut self, alloc: Global, row: &str) -> Result<bool, Unanswered> {
        if !self.is_open {
            return Ok(false);
        }
        if row == "end-text" {
            self.is_open = false;
        } else {
            self.put_line(alloc, row)?;
        }
        Ok(true)
    }

    fn put_line(&mut self, alloc: Global, row: &str) -> Result<(), Unanswered> {
        if let Some((_, text)) = self.texts.last_mut() {
            text.push_str(notation::text(alloc, row)?.as_str())?;
            text.push('\n')?;
        }
        Ok(())
    }

    /// The text of a name.
    pub fn named(&self, wanted: &str) -> Result<&str, Unanswered> {
        for (name, text) in &self.texts {
            if name.as_str() == wanted {
                return Ok(text.as_str());
            }
        }
        Err(Unanswered::NotUnderstood)
    }

    /// What `NAME NAME ..: TEXT` says: the texts of these names, and then the lines behind the colon.
    pub fn made(&self, alloc: Global, said: &str) -> Result<String, Unanswered> {
        let (names, more) = said.split_once(": ").unwrap_or((said, ""));
        let mut text = String::new(alloc);
        for name in names.split(' ').filter(|name| !name.is_empty()) {
            text.push_str(self.named(name)?)?;
        }
        text.push_str(notation::text(alloc, more)?.as_str())?;
        Ok(text)
    }
}
