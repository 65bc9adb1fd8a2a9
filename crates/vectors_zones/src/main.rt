//! Test vectors of zone texts, zones, worlds and scripts: each row of `stdin`, and what comes of it.
//!
//! `stdin` says what the rows are, under a line of `=` for each kind; `notation` how they write long texts. A text that
//! several rows use stands between `text NAME` and `end-text`.
//!
//! Promised: nothing; `stdout` holds what must be printed.
//! Not here: refused growths, and zones made at random (`unit_tests`).
//!
//! ```text
//! zone example. soa ns: a 60 CNAME b.|a 61 CNAME b.
//!   fault zone 5: different TTLs in a record set
//! ```
#![tactic(auto)]

mod file_rows;
mod message_rows;
mod named_texts;
mod notation;
mod script_rows;
mod unanswered;
mod world_rows;
mod zone_rows;

use crate::file_rows::Shown;
use crate::named_texts::NamedTexts;
use crate::unanswered::Unanswered;
use authority::Catalog;
use memory::Starved;
use std::alloc::Global;
use std::process::ExitCode;
use vectors::{Answers, first_word, run};
use worlds::World;

fn main(rt: HostRuntime) -> ExitCode {
    let mut rows = Rows {
        texts: NamedTexts::new(rt.alloc()),
        catalog: None,
        world: None,
    };
    run(&rt, &mut rows)
}

// The texts that were named, and the last catalog and world.
#[derive(Drop)]
struct Rows {
    texts: NamedTexts,
    catalog: Option<Catalog>,
    world: Option<World>,
}

impl Answers for Rows {
    fn answer(&mut self, alloc: Global, row: &str, out: &mut String) -> Result<bool, Starved> {
        match self.put_answer(alloc, row, out) {
            Ok(()) => Ok(true),
            Err(Unanswered::NotUnderstood) => Ok(false),
            Err(Unanswered::Starved) => Err(Starved),
        }
    }
}

impl Rows {
    fn put_answer(&mut self, alloc: Global, row: &str, out: &mut String) -> Result<(), Unanswered> {
        if self.texts.take_line(alloc, row)? {
            return Ok(());
        }
        let (command, said) = first_word(row);
        match command {
            "text" => self.texts.open(alloc, said),
            "zone" => zone_rows::put_zone(&self.texts, alloc, said, out),
            "catalog" => {
                zone_rows::put_catalog(&self.texts, &mut self.catalog, alloc, said, out)
            }
            "world" => world_rows::put_world(&self.texts, &mut self.world, alloc, said, out),
            "look" | "look-among" => self.put_look(alloc, command, said, out),
            "ask" | "hear" | "judge" => self.put_message(alloc, command, said, out),
            _ => put_text(alloc, command, said, out),
        }
    }

    // Of the last catalog.
    fn put_look(
        &self,
        alloc: Global,
        command: &str,
        said: &str,
        out: &mut String,
    ) -> Result<(), Unanswered> {
        let Some(catalog) = &self.catalog else {
            return Err(Unanswered::NotUnderstood);
        };
        match command {
            "look" => zone_rows::put_look(catalog, alloc, said, out),
            _ => zone_rows::put_look_among(catalog, alloc, said, out),
        }
    }

    // Of the last world.
    fn put_message(
        &self,
        alloc: Global,
        command: &str,
        said: &str,
        out: &mut String,
    ) -> Result<(), Unanswered> {
        let Some(world) = &self.world else {
            return Err(Unanswered::NotUnderstood);
        };
        match command {
            "ask" => message_rows::put_ask(world, alloc, said, out),
            "hear" => message_rows::put_hear(world, alloc, said, out),
            _ => message_rows::put_judge(world, alloc, said, out),
        }
    }
}

// Of the text in the row alone.
fn put_text(alloc: Global, command: &str, said: &str, out: &mut String) -> Result<(), Unanswered> {
    match command {
        "master-file" => file_rows::put_file(alloc, Shown::Records, said, out),
        "master-count" => file_rows::put_file(alloc, Shown::Count, said, out),
        "master-print" => file_rows::put_file(alloc, Shown::Printed, said, out),
        "master-block" => file_rows::put_block(alloc, said, out),
        "master-bytes" => file_rows::put_bytes(alloc, said, out),
        "tokens" => file_rows::put_tokens(alloc, said, out),
        "world-text" => world_rows::put_world_text(alloc, said, out),
        "script" => script_rows::put_script(alloc, said, out),
        "asks" => script_rows::put_asks(alloc, said, out),
        _ => Err(Unanswered::NotUnderstood),
    }
}
