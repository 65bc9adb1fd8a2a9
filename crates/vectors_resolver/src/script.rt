//! All rows, by their commands.
use crate::asked::Resolvers;
use crate::exchange::Exchange;
use crate::frame::Frames;
use crate::links::Links;
use crate::replies::{show_class, show_received};
use crate::row::Row;
use crate::servers::Servers;
use crate::settings::show_settings;
use crate::steps::Steps;
use memory::Starved;
use std::alloc::Global;
use text_lines::LineKind;
use vectors::Answers;

/// What the rows so far have made.
#[derive(Drop)]
pub struct Script {
    links: Links,
    servers: Servers,
    frames: Frames,
    resolvers: Resolvers,
    exchange: Exchange,
    steps: Steps,
}

// What does something with a row.
#[derive(Clone, Copy)]
enum Part {
    Links,
    Servers,
    // Frames, by the penalties that are kept of servers.
    FramesByLevels,
    Frames,
    Class,
    Received,
    Settings,
    Exchange,
    Steps,
    Resolvers,
}

// All commands but those of resolvers.
const PARTS: [(&str, Part); 42] = [
    ("cache", Part::Links),
    ("keep", Part::Links),
    ("look", Part::Links),
    ("send", Part::Links),
    ("failures", Part::Servers),
    ("fail", Part::Servers),
    ("fails", Part::Servers),
    ("penalties", Part::Servers),
    ("silent", Part::Servers),
    ("answers", Part::Servers),
    ("penalty", Part::Servers),
    ("plan", Part::Servers),
    ("delegations", Part::Servers),
    ("delegate", Part::Servers),
    ("best", Part::Servers),
    ("cut", Part::Servers),
    ("hints", Part::Servers),
    ("frame", Part::FramesByLevels),
    ("trimmed-frame", Part::FramesByLevels),
    ("find", Part::FramesByLevels),
    ("find-rounds", Part::FramesByLevels),
    ("trim", Part::Frames),
    ("lost", Part::Frames),
    ("nesting", Part::Frames),
    ("addresses", Part::Frames),
    ("known", Part::Frames),
    ("unknown", Part::Frames),
    ("ask", Part::Frames),
    ("name", Part::Frames),
    ("classify", Part::Class),
    ("received", Part::Received),
    ("settings", Part::Settings),
    ("asking", Part::Exchange),
    ("sent", Part::Exchange),
    ("answer-late", Part::Exchange),
    ("core", Part::Steps),
    ("client", Part::Steps),
    ("server", Part::Steps),
    ("stray", Part::Steps),
    ("tick", Part::Steps),
    ("client-fronts", Part::Steps),
    ("server-fronts", Part::Steps),
];

fn part_of(command: &str) -> Part {
    for (word, part) in PARTS {
        if word == command {
            return part;
        }
    }
    Part::Resolvers
}

impl Script {
    /// Nothing is made.
    pub fn new() -> Script {
        Script {
            links: Links::new(),
            servers: Servers::new(),
            frames: Frames::new(),
            resolvers: Resolvers::new(),
            exchange: Exchange::new(),
            steps: Steps::new(),
        }
    }

    fn perform(&mut self, row: &mut Row<'_>, out: &mut String) -> Result<(), LineKind> {
        match part_of(row.command) {
            Part::Links => self.links.perform(row, out),
            Part::Servers => self.servers.perform(row, out),
            Part::FramesByLevels => {
                let levels = self.servers.penalties()?;
                self.frames.perform_by(row, levels, out)
            }
            Part::Frames => self.frames.perform(row, out),
            Part::Class => show_class(row, out),
            Part::Received => show_received(row, out),
            Part::Settings => show_settings(row, out),
            Part::Exchange => self.exchange.perform(row, out),
            Part::Steps => self.steps.perform(row, out),
            Part::Resolvers => self.resolvers.perform(row, out),
        }
    }

    fn perform_text(&mut self, alloc: Global, row: &str, out: &mut String) -> Result<(), LineKind> {
        if let Some(again) = row.strip_prefix("until-failure ") {
            return self.resolvers.exhaust(alloc, again, out);
        }
        let mut row = Row::new(alloc, row)?;
        self.perform(&mut row, out)
    }
}

impl Answers for Script {
    fn answer(&mut self, alloc: Global, row: &str, out: &mut String) -> Result<bool, Starved> {
        match self.perform_text(alloc, row, out) {
            Ok(()) => Ok(true),
            Err(LineKind::Memory) => Err(Starved),
            Err(_) => Ok(false),
        }
    }
}
