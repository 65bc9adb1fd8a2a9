//! `vectors_messages`: what names, records and messages come to, a row each (`vectors`).
//!
//! `name WWW.Example` prints how the name is written, `decode HEX` what the message says; a refusal is printed with
//! its number. `stdin` has the rows, with what each shows, and `stdout` what they come to. The modules have the
//! commands: of names, of types, data and record sets, of many of them, of suffixes, of asks, of messages, and of
//! queries and replies. Records of a row are lines of a zone text with ` | ` between them.
//!
//! ```text
//! decode 000100000001000000000000 4061 0000010001
//!   refused 2: bad label
//! ```
#![tactic(auto)]

mod ask_rows;
mod both;
mod data_rows;
mod exchanges;
mod fault;
mod long_rows;
mod message_rows;
mod name_rows;
mod record_texts;
mod set_rows;
mod suffix_rows;

use crate::fault::{Answer, Fault};
use memory::Starved;
use std::alloc::Global;
use std::process::ExitCode;
use vectors::{Answers, first_word, run};

// What rows of names, records and messages come to.
#[derive(Clone, Copy)]
struct Messages;

impl Answers for Messages {
    fn answer(&mut self, alloc: Global, row: &str, out: &mut String) -> Result<bool, Starved> {
        let (command, rest) = first_word(row);
        fault::is_understood(answer(alloc, command, rest, out))
    }
}

// The answer of the first module that knows the command.
fn answer(alloc: Global, command: &str, rest: &str, out: &mut String) -> Answer {
    match of_names_and_data(alloc, command, rest, out) {
        Err(Fault::NotUnderstood) => of_messages(alloc, command, rest, out),
        known => known,
    }
}

fn of_names_and_data(alloc: Global, command: &str, rest: &str, out: &mut String) -> Answer {
    match name_rows::answer(alloc, command, rest, out) {
        Err(Fault::NotUnderstood) => {}
        known => return known,
    }
    match data_rows::answer(alloc, command, rest, out) {
        Err(Fault::NotUnderstood) => {}
        known => return known,
    }
    match set_rows::answer(alloc, command, rest, out) {
        Err(Fault::NotUnderstood) => long_rows::answer(alloc, command, rest, out),
        known => known,
    }
}

fn of_messages(alloc: Global, command: &str, rest: &str, out: &mut String) -> Answer {
    match command {
        "suffixes" => suffix_rows::put_steps(alloc, rest, out),
        "asks" => ask_rows::put_steps(alloc, rest, out),
        _ => match message_rows::answer(alloc, command, rest, out) {
            Err(Fault::NotUnderstood) => exchanges::answer(alloc, command, rest, out),
            known => known,
        },
    }
}

fn main(rt: HostRuntime) -> ExitCode {
    run(&rt, &mut Messages)
}
