//! `bench`: how long the calls of the libraries take.
//!
//! Without words each kind of work (`Work`) is done a few times and its sum printed, the same each time, and what comes
//! of the dearest single steps that strangers can bring about (`hostile::Hostile`). With the word `measure` work is
//! done often, and nanoseconds for one time are printed; a step that takes over 1.5 times as long with 1,024 queries
//! open as with one then makes the status 1. Both print how often one message read or written, and one answer that is
//! known, asks for memory. With the word `hostile` those steps are measured, and one that takes over 3 milliseconds
//! makes the status 1.
//! Nothing is proved of it but that it is safe.
//!
//! ```text
//! bench measure
//! ```
#![tactic(auto)]

ghost use Rattle.std.specs.Prelude.{◌<◌};

mod answers;
mod done;
mod hostile;
mod links;
mod messages;
mod names;
mod resident;
mod steps;
mod work;
mod zones;

use crate::done::{Counted, Done};
use crate::work::{ALL, ON_STEPS, Work};
use anyhow::{Result, ensure};
use std::env;
use std::io::Write;
use std::rt::Runtime;

fn main(rt: HostRuntime) -> Result<()> {
    let word = env::args(&rt)?.skip(1).next();
    match word.as_ref().map_or("", |word| word.as_str()) {
        "measure" => measure_all(&rt),
        "hostile" => hostile::measure(&rt),
        _ => sample_all(&rt),
    }
}

// Each a few times: the sum of what came out.
fn sample_all<R: Runtime + AllocGlobal>(rt: &R) -> Result<()> {
    for work in ALL {
        let sum = work.run(rt, 3)?.sum;
        println!(rt; "{work}: {sum}")?;
    }
    count_growths(rt)?;
    hostile::sample(rt)
}

fn measure_all<R: Runtime + AllocGlobal>(rt: &R) -> Result<()> {
    for work in ALL {
        measure(rt, work)?;
    }
    count_growths(rt)?;
    for [one, many] in ON_STEPS {
        compare(rt, one, many)?;
    }
    Ok(())
}

fn count_growths<R: Runtime + AllocGlobal>(rt: &R) -> Result<()> {
    for work in messages::EACH {
        let growths = work.growths(rt)?;
        println!(rt; "{work}: {growths} growths of memory")?;
    }
    for known in answers::EACH {
        let growths = known.growths(rt)?;
        println!(rt; "{known}: {growths} growths of memory")?;
        let locked = known.growths_locked(rt)?;
        println!(rt; "{known}, its step alone: {locked} growths of memory")?;
    }
    Ok(())
}

// Often: nanoseconds a time.
fn measure<R: Runtime + AllocGlobal>(rt: &R, work: Work) -> Result<()> {
    let rounds = work.rounds();
    let done = work.run(rt, rounds)?;
    let each = done.taken.as_nanos() / u128::from(rounds);
    let often = 1_000_000_000 / each.max(1);
    print!(rt; "{work}: {each} ns, {often} a second")?;
    print_counted(rt, done, rounds)?;
    println!(rt; " (sum {})", done.sum)?;
    Ok(())
}

// What was counted in so many rounds, beside the time.
fn print_counted<R: Runtime>(rt: &R, done: Done, rounds: u64) -> Result<()>
    requires { 0 < rounds }
{
    match done.counted {
        Counted::Nothing => {}
        Counted::Text(bytes) => {
            let speed = u128::from(bytes) * 1_000 / done.taken.as_nanos().max(1);
            print!(rt; ", {speed} MB/s")?;
        }
        Counted::Resident(bytes) => {
            print!(rt; ", {} bytes of memory each", bytes / rounds)?;
        }
        Counted::Grown { list, zone } => {
            let (list, zone) = (list / rounds, zone / rounds);
            print!(rt; ", {zone} bytes of memory each, {list} of them as a list")?;
        }
    }
    Ok(())
}

// The shortest of five times, in nanoseconds, since the machine has other work.
fn shortest<R: Runtime + AllocGlobal>(rt: &R, work: Work) -> Result<u128> {
    let mut shortest = u128::MAX;
    for _ in 0..5 {
        let done = work.run(rt, work.rounds() / 10)?;
        shortest = shortest.min(done.taken.as_nanos());
    }
    Ok(shortest)
}

// The time of a step with many queries open as a part of that with one: at most 150 percent.
fn compare<R: Runtime + AllocGlobal>(rt: &R, one: Work, many: Work) -> Result<()> {
    let alone = shortest(rt, one)?.max(1);
    let percent = shortest(rt, many)?.saturating_mul(100) / alone;
    println!(rt; "{many}: {percent} % of the time among 1")?;
    ensure!(percent <= 150, "{many}: over 150 % of the time among 1");
    Ok(())
}
