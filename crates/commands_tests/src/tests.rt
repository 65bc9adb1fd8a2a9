//! Commands over texts in memory.

use crate::done::{Ending, ROOMY, Rooms, perform};
use commandline::{Command, LineFault};
use commands::{Texts, refuse_line};
use failing_writer::{AMPLE, FailingWriter};
use memory::{Heap, Starved};
use refusing_alloc::Refusing;
use std::alloc::{AllocError, Global};
use std::sync::Wait;
use std::test::Fail;
use std::thread::Threads;

const LAB: &str = "$TTL 300\n@ SOA ns h 1 2 3 4 60\n@ NS ns\n* TXT \"wild\"\na.b A 192.0.2.7\n";

// What stands at the only path there is, which is lab.zone: the example, or a text for which there is no memory.
#[derive(Clone, Copy)]
enum Held {
    Lab,
    Starved,
}

impl Texts for Held {
    fn text<A: Heap>(&mut self, alloc: A, path: &str) -> Result<Option<String<A>>, Starved> {
        match *self {
            Held::Lab if path == "lab.zone" => Ok(Some(String::from_str(alloc, LAB)?)),
            Held::Lab => Ok(None),
            Held::Starved => Err(Starved),
        }
    }

    fn reason<A: Heap>(&mut self, alloc: A, _path: &str) -> Result<String<A>, Starved> {
        Ok(String::from_str(alloc, "no such file")?)
    }
}

// A command on lab.zone with an origin; `ask` is for a TXT record of x.lab.example.
#[derive(Clone, Copy)]
enum Line {
    Ask(&'static str),
    Check(&'static str),
    Dump(&'static str),
}

impl Line {
    fn command(self, alloc: Global) -> Result<Command, AllocError> {
        let file = String::from_str(alloc, "lab.zone")?;
        Ok(match self {
            Line::Ask(origin) => Command::Ask {
                origin: String::from_str(alloc, origin)?,
                file,
                name: String::from_str(alloc, "x.lab.example.")?,
                kind: String::from_str(alloc, "TXT")?,
            },
            Line::Check(origin) => Command::Check {
                origin: String::from_str(alloc, origin)?,
                file,
            },
            Line::Dump(origin) => Command::Dump {
                origin: String::from_str(alloc, origin)?,
                file,
            },
        })
    }
}

// Whether a command that is done in this memory ends so.
fn ends<R: Threads + Wait + AllocGlobal + Sync, A: Heap>(
    rt: &R,
    alloc: A,
    (line, held): (Line, Held),
    rooms: Rooms,
    ending: Ending<'_>,
) -> Result<bool, AllocError> {
    let command = line.command(rt.alloc())?;
    let mut texts = held;
    let done = perform(rt, alloc, &command, &mut texts, rooms);
    Ok(done.is(ending))
}

const PRINTED: &str =
    "$ORIGIN lab.example.\nlab.example. 300 IN SOA ns.lab.example. h.lab.example. 1 2 3 4 60\nlab.example. 300 IN NS ns.lab.example.\n*.lab.example. 300 IN TXT \"wild\"\na.b.lab.example. 300 IN A 192.0.2.7\n";

const WILD: &str = "reply 1 NOERROR aa\n  an x.lab.example. 300 TXT \"wild\"\n";

// How a command ends when it is out of memory.
const OUT_OF_MEMORY: Ending<'static> = (3, "", "error: memory\n");

// The first growth of a command over the example whose refusal does not end it when out of memory, with nothing else
// printed. The command ends well where none is refused, and takes more than eight; it ends so too where there is no
// memory for the text alone. Else this is their number.
fn wrong_growth<R: Threads + Wait + AllocGlobal + Sync>(
    rt: &R,
    line: Line,
    printed: &str,
) -> Result<Option<u64>, AllocError> {
    let heap = Refusing::new(rt.alloc());
    let is_well = ends(rt, &heap, (line, Held::Lab), ROOMY, (0, printed, ""))?;
    let growths = heap.growths();
    let starves = ends(rt, &heap, (line, Held::Starved), ROOMY, OUT_OF_MEMORY)?;
    if !is_well || !starves || growths <= 8 {
        return Ok(Some(growths));
    }
    for growth in 0..growths {
        heap.refuse_after(growth);
        if !ends(rt, &heap, (line, Held::Lab), ROOMY, OUT_OF_MEMORY)? {
            return Ok(Some(growth));
        }
    }
    Ok(None)
}

// Commands over the example that end well, and what they print.
const WELL: &[(Line, &str)] = &[
    (Line::Check("lab.example."), "ok 4 records\n"),
    (Line::Dump("lab.example."), PRINTED),
    (Line::Ask("lab.example."), WILD),
];

// The place of the first of these with such a growth, and the growth.
fn first_wrong_growth<R: Threads + Wait + AllocGlobal + Sync>(
    rt: &R,
    commands: &[(Line, &str)],
) -> Result<Option<(usize, u64)>, AllocError> {
    for (place, (line, printed)) in commands.iter().enumerate() {
        if let Some(growth) = wrong_growth(rt, *line, *printed)? {
            return Ok(Some((place, growth)));
        }
    }
    Ok(None)
}

#[test]
fn each_growth_is_refused(rt: HostRuntime) -> Result<(), Fail> {
    assert_eq!(rt; first_wrong_growth(&rt, WELL)?, None);
    Ok(())
}

const COUNTED: &[u8] = b"ok 4 records\n";

// Whether output for which there is too little room brings a fault behind the bytes that fit.
fn fails_at<R: Threads + Wait + AllocGlobal + Sync>(
    rt: &R,
    room: usize,
) -> Result<bool, AllocError> {
    let command = Line::Check("lab.example.").command(rt.alloc())?;
    let mut texts = Held::Lab;
    let rooms = (room, AMPLE);
    let done = perform(rt, rt.alloc(), &command, &mut texts, rooms);
    let has_front = COUNTED.get(..room) == Some(done.out.bytes.as_slice());
    Ok(done.status == 4 && has_front && done.err.holds("error: output\n"))
}

// The first room of which something else comes.
fn wrong_room<R: Threads + Wait + AllocGlobal + Sync>(rt: &R) -> Result<Option<usize>, AllocError> {
    for room in 0..COUNTED.len() {
        if !fails_at(rt, room)? {
            return Ok(Some(room));
        }
    }
    Ok(None)
}

#[test]
fn output_may_fail_at_each_byte(rt: HostRuntime) -> Result<(), Fail> {
    assert_eq!(rt; wrong_room(&rt)?, None);
    Ok(())
}

#[test]
fn a_fault_line_may_fail(rt: HostRuntime) -> Result<(), Fail> {
    let refused = (Line::Ask("lab..example."), Held::Lab);
    assert!(rt; ends(&rt, rt.alloc(), refused, (AMPLE, 0), (4, "", ""))?);
    Ok(())
}

#[test]
fn lines_may_starve(rt: HostRuntime) -> Result<(), Fail> {
    let alloc = rt.alloc();
    let mut out = FailingWriter::new(alloc, AMPLE);
    let mut err = FailingWriter::new(alloc, AMPLE);
    let status = refuse_line(alloc, &[], LineFault::Memory, &mut out, &mut err);
    let is_told = out.holds("") && err.holds("error: memory\n");
    assert_eq!(rt; (status, is_told), (3, true));
    Ok(())
}
