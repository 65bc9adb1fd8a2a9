//! A command that is done over texts and in a place of the test's own.
use crate::place::{NOWHERE, Place};
use commandline::Command;
use commands::{Outcome, Server, Texts, run_command};
use failing_writer::{AMPLE, FailingWriter};
use memory::Heap;
use std::sync::Wait;
use std::thread::Threads;

/// What a command ended with and wrote.
#[derive(Drop)]
pub struct Done {
    pub status: u8,
    /// Whether it started a server.
    pub serves: bool,
    pub out: FailingWriter,
    pub err: FailingWriter,
}

/// A status, an output and the line of a fault.
pub type Ending<'a> = (u8, &'a str, &'a str);

impl Done {
    /// Whether it ended so.
    pub fn is(&self, (status, printed, fault): Ending<'_>) -> bool {
        self.status == status && self.out.holds(printed) && self.err.holds(fault)
    }
}

/// How many bytes of output and of the lines of faults may be written.
pub type Rooms = (usize, usize);

/// As many as a command may want.
pub const ROOMY: Rooms = (AMPLE, AMPLE);

/// Does a command in this memory, and hands out the server that it started. What it writes takes other memory.
pub fn start<R: Threads + Wait + AllocGlobal + Sync, A: Heap, T: Texts>(
    rt: &R,
    alloc: A,
    command: &Command,
    texts: &mut T,
    place: Place,
    (room, fault_room): Rooms,
) -> (Done, Option<Server<A>>) {
    let mut host = place;
    let mut out = FailingWriter::new(rt.alloc(), room);
    let mut err = FailingWriter::new(rt.alloc(), fault_room);
    let Outcome { status, server } = run_command(
        rt, alloc, command, texts, &mut host, &mut out, &mut err,
    );
    let serves = server.is_some();
    let done = Done {
        status,
        serves,
        out,
        err,
    };
    (done, server)
}

/// The same where no server can listen.
pub fn perform<R: Threads + Wait + AllocGlobal + Sync, A: Heap, T: Texts>(
    rt: &R,
    alloc: A,
    command: &Command,
    texts: &mut T,
    rooms: Rooms,
) -> Done {
    let (done, _server) = start(rt, alloc, command, texts, NOWHERE, rooms);
    done
}
