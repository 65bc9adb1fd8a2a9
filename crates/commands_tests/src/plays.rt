//! Worlds in memory, and scripts that are played in them.

use crate::done::{Done, ROOMY, perform};
use commandline::Command;
use commands::Texts;
use memory::{Heap, Starved};
use std::alloc::AllocError;
use std::sync::Wait;
use std::thread::Threads;

/// The texts of a world and of a script, at the paths WORLD and SCRIPT.
#[derive(Clone, Copy)]
pub struct Held<'a> {
    pub world: &'a str,
    pub script: &'a str,
}

impl Texts for Held<'_> {
    fn text<A: Heap>(&mut self, alloc: A, path: &str) -> Result<Option<String<A>>, Starved> {
        match path {
            "WORLD" => Ok(Some(String::from_str(alloc, self.world)?)),
            "SCRIPT" => Ok(Some(String::from_str(alloc, self.script)?)),
            _ => Ok(None),
        }
    }

    fn reason<A: Heap>(&mut self, alloc: A, _path: &str) -> Result<String<A>, Starved> {
        Ok(String::from_str(alloc, "no such file")?)
    }
}

// What comes of `play WORLD SCRIPT`, in this memory.
pub fn play<R: Threads + Wait + AllocGlobal + Sync, A: Heap>(
    rt: &R,
    alloc: A,
    held: Held<'_>,
) -> Result<Done, AllocError> {
    let command = Command::Play {
        world: String::from_str(rt.alloc(), "WORLD")?,
        script: String::from_str(rt.alloc(), "SCRIPT")?,
    };
    let mut source = held;
    Ok(perform(rt, alloc, &command, &mut source, ROOMY))
}

// A root, example. beneath it, lab.example. beneath that, dark.example. whose server has no address there, and the local
// corp.example.
pub const SMALL: &str =
    "zone .\n. 3600 IN SOA r. h. 1 2 3 4 60\n. 3600 IN NS ns.\nns. 3600 IN A 198.51.100.1\nexample. 3600 IN NS ns.example.\nns.example. 3600 IN A 198.51.100.2\nend\nzone example.\n$TTL 3600\n@ SOA ns h 1 2 3 4 60\n@ NS ns\nns A 198.51.100.2\nold 5 CNAME www.lab\napp CNAME db.corp\nlab NS ns.lab\nns.lab A 198.51.100.3\ndark NS ns.dark\nend\nzone lab.example.\n$TTL 300\n@ SOA ns h 1 2 3 4 60\n@ NS ns\nns A 198.51.100.3\nwww A 192.0.2.1\nend\nzone dark.example.\n$TTL 300\n@ SOA ns h 1 2 3 4 60\n@ NS ns\nns A 198.51.100.4\nwww A 192.0.2.4\nend\nlocal corp.example.\n$TTL 300\n@ SOA ns h 1 2 3 4 60\n@ NS ns\ndb A 10.0.0.5\nend\nhost 198.51.100.1 .\nhost 198.51.100.2 example.\nhost 198.51.100.3 lab.example.\nhost 198.51.100.4 dark.example.\nhint 198.51.100.1\n";

// What a chain of servers said is kept.
pub const KEPT: &str =
    "at 1000\nask www.lab.example. A\nrun\nat 300999\nask www.lab.example. A\nat 301000\nask www.lab.example. A\n";

// An NXDOMAIN is kept.
pub const DENIED: &str =
    "at 0\nask gone.example. A\nrun\nat 59999\nask gone.example. TXT\nat 60000\nask gone.example. TXT\n";

// An alias leads into a local zone.
pub const ALIAS: &str = "at 0\nask app.example. A\nrun\n";

// An alias that ran out is asked again.
pub const RUN_OUT: &str =
    "at 0\nask old.example. CNAME\nrun\nat 4000\nask old.example. A\nat 7000\nrun\n";

// A cut without addresses has no server.
pub const DARK: &str = "at 0\nask www.dark.example. A\nrun\n";

// A silent server is asked twice.
pub const SILENT: &str =
    "at 0\nask www.lab.example. A\nat 999\ntick\nat 1000\ntick\nat 2999\ntick\nat 3000\ntick\n";

// A truncated reply is asked for over TCP.
pub const TRUNCATED: &str = "at 0\nask ns.example. A\ncut 1\nrun\n";

// The same with out.example., whose server is named in lab.example., and sub.corp.example. beneath the local zone.
pub const NESTED: &str =
    "zone .\n. 3600 IN SOA r. h. 1 2 3 4 60\n. 3600 IN NS ns.\nns. 3600 IN A 198.51.100.1\nexample. 3600 IN NS ns.example.\nns.example. 3600 IN A 198.51.100.2\nend\nzone example.\n$TTL 3600\n@ SOA ns h 1 2 3 4 60\n@ NS ns\nns A 198.51.100.2\nold 5 CNAME www.lab\napp CNAME db.corp\nlab NS ns.lab\nns.lab A 198.51.100.3\ndark NS ns.dark\nout NS srv.lab\nend\nzone lab.example.\n$TTL 300\n@ SOA ns h 1 2 3 4 60\n@ NS ns\nns A 198.51.100.3\nwww A 192.0.2.1\nsrv A 198.51.100.5\nend\nzone dark.example.\n$TTL 300\n@ SOA ns h 1 2 3 4 60\n@ NS ns\nns A 198.51.100.4\nwww A 192.0.2.4\nend\nlocal corp.example.\n$TTL 300\n@ SOA ns h 1 2 3 4 60\n@ NS ns\ndb A 10.0.0.5\nsub NS ns.sub\nns.sub A 198.51.100.8\nend\nzone out.example.\n$TTL 300\n@ SOA ns h 1 2 3 4 60\n@ NS srv.lab.example.\nwww A 192.0.2.5\nend\nzone sub.corp.example.\n$TTL 300\n@ SOA ns h 1 2 3 4 60\n@ NS ns\nns A 198.51.100.8\nwww A 192.0.2.8\nend\nhost 198.51.100.1 .\nhost 198.51.100.2 example.\nhost 198.51.100.3 lab.example.\nhost 198.51.100.4 dark.example.\nhost 198.51.100.5 out.example.\nhost 198.51.100.8 sub.corp.example.\nhint 198.51.100.1\n";

// The address of a server is looked up.
pub const LOOKED_UP: &str = "at 0\nask www.out.example. A\nrun\nask www.sub.corp.example. A\nrun\n";

// Clients may send anything: bytes under a header's length, the number of client 2, a message that is none, and queries
// of no or a strange type.
pub const STRANGE: &str =
    "raw 0001\nraw 000701000000000000000000\nraw 0005010000010000000000000000ff0001 tcp\nask www.corp.example. A norec\nask www.lab.example. A norec\nask db.corp.example. A tcp norec\nask db.corp.example. A";

// A root, and the local e. with nine aliases and one that leads to itself.
pub const ALIASES: &str =
    "zone .\n. 3600 IN SOA r. h. 1 2 3 4 60\n. 3600 IN NS ns.\nns. 3600 IN A 198.51.100.1\nend\nlocal e.\n$TTL 60\n@ SOA ns h 1 2 3 4 5\n@ NS ns\nc0 CNAME c1\nc1 CNAME c2\nc2 CNAME c3\nc3 CNAME c4\nc4 CNAME c5\nc5 CNAME c6\nc6 CNAME c7\nc7 CNAME c8\nc8 CNAME c9\nc9 A 192.0.2.1\nl CNAME l\nend\nhost 198.51.100.1 .\nhint 198.51.100.1\n";

// A recursive query follows eight aliases, and neither nine nor those that never end.
pub const FOLLOWED: &str = "at 0\nask c1.e. A\nask c0.e. A\nask l.e. A\n";
