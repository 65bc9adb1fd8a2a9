//! The start of a server, from texts in memory and without sockets.
use crate::done::{Done, Ending, ROOMY, start};
use crate::place::Place;
use commandline::Command;
use commands::{Server, Texts};
use engine_fixture::{Out, TestResolver};
use memory::{Heap, Starved};
use std::alloc::{AllocError, Global};
use std::sync::Wait;
use std::test::Fail;
use std::thread::Threads;

static CORP: &str = "$TTL 300\n@ SOA ns h 1 2 3 4 60\n@ NS ns\ndb A 10.0.0.5\n";

// A server's file, and beside it one zone.
#[derive(Clone, Copy)]
struct Folder(&'static str);

impl Texts for Folder {
    fn text<A: Heap>(&mut self, alloc: A, path: &str) -> Result<Option<String<A>>, Starved> {
        match path {
            "conf" => Ok(Some(String::from_str(alloc, self.0)?)),
            "corp.zone" => Ok(Some(String::from_str(alloc, CORP)?)),
            _ => Ok(None),
        }
    }

    fn reason<A: Heap>(&mut self, alloc: A, _path: &str) -> Result<String<A>, Starved> {
        Ok(String::from_str(alloc, "no such file")?)
    }
}

// The command that reads the file.
#[derive(Clone, Copy)]
enum Word {
    Serve,
    CheckConfig,
}

impl Word {
    fn command(self, alloc: Global) -> Result<Command, AllocError> {
        let config = String::from_str(alloc, "conf")?;
        Ok(match self {
            Word::Serve => Command::Serve { config },
            Word::CheckConfig => Command::CheckConfig { config },
        })
    }
}

// What comes of a command on a server's file there, and the server.
fn begin<R: Threads + Wait + AllocGlobal + Sync>(
    rt: &R,
    (word, text, place): (Word, &'static str, Place),
) -> Result<(Done, Option<Server>), AllocError> {
    let command = word.command(rt.alloc())?;
    let mut source = Folder(text);
    Ok(start(rt, rt.alloc(), &command, &mut source, place, ROOMY))
}

const FREE: Place = Place {
    port: Ok(Some(4242)),
    seed: Some([7; 32]),
};

const WITHOUT_MEMORY: Place = Place {
    port: Err(Starved),
    seed: Some([7; 32]),
};

const WITHOUT_SEED: Place = Place {
    port: Ok(Some(4242)),
    seed: None,
};

// ID 4660, one question: db.corp.example. A IN (RFC 1035, section 4.1).
const QUERY: &[u8] = b"\x124\0\0\0\x01\0\0\0\0\0\0\x02db\x04corp\x07example\0\0\x01\0\x01";

// The answer of the zone: the question's name by a pointer, TTL 300, 10.0.0.5.
const REPLY: &[u8] =
    b"\x124\x84\x80\0\x01\0\x01\0\0\0\0\x02db\x04corp\x07example\0\0\x01\0\x01\xc0\x0c\0\x01\0\x01\0\0\x01\x2c\0\x04\x0a\0\0\x05";

// Whether the first client is replied to so.
fn replies(resolver: &mut TestResolver<Global>) -> Result<bool, Starved> {
    let query = resolver.query(1, 0, QUERY)?;
    Ok(resolver.step(&query) == Out::Replied && resolver.has_sent(1, REPLY))
}

// Whether the server's resolver replies so.
fn serves_so(alloc: Global, server: Server) -> Result<bool, Starved> {
    let mut resolver = TestResolver::of(alloc, server.into_core());
    replies(&mut resolver)
}

// Whether a server that listens there replies so.
fn is_served<R: Threads + Wait + AllocGlobal + Sync>(rt: &R) -> Result<bool, Starved> {
    let text = "listen 127.0.0.1 0\nlocal corp.example. corp.zone\n";
    let (done, server) = begin(rt, (Word::Serve, text, FREE))?;
    match server {
        Some(server) if done.is((0, "listening 127.0.0.1 4242\n", "")) => {
            serves_so(rt.alloc(), server)
        }
        _ => Ok(false),
    }
}

#[test]
fn a_server_says_where_it_listens_and_answers(rt: HostRuntime) -> Result<(), Fail> {
    assert_eq!(rt; (QUERY.len(), REPLY.len()), (33, 49));
    assert!(rt; is_served(&rt)?);
    Ok(())
}

// A command on a server's file in a place, how it ends, and whether there is a server then.
type Start = (Word, &'static str, Place, Ending<'static>, bool);

const HERE: &str = "listen 127.0.0.1 0\n";

const SEEDED: &str =
    "listen 127.0.0.1 0\nseed 0707070707070707070707070707070707070707070707070707070707070707\n";

// Memory and random bytes may be wanting, and these are not needed where the file has them.
const STARTS: &[Start] = &[
    (
        Word::Serve,
        HERE,
        WITHOUT_MEMORY,
        (3, "", "error: memory\n"),
        false,
    ),
    (
        Word::Serve,
        HERE,
        WITHOUT_SEED,
        (4, "", "error: /dev/urandom: unreadable\n"),
        false,
    ),
    (
        Word::Serve,
        SEEDED,
        WITHOUT_SEED,
        (0, "listening 127.0.0.1 4242\n", ""),
        true,
    ),
    (
        Word::CheckConfig,
        HERE,
        WITHOUT_MEMORY,
        (3, "", "error: memory\n"),
        false,
    ),
    (
        Word::CheckConfig,
        HERE,
        WITHOUT_SEED,
        (
            4,
            "/dev/urandom: no random bytes can be read there, and the file states no seed\n",
            "error: /dev/urandom: unreadable\n",
        ),
        false,
    ),
];

fn goes<R: Threads + Wait + AllocGlobal + Sync>(
    rt: &R,
    (word, text, place, ending, serves): Start,
) -> Result<bool, AllocError> {
    let (done, _server) = begin(rt, (word, text, place))?;
    Ok(done.is(ending) && done.serves == serves)
}

// The place of the first of these that goes otherwise.
fn first_wrong<R: Threads + Wait + AllocGlobal + Sync>(
    rt: &R,
    starts: &[Start],
) -> Result<Option<usize>, AllocError> {
    for (place, start) in starts.iter().enumerate() {
        if !goes(rt, *start)? {
            return Ok(Some(place));
        }
    }
    Ok(None)
}

#[test]
fn a_start_or_its_check_says_what_is_wanting(rt: HostRuntime) -> Result<(), Fail> {
    assert_eq!(rt; first_wrong(&rt, STARTS)?, None);
    Ok(())
}
