//! A client of the resolver, who judges each reply.
use crate::nameservers::{address, write_frame};
use dname::Name;
use events::Endpoint;
use rdata::{Addr, RType};
use sockets::read_framed;
use std::alloc::Global;
use std::io::Write;
use std::net::{Net, Shutdown, TcpListener, TcpStream, UdpSocket};
use std::sync::atomic::{AtomicU64, Ordering};
use std::thread;
use std::time::{Clock, Duration};
use worlds::{World, judge};

// A question of the world, and the query for it: under ID 5, with RD set.
#[derive(Clone, Copy)]
struct Question {
    name: &'static str,
    kind: RType,
    query: &'static [u8],
}

const WWW: Question = Question {
    name: "www.lab.example.",
    kind: RType::A,
    query: b"\0\x05\x01\0\0\x01\0\0\0\0\0\0\x03www\x03lab\x07example\0\0\x01\0\x01",
};

const APP: Question = Question {
    name: "app.example.",
    kind: RType::A,
    query: b"\0\x05\x01\0\0\x01\0\0\0\0\0\0\x03app\x07example\0\0\x01\0\x01",
};

// The resolver's own.
const DB: Question = Question {
    name: "db.corp.example.",
    kind: RType::A,
    query: b"\0\x05\x01\0\0\x01\0\0\0\0\0\0\x02db\x04corp\x07example\0\0\x01\0\x01",
};

// Its answer is too long for a datagram.
const LONG: Question = Question {
    name: "long.lab.example.",
    kind: RType::Txt,
    query: b"\0\x05\x01\0\0\x01\0\0\0\0\0\0\x04long\x03lab\x07example\0\0\x10\0\x01",
};

// Frames without a reply: fewer bytes than a header has, and a message that is itself a reply.
const SHORT: &[u8] = b"\0\x05";

const REPLY: &[u8] = b"\0\x05\x80\0\0\0\0\0\0\0\0\0";

// How many ports ask at once, and what each of them asks.
const PORTS: usize = 200;

fn question_at(place: usize) -> Question {
    match place % 3 {
        0 => WWW,
        1 => APP,
        _ => DB,
    }
}

// Any port of this host that is free.
pub const ANYWHERE: Endpoint = Endpoint {
    address: Addr([127, 0, 0, 1]),
    port: 0,
};

// How long a client waits for a reply.
fn patience() -> Duration {
    Duration::from_millis(8_000)
}

// By when the resolver has taken a stream that was opened.
const ACCEPT_MS: u64 = 300;

// A client that asks at one address.
#[derive(Drop)]
pub struct Client<'a, R> {
    pub rt: &'a R,
    pub alloc: Global,
    pub world: &'a World,
    pub at: Endpoint,
}

impl<R: Net<Listener = TcpListener, Stream = TcpStream> + Clock> Client<'_, R> {
    // Asks all that a test is to see: how many questions had reached the servers before those that need none of them, or
    // what was not answered right.
    pub fn visit(&self, asked: &AtomicU64) -> Result<u64, &'static str> {
        self.asks(WWW).ok_or("a datagram")?;
        self.asks(WWW).ok_or("a datagram once more")?;
        self.asks_on_one(WWW).ok_or("a frame")?;
        self.asks(APP).ok_or("an alias")?;
        self.asks_from_many().ok_or("many datagrams at once")?;
        let asked = asked.load(Ordering::SeqCst);
        self.asks_beside_silence().ok_or("beside a silent stream")?;
        self.asks_at_once().ok_or("two frames at once")?;
        self.asks_after(&[0], true).ok_or("after one byte")?;
        self.asks_after(&[255, 255, 1, 2, 3, 4, 5, 6, 7, 8, 9, 10], false)
            .ok_or("after ten bytes of many")?;
        self.sees_end_after(SHORT).ok_or("after a short frame")?;
        self.sees_end_after(REPLY).ok_or("after a reply")?;
        self.asks_for_long().ok_or("a long reply")?;
        Ok(asked)
    }

    // Whether a reply came that is right in the world.
    fn is_right(&self, question: Question, reply: &[u8]) -> Option<()> {
        let name = Name::from_text(self.alloc, question.name).ok()?;
        match judge(self.world, &name, question.kind, reply) {
            Ok(true) => Some(()),
            _ => None,
        }
    }

    // Asks in a datagram.
    fn asks(&self, question: Question) -> Option<()> {
        let socket = self.sends(question)?;
        self.hears(&socket, question)
    }

    // Sends a question in a datagram, from a port of its own.
    fn sends(&self, question: Question) -> Option<UdpSocket> {
        let socket = UdpSocket::bind(self.rt, address(ANYWHERE)).ok()?;
        socket.set_read_timeout(Some(patience())).ok()?;
        socket.send_to(question.query, address(self.at)).ok()?;
        Some(socket)
    }

    // Takes the reply to what was sent from this port.
    fn hears(&self, socket: &UdpSocket, question: Question) -> Option<()> {
        let mut buffer = [0u8; 512];
        let (count, _) = socket.recv_from(&mut buffer).ok()?;
        self.is_right(question, &buffer[..count])
    }

    // Asks from each of many ports before a reply is read: each port has its own.
    fn asks_from_many(&self) -> Option<()> {
        let mut sockets = Vec::new(self.alloc);
        for place in 0..PORTS {
            sockets.push(self.sends(question_at(place))?).ok()?;
        }
        for (place, socket) in sockets.iter().enumerate() {
            self.hears(socket, question_at(place))?;
        }
        Some(())
    }

    fn open(&self) -> Option<TcpStream> {
        let stream = TcpStream::connect_timeout(self.rt, &address(self.at), patience()).ok()?;
        stream.set_read_timeout(Some(patience())).ok()?;
        Some(stream)
    }

    // The next frame of a stream.
    fn next_of(&self, stream: &TcpStream) -> Option<Vec<u8>> {
        let mut reader = stream;
        read_framed(self.alloc, &mut reader).ok()?
    }

    // Asks in a frame of a stream.
    fn asks_on(&self, stream: &TcpStream, question: Question) -> Option<()> {
        write_frame(stream, question.query)?;
        self.is_right(question, &self.next_of(stream)?)
    }

    // Asks on a stream of its own.
    fn asks_on_one(&self, question: Question) -> Option<()> {
        let stream = self.open()?;
        self.asks_on(&stream, question)
    }

    // Opens a stream and is silent on it, while another client asks and is answered; then asks on the stream. Before the
    // other client asks the resolver has the time to take the stream.
    fn asks_beside_silence(&self) -> Option<()> {
        let stream = self.open()?;
        thread::sleep(self.rt, Duration::from_millis(ACCEPT_MS));
        self.asks(DB)?;
        self.asks_on(&stream, DB)
    }

    // Asks in a second frame before the first is answered.
    fn asks_at_once(&self) -> Option<()> {
        let stream = self.open()?;
        write_frame(&stream, WWW.query)?;
        write_frame(&stream, DB.query)?;
        self.is_right(WWW, &self.next_of(&stream)?)?;
        self.is_right(DB, &self.next_of(&stream)?)
    }

    // Asks behind a stream on which these bytes were sent, and which closes or stays open.
    fn asks_after(&self, bytes: &[u8], closes: bool) -> Option<()> {
        let broken = self.open()?;
        let mut writer = &broken;
        writer.write_all(bytes).ok()?;
        if closes {
            broken.shutdown(Shutdown::Both).ok()?;
        }
        self.asks_on_one(DB)
    }

    // Sends a frame that has no reply; the resolver ends the stream before the client's patience is over.
    fn sees_end_after(&self, frame: &[u8]) -> Option<()> {
        let stream = self.open()?;
        write_frame(&stream, frame)?;
        let mut reader = &stream;
        match read_framed(self.alloc, &mut reader) {
            Ok(None) => Some(()),
            _ => None,
        }
    }

    // Asks for what no datagram holds, so that the resolver has to ask over TCP.
    fn asks_for_long(&self) -> Option<()> {
        let stream = self.open()?;
        write_frame(&stream, LONG.query)?;
        let reply = self.next_of(&stream)?;
        if reply.len() <= 512 {
            return None;
        }
        self.is_right(LONG, &reply)
    }
}
