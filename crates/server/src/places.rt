//! The places of clients' streams.
ghost use Rattle.std.specs.Prelude.{◌≡◌, ◌<◌, ◌^◌, length};
ghost use Rattle.server.specs.Endings.{yielder_by, room_by};
ghost use Rattle.server.specs.Failures.{stream_outcome};

use crate::client_stream::ClientStream;
use crate::ends::{Ends, accept_fault, endpoint_of};
use crate::framed_stream::{FramedStream, StreamFault};
use counters::{Outcome, SocketFault};
use dispatch::{place_of, stream_number};
use events::Endpoint;
use mio::Interest;
use mio::net::TcpStream;
use rdata::Addr;
use slab::Slab;
use std::alloc::Global;
use std::io::ErrorKind;

// How many streams are taken in a row.
const STREAMS_IN_A_ROW: u32 = 64;

// One address has the places over this number, but one at least.
const SHARES: u16 = 4;

// For how long a stream is left its place whatever its address has, in milliseconds: a question that came with it is read
// and answered from the cache meanwhile.
const GRACE_MS: u64 = 5;

/// The streams of clients that are open, and one that has come and has no place yet.
#[derive(Drop)]
pub(crate) struct Places {
    alloc: Global,
    open: Slab<ClientStream>,
    most: u16,
    // How many streams had a place.
    serial: u64,
    waiting: Option<(TcpStream, Endpoint)>,
}

// What comes of a stream that is to have a place.
#[derive(Clone, Copy)]
enum Room {
    Free,
    // All places are taken, and none of their streams has to give way.
    Taken,
    // Its address has as many as it may, and another's stream could have a place.
    TooMany,
}

// Whose stream gives way to one that is to have a place.
#[derive(Clone, Copy)]
enum Yielder {
    // There is a place.
    Nobody,
    // All places are taken.
    Anyone,
    // Its address has its share.
    ItsOwn,
}

// Whose stream gives way to one of an address that has so many, where so many of the places are taken.
fn yielder_by(has: usize, taken: usize, places: u16) -> Yielder
    ensures { result ≡ yielder_by has taken places }
{
    let share = usize::from((places / SHARES).max(1));
    if has >= share {
        Yielder::ItsOwn
    } else if taken < usize::from(places) {
        Yielder::Nobody
    } else {
        Yielder::Anyone
    }
}

// What comes of a stream to which none gave way, by whether all places are taken and anyone's stream would.
fn room_by(is_full: bool, one_yields: bool) -> Room
    ensures { result ≡ room_by is_full one_yields }
{
    if is_full && !one_yields {
        Room::Taken
    } else {
        Room::TooMany
    }
}

impl Places {
    /// With none taken, of so many.
    pub fn new(alloc: Global, most: u16) -> Places {
        Places {
            alloc,
            open: Slab::new(alloc),
            most,
            serial: 0,
            waiting: None,
        }
    }

    /// Whether no place is taken.
    pub fn is_empty(&self) -> bool {
        self.open.is_empty()
    }

    /// How many keys there are to look at.
    pub fn keys(&self) -> usize {
        self.open.capacity()
    }

    /// The stream at this key.
    pub fn get_mut(&mut self, key: usize) -> Option<&mut ClientStream> {
        self.open.get_mut(key)
    }

    /// Puts a reply on the stream of this number, if that is still open.
    pub fn reply(&mut self, number: u64, now: u64, bytes: &[u8])
        requires { length bytes.now < 2 ^ 16 }
    {
        if let Some(client) = self.open.get_mut(usize::from(place_of(number)))
            && client.number == number
        {
            client.reply(now, bytes);
        }
    }

    /// A question of the stream of this number has no reply: the stream is to end, if it is still open.
    pub fn close(&mut self, number: u64) {
        if let Some(client) = self.open.get_mut(usize::from(place_of(number)))
            && client.number == number
        {
            client.close();
        }
    }

    /// Ends what is over, and counts what failed.
    pub fn end_over(&mut self, ends: &Ends, now: u64) {
        for (_, client) in self.open.iter() {
            if let Some(fault) = client.fault() {
                ends.count(outcome_of(fault));
            }
        }
        self.open.retain(|_, client| !client.is_over(now));
    }

    /// Takes the streams that wait at the listener; whether one still waits.
    pub fn welcome(&mut self, ends: &Ends, now: u64) -> bool {
        for _ in 0..STREAMS_IN_A_ROW {
            let (stream, from) = match self.waiting.take() {
                Some(waiting) => waiting,
                None => match ends.listener.accept() {
                    Ok((stream, from)) => match endpoint_of(from) {
                        Some(from) => (stream, from),
                        None => continue,
                    },
                    Err(error) if error.kind() == ErrorKind::WouldBlock => return false,
                    Err(error) => {
                        ends.count(Outcome::SocketFailed(accept_fault(&error)));
                        return true;
                    }
                },
            };
            match self.room_for(from.address, now) {
                Room::Free => self.admit(ends, stream, from.address, now),
                Room::TooMany => drop(stream),
                Room::Taken => {
                    self.waiting = Some((stream, from));
                    return true;
                }
            }
        }
        true
    }

    // How many streams this address has.
    fn count_of(&self, address: Addr) -> usize {
        self.open
            .iter()
            .filter(|(_, client)| client.address == address)
            .count()
    }

    // Whether there is a place for a stream of this address. If need be the stream gives way that has been silent
    // longest, of this address where that has its share. To an address that has none gives way one of those that have
    // the most, two at least, as soon as it is silent.
    fn room_for(&mut self, address: Addr, now: u64) -> Room {
        let has = self.count_of(address);
        let whose = match yielder_by(has, self.open.len(), self.most) {
            Yielder::Nobody => return Room::Free,
            Yielder::Anyone => None,
            Yielder::ItsOwn => Some(address),
        };
        let yielding = match self.most_silent(whose, now) {
            None if has == 0 => self.most_silent_of_most(now),
            found => found,
        };
        match yielding {
            Some(key) => {
                self.open.try_remove(key);
                Room::Free
            }
            None => {
                let is_full = self.open.len() >= usize::from(self.most);
                room_by(is_full, is_full && self.most_silent(None, now).is_some())
            }
        }
    }

    // Of the streams that yield, of this address if one is given, the one that has been silent longest.
    fn most_silent(&self, whose: Option<Addr>, now: u64) -> Option<usize> {
        let mut found: Option<(usize, u64)> = None;
        for (key, client) in self.open.iter() {
            let silence = client.silence(now);
            let counts = whose.is_none_or(|address| client.address == address);
            let longest = found.is_none_or(|(_, other)| silence > other);
            if counts && longest && client.yields(now, self.most) {
                found = Some((key, silence));
            }
        }
        found.map(|(key, _)| key)
    }

    // Of the streams whose address has the most, two at least, and that are silent for a while, the one that has been
    // silent longest.
    fn most_silent_of_most(&self, now: u64) -> Option<usize> {
        let mut found: Option<(usize, usize, u64)> = None;
        for (key, client) in self.open.iter() {
            let (count, silence) = (self.count_of(client.address), client.silence(now));
            let is_next = found.is_none_or(|(_, most, longest)| count > most
                || (count == most && silence > longest));
            if count > 1 && silence >= GRACE_MS && is_next {
                found = Some((key, count, silence));
            }
        }
        found.map(|(key, _, _)| key)
    }

    // Gives the stream a place.
    fn admit(&mut self, ends: &Ends, stream: TcpStream, address: Addr, now: u64) {
        let key = self.open.vacant_key();
        let Ok(place) = u8::try_from(key) else {
            return;
        };
        self.serial = self.serial.wrapping_add(1);
        let number = stream_number(address, self.serial, place);
        let stream = FramedStream::new(self.alloc, stream);
        let socket = stream.descriptor();
        let client = ClientStream::new(stream, number, address, now);
        if self.open.insert(client).is_err() {
            ends.count(Outcome::MemoryRefused);
            return;
        }
        if !ends
            .streams
            .watch(socket, key, Interest::READABLE | Interest::WRITABLE)
        {
            ends.count(Outcome::SocketFailed(SocketFault::Poll));
            self.open.try_remove(key);
        }
    }
}

// How the fault of a client's stream is counted.
fn outcome_of(fault: StreamFault) -> Outcome
    ensures { result ≡ stream_outcome fault }
{
    match fault {
        StreamFault::Memory => Outcome::MemoryRefused,
        StreamFault::Refused | StreamFault::Silent | StreamFault::Reset => {
            Outcome::SocketFailed(SocketFault::Stream)
        }
    }
}
