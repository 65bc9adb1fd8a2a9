//! The asks in datagrams that are open, each with a socket of its own at a port that the system picks.
ghost use Rattle.std.specs.Prelude.{◌≡◌, ◌≤◌, IfSome, length, take};
ghost use Rattle.counters.specs.declared.outcome.Outcome.TheVariants.{AskFailed};
ghost use Rattle.counters.specs.declared.labels.Way.TheVariants as way;
ghost use Rattle.dispatch.specs.Repeats.{Repeats};
ghost use Rattle.server.specs.Sockets.{most_for};

use crate::ends::{address_of, is_early};
use crate::poller::Poller;
use counters::{AskFault, Outcome, Way};
use dispatch::repeats;
use events::{Bytes, Endpoint};
use libc::net as c;
use libc::types::rlimit;
use mio::Interest;
use os::FromRawFd;
use slab::Slab;
use std::alloc::Global;
use std::io;
use std::io::ErrorKind;
use std::net::{Net, UdpSocket};
use std::os::fd::{AsRawFd, OwnedFd, RawFd};
use std::sync::atomic::{AtomicU64, Ordering};
use std::sync::{Mutex, Wait};

// How long a socket is open at most, in milliseconds: longer than any reply in a datagram is waited for.
const SOCKET_MS: u64 = 2_100;

// How many asks are open at most.
const MOST_ASKS: u64 = 1_500;

// How many descriptors are left for everything else, where the process may have so many.
const DESCRIPTORS_FOR_OTHERS: u64 = 400;

// How many datagrams of one socket are looked at in a row.
const DATAGRAMS_IN_A_ROW: u32 = 8;

/// An ask in a datagram.
#[derive(Drop)]
pub(crate) struct OpenAsk {
    socket: UdpSocket,
    /// The socket number that the resolver drew for it.
    pub number: u16,
    /// The server that is asked.
    pub to: Endpoint,
    // When it went out.
    moment: u64,
    bytes: Bytes,
}

/// The asks in datagrams that are open.
pub(crate) struct OpenAsks {
    /// The wait for their sockets.
    pub poller: Poller,
    alloc: Global,
    open: Mutex<Slab<OpenAsk>>,
    most: usize,
    strange: AtomicU64,
    // How many were closed for want of room.
    crowded: AtomicU64,
    // How often a datagram could not be received or read, or its socket not be waited for again.
    unread: AtomicU64,
}

// By hand, so that whatever drops them calls this.
impl Drop for OpenAsks {
    fn drop(self) {
        let OpenAsks {
            poller,
            alloc: _,
            open,
            most: _,
            strange,
            crowded,
            unread,
        } = self;
        drop(poller);
        drop(open);
        drop(strange);
        drop(crowded);
        drop(unread);
    }
}

impl OpenAsks {
    /// With none.
    pub fn new<R: Net>(rt: &R, alloc: Global) -> io::Result<OpenAsks> {
        Ok(OpenAsks {
            poller: Poller::new(rt)?,
            alloc,
            open: Mutex::new(Slab::new(alloc)),
            most: most_open(),
            strange: AtomicU64::new(0),
            crowded: AtomicU64::new(0),
            unread: AtomicU64::new(0),
        })
    }

    /// How many datagrams repeated no ask.
    pub fn strange_datagrams(&self) -> u64 {
        self.strange.load(Ordering::SeqCst)
    }

    /// Asks a server from a socket of its own. Where too many are open the oldest is closed, so that its reply is lost.
    /// What can't be sent is lost too, and it is told how that counts; no ask ever leaves from a port that another one
    /// had.
    pub fn send<R: Wait>(
        &self,
        rt: &R,
        moment: u64,
        number: u16,
        to: Endpoint,
        bytes: &Bytes,
    ) -> Result<(), Outcome> {
        let Some(socket) = self.socket(rt) else {
            return Err(lost_by(AskFault::Descriptors));
        };
        let Ok(bytes) = bytes.copied() else {
            return Err(Outcome::MemoryRefused);
        };
        let sent = socket.connect(address_of(to)).is_ok() && socket.send(bytes.as_slice()).is_ok();
        if !sent {
            return Err(lost_by(AskFault::Refused));
        }
        let ask = OpenAsk {
            socket,
            number,
            to,
            moment,
            bytes,
        };
        self.put(rt, ask, false)
    }

    // A socket, if need be the descriptor of the oldest ask.
    fn socket<R: Wait>(&self, rt: &R) -> Option<UdpSocket> {
        if let Some(socket) = datagram_socket() {
            return Some(socket);
        }
        self.close_oldest(&mut self.open.lock(rt));
        datagram_socket()
    }

    // Waits for the replies to an ask from now on, or, where it was taken out, again. One that can't be waited for is
    // lost, and it is told how that counts.
    fn put<R: Wait>(&self, rt: &R, ask: OpenAsk, again: bool) -> Result<(), Outcome> {
        self.put_in(&mut self.open.lock(rt), ask, again)
    }

    // The same, among the open ones.
    fn put_in(&self, open: &mut Slab<OpenAsk>, ask: OpenAsk, again: bool) -> Result<(), Outcome> {
        if open.len() >= self.most {
            self.close_oldest(open);
        }
        let socket = ask.socket.as_raw_fd();
        match open.insert(ask) {
            Ok(key) if self.watch(open, key, socket, again) => Ok(()),
            Ok(_) => Err(lost_by(AskFault::Refused)),
            Err(_) => Err(Outcome::MemoryRefused),
        }
    }

    // Waits for the socket of the ask of this key; whether it can. One that can't be waited for is closed.
    fn watch(&self, open: &mut Slab<OpenAsk>, key: usize, socket: RawFd, again: bool) -> bool {
        let watched = if again {
            self.poller.watch_again(socket, key, Interest::READABLE)
        } else {
            self.poller.watch(socket, key, Interest::READABLE)
        };
        if !watched {
            open.try_remove(key);
        }
        watched
    }

    /// The ask of this key, where what repeats it has come: how many bytes that has, at the front of the buffer. Its
    /// socket is closed with it. What repeats it not is counted, and the ask stays open.
    pub fn take<R: Wait>(&self, rt: &R, key: usize, buffer: &mut [u8]) -> Option<(usize, OpenAsk)>
        ensures within { IfSome result (λ d. d.0 ≤ length buffer.new) }
        ensures repeats { IfSome result (λ d. Repeats d.1.bytes (take d.0 buffer.new)) }
    {
        let ask = self.open.lock(rt).try_remove(key)?;
        match self.reply_to(&ask, buffer) {
            Some(count) => Some((count, ask)),
            None => {
                if self.put(rt, ask, true).is_err() {
                    self.unread.fetch_add(1, Ordering::SeqCst);
                }
                None
            }
        }
    }

    // How many bytes the datagram has that repeats an ask, where one has come. One that can't be read for want of
    // memory is lost. That nobody listens at the server's port is no reply, since anyone can say so.
    fn reply_to(&self, ask: &OpenAsk, buffer: &mut [u8]) -> Option<usize>
        ensures within { IfSome result (λ n. n ≤ length buffer.new) }
        ensures repeats { IfSome result (λ n. Repeats ask.now.bytes (take n buffer.new)) }
    {
        for _ in 0..DATAGRAMS_IN_A_ROW {
            match ask.socket.recv(buffer) {
                Ok(count) => match repeats(self.alloc, ask.bytes.as_slice(), &buffer[..count]) {
                    Ok(true) => return Some(count),
                    Ok(false) => {
                        self.strange.fetch_add(1, Ordering::SeqCst);
                    }
                    Err(_) => {
                        self.unread.fetch_add(1, Ordering::SeqCst);
                    }
                },
                Err(error) if is_early(&error) => return None,
                Err(error) if is_unreachable(&error) => {}
                Err(_) => {
                    self.unread.fetch_add(1, Ordering::SeqCst);
                }
            }
        }
        None
    }

    /// Closes the sockets of asks whose time is over, and says how many.
    pub fn close_old<R: Wait>(&self, rt: &R, now: u64) -> u64 {
        let mut open = self.open.lock(rt);
        let before = open.len();
        open.retain(|_, ask| now.saturating_sub(ask.moment) < SOCKET_MS);
        before.saturating_sub(open.len()) as u64
    }

    // Closes the socket of the ask that went out first.
    fn close_oldest(&self, open: &mut Slab<OpenAsk>) {
        if let Some(key) = oldest(open)
            && open.try_remove(key).is_some()
        {
            self.crowded.fetch_add(1, Ordering::SeqCst);
        }
    }

    /// How often a datagram of a server could not be received or read.
    pub fn unread_datagrams(&self) -> u64 {
        self.unread.load(Ordering::SeqCst)
    }

    /// How many asks were closed for want of room.
    pub fn crowded_asks(&self) -> u64 {
        self.crowded.load(Ordering::SeqCst)
    }
}

// How an ask counts that is lost so.
fn lost_by(fault: AskFault) -> Outcome
    ensures { result ≡ AskFailed way.Udp fault }
{
    Outcome::AskFailed(Way::Udp, fault)
}

// Whether an error is what an ICMP message said of the server, and no fault of the socket (udp(7)).
fn is_unreachable(error: &io::Error) -> bool {
    matches!(
        error.kind(),
        ErrorKind::ConnectionRefused | ErrorKind::HostUnreachable | ErrorKind::NetworkUnreachable
    )
}

// A socket for datagrams, not bound, which does not block. None where there is no descriptor.
fn datagram_socket() -> Option<UdpSocket> {
    let kind = c::SOCK_DGRAM | c::SOCK_CLOEXEC | c::SOCK_NONBLOCK;
    let socket = unsafe { c::socket(c::AF_INET, kind, 0) };
    if socket < 0 {
        return None;
    }
    Some(UdpSocket::from(unsafe { OwnedFd::from_raw_fd(socket) }))
}

// The ask that went out first.
fn oldest(open: &Slab<OpenAsk>) -> Option<usize> {
    let mut oldest: Option<(usize, u64)> = None;
    for (key, ask) in open.iter() {
        if oldest.is_none_or(|(_, moment)| ask.moment < moment) {
            oldest = Some((key, ask.moment));
        }
    }
    oldest.map(|(key, _)| key)
}

// How many asks may be open.
fn most_open() -> usize {
    let mut limit = rlimit {
        rlim_cur: 0,
        rlim_max: 0,
    };
    if libc::getrlimit(libc::RLIMIT_NOFILE, &mut limit) != 0 {
        return MOST_ASKS as usize;
    }
    most_for(limit.rlim_cur)
}

// How many, where the process may have so many descriptors: as many as leave some for everything else, or half of a
// few.
fn most_for(descriptors: u64) -> usize
    ensures { result ≡ most_for descriptors }
{
    let most = descriptors
        .saturating_sub(DESCRIPTORS_FOR_OTHERS)
        .max(descriptors / 2);
    most.min(MOST_ASKS) as usize
}
