//! The sockets of a server.
ghost use Rattle.std.specs.Prelude.{◌≡◌, ◌↔◌, IsTrue, MatchOption};
ghost use Rattle.server.specs.Addresses.{IsAt, IsBoundTo, IsElsewhere, IsWritten};
ghost use Rattle.server.specs.Waits.{IsSlice};

use crate::log::Shown;
use crate::metrics::Scrapes;
use crate::notices::Notices;
use crate::open_asks::OpenAsks;
use crate::poller::Poller;
use crate::tally::Tally;
use counters::{Outcome, SocketFault};
use events::Endpoint;
use libc::net as c;
use mio::net::TcpListener;
use os::FromRawFd;
use rdata::Addr;
use std::alloc::Global;
use std::io::ErrorKind;
use std::net::{Ipv4Addr, Net, SocketAddr, SocketAddrV4, UdpSocket};
use std::os::fd::{AsRawFd, OwnedFd, RawFd};
use std::time::Duration;
use std::{io, net};

/// How long a loop waits at most, in milliseconds: so often the flag is seen.
pub(crate) const SLICE_MS: u64 = 250;

// How many bytes of datagrams the clients' socket holds, of those that nobody took yet and of those that are not sent yet,
// where the system allows it.
const SOCKET_BUFFER_BYTES: u32 = 4_194_304;

// Bytes of an address of any family (socket(7)), and of an IPv4 one (ip(7)).
const ADDRESS_BYTES: usize = 128;

const IPV4_ADDRESS_BYTES: u32 = 16;

/// Bytes of a datagram at most: its length stands in 16 bits (RFC 768).
pub(crate) const MOST_BYTES: usize = 65_535;

/// The key of the listener among clients' streams, which is no place of a stream.
pub(crate) const LISTENER: usize = 1_000_000;

/// How long a loop waits at most.
pub(crate) fn slice() -> Duration
    ensures { IsSlice result }
{
    Duration::from_millis(SLICE_MS)
}

/// The address of an endpoint, as sockets take it.
pub(crate) fn address_of(end: Endpoint) -> SocketAddr
    ensures { IsAt result end }
{
    SocketAddr::V4(SocketAddrV4::new(Ipv4Addr::from_octets(end.address.0), end.port))
}

// An endpoint as the system takes it: the family, the port and the address (ip(7)).
fn bytes_of_address(end: Endpoint) -> [u8; ADDRESS_BYTES]
    ensures { IsWritten result end }
{
    let [family, of_others] = (c::AF_INET as u16).to_ne_bytes();
    let [high, low] = end.port.to_be_bytes();
    let [first, second, third, fourth] = end.address.0;
    let mut bytes = [0u8; ADDRESS_BYTES];
    bytes[0] = family;
    bytes[1] = of_others;
    bytes[2] = high;
    bytes[3] = low;
    bytes[4] = first;
    bytes[5] = second;
    bytes[6] = third;
    bytes[7] = fourth;
    bytes
}

/// Who sent what a socket took. Sockets at IPv4 addresses hear of no other.
pub(crate) fn endpoint_of(address: SocketAddr) -> Option<Endpoint>
    ensures { MatchOption result (IsElsewhere address) (IsAt address) }
{
    match address {
        SocketAddr::V4(address) => Some(Endpoint {
            address: Addr(address.ip().octets()),
            port: address.port(),
        }),
        SocketAddr::V6(_) => None,
    }
}

// Linux's numbers of the errors that the process, or the system, has no descriptor left (errno(3)).
const EMFILE: i32 = 24;

const ENFILE: i32 = 23;

/// Whether an error says that no descriptor is left.
pub(crate) fn lacks_descriptors(error: &io::Error) -> bool {
    matches!(error.raw_os_error(), Some(EMFILE | ENFILE))
}

/// What failed where a stream could not be accepted.
pub(crate) fn accept_fault(error: &io::Error) -> SocketFault {
    if lacks_descriptors(error) {
        SocketFault::Descriptors
    } else {
        SocketFault::Accept
    }
}

/// Whether an error says that nothing came yet, or that a signal came first.
pub(crate) fn is_early(error: &io::Error) -> bool {
    matches!(error.kind(), ErrorKind::WouldBlock | ErrorKind::Interrupted)
}

/// The sockets at which a server meets its clients, and those through which it asks other servers.
pub struct Ends {
    /// Where the datagrams of clients come, to as many loops as take them.
    pub(crate) clients: UdpSocket,
    /// Where the streams of clients come.
    pub(crate) listener: TcpListener,
    /// The streams of clients.
    pub(crate) streams: Poller,
    /// The asks in datagrams that are open.
    pub(crate) asks: OpenAsks,
    /// The streams to other servers.
    pub(crate) servers: Poller,
    /// What is counted, where it is.
    pub(crate) tally: Option<Tally>,
    /// Where the counters are served, where they are.
    pub(crate) scrapes: Option<Scrapes>,
    /// What the file asks to be shown.
    pub(crate) shown: Option<Shown>,
    /// Whom to tell that it runs, where a service manager wants to know.
    pub(crate) notices: Option<Notices>,
}

// By hand, so that whatever drops the sockets calls this.
impl Drop for Ends {
    fn drop(self) {
        let Ends {
            clients,
            listener,
            streams,
            asks,
            servers,
            tally,
            scrapes,
            shown: _,
            notices,
        } = self;
        drop(clients);
        drop(listener);
        drop(streams);
        drop(asks);
        drop(servers);
        drop(tally);
        drop(scrapes);
        drop(notices);
    }
}

impl Ends {
    /// Binds both sockets for clients at `listen`, where port 0 stands for any that is free for both.
    pub fn open<R: Net>(rt: &R, alloc: Global, listen: Endpoint) -> io::Result<Ends> {
        let (clients, listener) = both(rt, listen)?;
        Ends::of(rt, alloc, clients, listener)
    }

    // With these sockets for clients.
    fn of<R: Net>(
        rt: &R,
        alloc: Global,
        clients: UdpSocket,
        listener: TcpListener,
    ) -> io::Result<Ends> {
        match waits(rt, alloc, listener.as_raw_fd()) {
            Ok((streams, asks, servers)) => Ok(Ends {
                clients,
                listener,
                streams,
                asks,
                servers,
                tally: None,
                scrapes: None,
                shown: None,
                notices: None,
            }),
            Err(error) => Err(error),
        }
    }

    /// The same at two sockets that the service manager bound and handed over, as descriptors 3 and 4: one for
    /// datagrams, and one for streams. Refused where they are not bound to `listen`.
    pub fn handed<R: Net>(rt: &R, alloc: Global, listen: Endpoint) -> io::Result<Ends> {
        let clients = UdpSocket::from(unsafe { OwnedFd::from_raw_fd(FIRST_HANDED) });
        let listener = net::TcpListener::from(unsafe { OwnedFd::from_raw_fd(FIRST_HANDED + 1) });
        if !is_bound_to(clients.local_addr()?, listen)
            || !is_bound_to(listener.local_addr()?, listen)
        {
            return Err(io::Error::from(ErrorKind::AddrNotAvailable));
        }
        clients.set_nonblocking(false)?;
        clients.set_read_timeout(Some(slice()))?;
        set_rooms(&clients);
        listener.set_nonblocking(true)?;
        Ends::of(rt, alloc, clients, TcpListener::from_std(listener))
    }

    /// The same, which show what the file asks for: they count where counters are served or logged.
    pub fn showing<R: Net<Listener = net::TcpListener, Stream = net::TcpStream>>(
        self,
        rt: &R,
        alloc: Global,
        shown: Shown,
    ) -> io::Result<Ends> {
        match counting(rt, alloc, &shown) {
            Ok((tally, scrapes)) => {
                let mut ends = self;
                ends.tally = tally;
                ends.scrapes = scrapes;
                ends.shown = Some(shown);
                Ok(ends)
            }
            Err(error) => Err(error),
        }
    }

    /// The same, which tell the service manager at this socket that they are served, and that steps come back.
    pub fn telling(self, path: &str) -> Ends {
        let mut ends = self;
        ends.notices = Notices::to(path);
        ends
    }

    /// Tells the service manager, where one wants to know.
    pub(crate) fn tell(&self, words: &str) {
        if let Some(notices) = &self.notices
            && !notices.tell(words)
        {
            self.count(Outcome::SocketFailed(SocketFault::Send));
        }
    }

    /// Counts an outcome, where it is counted.
    pub(crate) fn count(&self, outcome: Outcome) {
        if let Some(tally) = &self.tally {
            tally.count(outcome);
        }
    }

    /// Sends a client a datagram; whether it could be sent at once. Datagrams for a host of the network that does not
    /// answer stand in the socket for seconds (arp(7)). Where they fill its room another is lost, and no loop waits.
    pub(crate) fn reply(&self, to: Endpoint, bytes: &[u8]) -> bool {
        let sent = unsafe {
            c::sendto(
                self.clients.as_raw_fd(),
                bytes,
                c::MSG_NOSIGNAL | c::MSG_DONTWAIT,
                &bytes_of_address(to),
                IPV4_ADDRESS_BYTES,
            )
        };
        sent >= 0
    }

    /// Where clients are served.
    pub fn listen(&self) -> io::Result<Endpoint> {
        endpoint_of(self.clients.local_addr()?).ok_or(io::Error::from(ErrorKind::Unsupported))
    }
}

// What counts, where counters are served or logged, and where they are served.
fn counting<R: Net<Listener = net::TcpListener, Stream = net::TcpStream>>(
    rt: &R,
    alloc: Global,
    shown: &Shown,
) -> io::Result<(Option<Tally>, Option<Scrapes>)> {
    let tally = tally_for(alloc, shown)?;
    match scrapes_for(rt, shown) {
        Ok(scrapes) => Ok((tally, scrapes)),
        Err(error) => Err(error),
    }
}

fn tally_for(alloc: Global, shown: &Shown) -> io::Result<Option<Tally>> {
    if shown.metrics.is_none() && shown.log.is_none() {
        return Ok(None);
    }
    match Tally::new(alloc) {
        Some(tally) => Ok(Some(tally)),
        None => Err(io::Error::from(ErrorKind::OutOfMemory)),
    }
}

fn scrapes_for<R: Net<Listener = net::TcpListener, Stream = net::TcpStream>>(
    rt: &R,
    shown: &Shown,
) -> io::Result<Option<Scrapes>> {
    match shown.metrics {
        Some(at) => Ok(Some(Scrapes::open(rt, at)?)),
        None => Ok(None),
    }
}

// The waits for clients' streams, of which the listener is one, for the asks in datagrams, and for servers' streams.
fn waits<R: Net>(rt: &R, alloc: Global, listener: RawFd) -> io::Result<(Poller, OpenAsks, Poller)> {
    let streams = Poller::of_listener(rt, listener)?;
    match servers_waits(rt, alloc) {
        Ok((asks, servers)) => Ok((streams, asks, servers)),
        Err(error) => Err(error),
    }
}

fn servers_waits<R: Net>(rt: &R, alloc: Global) -> io::Result<(OpenAsks, Poller)> {
    let asks = OpenAsks::new(rt, alloc)?;
    match Poller::new(rt) {
        Ok(servers) => Ok((asks, servers)),
        Err(error) => Err(error),
    }
}

// The first descriptor that a service manager hands over (sd_listen_fds(3)).
const FIRST_HANDED: i32 = 3;

// Whether an address is the one that is to be listened at, where port 0 stands for any.
fn is_bound_to(address: SocketAddr, listen: Endpoint) -> bool
    ensures { IsTrue result ↔ IsBoundTo address listen }
{
    match endpoint_of(address) {
        Some(end) => end.address == listen.address && (listen.port == 0 || end.port == listen.port),
        None => false,
    }
}

// How many ports are tried where any will do.
const BIND_TRIES: u32 = 16;

// A socket for datagrams and one for streams, at one port. Where any port will do and the one that was given for
// datagrams is not free for streams, another is tried.
fn both<R: Net>(rt: &R, listen: Endpoint) -> io::Result<(UdpSocket, TcpListener)> {
    for _ in 1..BIND_TRIES {
        match with_listener(rt, datagrams(rt, listen)?) {
            Ok(pair) => return Ok(pair),
            Err(_) if listen.port == 0 => {}
            Err(_) => break,
        }
    }
    Ok(with_listener(rt, datagrams(rt, listen)?)?)
}

// A socket for datagrams, and one for streams at its port.
fn with_listener<R: Net>(rt: &R, clients: UdpSocket) -> io::Result<(UdpSocket, TcpListener)> {
    match listener_at(rt, &clients) {
        Ok(listener) => Ok((clients, listener)),
        Err(error) => Err(error),
    }
}

// A socket for streams at the port of this one.
fn listener_at<R: Net>(rt: &R, clients: &UdpSocket) -> io::Result<TcpListener> {
    TcpListener::bind(rt, clients.local_addr()?)
}

fn datagrams<R: Net>(rt: &R, end: Endpoint) -> io::Result<UdpSocket> {
    let socket = UdpSocket::bind(rt, address_of(end))?;
    socket.set_read_timeout(Some(slice()))?;
    set_rooms(&socket);
    Ok(socket)
}

/// How many bytes of datagrams that nobody took yet a socket holds, as the system has it. None where it can't be read.
pub(crate) fn receive_room(socket: &UdpSocket) -> Option<u32> {
    let mut value = [0u8; 16];
    let mut length = 4u32;
    let (level, name) = (c::SOL_SOCKET, c::SO_RCVBUF);
    let status = unsafe { c::getsockopt(socket.as_raw_fd(), level, name, &mut value, &mut length) };
    let [a, b, c, d, ..] = value;
    if status == 0 {
        Some(u32::from_ne_bytes([a, b, c, d]))
    } else {
        None
    }
}

// Makes room for many datagrams, in both directions. Where the system refuses it the socket keeps the room that it has.
fn set_rooms(socket: &UdpSocket) {
    let mut value = [0u8; 16];
    value[..4].copy_from_slice(&SOCKET_BUFFER_BYTES.to_ne_bytes());
    let socket = socket.as_raw_fd();
    let _ = unsafe { c::setsockopt(socket, c::SOL_SOCKET, c::SO_RCVBUF, &value, 4) };
    let _ = unsafe { c::setsockopt(socket, c::SOL_SOCKET, c::SO_SNDBUF, &value, 4) };
}
