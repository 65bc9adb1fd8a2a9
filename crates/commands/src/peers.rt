//! The network of a trace: a socket for each ask, as the machine has them.
use crate::host::Machine;
use events::Endpoint;
use memory::{Heap, Starved};
use sockets::{FrameError, read_framed, write_framed};
use std::io::{ErrorKind, Read};
use std::net::{Ipv4Addr, Net, SocketAddr, SocketAddrV4, TcpListener, TcpStream, UdpSocket};
use std::time::{Clock, Duration, Instant};
use std::{io, thread};
use trace::Peers;

// Bytes of a datagram at most: its length stands in 16 bits (RFC 768).
const DATAGRAM_BYTES: usize = 65_535;

// Bytes of a frame at most: its length stands in 16 bits (RFC 1035, section 4.2.2).
const FRAME_BYTES: usize = 65_535;

// A stream that is read up to a moment.
#[derive(Drop)]
struct Timed<'a, R> {
    runtime: &'a R,
    stream: TcpStream,
    began: Instant,
    wait: Duration,
}

impl<R: Clock> Read for Timed<'_, R> {
    fn read(&mut self, buf: &mut [u8]) -> io::Result<usize> {
        let passed = self.began.elapsed(self.runtime)?;
        let Some(left) = self.wait.checked_sub(passed) else {
            return Err(io::Error::from(ErrorKind::TimedOut));
        };
        self.stream.set_read_timeout(Some(left))?;
        self.stream.read(buf)
    }
}

impl<R> Peers for Machine<'_, R>
where
    R: Net<Listener = TcpListener, Stream = TcpStream> + Clock,
{
    fn moment(&mut self) -> u64 {
        let Some(began) = self.began else {
            self.began = Instant::now(self.runtime).ok();
            return 0;
        };
        match began.elapsed(self.runtime) {
            Ok(passed) => u64::try_from(passed.as_millis()).unwrap_or(u64::MAX),
            Err(_) => 0,
        }
    }

    fn send(&mut self, to: Endpoint, bytes: &[u8]) -> bool {
        self.datagrams = None;
        let Ok(socket) = UdpSocket::bind(self.runtime, address_of([0, 0, 0, 0], 0)) else {
            return false;
        };
        let to = address_of(to.address.0, to.port);
        let sent = socket.connect(to).is_ok() && socket.send(bytes).is_ok();
        if sent {
            self.datagrams = Some(socket);
        }
        sent
    }

    fn close(&mut self) {
        self.datagrams = None;
    }

    fn receive<A: Heap>(&mut self, alloc: A, wait_ms: u64) -> Result<Option<Vec<u8, A>>, Starved> {
        let wait = Duration::from_millis(wait_ms);
        let Some(socket) = &self.datagrams else {
            let _ = thread::sleep(self.runtime, wait);
            return Ok(None);
        };
        let mut bytes = [0u8; DATAGRAM_BYTES];
        if socket.set_read_timeout(Some(wait)).is_err() {
            return Ok(None);
        }
        match socket.recv(&mut bytes) {
            Ok(count) => Ok(Some(Vec::from_slice(alloc, &bytes[..count])?)),
            Err(_) => Ok(None),
        }
    }

    fn exchange<A: Heap>(
        &mut self,
        alloc: A,
        to: Endpoint,
        bytes: &[u8],
        wait_ms: u64,
    ) -> Result<Option<Vec<u8, A>>, Starved> {
        self.datagrams = None;
        let wait = Duration::from_millis(wait_ms);
        let Some(mut stream) = opened(self.runtime, to, wait) else {
            return Ok(None);
        };
        if FRAME_BYTES < bytes.len() || write_framed(&mut stream.stream, bytes).is_err() {
            return Ok(None);
        }
        match read_framed(alloc, &mut stream) {
            Ok(frame) => Ok(frame),
            Err(FrameError::Memory) => Err(Starved),
            Err(_) => Ok(None),
        }
    }
}

// A stream to a server, which lasts no longer than that.
fn opened<R: Net<Listener = TcpListener, Stream = TcpStream> + Clock>(
    runtime: &R,
    to: Endpoint,
    wait: Duration,
) -> Option<Timed<'_, R>> {
    let began = Instant::now(runtime).ok()?;
    let address = address_of(to.address.0, to.port);
    let stream = TcpStream::connect_timeout(runtime, &address, wait).ok()?;
    stream.set_write_timeout(Some(wait)).ok()?;
    Some(Timed {
        runtime,
        stream,
        began,
        wait,
    })
}

fn address_of(address: [u8; 4], port: u16) -> SocketAddr {
    SocketAddr::V4(SocketAddrV4::new(Ipv4Addr::from_octets(address), port))
}
