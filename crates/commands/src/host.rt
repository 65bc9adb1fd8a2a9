//! The machine under a server: where its random bytes and its sockets come from. Tests put another in its place.
ghost use Rattle.std.specs.Prelude.{◌≡◌, ◌⊎◌, Bool, true, None, IfOk, IfSome, IsTrue};
ghost use Rattle.std.specs.Option.{is_some};

use events::Endpoint;
use memory::{Heap, Starved};
use server::{Ends, Shown};
use std::alloc::Global;
use std::io::{ErrorKind, Read};
use std::net::{Ipv4Addr, Net, SocketAddr, SocketAddrV4, TcpListener, TcpStream, UdpSocket};
use std::rt::{Env, Files};
use std::time::Instant;
use std::{env, fs, io};
use wire::Via;

/// What the start of a server needs besides memory and files.
pub trait Host {
    // Whether the sockets of a server are bound there, where that is known.
    ghost bound: { Self → Bool } = { λ _. true };

    /// Bytes from which identifiers may be drawn; none where they can't be read.
    fn seed(&mut self) -> Option<[u8; 32]>;

    /// Binds the sockets of a server, and shows what its file asks for: the port at which clients find it, or
    /// none where an address can't be bound.
    fn open(&mut self, listen: Endpoint, shown: Shown) -> Result<Option<u16>, Starved>
        ensures port { IfOk result (λ found. IfSome found (λ port. (port ≡ listen.port) ⊎ (listen.port ≡ 0))) }
        ensures bound { IfOk result (λ found. IfSome found (λ _. IsTrue (bound self.new))) };

    /// Why a socket can't be bound there, in the words of the system; none where it can be.
    fn reason<A: Heap>(
        &mut self,
        alloc: A,
        way: Via,
        at: Endpoint,
    ) -> Result<Option<String<A>>, Starved>;
}

/// The machine on which the program runs.
#[derive(Drop)]
pub struct Machine<'a, R> {
    pub(crate) runtime: &'a R,
    pub(crate) alloc: Global,
    /// The sockets that were bound last.
    pub(crate) ends: Option<Ends>,
    /// The socket of the last ask of a trace.
    pub(crate) datagrams: Option<UdpSocket>,
    /// When a trace began.
    pub(crate) began: Option<Instant>,
}

impl<'a, R> Machine<'a, R> {
    /// With no socket bound.
    pub fn new(runtime: &'a R, alloc: Global) -> Machine<'a, R> {
        Machine {
            runtime,
            alloc,
            ends: None,
            datagrams: None,
            began: None,
        }
    }

    // Keeps the sockets of a server, where the port at which clients find it is known.
    fn kept(&mut self, ends: Ends, listen: Endpoint) -> Option<u16>
        ensures port { IfSome result (λ port. (port ≡ listen.port) ⊎ (listen.port ≡ 0)) }
        ensures bound { IfSome result (λ _. IsTrue (is_some self.new.ends)) }
    {
        match port_of(&ends, listen) {
            Some(port) => {
                self.ends = Some(ends);
                Some(port)
            }
            None => {
                drop(ends);
                None
            }
        }
    }
}

/// Where random bytes are read.
pub const RANDOM: &str = "/dev/urandom";

// How many sockets a service manager hands over, where it does (sd_listen_fds(3)): for datagrams and for streams.
const HANDED: u32 = 2;

// Whether a service manager has handed two sockets over to this process.
fn has_handed_sockets<R: Env + AllocGlobal>(rt: &R) -> bool {
    let process = number_in(rt, "LISTEN_PID");
    process.is_some()
        && process == u32::try_from(libc::getpid()).ok()
        && number_in(rt, "LISTEN_FDS") == Some(HANDED)
}

// The number in a variable of the environment.
fn number_in<R: Env + AllocGlobal>(rt: &R, name: &str) -> Option<u32> {
    match env::var(rt, name) {
        Ok(word) => word.as_str().parse::<u32>().ok(),
        Err(_) => None,
    }
}

// The sockets of a server, which show what its file asks for, and tell the service manager where one wants to know.
fn opened<R>(rt: &R, alloc: Global, listen: Endpoint, shown: Shown) -> io::Result<Ends>
where
    R: Net<Listener = TcpListener, Stream = TcpStream> + Env + AllocGlobal,
{
    let ends = bound(rt, alloc, listen)?.showing(rt, alloc, shown)?;
    Ok(telling(rt, ends))
}

// The sockets that a service manager has handed over, or others.
fn bound<R: Net + Env + AllocGlobal>(rt: &R, alloc: Global, listen: Endpoint) -> io::Result<Ends> {
    if has_handed_sockets(rt) {
        Ok(Ends::handed(rt, alloc, listen)?)
    } else {
        Ok(Ends::open(rt, alloc, listen)?)
    }
}

// The same, which tell the service manager, where one wants to know.
fn telling<R: Env + AllocGlobal>(rt: &R, ends: Ends) -> Ends {
    match env::var(rt, "NOTIFY_SOCKET") {
        Ok(path) => ends.telling(path.as_str()),
        Err(_) => ends,
    }
}

// What comes of sockets that are not opened: no port, unless no memory was left.
fn unopened(error: io::Error) -> Result<Option<u16>, Starved>
    ensures { IfOk result (λ found. found ≡ None) }
{
    match error.kind() {
        ErrorKind::OutOfMemory => Err(Starved),
        _ => Ok(None),
    }
}

// The port at which clients find a server.
fn port_of(ends: &Ends, listen: Endpoint) -> Option<u16>
    ensures { IfSome result (λ port. (port ≡ listen.port) ⊎ (listen.port ≡ 0)) }
{
    let bound = ends.listen().ok()?;
    if listen.port == 0 {
        Some(bound.port)
    } else {
        Some(listen.port)
    }
}

impl<R> Host for Machine<'_, R>
where
    R: Net<Listener = TcpListener, Stream = TcpStream> + Files + Env + AllocGlobal,
{
    ghost use Rattle.std.specs.Option.{is_some};

    ghost bound = { λ m. is_some m.ends };

    fn seed(&mut self) -> Option<[u8; 32]> {
        let mut seed = [0u8; 32];
        let mut file = fs::open(self.runtime, RANDOM).ok()?;
        file.read_exact(&mut seed).ok()?;
        Some(seed)
    }

    fn open(&mut self, listen: Endpoint, shown: Shown) -> Result<Option<u16>, Starved> {
        match opened(self.runtime, self.alloc, listen, shown) {
            Ok(ends) => Ok(self.kept(ends, listen)),
            Err(error) => unopened(error),
        }
    }

    fn reason<A: Heap>(
        &mut self,
        alloc: A,
        way: Via,
        at: Endpoint,
    ) -> Result<Option<String<A>>, Starved> {
        let address = Ipv4Addr::from_octets(at.address.0);
        let address = SocketAddr::V4(SocketAddrV4::new(address, at.port));
        let fault = match way {
            Via::Udp => UdpSocket::bind(self.runtime, address).err(),
            Via::Tcp => TcpListener::bind(self.runtime, address).err(),
        };
        match fault {
            Some(error) => Ok(Some(format!(in alloc; "{error}")?)),
            None => Ok(None),
        }
    }
}
