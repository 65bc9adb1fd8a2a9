//! Servers of a small world at addresses of this host.
use events::Endpoint;
use memory::Starved;
use rdata::Addr;
use sockets::{read_framed, write_framed};
use std::alloc::Global;
use std::io;
use std::net::{Ipv4Addr, Net, SocketAddr, SocketAddrV4, TcpListener, TcpStream, UdpSocket};
use std::sync::Wait;
use std::sync::atomic::{AtomicBool, AtomicU64, Ordering};
use std::time::Duration;
use world_text::read_world;
use worlds::{World, host_reply};

const WORLD: &str = "\
zone .
. 3600 IN SOA r. h. 1 2 3 4 60
. 3600 IN NS ns.
ns. 3600 IN A 127.0.0.2
example. 3600 IN NS ns.example.
ns.example. 3600 IN A 127.0.0.3
end
zone example.
$TTL 3600
@ SOA ns h 1 2 3 4 60
@ NS ns
ns A 127.0.0.3
old 5 CNAME www.lab
app CNAME db.corp
lab NS ns.lab
ns.lab A 127.0.0.4
dark NS ns.dark
end
zone lab.example.
$TTL 300
@ SOA ns h 1 2 3 4 60
@ NS ns
ns A 127.0.0.4
www A 192.0.2.1
long TXT \"xxxxxxxxxxxxxxxxxxxxxxxxxxxxxxxxxxxxxxxxxxxxxxxxxxxxxxxxxxxxxxxxxxxxxxxxxxxxxxxxxxxxxxxxxxxxxxxxxxxxxxxxxxxxxxxxxxxxxxxxxxxxxxxxxxxxxxxxxxxxxxxxxxxxxxxxxxxxxxxxxxxxxxxxxxxxxxxxxxxxxxxxxxxxxxxxxxxxxxxx\" \"xxxxxxxxxxxxxxxxxxxxxxxxxxxxxxxxxxxxxxxxxxxxxxxxxxxxxxxxxxxxxxxxxxxxxxxxxxxxxxxxxxxxxxxxxxxxxxxxxxxxxxxxxxxxxxxxxxxxxxxxxxxxxxxxxxxxxxxxxxxxxxxxxxxxxxxxxxxxxxxxxxxxxxxxxxxxxxxxxxxxxxxxxxxxxxxxxxxxxxxx\" \"xxxxxxxxxxxxxxxxxxxxxxxxxxxxxxxxxxxxxxxxxxxxxxxxxxxxxxxxxxxxxxxxxxxxxxxxxxxxxxxxxxxxxxxxxxxxxxxxxxxxxxxxxxxxxxxxxxxxxxxxxxxxxxxxxxxxxxxxxxxxxxxxxxxxxxxxxxxxxxxxxxxxxxxxxxxxxxxxxxxxxxxxxxxxxxxxxxxxxxxx\"
end
zone dark.example.
$TTL 300
@ SOA ns h 1 2 3 4 60
@ NS ns
ns A 127.0.0.5
www A 192.0.2.4
end
local corp.example.
$TTL 300
@ SOA ns h 1 2 3 4 60
@ NS ns
db A 10.0.0.5
end
host 127.0.0.2 .
host 127.0.0.3 example.
host 127.0.0.4 lab.example.
host 127.0.0.5 dark.example.
hint 127.0.0.2
";

// The last byte of the address of each server that runs; the one of dark.example. does not.
const HOSTS: [u8; 3] = [2, 3, 4];

// The world that the servers serve.
pub fn world(alloc: Global) -> Result<World, Starved> {
    let Ok(text) = read_world(alloc, WORLD) else {
        return Err(Starved);
    };
    match text.build(alloc) {
        Ok(world) => Ok(world),
        Err(_) => Err(Starved),
    }
}

pub fn address(end: Endpoint) -> SocketAddr {
    SocketAddr::V4(SocketAddrV4::new(Ipv4Addr::from_octets(end.address.0), end.port))
}

// Writes a frame, where it is not too long for one.
pub fn write_frame(stream: &TcpStream, bytes: &[u8]) -> Option<()> {
    if bytes.len() > 65_535 {
        return None;
    }
    let mut writer = stream;
    write_framed(&mut writer, bytes).ok()
}

// A server of the world, at both sockets of its address.
#[derive(Drop)]
pub struct Nameserver {
    alloc: Global,
    address: Addr,
    datagrams: UdpSocket,
    streams: TcpListener,
}

impl Nameserver {
    fn open<R: Net<Listener = TcpListener, Stream = TcpStream>>(
        rt: &R,
        alloc: Global,
        last: u8,
        port: u16,
    ) -> io::Result<Nameserver> {
        let at = Addr([127, 0, 0, last]);
        let end = Endpoint { address: at, port };
        let datagrams = UdpSocket::bind(rt, address(end))?;
        datagrams.set_read_timeout(Some(Duration::from_millis(50)))?;
        let streams = TcpListener::bind(rt, datagrams.local_addr()?)?;
        streams.set_nonblocking(true)?;
        Ok(Nameserver {
            alloc,
            address: at,
            datagrams,
            streams,
        })
    }

    fn port(&self) -> io::Result<u16> {
        Ok(self.datagrams.local_addr()?.port())
    }

    // Answers by `host_reply` until the flag is up, and counts the questions.
    pub fn serve<R: Wait>(&self, rt: &R, world: &World, asked: &AtomicU64, stop: &AtomicBool) {
        let mut buffer = [0u8; 512];
        for _ in rt.forever() {
            if stop.load(Ordering::SeqCst) {
                return;
            }
            if let Ok((count, from)) = self.datagrams.recv_from(&mut buffer) {
                asked.fetch_add(1, Ordering::SeqCst);
                let _ = self.reply_in_datagram(world, &buffer[..count], from);
            }
            if let Ok((stream, _)) = self.streams.accept() {
                asked.fetch_add(1, Ordering::SeqCst);
                let _ = self.reply_on_stream(world, &stream);
            }
        }
    }

    fn reply_in_datagram(&self, world: &World, bytes: &[u8], from: SocketAddr) -> Option<usize> {
        let reply = self.reply(world, bytes)?;
        self.datagrams.send_to(reply.as_slice(), from).ok()
    }

    fn reply_on_stream(&self, world: &World, stream: &TcpStream) -> Option<()> {
        let mut ends = stream;
        let bytes = read_framed(self.alloc, &mut ends).ok()??;
        let reply = self.reply(world, bytes.as_slice())?;
        write_frame(stream, reply.as_slice())
    }

    fn reply(&self, world: &World, bytes: &[u8]) -> Option<Vec<u8>> {
        host_reply(self.alloc, world, self.address, bytes).ok()?
    }
}

// How many ports are tried.
const TRIES: u32 = 16;

// The servers of the world, at one port that is free at each of their addresses.
pub fn nameservers<R: Net<Listener = TcpListener, Stream = TcpStream>>(
    rt: &R,
    alloc: Global,
) -> Option<Vec<Nameserver>> {
    for _ in 0..TRIES {
        if let Ok(servers) = at_one_port(rt, alloc) {
            return Some(servers);
        }
    }
    None
}

fn at_one_port<R: Net<Listener = TcpListener, Stream = TcpStream>>(
    rt: &R,
    alloc: Global,
) -> io::Result<Vec<Nameserver>> {
    let mut servers = Vec::new(alloc);
    let mut port = 0;
    for last in HOSTS {
        let server = Nameserver::open(rt, alloc, last, port)?;
        port = server.port()?;
        servers.push(server)?;
    }
    Ok(servers)
}

// The port of all of them.
pub fn port_of(servers: &[Nameserver]) -> Option<u16> {
    servers.first()?.port().ok()
}
