//! A resolver and three servers at addresses of this host, and a client who asks it over UDP and TCP.
ghost use Rattle.std.specs.Prelude.{IfOk};
ghost use Rattle.engine.specs.Beginnings.{IsBegun};

use crate::client::{ANYWHERE, Client};
use crate::nameservers::{Nameserver, nameservers, port_of, world};
use config::read_config;
use dispatch::Reach;
use engine::Core;
use memory::Starved;
use rdata::Addr;
use server::{Bounds, Ends};
use server_start::{resolver_of, run_server};
use std::alloc::Global;
use std::net::{Net, TcpListener, TcpStream};
use std::sync::Wait;
use std::sync::atomic::{AtomicBool, AtomicU64, Ordering};
use std::thread;
use std::thread::Threads;
use std::time::Clock;
use worlds::World;

// The resolver that this text of a server's file describes, with the local zone of the world.
fn resolver(alloc: Global, world: &World, port: u16, loops: u16) -> Result<Core, Starved>
    ensures { IfOk result IsBegun }
{
    let text = format!(in alloc;
        "listen 127.0.0.1 0\nport {port}\nhint 127.0.0.2\nlocal corp.example. corp\nsockets 2\nworkers 2\nstreams 16\nloops {loops}\n"
    )?;
    let Ok(config) = read_config(alloc, text.as_str()) else {
        return Err(Starved);
    };
    match resolver_of(alloc, config, world.held()?, [7; 32]) {
        Ok(core) => Ok(core),
        Err(_) => Err(Starved),
    }
}

// What the text says of its loops.
fn bounds(loops: u16) -> Bounds {
    Bounds {
        streams: 16,
        workers: 2,
        reach: Reach::of_hints(&[Addr([127, 0, 0, 2])]),
        clients: 256,
        loops,
        seed: [7; 32],
    }
}

// Runs the resolver; whether it ran.
fn resolve<R: Net<Listener = TcpListener, Stream = TcpStream> + Threads + Wait + Clock + Sync>(
    rt: &R,
    alloc: Global,
    world: &World,
    port: u16,
    loops: u16,
    ends: &Ends,
    stop: &AtomicBool,
) -> bool {
    match resolver(alloc, world, port, loops) {
        Ok(core) => run_server(rt, alloc, core, ends, bounds(loops), stop).is_ok(),
        Err(_) => false,
    }
}

// What a client sees while the servers and the resolver run.
fn seen_by<R: Net<Listener = TcpListener, Stream = TcpStream> + Threads + Wait + Clock + Sync>(
    client: &Client<'_, R>,
    hosts: &[Nameserver],
    port: u16,
    loops: u16,
    ends: &Ends,
) -> Result<u64, &'static str> {
    let (rt, alloc, world) = (client.rt, client.alloc, client.world);
    let (asked, stop) = (AtomicU64::new(0), AtomicBool::new(false));
    let (asked, stop) = (&asked, &stop);
    thread::scope(thread::scope_env(), rt, |scope| {
        for host in hosts {
            if scope
                .spawn(move || host.serve(rt, world, asked, stop))
                .is_err()
            {
                stop.store(true, Ordering::SeqCst);
            }
        }
        let runs = scope.spawn(move || resolve(rt, alloc, world, port, loops, ends, stop));
        let seen = client.visit(asked);
        stop.store(true, Ordering::SeqCst);
        match runs {
            Ok(handle) => {
                if handle.join(rt) {
                    seen
                } else {
                    Err("the resolver does not run")
                }
            }
            Err(_) => Err("no thread for the resolver"),
        }
    })
}

// What a client sees of the resolver and the servers, once all have their sockets.
fn meeting<R: Net<Listener = TcpListener, Stream = TcpStream> + Threads + Wait + Clock + Sync>(
    rt: &R,
    alloc: Global,
    loops: u16,
) -> Result<u64, &'static str> {
    let hosts = nameservers(rt, alloc).ok_or("no sockets for the servers")?;
    let port = port_of(&hosts).ok_or("no port")?;
    let Ok(ends) = Ends::open(rt, alloc, ANYWHERE) else {
        return Err("no sockets for the resolver");
    };
    let Ok(at) = ends.listen() else {
        return Err("no address");
    };
    let Ok(world) = world(alloc) else {
        return Err("no world");
    };
    let client = Client {
        rt,
        alloc,
        world: &world,
        at,
    };
    seen_by(&client, &hosts, port, loops, &ends)
}

#[test]
fn each_client_is_answered_right(rt: HostRuntime) {
    for loops in [1, 4] {
        assert_eq!(rt;
            meeting(&rt, rt.alloc(), loops),
            Ok(4),
            "four questions reach the servers, loops {loops}"
        );
    }
}
