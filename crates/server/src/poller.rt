//! Sockets that one loop waits for, and how others end its wait.
use crate::ends::{LISTENER, is_early};
use mio::unix::SourceFd;
use mio::{Events, Interest, Poll, Registry, Token, Waker};
use std::io;
use std::io::ErrorKind;
use std::net::Net;
use std::os::fd::RawFd;
use std::sync::atomic::{AtomicBool, Ordering};
use std::sync::{Mutex, Wait};
use std::time::Duration;

// The token of what other loops hand on, which is no place of a socket.
const HANDED: Token = Token(usize::MAX);

/// Sockets that one loop waits for.
pub(crate) struct Poller {
    /// Its loop alone takes it, for as long as it runs.
    pub poll: Mutex<Poll>,
    registry: Registry,
    waker: Waker,
    // Whether the loop waits, or is about to.
    asleep: AtomicBool,
}

// By hand, so that whatever drops it calls this.
impl Drop for Poller {
    fn drop(self) {
        let Poller {
            poll,
            registry,
            waker,
            asleep,
        } = self;
        drop(poll);
        drop(registry);
        drop(waker);
        drop(asleep);
    }
}

impl Poller {
    /// With this listener alone.
    pub fn of_listener<R: Net>(rt: &R, listener: RawFd) -> io::Result<Poller> {
        let poller = Poller::new(rt)?;
        if poller.watch(listener, LISTENER, Interest::READABLE) {
            Ok(poller)
        } else {
            Err(io::Error::from(ErrorKind::Other))
        }
    }

    /// With no socket.
    pub fn new<R: Net>(rt: &R) -> io::Result<Poller> {
        let poll = Poll::new(rt)?;
        match waker_of(&poll) {
            Ok((registry, waker)) => Ok(Poller {
                poll: Mutex::new(poll),
                registry,
                waker,
                asleep: AtomicBool::new(false),
            }),
            Err(error) => Err(error),
        }
    }

    /// From now on the wait ends where the socket can be read, or, if that is asked, written. It is told at once of
    /// what came before, and then of changes alone.
    pub fn watch(&self, socket: RawFd, key: usize, interest: Interest) -> bool {
        self.registry
            .register(&mut SourceFd(&socket), Token(key), interest)
            .is_ok()
    }

    /// The same for a socket that is watched already, under another key perhaps.
    pub fn watch_again(&self, socket: RawFd, key: usize, interest: Interest) -> bool {
        self.registry
            .reregister(&mut SourceFd(&socket), Token(key), interest)
            .is_ok()
    }

    /// Ends the wait that is under way, once something is handed on.
    pub fn notify(&self) {
        if self.asleep.swap(false, Ordering::SeqCst) {
            let _ = self.waker.wake();
        }
    }

    /// From now on a notice ends the next wait: what was handed on before is to be looked for in between.
    pub fn expect_notice(&self) {
        self.asleep.store(true, Ordering::SeqCst);
    }

    /// Waits for a socket or a notice, for so many milliseconds at most; whether it could. A signal may end the wait.
    pub fn wait(&self, poll: &mut Poll, events: &mut Events, millis: u64) -> bool {
        let polled = poll.poll(events, Some(Duration::from_millis(millis)));
        self.asleep.store(false, Ordering::SeqCst);
        match polled {
            Ok(()) => true,
            Err(error) => is_early(&error),
        }
    }
}

// The registry of a wait, and what ends that wait.
fn waker_of(poll: &Poll) -> io::Result<(Registry, Waker)> {
    let registry = poll.registry().try_clone()?;
    match Waker::new(&registry, HANDED) {
        Ok(waker) => Ok((registry, waker)),
        Err(error) => Err(error),
    }
}
