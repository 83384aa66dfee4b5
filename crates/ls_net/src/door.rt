//! Two ports that are listened on.
ghost use Rattle.std.specs.Prelude.{◌≡◌};

use crate::pipe::{TcpPipe, is_later};
use crate::watcher::{Seat, WatchedSockets};
use libc::net;
use ls_bell::Bell;
use ls_door::{Door, Heard, Visit};
use std::alloc::Global;
use std::io::Result;
use std::net::{Net, TcpListener, TcpStream};
use std::os::fd::AsRawFd;
use std::sync::Arc;

/// The addresses from which clients are heard: all of them.
const EVERYWHERE: &str = "0.0.0.0";

/// The addresses from which feeds are heard: those of this machine alone, since a feed isn't asked who it is.
const HERE: &str = "127.0.0.1";

/// How many bytes of a client's connection the system is asked to keep until the client has taken them; it keeps up to twice
/// as many. What is beyond that waits in the server, where it is merged, queued or counted as lost, as its mode says. Without
/// this a slow client would be told states that are as old as some megabytes.
const SEND_BYTES: i32 = 32_768;

/// Two sockets that listen, and the place of each with a watcher.
#[derive(Drop)]
struct Listeners {
    clients: TcpListener,
    feeds: TcpListener,
    clients_seat: Seat,
    feeds_seat: Seat,
}

/// A door over TCP: clients from everywhere, feeds from 127.0.0.1 alone. `accept` doesn't wait. It looks for clients
/// and for feeds in turn, so neither keeps the other out. Both ports and clients' connections may be watched; feeds' reads
/// wait anyway. The system is asked to keep at most 32,768 bytes for a client that doesn't take them (`SO_SNDBUF`).
#[derive(Drop)]
pub struct TcpDoor<R: Net<Listener = TcpListener, Stream = TcpStream>> {
    rt: R,
    sockets: Option<Arc<WatchedSockets, Global>>,
    listeners: Option<Listeners>,
    port: u16,
    feed: u16,
    feeds_next: bool,
    faults: u64,
    idles: u64,
}

impl<R: Net<Listener = TcpListener, Stream = TcpStream>> TcpDoor<R> {
    /// A door that doesn't listen yet, which is watched with these sockets, as its clients are, if there are any. Its
    /// `accept` is `Idle`.
    pub fn new(rt: R, sockets: Option<Arc<WatchedSockets, Global>>) -> TcpDoor<R>
        ensures watched { result.sockets ≡ sockets }
        ensures counts { (result.faults ≡ 0) × (result.idles ≡ 0) × (result.port ≡ 0) × (result.feed ≡ 0) }
    {
        TcpDoor {
            rt,
            sockets,
            listeners: None,
            port: 0,
            feed: 0,
            feeds_next: false,
            faults: 0,
            idles: 0,
        }
    }
}

/// Listens at an address. Gives the port too, which the system chooses where it is 0.
fn listener_at<R: Net<Listener = TcpListener, Stream = TcpStream>>(
    rt: &R,
    address: &str,
    port: u16,
) -> Result<(TcpListener, u16)> {
    let listener = TcpListener::bind(rt, (address, port))?;
    listener.set_nonblocking(true)?;
    let port = listener.local_addr()?.port();
    Ok((listener, port))
}

/// Has the system keep little of each connection that comes to a listener. Where it doesn't let itself be asked, it keeps as
/// much as it does by default.
fn keep_little(listener: &TcpListener) {
    let mut value = [0u8; 16];
    value[..4].copy_from_slice(&SEND_BYTES.to_ne_bytes());
    let fd = listener.as_raw_fd();
    // SAFETY: the socket is open as long as its listener, and the option's value is an int of four bytes.
    let _asked = unsafe { net::setsockopt(fd, net::SOL_SOCKET, net::SO_SNDBUF, &value, 4) };
}

/// The connection of who is there, if anyone.
fn next_at(listener: &TcpListener) -> Result<Option<TcpStream>> {
    match listener.accept() {
        Ok((stream, _)) => Ok(Some(stream)),
        Err(error) => {
            if is_later(&error) {
                Ok(None)
            } else {
                Err(error)
            }
        }
    }
}

/// Another hold on the watched sockets. `None` where there are none, or no further hold.
fn hold_on(sockets: &Option<Arc<WatchedSockets, Global>>) -> Option<Arc<WatchedSockets, Global>> {
    Arc::try_clone(sockets.as_ref()?).ok()
}

/// The client who is there, if any.
fn client_at(
    listener: &TcpListener,
    sockets: &Option<Arc<WatchedSockets, Global>>,
) -> Result<Option<Visitor>> {
    match next_at(listener)? {
        Some(stream) => Ok(Some(Visitor::Client(TcpPipe::over(stream, hold_on(sockets))?))),
        None => Ok(None),
    }
}

/// The feed that is there, if any.
fn feed_at(listener: &TcpListener) -> Result<Option<Visitor>> {
    match next_at(listener)? {
        Some(stream) => Ok(Some(Visitor::Feed(TcpPipe::over_feed(stream)?))),
        None => Ok(None),
    }
}

/// Who came in.
#[derive(Drop)]
enum Visitor {
    Client(TcpPipe),
    Feed(TcpPipe),
}

impl Listeners {
    /// Who is there, if anyone: feeds are looked for first, or clients.
    fn next(
        &self,
        sockets: &Option<Arc<WatchedSockets, Global>>,
        feeds_first: bool,
    ) -> Result<Option<Visitor>> {
        if feeds_first {
            if let Some(feed) = feed_at(&self.feeds)? {
                return Ok(Some(feed));
            }
        }
        if let Some(client) = client_at(&self.clients, sockets)? {
            return Ok(Some(client));
        }
        feed_at(&self.feeds)
    }

    /// Has a bell called whenever someone comes to either port. Answers whether it will be.
    fn wake_with(&self, bell: &Arc<Bell, Global>) -> bool {
        self.clients_seat.take(self.clients.as_raw_fd(), bell)
            && self.feeds_seat.take(self.feeds.as_raw_fd(), bell)
    }
}

/// Listens at both ports.
fn listeners_at<R: Net<Listener = TcpListener, Stream = TcpStream>>(
    rt: &R,
    port: u16,
    feed: u16,
    sockets: &Option<Arc<WatchedSockets, Global>>,
) -> Result<(Listeners, u16, u16)> {
    let (clients, port) = listener_at(rt, EVERYWHERE, port)?;
    keep_little(&clients);
    let (feeds, feed) = listener_at(rt, HERE, feed)?;
    let listeners = Listeners {
        clients,
        feeds,
        clients_seat: Seat::with(hold_on(sockets)),
        feeds_seat: Seat::with(hold_on(sockets)),
    };
    Ok((listeners, port, feed))
}

impl<R: Net<Listener = TcpListener, Stream = TcpStream> + Drop> Door for TcpDoor<R> {
    type Conn = TcpPipe;

    ghost failures = { λ d. d.faults };

    ghost waits = { λ d. d.idles };

    ghost opened = { λ d. record { port = d.port; feed = d.feed } };

    fn faults(&self) -> u64 {
        self.faults
    }

    fn idles(&self) -> u64 {
        self.idles
    }

    fn ports(&self) -> (u16, u16) {
        (self.port, self.feed)
    }

    fn listen(&mut self, port: u16, feed: u16) -> Heard {
        match listeners_at(&self.rt, port, feed, &self.sockets) {
            Ok((listeners, port, feed)) => {
                self.listeners = Some(listeners);
                self.port = port;
                self.feed = feed;
                Heard::Ready { port, feed }
            }
            Err(_) => {
                self.faults = self.faults.saturating_add(1);
                Heard::Failed
            }
        }
    }

    fn accept(&mut self) -> Visit<TcpPipe> {
        let feeds_first = self.feeds_next;
        self.feeds_next = !feeds_first;
        let found = match &self.listeners {
            Some(listeners) => listeners.next(&self.sockets, feeds_first),
            None => Ok(None),
        };
        match found {
            Ok(Some(Visitor::Client(pipe))) => Visit::Client(pipe),
            Ok(Some(Visitor::Feed(pipe))) => Visit::Feed(pipe),
            Ok(None) => {
                self.idles = self.idles.saturating_add(1);
                Visit::Idle
            }
            Err(_) => {
                self.faults = self.faults.saturating_add(1);
                Visit::Failed
            }
        }
    }

    fn wake_with(&self, bell: &Arc<Bell, Global>) -> bool {
        match &self.listeners {
            Some(listeners) => listeners.wake_with(bell),
            None => false,
        }
    }
}
