//! A WebSocket as a talk.
ghost use Rattle.std.specs.Prelude.{◌≡◌, [], None, Err, OnOk, ◌⊎◌, false, true};
ghost use Rattle.std.specs.Str.{IsUtf8};
ghost use Rattle.std.specs.Io.KnownBytes.{Keeps, append_known};
ghost use Rattle.tungstenite.specs.Socket.{IsFresh};
ghost use Rattle.tungstenite.specs.Config.{HasLimitsOf};
ghost use Rattle.ls_outside.specs.Causes.{Rose};
ghost use Rattle.ls_talk.specs.Lines.{no_counts, no_lender, PutsOf, LogsPut, HasPutCause};
ghost use Rattle.ls_talk.specs.Talks.{IsMessage, HasMessageCause, LogsAnswer};
ghost use Rattle.ls_talk.specs.declared.line_out.PutRefused.TheVariants as refused;
ghost use Rattle.ls_talk.specs.declared.talk.Incoming.TheVariants as incoming;
ghost use Rattle.ls_ws.specs.Wires.{ClosesOf, SendsLine, ReadsOf, WaitsOf, nothing_held};

use crate::socket::{Missed, Refused, flush, receive, send};
use crate::stream::Stream;
use ls_bell::Bell;
use ls_outside::Pipe;
use ls_talk::{Incoming, LineOut, PutRefused, Talk};
use ls_wake::Wakes;
use std::alloc::Global;
use std::marker::Model;
use std::sync::Arc;
use tungstenite::{NoMask, Role, WebSocket, WebSocketConfig};

/// How many bytes a socket asks its pipe for at a time. A connection holds the room of two such reads, all of it
/// touched, so it is no larger than most messages.
const READ_SIZE: usize = 512;

/// A WebSocket over a pipe, after its handshake, on the server's side. Each line goes out as a text message of its own,
/// with its CR LF; each message that comes is read whole, of however many frames. Pings and closes are answered by the
/// socket, with the next call. Lines are held back until `let_go`, or until 16 KiB of them are, so that several go out in
/// one write.
///
/// It tells neither bytes nor a log. It counts by itself, since of a pipe that a socket has had nothing is known but
/// what the pipe's own counts say.
#[derive(Drop)]
pub struct WsWire<C> {
    alloc: Global,
    socket: WebSocket<Stream<C>, NoMask>,
    put_faults: u64,
    read_faults: u64,
    idles: u64,
    closes: u64,
    starved: bool,
}

impl<C> Model for WsWire<C> {
    ghost use Rattle.ls_ws.specs.Wires.{WireState, wire_code};

    ghost Value = { WireState C };

    ghost coded = { wire_code C.code };

    ghost view = { λ w. record {
      socket = record {
        stream = record { pipe = w.socket.stream.pipe; unsent = w.socket.stream.unsent };
        conn = w.socket.conn;
        input = w.socket.input;
        output = w.socket.output;
      };
      put_faults = w.put_faults;
      counts = record { faults = w.read_faults; idles = w.idles; closes = w.closes; leaves = 0 };
      is_starved = w.starved;
    } };
}

impl<C: Pipe + Drop> WsWire<C> {
    /// A wire over a pipe from which the handshake was read, to its end and no further, and which its reply was written
    /// to. The socket's limits are 64 MiB a message and 16 MiB a frame.
    pub fn over(alloc: Global, conn: C) -> WsWire<C>
        ensures fresh { IsFresh result.socket (nothing_held conn) Role.Server }
        ensures limits { HasLimitsOf result.socket.conn.config None }
        ensures counts { (result.counts ≡ no_counts) × (result.put_faults ≡ 0) × (result.is_starved ≡ false) }
    {
        WsWire::over_after(alloc, conn, Vec::new(alloc))
    }

    /// The same, where these bytes were read from the pipe past the handshake: they are read first.
    pub fn over_after(alloc: Global, conn: C, rest: Vec<u8>) -> WsWire<C>
        ensures fresh { IsFresh (record result.socket { input = [] }) (nothing_held conn) Role.Server }
        ensures input { result.socket.input ≡ rest.items }
        ensures limits { HasLimitsOf result.socket.conn.config None }
        ensures counts { (result.counts ≡ no_counts) × (result.put_faults ≡ 0) × (result.is_starved ≡ false) }
    {
        let stream = Stream::over(alloc, conn);
        let config = WebSocketConfig::default()
            .read_buffer_size(READ_SIZE)
            .write_buffer_size(0);
        WsWire {
            alloc,
            socket: WebSocket::from_partially_read(
                alloc,
                stream,
                NoMask,
                rest,
                Role::Server,
                Some(config),
            ),
            put_faults: 0,
            read_faults: 0,
            idles: 0,
            closes: 0,
            starved: false,
        }
    }

    /// The pipe, as it stands.
    pub fn pipe(&self) -> &C
        ensures { result.now ≡ self.now.socket.stream.pipe }
    {
        &self.socket.get_ref().pipe
    }

    /// The pipe. Bytes that were read from it and are no message yet are lost, and so are those that are held back.
    pub fn into_pipe(self) -> C
        ensures { result ≡ self.socket.stream.pipe }
    {
        let WsWire { socket, .. } = self;
        socket.into_inner().pipe
    }
}

impl<C: Pipe + Drop> LineOut for WsWire<C> {
    ghost held = { λ _. None };

    ghost log = { λ _. None };

    ghost faults = { λ w. w.put_faults };

    ghost counts = { λ w. w.counts };

    fn put_faults(&self) -> u64 {
        self.put_faults
    }

    /// Sends one text message of a line and its CR LF, or holds it back.
    ///
    /// # Errors
    ///
    /// `Failed` where the pipe failed, the connection is closed, or the socket's own output is full: a part of the
    /// message may have gone out, or wait. `NoMemory`: the socket is as before.
    fn put(&mut self, text: &[u8]) -> Result<(), PutRefused>
        requires { IsUtf8 text.now }
        ensures bytes { PutsOf None None result text.now }
        ensures log { LogsPut None None result text.now }
        ensures cause { HasPutCause result self.old.put_faults self.new.put_faults }
        ensures counts { self.new.counts ≡ self.old.counts }
        ensures lender { no_lender ≡ no_lender }
        ensures sent { OnOk result (SendsLine (λ k. append_known (C.held k.pipe) k.unsent)
            self.old.socket self.new.socket text.now) }
        ensures memory { result ≡ Err refused.NoMemory → self.new ≡ self.old }
    {
        match send(&mut self.socket, self.alloc, text) {
            Ok(()) => Ok(()),
            Err(Refused::NoMemory) => Err(PutRefused::NoMemory),
            Err(Refused::Stream | Refused::Failed) => {
                self.put_faults = self.put_faults.saturating_add(1);
                Err(PutRefused::Failed)
            }
        }
    }
}

impl<C: Pipe + Drop> Talk for WsWire<C> {
    fn read_faults(&self) -> u64 {
        self.read_faults
    }

    fn idles(&self) -> u64 {
        self.idles
    }

    fn closes(&self) -> u64 {
        self.closes
    }

    /// Reads at most one message. `NotYet` comes only where the pipe had no byte yet, and `Failed` only where a read or
    /// a write of the pipe failed. `Closed`: the input ended, the peer closed, what came is no frame, no message or too
    /// large for the socket, or the socket's own output was full. After `NoMemory` it answers that from then on, since
    /// a message may be lost.
    fn message(&mut self) -> Incoming
        ensures message { IsMessage result }
        ensures cause { HasMessageCause result self.old.counts self.new.counts self.old.put_faults self.new.put_faults }
        ensures log { LogsAnswer None None result }
        ensures bytes { Keeps None None }
        ensures reads { ReadsOf (λ k. C.unread k.pipe) self.old.socket self.new.socket result }
        ensures starved { self.old.is_starved ≡ true → (result ≡ incoming.NoMemory) × (self.new ≡ self.old) }
        ensures starves { result ≡ incoming.NoMemory → self.new.is_starved ≡ true }
        ensures waits { result ≡ incoming.NotYet → WaitsOf (λ k. C.unread k.pipe) self.old.socket self.new.socket }
        ensures idle { result ≡ incoming.NotYet
            → Rose (C.waits self.old.socket.stream.pipe) (C.waits self.new.socket.stream.pipe) }
        ensures closed { result ≡ incoming.Closed → ClosesOf (λ k. C.unread k.pipe) self.old.socket self.new.socket }
        ensures failed { result ≡ incoming.Failed
            → Rose (C.Source.faults self.old.socket.stream.pipe) (C.Source.faults self.new.socket.stream.pipe)
            ⊎ Rose (C.Sink.faults self.old.socket.stream.pipe) (C.Sink.faults self.new.socket.stream.pipe) }
    {
        if self.starved {
            return Incoming::NoMemory;
        }
        match receive(&mut self.socket, self.alloc) {
            Ok(answer) => answer,
            Err(Missed::NoMemory) => {
                self.starved = true;
                Incoming::NoMemory
            }
            Err(Missed::Idle) => {
                self.idles = self.idles.saturating_add(1);
                Incoming::NotYet
            }
            Err(Missed::Closed) => {
                self.closes = self.closes.saturating_add(1);
                Incoming::Closed
            }
            Err(Missed::Read) => {
                self.read_faults = self.read_faults.saturating_add(1);
                Incoming::Failed
            }
            Err(Missed::Write) => {
                self.put_faults = self.put_faults.saturating_add(1);
                Incoming::Failed
            }
        }
    }

    fn let_go(&mut self) -> bool {
        if flush(&mut self.socket) {
            return true;
        }
        self.put_faults = self.put_faults.saturating_add(1);
        false
    }
}

impl<C: Pipe + Wakes + Drop> Wakes for WsWire<C> {
    /// The pipe calls the bell.
    fn wake_with(&self, bell: &Arc<Bell, Global>) -> bool {
        self.pipe().wake_with(bell)
    }

    /// The pipe's writes wait, or don't.
    fn wait_for_room(&self, alloc: Global, waits: bool) {
        self.pipe().wait_for_room(alloc, waits);
    }

    fn is_behind(&self) -> bool {
        self.pipe().is_behind()
    }

    fn catch_up(&self) -> Option<usize> {
        self.pipe().catch_up()
    }
}
