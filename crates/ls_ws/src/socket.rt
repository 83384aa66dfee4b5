//! One message out, and one in, over a socket.
ghost use Rattle.std.specs.Prelude.{◌≡◌, [], Ok, None, OnOk, IfOk, IfErr, IfSome};
ghost use Rattle.std.specs.Str.{IsUtf8};
ghost use Rattle.std.specs.Io.KnownBytes.{append_known};
ghost use Rattle.tungstenite.specs.Connection.{write_step};
ghost use Rattle.tungstenite.specs.Content.{text as text_content};
ghost use Rattle.tungstenite.specs.Socket.{Reads, Writes, content_of, kind_of};
ghost use Rattle.tungstenite.specs.Failure.{IsIo, IsOutside};
ghost use Rattle.ls_outside.specs.Causes.{Rose};
ghost use Rattle.ls_talk.specs.Lines.{line_bytes};
ghost use Rattle.ls_talk.specs.Talks.{IsMessage};
ghost use Rattle.ls_ws.specs.Wires.{Answers, ClosesOf, FailsOf, IsGiven, ReadsOf, WaitsOf};

use crate::stream::Stream;
use ls_outside::Pipe;
use ls_talk::{Incoming, LONGEST_MESSAGE};
use ls_value::{Bytes, NoMemory};
use std::alloc::Global;
use tungstenite::{Bytes as Payload, Error, Message, NoMask, Utf8Bytes, WebSocket};

/// Why a socket refused a call.
#[derive(Clone, Copy, Debug, PartialEq, Eq)]
pub(crate) enum Refused {
    /// Memory was refused.
    NoMemory,

    /// The pipe failed, or has to be waited for.
    Stream,

    /// Anything else: the protocol, or the socket's own output.
    Failed,
}

/// What an error of a socket says.
pub(crate) fn refused_by(error: Error) -> Refused
    ensures memory { result ≡ Refused.NoMemory → error ≡ Error.OutOfMemory }
    ensures stream { result ≡ Refused.Stream → IsIo error }
    ensures failed { result ≡ Refused.Failed → ¬ IsOutside error }
{
    match error {
        Error::OutOfMemory => Refused::NoMemory,
        Error::Io(_) => Refused::Stream,
        _ => Refused::Failed,
    }
}

/// The text message of a line: its text and CR LF.
pub(crate) fn message_of(alloc: Global, text: &[u8]) -> Result<Message, NoMemory>
    requires { IsUtf8 text.now }
    ensures { IfOk result (λ m. content_of m ≡ text_content (line_bytes text.now)) }
{
    let mut line = Vec::with_capacity(alloc, text.len().saturating_add(2))?;
    line.extend_from_slice(text)?;
    line.extend_from_slice(b"\r\n")?;
    let Ok(bytes) = Payload::from_vec(line) else {
        return Err(NoMemory);
    };
    Ok(Message::Text(Utf8Bytes::from_known_utf8(bytes)))
}

/// Puts one text message of a line into what goes out, or is held back.
pub(crate) fn send<C: Pipe + Drop>(
    socket: &mut WebSocket<Stream<C>, NoMask>,
    alloc: Global,
    text: &[u8],
) -> Result<(), Refused>
    requires { IsUtf8 text.now }
    ensures sent { OnOk result (Writes (λ s. append_known (C.held s.pipe) s.unsent) socket.old socket.new
        (write_step socket.old.conn (text_content (line_bytes text.now)))) }
    ensures memory { IfErr result (λ why. why ≡ Refused.NoMemory → socket.new ≡ socket.old) }
{
    let Ok(message) = message_of(alloc, text) else {
        return Err(Refused::NoMemory);
    };
    match socket.write(message) {
        Ok(()) => Ok(()),
        Err(error) => Err(refused_by(error)),
    }
}

/// Why no message came, told apart by the pipe's own counts.
#[derive(Clone, Copy, Debug, PartialEq, Eq)]
pub(crate) enum Missed {
    /// A read of the pipe failed.
    Read,

    /// A write to the pipe failed, as that of an answer to a ping.
    Write,

    /// The pipe had no byte yet.
    Idle,

    /// None will come.
    Closed,

    /// Memory was refused, or the pipe is to blame and counted nothing.
    NoMemory,
}

/// The next message, or why there is none.
pub(crate) fn next_message<C: Pipe + Drop>(
    socket: &mut WebSocket<Stream<C>, NoMask>,
) -> Result<Message, Missed>
    ensures message { IfOk result (λ m. Reads (λ s. C.unread s.pipe) socket.old socket.new (Ok m)) }
    ensures read { IfErr result (λ why. why ≡ Missed.Read
        → Rose (C.Source.faults socket.old.stream.pipe) (C.Source.faults socket.new.stream.pipe)) }
    ensures write { IfErr result (λ why. why ≡ Missed.Write
        → Rose (C.Sink.faults socket.old.stream.pipe) (C.Sink.faults socket.new.stream.pipe)) }
    ensures waits { IfErr result (λ why. why ≡ Missed.Idle
        → WaitsOf (λ s. C.unread s.pipe) socket.old socket.new) }
    ensures idle { IfErr result (λ why. why ≡ Missed.Idle
        → Rose (C.waits socket.old.stream.pipe) (C.waits socket.new.stream.pipe)) }
    ensures closed { IfErr result (λ why. why ≡ Missed.Closed
        → FailsOf (λ s. C.unread s.pipe) socket.old socket.new) }
{
    let reads = socket.get_ref().pipe.read_faults();
    let writes = socket.get_ref().pipe.write_faults();
    let idles = socket.get_ref().pipe.idles();
    let error = match socket.read() {
        Ok(message) => return Ok(message),
        Err(error) => error,
    };
    let why = refused_by(error);
    let pipe = &socket.get_ref().pipe;
    if pipe.read_faults() > reads {
        return Err(Missed::Read);
    }
    if pipe.write_faults() > writes {
        return Err(Missed::Write);
    }
    match why {
        Refused::NoMemory => Err(Missed::NoMemory),
        Refused::Failed => Err(Missed::Closed),
        Refused::Stream => {
            if pipe.idles() > idles {
                Err(Missed::Idle)
            } else {
                Err(Missed::NoMemory)
            }
        }
    }
}

/// The answer that gives a message: a close has none.
pub(crate) fn answer_to(alloc: Global, message: &Message) -> Result<Option<Incoming>, NoMemory>
    ensures answers { IfOk result (λ given. IfSome given (Answers message.now)) }
    ensures message { IfOk result (λ given. IfSome given IsMessage) }
    ensures given { IfOk result (λ given. IfSome given IsGiven) }
    ensures none { IfOk result (λ given. given ≡ None → kind_of message.now ≡ 4) }
{
    match message {
        Message::Text(text) => {
            if text.len() > LONGEST_MESSAGE {
                return Ok(Some(Incoming::Long));
            }
            let bytes = Bytes::of(alloc, text.as_str().as_bytes())?;
            Ok(Some(Incoming::Text(bytes)))
        }
        Message::Binary(_) => Ok(Some(Incoming::Binary)),
        Message::Ping(_) | Message::Pong(_) => Ok(Some(Incoming::Control)),
        Message::Close(_) => Ok(None),
    }
}

/// The next message as an answer, or why there is none. Where the peer closes, the socket's close goes out too.
///
/// It isn't inlined, so that the stack of a message's answer isn't under that of its reading.
#[inline(never)]
pub(crate) fn receive<C: Pipe + Drop>(
    socket: &mut WebSocket<Stream<C>, NoMask>,
    alloc: Global,
) -> Result<Incoming, Missed>
    ensures message { IfOk result IsMessage }
    ensures given { IfOk result IsGiven }
    ensures reads { IfOk result (ReadsOf (λ s. C.unread s.pipe) socket.old socket.new) }
    ensures read { IfErr result (λ why. why ≡ Missed.Read
        → Rose (C.Source.faults socket.old.stream.pipe) (C.Source.faults socket.new.stream.pipe)) }
    ensures write { IfErr result (λ why. why ≡ Missed.Write
        → Rose (C.Sink.faults socket.old.stream.pipe) (C.Sink.faults socket.new.stream.pipe)) }
    ensures waits { IfErr result (λ why. why ≡ Missed.Idle
        → WaitsOf (λ s. C.unread s.pipe) socket.old socket.new) }
    ensures idle { IfErr result (λ why. why ≡ Missed.Idle
        → Rose (C.waits socket.old.stream.pipe) (C.waits socket.new.stream.pipe)) }
    ensures closed { IfErr result (λ why. why ≡ Missed.Closed
        → ClosesOf (λ s. C.unread s.pipe) socket.old socket.new) }
{
    let message = match next_message(socket) {
        Ok(message) => message,
        Err(why) => return Err(why),
    };
    let answer = match answer_to(alloc, &message) {
        Ok(answer) => answer,
        Err(_) => return Err(Missed::NoMemory),
    };
    match answer {
        Some(answer) => Ok(answer),
        None => {
            flush(socket);
            Err(Missed::Closed)
        }
    }
}

/// Writes what is held back, as the answer to a close, and answers whether all of it was written.
pub(crate) fn flush<C: Pipe + Drop>(socket: &mut WebSocket<Stream<C>, NoMask>) -> bool {
    match socket.flush() {
        Ok(()) => true,
        Err(error) => {
            refused_by(error);
            false
        }
    }
}
