//! The answers to requests (TLCP 2.1, REQOK, REQERR, CONERR, ERROR and WSOK).
ghost use Rattle.std.specs.Prelude.{◌≡◌, IfOk, Some};
ghost use Rattle.ls_line.specs.declared.line.Line.TheVariants as line;
ghost use Rattle.ls_record.specs.Acting.{message_of, is_opening};
ghost use Rattle.ls_acts.specs.Answers.{answer_line, malformed_line};

use ls_line::Line;
use ls_record::message_of;
use ls_value::{NoMemory, Text, same_bytes};
use std::alloc::Global;

/// The code of a malformed request.
pub const MALFORMED: u16 = 65;

/// The code of a session that isn't there, or has ended.
pub const UNKNOWN_SESSION: u16 = 20;

/// The answer to a control request of this name: REQOK where it was done, or REQERR where it was refused for the cause
/// of a code.
pub fn answer(alloc: Global, request: &Text, code: Option<u16>) -> Result<Line, NoMemory>
    ensures { IfOk result (λ l. l ≡ answer_line request.now code) }
{
    let request = request.copy(alloc)?;
    match code {
        None => Ok(Line::ReqOk { request }),
        Some(code) => request_refused(alloc, request, code),
    }
}

/// The answer to a malformed request, by its name, and by its own name where that was read: CONERR where it is one for
/// a session or a stream, REQERR where its own name was read, and else ERROR.
pub fn malformed(alloc: Global, name: &[u8], request: Option<Text>) -> Result<Line, NoMemory>
    ensures { IfOk result (λ l. l ≡ malformed_line name.now request) }
{
    if is_opening(name) {
        return session_refused(alloc, MALFORMED);
    }
    match request {
        Some(request) => request_refused(alloc, request, MALFORMED),
        None => error(alloc, MALFORMED),
    }
}

/// The line CONERR: a request for a session or a stream is refused for the cause of a code.
pub fn session_refused(alloc: Global, code: u16) -> Result<Line, NoMemory>
    ensures { IfOk result (λ l. l ≡ line.ConErr code (message_of code)) }
{
    let message = Text::from_str(alloc, message_of(code))?;
    Ok(Line::ConErr {
        code: u64::from(code),
        message,
    })
}

/// The line REQERR: the control request of this name is refused for the cause of a code.
fn request_refused(alloc: Global, request: Text, code: u16) -> Result<Line, NoMemory>
    ensures { IfOk result (λ l. l ≡ line.ReqErr request code (message_of code)) }
{
    let message = Text::from_str(alloc, message_of(code))?;
    Ok(Line::ReqErr {
        request,
        code: u64::from(code),
        message,
    })
}

/// The line ERROR: a request whose own name can't be told is refused for the cause of a code.
fn error(alloc: Global, code: u16) -> Result<Line, NoMemory>
    ensures { IfOk result (λ l. l ≡ line.Error code (message_of code)) }
{
    let message = Text::from_str(alloc, message_of(code))?;
    Ok(Line::Error {
        code: u64::from(code),
        message,
    })
}

/// Whether a name is that of a request for a session or a stream.
fn is_opening(name: &[u8]) -> bool
    ensures { result ≡ is_opening name.now }
{
    same_bytes(name, b"create_session") || same_bytes(name, b"bind_session")
}
