//! Requests that parameters say.
ghost use Rattle.std.specs.Prelude.{IfOk};
ghost use Rattle.ls_request.specs.Ranges.{ControlFits, CreateFits};

use ls_request::{Bind, Control, Create, LinkKind, Request, RequestRefused, read};
use ls_shared::Refusal;
use std::alloc::Global;

/// The code of a request that can't be read.
const MALFORMED: u16 = 65;

/// Why a request can't be read.
fn unread(refused: RequestRefused) -> Refusal {
    match refused {
        RequestRefused::NoMemory => Refusal::NoMemory,
        RequestRefused::Malformed { req } => {
            drop(req);
            Refusal::Code(MALFORMED)
        }
    }
}

/// The request for a session that parameters say.
pub fn create_of(alloc: Global, params: &str) -> Result<Create, Refusal>
    ensures { IfOk result CreateFits }
{
    match read(alloc, LinkKind::Ws, b"create_session", params.as_bytes()) {
        Ok(Request::Create(create)) => Ok(create),
        Ok(other) => {
            drop(other);
            Err(Refusal::Code(MALFORMED))
        }
        Err(refused) => Err(unread(refused)),
    }
}

/// The request for a stream that parameters say.
pub fn bind_of(alloc: Global, params: &str) -> Result<Bind, Refusal> {
    match read(alloc, LinkKind::Ws, b"bind_session", params.as_bytes()) {
        Ok(Request::Bind(bind)) => Ok(bind),
        Ok(other) => {
            drop(other);
            Err(Refusal::Code(MALFORMED))
        }
        Err(refused) => Err(unread(refused)),
    }
}

/// The request to change a session that parameters say.
pub fn control_of(alloc: Global, params: &str) -> Result<Control, Refusal>
    ensures { IfOk result ControlFits }
{
    match read(alloc, LinkKind::Ws, b"control", params.as_bytes()) {
        Ok(Request::Control(control)) => Ok(control),
        Ok(other) => {
            drop(other);
            Err(Refusal::Code(MALFORMED))
        }
        Err(refused) => Err(unread(refused)),
    }
}
