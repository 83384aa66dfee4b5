//! What a request's target asks for (the paths are those of Lightstreamer servers; TLCP 2.1, LS_protocol).
ghost use Rattle.std.specs.Prelude.{◌≡◌, IfOk};
ghost use Rattle.ls_http.specs.Targets.{path_of, query_of, asked_of, name_of, says_version};

use ls_form::{FormRefused, pairs};
use ls_value::NoMemory;
use ls_words::split_once;
use std::alloc::Global;

/// What a path asks for.
#[derive(Clone, Copy, Debug, PartialEq, Eq)]
pub enum Asked {
    /// The upgrade to WebSocket.
    Upgrade,
    /// A request, whose parameters are the body.
    Request(Named),
    /// There is no such path.
    Nothing,
}

/// The requests that have a path.
#[derive(Clone, Copy, Debug, PartialEq, Eq)]
pub enum Named {
    /// A new session.
    CreateSession,
    /// A new stream of a session.
    BindSession,
    /// Requests on a session.
    Control,
}

impl Named {
    /// The request's name (TLCP 2.1).
    pub fn text(self) -> &'static str
        ensures { result.now ≡ name_of self }
    {
        match self {
            Named::CreateSession => "create_session",
            Named::BindSession => "bind_session",
            Named::Control => "control",
        }
    }
}

/// The path of a target, and its query, which is empty where there is none.
pub fn split_target(target: &[u8]) -> (&[u8], &[u8])
    ensures path { result.0.now ≡ path_of target.now }
    ensures query { result.1.now ≡ query_of target.now }
{
    match split_once(b'?', target) {
        Some((path, query)) => (path, query),
        None => (target, b""),
    }
}

/// What a path asks for.
pub fn asked_of(path: &[u8]) -> Asked
    ensures { result ≡ asked_of path.now }
{
    if path == b"/lightstreamer".as_slice() {
        Asked::Upgrade
    } else if path == b"/lightstreamer/create_session.txt".as_slice() {
        Asked::Request(Named::CreateSession)
    } else if path == b"/lightstreamer/bind_session.txt".as_slice() {
        Asked::Request(Named::BindSession)
    } else if path == b"/lightstreamer/control.txt".as_slice() {
        Asked::Request(Named::Control)
    } else {
        Asked::Nothing
    }
}

/// Whether a query is a form text, in which no name stands twice, and names the protocol's version.
pub fn says_version(alloc: Global, query: &[u8]) -> Result<bool, NoMemory>
    ensures { IfOk result (λ says. says ≡ says_version query.now) }
{
    match pairs(alloc, query) {
        Ok(params) => match params.find(b"LS_protocol") {
            Some(version) => Ok(version.as_bytes() == b"TLCP-2.1.0".as_slice()),
            None => Ok(false),
        },
        Err(FormRefused::NoMemory) => Err(NoMemory),
        Err(_) => Ok(false),
    }
}
