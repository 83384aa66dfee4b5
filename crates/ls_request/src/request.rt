//! Requests as they were read (TLCP 2.1, requests).
use ls_event::{Mode, Snap};
use ls_value::{Names, NoMemory, Text};

/// What a request came over.
#[derive(Clone, Copy, Debug, PartialEq, Eq)]
pub enum LinkKind {
    /// A request over HTTP (TLCP 2.1, HTTP transport).
    Http,
    /// A message over a WebSocket (TLCP 2.1, WebSocket transport).
    Ws,
}

/// A request.
#[derive(Drop)]
pub enum Request {
    /// A new session (TLCP 2.1, create_session).
    Create(Create),
    /// A new stream of a session (TLCP 2.1, bind_session).
    Bind(Bind),
    /// A change of a session (TLCP 2.1, control).
    Control(Control),
    /// Whether the WebSocket works (TLCP 2.1, wsok).
    Wsok,
}

/// A request for a new session (TLCP 2.1, create_session).
#[derive(Drop)]
pub struct Create {
    /// The adapter set, where one is named.
    pub set: Option<Text>,
    /// The keep-alive time in milliseconds, from 1,000 to 30,000.
    pub keepalive: u32,
    /// The most bandwidth, in thousandths of kbit/s, above 0. `None` is unlimited.
    pub bandwidth: Option<u64>,
    /// The content length of the stream in bytes, at least 1,000. `None` on a WebSocket, which has none.
    pub length: Option<u64>,
}

/// A request for a new stream of a session (TLCP 2.1, bind_session).
#[derive(Drop)]
pub struct Bind {
    /// The session's number. A session text of another form is 0, which no session has.
    pub session: u64,
    /// The number of numbered lines that the client has, where it recovers (TLCP 2.1, LS_recovery_from).
    pub recover: Option<u64>,
    /// The keep-alive time in milliseconds, from 1,000 to 30,000.
    pub keepalive: u32,
    /// The content length of the stream in bytes, at least 1,000. `None` on a WebSocket, which has none.
    pub length: Option<u64>,
}

/// A request to change a session (TLCP 2.1, control).
#[derive(Drop)]
pub struct Control {
    /// The request's own name, 1 to 32 ASCII letters or digits (TLCP 2.1, LS_reqId).
    pub req: Text,
    /// The session's number, or 0 as in `Bind`. `None`, on a WebSocket alone, is the session of the connection.
    pub session: Option<u64>,
    /// What is asked for.
    pub op: Op,
}

/// What a control request asks for (TLCP 2.1, LS_op). A subscription's number is an ordinal, from 1
/// to `GREATEST_ORDINAL` (ls_value).
#[derive(Drop)]
pub enum Op {
    /// A new subscription.
    Add(Add),
    /// The end of a subscription.
    Delete { sub: u32 },
    /// Another frequency of a subscription, in thousandths of an update per second, above 0. `None` is unlimited.
    Reconf { sub: u32, frequency: Option<u64> },
    /// Another bandwidth of the session, in thousandths of kbit/s, above 0. `None` is unlimited.
    Constrain { bandwidth: Option<u64> },
    /// The stream is to be left, and bound again.
    ForceRebind,
    /// The end of the session.
    Destroy,
}

/// A new subscription (TLCP 2.1, control with LS_op add). What its mode ignores stands here as it was read.
#[derive(Drop)]
pub struct Add {
    /// The subscription's number, an ordinal.
    pub sub: u32,
    /// How its slots tell of their items.
    pub mode: Mode,
    /// The names of the items, none of them empty.
    pub group: Names,
    /// The names of the fields, none of them empty.
    pub schema: Names,
    /// The snapshot that is asked for. The last so many rows only in mode DISTINCT; how many is an ordinal.
    pub snapshot: Snap,
    /// The size of the buffers, an ordinal; `unlimited` is the greatest. `None` is the mode's default.
    pub size: Option<u32>,
    /// The most updates of an item, in thousandths per second, above 0. `None` is unlimited.
    pub frequency: Option<u64>,
}

/// Why a request isn't read.
#[derive(Drop)]
pub enum RequestRefused {
    /// It is outside the form of requests. The request's own name is told exactly where it is a control request whose
    /// name was read.
    Malformed { req: Option<Text> },
    /// Memory was refused.
    NoMemory,
}

impl From<NoMemory> for RequestRefused {
    ghost use Rattle.std.specs.Prelude.{◌≡◌};
    ghost use Rattle.ls_request.specs.declared.request.RequestRefused.TheVariants as refused;

    ghost from_gives = { λ _ e. e ≡ refused.NoMemory };

    fn from(_: NoMemory) -> RequestRefused {
        RequestRefused::NoMemory
    }
}
