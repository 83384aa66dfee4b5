//! What a line says.
use ls_value::{Bytes, NoMemory, Text};

/// What a line says (TLCP 2.1, and MSGDONE and MSGFAIL of this project's profile): a variant for each tag.
///
/// Numbers of subscriptions, items and fields are ordinals, from 1 to 999,999,999; other numbers are at most 2^60.
/// A text holds no comma, CR or LF; a message, which is the last part of its line, may hold commas.
#[derive(Drop)]
pub enum Line {
    /// `CONOK,<session>,50000,<keep-alive>,*`: a session's stream begins.
    ConOk {
        /// The session's name.
        session: Text,
        /// The longest silence of the stream, in ms.
        keep_alive: u64,
    },
    /// `CONERR,<code>,<message>`: a stream was refused.
    ConErr {
        /// The cause's number.
        code: u64,
        /// The cause in words.
        message: Text,
    },
    /// `SERVNAME,tlcpd`: the server's name.
    ServName,
    /// `CONS,<bandwidth>`: the session's greatest bandwidth.
    Cons {
        /// Kilobits a second as a decimal, or `unlimited`.
        bandwidth: Text,
    },
    /// `PROG,<count>`: how many numbered lines of the session came before this stream's.
    Prog {
        /// The count of numbered lines.
        count: u64,
    },
    /// `PROBE`: the stream is alive.
    Probe,
    /// `LOOP,0`: the stream ends, and the client may bind again at once.
    Loop,
    /// `END,<code>,<message>`: the session has ended.
    End {
        /// The cause's number.
        code: u64,
        /// The cause in words.
        message: Text,
    },
    /// `SUBOK,<sub>,<items>,<fields>`: a subscription begins.
    SubOk {
        /// The subscription's number.
        sub: u32,
        /// The number of its items.
        items: u32,
        /// The number of fields of its schema.
        fields: u32,
    },
    /// `SUBCMD,<sub>,<items>,<fields>,<key place>,<command place>`: a subscription in mode COMMAND begins.
    SubCmd {
        /// The subscription's number.
        sub: u32,
        /// The number of its items.
        items: u32,
        /// The number of fields of its schema.
        fields: u32,
        /// The place of the field `key` in the schema, from 1.
        key: u32,
        /// The place of the field `command` in the schema, from 1.
        command: u32,
    },
    /// `CONF,<sub>,<frequency>,<filter>`: a subscription's greatest frequency.
    Conf {
        /// The subscription's number.
        sub: u32,
        /// Updates a second as a decimal, or `unlimited`.
        frequency: Text,
        /// `filtered` or `unfiltered`.
        filter: Text,
    },
    /// `UNSUB,<sub>`: a subscription has ended.
    Unsub {
        /// The subscription's number.
        sub: u32,
    },
    /// `EOS,<sub>,<item>`: the snapshot of an item is over.
    Eos {
        /// The subscription's number.
        sub: u32,
        /// The item's rank in the subscription, from 1.
        item: u32,
    },
    /// `CS,<sub>,<item>`: the snapshot of an item is cleared.
    Cs {
        /// The subscription's number.
        sub: u32,
        /// The item's rank in the subscription, from 1.
        item: u32,
    },
    /// `OV,<sub>,<item>,<lost>`: updates of an item were lost.
    Ov {
        /// The subscription's number.
        sub: u32,
        /// The item's rank in the subscription, from 1.
        item: u32,
        /// How many updates were lost.
        lost: u64,
    },
    /// `U,<sub>,<item>,<coded fields>`: an update of an item.
    U {
        /// The subscription's number.
        sub: u32,
        /// The item's rank in the subscription, from 1.
        item: u32,
        /// The fields' values, as TLCP codes them: the rest of the line.
        fields: Bytes,
    },
    /// `REQOK,<reqId>`: a request was accepted.
    ReqOk {
        /// The request's id.
        request: Text,
    },
    /// `REQERR,<reqId>,<code>,<message>`: a request was refused.
    ReqErr {
        /// The request's id.
        request: Text,
        /// The cause's number.
        code: u64,
        /// The cause in words.
        message: Text,
    },
    /// `ERROR,<code>,<message>`: a request was refused whose id is not known.
    Error {
        /// The cause's number.
        code: u64,
        /// The cause in words.
        message: Text,
    },
    /// `WSOK`: the answer to `wsok`.
    WsOk,
    /// `MSGDONE,<sequence>,<number>`: a client's message was handed on (this project's profile).
    MsgDone {
        /// The name of the message's sequence, or `*`.
        sequence: Text,
        /// The message's number.
        number: u64,
    },
    /// `MSGFAIL,<sequence>,<number>,<code>,<message>`: a client's message was not handed on (this project's profile).
    MsgFail {
        /// The name of the message's sequence, or `*`.
        sequence: Text,
        /// The message's number.
        number: u64,
        /// The cause's number.
        code: u64,
        /// The cause in words.
        message: Text,
    },
}

/// Why bytes are no line, the first cause in this order. The pieces between its commas are counted from 1, and the
/// tag is the first.
#[derive(Clone, Copy, Debug, PartialEq, Eq)]
pub enum LineRefused {
    /// The first piece is no tag that is read. MSGDONE and MSGFAIL are not read.
    BadTag,
    /// The line has not as many pieces as its tag asks for. A message and coded fields are all that is left of a line.
    BadCount,
    /// A number is no decimal without leading zeros, or is outside its range.
    BadNumber {
        /// The first such piece.
        at: u64,
    },
    /// A text is not UTF-8, or a piece is not the word that stands there in each line of this tag.
    BadText {
        /// The first such piece.
        at: u64,
    },
    /// Memory was refused.
    NoMemory,
}

impl From<NoMemory> for LineRefused {
    ghost use Rattle.std.specs.Prelude.{◌≡◌};
    ghost use Rattle.ls_line.specs.declared.line.LineRefused.TheVariants as refused;

    ghost from_gives = { λ _ e. e ≡ refused.NoMemory };

    fn from(_: NoMemory) -> LineRefused {
        LineRefused::NoMemory
    }
}
