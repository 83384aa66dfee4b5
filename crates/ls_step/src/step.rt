//! The steps of a script: what each of its lines asks for (this project's profile).
use ls_event::{Kind, Mode};
use ls_request::LinkKind;
use ls_value::{Bytes, Cells, Names, Text};

/// What a line asks for. Items and connections go by their numbers from 0, in the order in which they were declared.
#[derive(Drop)]
pub enum Step {
    /// `set <name>`: the adapter set has this name from here on.
    Set {
        name: Text,
    },
    /// `item <name> <kind> <f,f,f>`: a new item.
    Item {
        name: Text,
        kind: Kind,
        fields: Names,
    },
    /// `tick <ms>`: the clock goes to this number of milliseconds.
    Tick {
        ms: u64,
    },
    /// `conn <c> <ws or http>`: a new connection.
    Conn {
        name: Text,
        link: LinkKind,
    },
    /// `open <c>`: a new connection over WebSocket, and a create_session without parameters on it.
    Open {
        name: Text,
    },
    /// `add <c> ..`: a control request that adds a subscription to the connection's session.
    Add {
        connection: u32,
        words: AddWords,
    },
    /// `req <c> <name> <parameters>`: a request by its name, with its parameters as a form text.
    Request {
        connection: u32,
        name: Text,
        parameters: Bytes,
    },
    /// `pub <adapter> <seq> <item> <event>`: an update is published, with a cell for each of the item's fields.
    Publish {
        adapter: u8,
        seq: u64,
        item: u32,
        cells: Cells,
    },
    /// `clear <adapter> <seq> <item>`: a Clear is published.
    Clear {
        adapter: u8,
        seq: u64,
        item: u32,
    },
    /// `enq <c> <sub> <rank>`: the slot of a rank in a subscription takes the item's next event.
    Enqueue {
        connection: u32,
        sub: u64,
        rank: u64,
    },
    /// `take <c>`: a turn of the connection's session.
    Take {
        connection: u32,
    },
    /// `lose <c>`: the connection's stream is lost.
    Lose {
        connection: u32,
    },
}

/// The words of an `add` line, which are handed on as the parameters of a request; commas in items and fields divide
/// names.
#[derive(Drop)]
pub struct AddWords {
    pub sub: Bytes,
    pub items: Bytes,
    pub fields: Bytes,
    pub mode: Mode,
    /// The text behind `snapshot=`.
    pub snapshot: Option<Bytes>,
    /// The text behind `buffer=`.
    pub buffer: Option<Bytes>,
    /// The text behind `frequency=`.
    pub frequency: Option<Bytes>,
}

/// A step, and how often it is made at most: at least once, and no more than `MOST_TIMES`.
#[derive(Drop)]
pub struct Repeat {
    pub step: Step,
    pub times: u32,
}

/// The texts behind `snapshot=`, `buffer=` and `frequency=`.
#[derive(Drop)]
pub struct Extras {
    pub snapshot: Option<Bytes>,
    pub buffer: Option<Bytes>,
    pub frequency: Option<Bytes>,
}
