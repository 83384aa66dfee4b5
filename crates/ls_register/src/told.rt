//! What a session's history tells.
ghost use Rattle.std.specs.Prelude.{◌≡◌};

use crate::begun::SlotBegun;
use ls_line::LineBuf;
use ls_turns::SlotRef;
use ls_value::Names;
use std::marker::Model;

/// An entry of a session's history. Ticks are in ms, rates in thousandths of kbit/s, lengths in bytes. A text stands in
/// room for the longest line, so that a session tells of each line in the room that it has.
#[derive(Drop)]
pub enum Told {
    /// A line was numbered.
    Numbered(Numbered),
    /// A line's text, without CR LF, was given on the stream of an epoch.
    Gave {
        epoch: u64,
        text: LineBuf,
        tick: u64,
    },
    /// A stream is bound: its epoch, the number of the last line that counts as given before it, whether its client
    /// told that number, its keep-alive in ms, and its content length, if it has one (TLCP 2.1, create_session,
    /// bind_session).
    Bound {
        epoch: u64,
        from: u64,
        counted: bool,
        keepalive: u32,
        length: Option<u64>,
    },
    /// The session's bandwidth, `None` where it is unlimited (TLCP 2.1, LS_requested_max_bandwidth).
    Rate {
        rate: Option<u64>,
        tick: u64,
    },
    /// The stream is to be left by LOOP (TLCP 2.1, force_rebind).
    Rebind,
    /// The stream is lost.
    Unbound {
        tick: u64,
    },
    /// The session has ended, for a cause by its code (TLCP 2.1, END).
    Ended {
        code: u16,
        tick: u64,
    },
}

/// A line that was numbered: its text without CR LF, and where a cut of a slot made it, the slot, its cursor before and
/// after the cut, and the number of the event at which its row stands. A line without a slot has 0 in these three. The
/// line with which a subscription begins also says with what, for contracts alone.
#[derive(Drop)]
pub struct Numbered {
    pub text: LineBuf,
    pub slot: Option<SlotRef>,
    pub before: u64,
    pub upto: u64,
    pub at: u64,
    pub begun: Option<Begun>,
    pub tick: u64,
}

/// With what a subscription began: the names of its fields, and its slots in the order of its items. Contracts see both.
#[derive(Drop)]
pub struct Begun {
    pub schema: Names,
    pub slots: Vec<SlotBegun>,
}

impl Model for Begun {
    ghost use Rattle.ls_register.specs.Begun.{BegunSeen};

    ghost Value = { BegunSeen };

    ghost view = { λ b. record { schema = b.schema; slots = b.slots.items } };
}

impl Begun {
    /// A schema and slots. It takes no memory.
    pub fn new(schema: Names, slots: Vec<SlotBegun>) -> Begun
        ensures { result ≡ record { schema = schema; slots = slots.items } }
    {
        Begun { schema, slots }
    }
}
