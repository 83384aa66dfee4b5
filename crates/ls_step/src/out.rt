//! What a script prints (this project's profile).
ghost use Rattle.std.specs.Prelude.{◌≡◌, ◌≤◌, ◌<◌, ◌+◌, ◌++◌, length, IfOk, OnOk, OnErr};
ghost use Rattle.std.specs.Vec.{vec_len, vec_capacity};
ghost use Rattle.ls_step.specs.declared.limits.TheConstants.{LONGEST_NOTE};
ghost use Rattle.ls_step.specs.Notes.{note, number_note, line_on, text_of_out, room_for};
ghost use Rattle.ls_step.specs.Notes.{printed_text, printed_room, IsShort};

use ls_value::{Bytes, NoMemory, Text};
use ls_words::append_decimal;
use std::alloc::Global;

/// A printed line: a note, or a line on a connection (this project's profile).
#[derive(Drop)]
pub enum Out {
    /// A publish: the event has this number in its item's history.
    Published { no: u64 },
    /// A publish whose seq isn't above the adapter's last one.
    Repeated { last: u64 },
    /// A publish on a COMMAND item without a key.
    NoKey,
    /// A publish on a COMMAND item with another command than ADD, UPDATE and DELETE.
    BadCommand,
    /// A publish whose texts, or the row that it makes, are too long: so many bytes.
    TooLong { bytes: u64 },
    /// A publish that would give a COMMAND item too many keys.
    TooManyKeys,
    /// A publish that would leave a slot too far behind.
    Backlog { slot: u32 },
    /// A number has come to its end: the events of an item, or what a turn counts.
    Spent,
    /// An enqueue: the slot has taken the event of this number.
    Moved { no: u64 },
    /// An enqueue on a slot that has taken each event.
    UpToDate,
    /// An enqueue where the connection has no session, or its session no such subscription and rank.
    NoSlot,
    /// A turn without a line to give.
    Idle,
    /// A turn without a line to give before a tick.
    NotDue { at: u64 },
    /// A turn, or a loss, of a stream whose session was bound again since, at this epoch.
    Superseded { epoch: u64 },
    /// A turn of a session that has ended, for the cause of this code.
    Ended { code: u16 },
    /// A turn, or a loss, where no stream is bound.
    Unbound,
    /// A turn, or a loss, on a connection that never had a session.
    NoSession,
    /// A loss: the stream is no longer bound.
    Lost,
    /// A line on the connection of this name.
    Line { connection: Text, text: Bytes },
}

/// What is printed of a printed line: a note of a word, or of a word and a number, or a line on a connection.
#[derive(Clone, Copy)]
enum Printed<'a> {
    Word(&'static [u8]),
    Number(&'static [u8], u64),
    Line(&'a Text, &'a Bytes),
}

/// The text of a printed line, ended by LF (this project's profile).
pub fn print(alloc: Global, out: &Out) -> Result<Bytes, NoMemory>
    ensures { IfOk result (λ text. text ≡ text_of_out out.now) }
{
    let mut text = Vec::new(alloc);
    append(&mut text, out)?;
    Ok(Bytes::from_vec(text))
}

/// Appends a printed line, ended by LF, to a text (this project's profile). Where there is room for it, or for
/// `LONGEST_NOTE` bytes and it is a note, no memory is taken. After `NoMemory` a part of it may be there.
pub fn append(text: &mut Vec<u8>, out: &Out) -> Result<(), NoMemory>
    ensures text { OnOk result (text.new.items ≡ text.old.items ++ text_of_out out.now) }
    ensures room { OnErr result (vec_capacity text.old < vec_len text.old + room_for out.now) }
{
    match printed_of(out) {
        Printed::Word(word) => note(text, word),
        Printed::Number(word, n) => number_note(text, word, n),
        Printed::Line(connection, line) => {
            append_line(text, connection.as_bytes(), line.as_slice())
        }
    }
}

/// What is printed of a printed line.
fn printed_of(out: &Out) -> Printed<'_>
    ensures { (printed_text result ≡ text_of_out out.now) × (printed_room result ≡ room_for out.now) × IsShort result }
{
    match out {
        Out::Published { no } => Printed::Number(b"-no", *no),
        Out::Repeated { last } => Printed::Number(b"-repeated", *last),
        Out::NoKey => Printed::Word(b"-nokey"),
        Out::BadCommand => Printed::Word(b"-badcommand"),
        Out::TooLong { bytes } => Printed::Number(b"-toolong", *bytes),
        Out::TooManyKeys => Printed::Word(b"-toomanykeys"),
        Out::Backlog { slot } => Printed::Number(b"-backlog", u64::from(*slot)),
        Out::Spent => Printed::Word(b"-spent"),
        Out::Moved { no } => Printed::Number(b"-moved", *no),
        Out::UpToDate => Printed::Word(b"-uptodate"),
        Out::NoSlot => Printed::Word(b"-noslot"),
        Out::Idle => Printed::Word(b"-idle"),
        Out::NotDue { at } => Printed::Number(b"-notdue", *at),
        Out::Superseded { epoch } => Printed::Number(b"-superseded", *epoch),
        Out::Ended { code } => Printed::Number(b"-ended", u64::from(*code)),
        Out::Unbound => Printed::Word(b"-unbound"),
        Out::NoSession => Printed::Word(b"-none"),
        Out::Lost => Printed::Word(b"-lost"),
        Out::Line { connection, text } => Printed::Line(connection, text),
    }
}

/// A note of a word alone.
fn note(text: &mut Vec<u8>, word: &[u8]) -> Result<(), NoMemory>
    requires { length word.now ≤ 32 }
    ensures text { OnOk result (text.new.items ≡ text.old.items ++ note word.now) }
    ensures room { OnErr result (vec_capacity text.old < vec_len text.old + LONGEST_NOTE) }
{
    text.extend_from_slice(word)?;
    text.push(b'\n')?;
    Ok(())
}

/// A note of a word and a number.
fn number_note(text: &mut Vec<u8>, word: &[u8], n: u64) -> Result<(), NoMemory>
    requires { length word.now ≤ 11 }
    ensures text { OnOk result (text.new.items ≡ text.old.items ++ number_note word.now n) }
    ensures room { OnErr result (vec_capacity text.old < vec_len text.old + LONGEST_NOTE) }
{
    text.extend_from_slice(word)?;
    text.push(b' ')?;
    append_decimal(text, n)?;
    text.push(b'\n')?;
    Ok(())
}

/// Appends a line on the connection of a name, ended by LF. Where there is room for it no memory is taken.
pub fn append_line(text: &mut Vec<u8>, connection: &[u8], line: &[u8]) -> Result<(), NoMemory>
    ensures text { OnOk result (text.new.items ≡ text.old.items ++ line_on connection.now line.now) }
    ensures room { OnErr result (vec_capacity text.old < vec_len text.old
        + (length connection.now + (length line.now + 2))) }
{
    text.extend_from_slice(connection)?;
    text.push(b':')?;
    text.extend_from_slice(line)?;
    text.push(b'\n')?;
    Ok(())
}
