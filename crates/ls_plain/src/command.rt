//! The next cut of mode COMMAND from the whole history: a queue of keys, each with one turn for all that touched it.
ghost use Rattle.std.specs.Prelude.{◌≡◌, ◌≤◌, ◌&&◌, ◌==◌, [], IfOk, OnOk, length, map, drop, nat_lt, not};
ghost use Rattle.ls_event.specs.declared.event.Entry.{Entry as AnEntry};
ghost use Rattle.ls_event.specs.CommandCuts.{has_key, key_cursor, queue_touched, queue_after, queue_since, owed_keys};
ghost use Rattle.ls_event.specs.CommandCuts.{command_queue, key_taken, command_cut};
ghost use Rattle.ls_event.specs.Keyed.{key_of};
ghost use Rattle.ls_plain.specs.Plain.{command_slot, key_cursor_of};

use crate::distinct::clear_taken;
use crate::keyed::{CommandShape, plain_keyed, row_of, text_at};
use crate::updates::{clear_or, last_clear};
use ls_event::{Entry, Event, KeyedRow, Taken};
use ls_value::{Cell, NoMemory, Text, same_bytes};
use std::alloc::Global;

/// A turn that a key had, and the number up to which it tells of the key.
#[derive(Drop)]
pub struct KeyTurn {
    pub key: Text,
    pub cursor: u64,
}

/// The item and the numbers of a slot of mode COMMAND.
#[derive(Clone, Copy, Debug)]
pub struct CommandSlot {
    /// The item's fields.
    pub shape: CommandShape,
    /// The item's number when the slot joined.
    pub base: u64,
    /// The last number that was enqueued.
    pub last: u64,
    /// The number up to which lines tell of keys that had no turn.
    pub cursor: u64,
    /// How many keys of the snapshot are owed.
    pub owed: u64,
    /// Whether the end of the snapshot is owed.
    pub ends: bool,
}

/// The next cut of a slot of mode COMMAND, whose keys had these turns, the newest first; `None` where there is none
/// (General Concepts, mode COMMAND).
pub fn plain_command_cut(
    alloc: Global,
    history: &[Entry],
    slot: &CommandSlot,
    turns: &[KeyTurn],
) -> Result<Option<Taken>, NoMemory>
    requires order { slot.now.cursor ≤ slot.now.last }
    requires within { slot.now.last ≤ length history.now }
    requires joined { slot.now.base ≤ length history.now }
    ensures { IfOk result (λ t. t ≡ command_cut history.now (command_slot slot.now turns.now)) }
{
    if let Some(clear) = last_clear(history, slot.cursor as usize, slot.last as usize) {
        return Ok(Some(clear_taken(slot.ends, clear)));
    }
    if slot.ends && slot.owed == 0 {
        return Ok(Some(Taken::EndOfSnapshot));
    }
    let queue = plain_command_queue(alloc, history, slot, turns)?;
    match queue.get(0) {
        None => Ok(None),
        Some(key) => Ok(Some(turn_of(alloc, history, slot, key)?)),
    }
}

/// The turn of a key.
fn turn_of(
    alloc: Global,
    history: &[Entry],
    slot: &CommandSlot,
    key: &Text,
) -> Result<Taken, NoMemory>
    requires { slot.now.last ≤ length history.now }
    ensures { IfOk result (λ t. t ≡ key_taken history.now (command_slot slot.now []) key.now) }
{
    let rows = plain_keyed(alloc, history, &slot.shape, slot.last as usize)?;
    let row = row_of(alloc, &rows, key.as_bytes())?;
    Ok(Taken::Key {
        key: key.copy(alloc)?,
        row,
        upto: slot.last,
    })
}

/// The keys that have a turn: those of the snapshot that are owed, and those touched after their cursors, by their
/// first touch.
pub fn plain_command_queue(
    alloc: Global,
    history: &[Entry],
    slot: &CommandSlot,
    turns: &[KeyTurn],
) -> Result<Vec<Text>, NoMemory>
    requires order { slot.now.cursor ≤ slot.now.last }
    requires within { slot.now.last ≤ length history.now }
    requires joined { slot.now.base ≤ length history.now }
    ensures { IfOk result (λ queue. queue.items ≡ command_queue history.now (command_slot slot.now turns.now)) }
{
    let mut queue = owed(alloc, history, slot)?;
    touch_all(alloc, &mut queue, history, slot, turns)?;
    Ok(queue)
}

/// The keys of the snapshot that are owed, in the order of their bytes; a Clear drops them.
#[tactic(auto, using(crate::proofs::More::last_keys))]
fn owed(alloc: Global, history: &[Entry], slot: &CommandSlot) -> Result<Vec<Text>, NoMemory>
    requires order { slot.now.cursor ≤ slot.now.last }
    requires within { slot.now.last ≤ length history.now }
    requires joined { slot.now.base ≤ length history.now }
    ensures { IfOk result (λ keys. keys.items ≡ owed_keys history.now (command_slot slot.now [])) }
{
    if last_clear(history, slot.cursor as usize, slot.last as usize).is_some() {
        return Ok(Vec::new(alloc));
    }
    let rows = plain_keyed(alloc, history, &slot.shape, slot.base as usize)?;
    keys_from(alloc, &rows, rows.len().saturating_sub(slot.owed as usize))
}

/// The keys behind the first so many.
fn keys_from(alloc: Global, rows: &[KeyedRow], from: usize) -> Result<Vec<Text>, NoMemory>
    requires { from ≤ length rows.now }
    ensures { IfOk result (λ keys. keys.items ≡ map (λ k. k.key) (drop from rows.now)) }
{
    let mut keys = Vec::new(alloc);
    for i in from..rows.len() {
        keys.push(rows[i].key.copy(alloc)?)?;
    }
    Ok(keys)
}

/// The queue after the events behind the last Clear that no cut took.
fn touch_all(
    alloc: Global,
    queue: &mut Vec<Text>,
    history: &[Entry],
    slot: &CommandSlot,
    turns: &[KeyTurn],
) -> Result<(), NoMemory>
    requires order { slot.now.cursor ≤ slot.now.last }
    requires within { slot.now.last ≤ length history.now }
    ensures { OnOk result (queue.new.items
        ≡ queue_since history.now (command_slot slot.now turns.now) queue.old.items) }
{
    let last = slot.last as usize;
    for i in clear_or(history, slot.cursor as usize, last)..last {
        take(alloc, queue, slot, turns, i as u64 + 1, &history[i].event)?;
    }
    Ok(())
}

/// The queue after the event of a number.
fn take(
    alloc: Global,
    queue: &mut Vec<Text>,
    slot: &CommandSlot,
    turns: &[KeyTurn],
    no: u64,
    event: &Event,
) -> Result<(), NoMemory>
    ensures { OnOk result (queue.new.items
        ≡ queue_after (command_slot slot.now turns.now) queue.old.items no event.now) }
{
    match event {
        Event::Update(cells) => touch(alloc, queue, slot, turns, no, cells.as_slice()),
        Event::Clear => Ok(()),
    }
}

/// The queue after the update of a number: its key goes last, where it waits for no turn and its cursor lies before.
fn touch(
    alloc: Global,
    queue: &mut Vec<Text>,
    slot: &CommandSlot,
    turns: &[KeyTurn],
    no: u64,
    cells: &[Cell],
) -> Result<(), NoMemory>
    ensures { OnOk result (queue.new.items ≡ queue_touched (command_slot slot.now turns.now) queue.old.items no
        (key_of (command_slot slot.now turns.now).plan.shape cells.now)) }
{
    let key = text_at(alloc, cells, slot.shape.key)?;
    let cursor = cursor_of(turns, slot.cursor, key.as_bytes());
    if goes_last(queue, cursor, no, key.as_bytes()) {
        queue.push(key)?;
    }
    Ok(())
}

/// Whether a key waits for no turn, and its cursor lies before a number.
fn goes_last(queue: &[Text], cursor: u64, no: u64, key: &[u8]) -> bool
    ensures { result ≡ (nat_lt cursor no && not (has_key queue.now key.now)) }
{
    cursor < no && !has_key(queue, key)
}

/// Whether a key is among these.
fn has_key(queue: &[Text], key: &[u8]) -> bool
    ensures { result ≡ has_key queue.now key.now }
{
    for waiting in queue {
        if same_bytes(waiting.as_bytes(), key) {
            return true;
        }
    }
    false
}

/// A key's cursor, which is this one where it had no turn.
fn cursor_of(turns: &[KeyTurn], cursor: u64, key: &[u8]) -> u64
    ensures { result ≡ key_cursor (map key_cursor_of turns.now) cursor key.now }
{
    for turn in turns {
        if same_bytes(turn.key.as_bytes(), key) {
            return turn.cursor;
        }
    }
    cursor
}
