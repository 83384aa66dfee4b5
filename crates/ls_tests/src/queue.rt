//! The two lists of a queue of mode COMMAND. The item's fields are a key and a quantity.
ghost use Rattle.std.specs.Prelude.{◌<◌};

use crate::made::{cells, row, text};
use crate::round::value_at;
use ls_command::CommandBuffer;
use ls_event::{Event, KeyedRow, KeyedRows, Snapshot, Stored, take_one};
use ls_value::{Row, Text};
use std::alloc::Global;
use std::test::Fail;

/// The buffer of a slot that joins with the keys a and b.
fn two_keys(alloc: Global) -> Result<CommandBuffer, Fail> {
    let mut rows = Vec::new(alloc);
    for (key, words) in [("a", "a|1"), ("b", "b|2")] {
        let (key, row) = (text(alloc, key)?, row(alloc, words)?);
        rows.push(KeyedRow { key, row })?;
    }
    let first = Snapshot::Command(KeyedRows::of(rows));
    Ok(CommandBuffer::new(alloc, 2, 0, Some(first))?)
}

/// Enqueues an event, after which its key has this row.
fn enqueue(buffer: &mut CommandBuffer, event: Event, after: Option<Row>) -> Result<(), Fail> {
    let last = buffer.last();
    if last >= 1000 || !buffer.admits(&event) {
        return Err(Fail::new("an event that isn't admitted"));
    }
    let no = last + 1;
    buffer.enqueue(&Stored { no, event, after })?;
    Ok(())
}

/// Enqueues an ADD or UPDATE of a key.
fn touch(alloc: Global, buffer: &mut CommandBuffer, words: &'static str) -> Result<(), Fail> {
    let event = Event::Update(cells(alloc, words)?);
    enqueue(buffer, event, Some(row(alloc, words)?))
}

/// Whether there is a key, and it is this word.
fn is_key(key: Option<&Text>, word: &str) -> bool {
    match key {
        Some(key) => key.as_str() == word,
        None => false,
    }
}

/// Whether a list of the queue has these keys in order, and no more.
fn has_keys(buffer: &CommandBuffer, list: usize, keys: &[&str]) -> bool
    requires { list < 2 }
{
    for place in 0..keys.len() {
        let Some(value) = value_at(buffer.queue(), list, place) else {
            return false;
        };
        if !is_key(buffer.key_of(value), keys[place]) {
            return false;
        }
    }
    value_at(buffer.queue(), list, keys.len()).is_none()
}

/// Whether the queue has these owed keys and then these other ones, and no key has the value of one more node.
fn has_queue(buffer: &CommandBuffer, owed: &[&str], others: &[&str]) -> bool {
    let listed = has_keys(buffer, 0, owed) && has_keys(buffer, 1, others);
    listed && buffer.key_of(owed.len() + others.len()).is_none()
}

/// Whether a key stays where it stands when it is touched, and goes last where it doesn't stand.
fn keys_have_turns(alloc: Global) -> Result<bool, Fail> {
    let mut buffer = two_keys(alloc)?;
    let first = has_queue(&buffer, &["a", "b"], &[]);
    touch(alloc, &mut buffer, "a|3")?;
    touch(alloc, &mut buffer, "c|4")?;
    touch(alloc, &mut buffer, "d|5")?;
    touch(alloc, &mut buffer, "c|6")?;
    let touched = has_queue(&buffer, &["a", "b"], &["c", "d"]);
    let told = take_one(&mut buffer)?.is_some() && has_queue(&buffer, &["b"], &["c", "d"]);
    enqueue(&mut buffer, Event::Update(cells(alloc, "a|=")?), None)?;
    Ok(first && touched && told && has_queue(&buffer, &["b"], &["c", "d", "a"]))
}

/// Whether a Clear leaves no key, and the keys that are touched later are in list 1.
fn a_clear_leaves_no_key(alloc: Global) -> Result<bool, Fail> {
    let mut buffer = two_keys(alloc)?;
    touch(alloc, &mut buffer, "c|3")?;
    enqueue(&mut buffer, Event::Clear, None)?;
    let cleared = has_queue(&buffer, &[], &[]);
    touch(alloc, &mut buffer, "b|4")?;
    Ok(cleared && has_queue(&buffer, &[], &["b"]))
}

#[test]
fn a_queue_is_two_lists(rt: HostRuntime) -> Result<(), Fail> {
    assert!(rt; keys_have_turns(rt.alloc())? && a_clear_leaves_no_key(rt.alloc())?);
    Ok(())
}
