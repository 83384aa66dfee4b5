//! Changes of the entries and the links that a queue is kept in.
ghost use Rattle.std.specs.Prelude.{◌≡◌, ◌<◌, ◌++◌, ◌∷◌, ℕ, IfOk, OnOk, OnErr, None, Some, [], length, get_or, slice_get, nat_eq};
ghost use Rattle.std.specs.Cmp.Lexicographic.{pointwise};
ghost use Rattle.std.specs.Option.{option_map};
ghost use Rattle.indexmap.specs.IndexMap.{get, spare};
ghost use Rattle.ls_links.specs.Chains.{IsLinked};
ghost use Rattle.ls_command.specs.Command.{nodes_of, is_touched};
ghost use Rattle.ls_command.specs.Entries.{IsKept, IsAdded, entry_at, queued_of, linked_keys, renewed, settled};
ghost use Rattle.ls_command.specs.Entries.{no_keys, keys_touched, keys_owed, keys_turned};

use crate::kept::{Kept, Queued};
use crate::key_text::KeyText;
use indexmap::IndexMap;
use ls_event::KeyedRow;
use ls_links::Links;
use ls_value::{NoMemory, Row, Text};
use std::alloc::Global;

/// Gives the entry at a place this row and this mark. The answer is the mark that it had.
fn renew(
    entries: &mut IndexMap<KeyText, Kept>,
    place: usize,
    row: Option<Row>,
    touched: bool,
) -> bool
    requires { place < length entries.old.entries }
    ensures entries { entries.new.entries ≡ renewed place row touched entries.old.entries }
    ensures touched { result ≡ (entry_at entries.old.entries place).1.touched }
{
    let kept = &mut entries[place];
    let was = kept.touched;
    kept.row = row;
    kept.touched = touched;
    was
}

/// Takes room for one more node and one more entry.
fn make_room(links: &mut Links, entries: &mut IndexMap<KeyText, Kept>) -> Result<(), NoMemory>
    ensures lists { links.new.lists ≡ links.old.lists }
    ensures entries { entries.new.entries ≡ entries.old.entries }
    ensures node { OnOk result (0 < links.new.spare) }
    ensures entry { OnOk result (0 < spare entries.new) }
{
    links.reserve(1)?;
    entries.reserve(1)?;
    Ok(())
}

/// Adds an entry of a key that has none, for which there is room.
fn put(entries: &mut IndexMap<KeyText, Kept>, key: Text, kept: Kept)
    requires room { 0 < spare entries.old }
    requires absent { get (pointwise nat_eq) entries.old key ≡ None }
    ensures { entries.new.entries ≡ entries.old.entries ++ (key, kept) ∷ [] }
{
    match entries.insert(KeyText::of(key), kept) {
        Ok(_) => {}
        Err(_) => unreachable!(),
    }
}

/// Links a key that has no entry after the others of a list. After `NoMemory` the entries and the lists are as before.
fn link(
    links: &mut Links,
    entries: &mut IndexMap<KeyText, Kept>,
    list: usize,
    new: Queued,
) -> Result<(), NoMemory>
    requires list { list < length links.old.lists }
    requires absent { get (pointwise nat_eq) entries.old new.key ≡ None }
    ensures ok { OnOk result (IsAdded list new entries.old.entries links.old.lists entries.new.entries links.new.lists) }
    ensures entries { OnErr result (entries.new.entries ≡ entries.old.entries) }
    ensures lists { OnErr result (links.new.lists ≡ links.old.lists) }
{
    make_room(links, entries)?;
    let node = links.push_back(list, entries.len());
    links.are_apart();
    let Queued { key, row, touched } = new;
    put(entries, key, Kept { node, row, touched });
    Ok(())
}

/// Gives a key that is touched this row: it stays where it stands, or is the last of list 1 where it doesn't stand. The
/// answer is whether it stood there and was touched.
pub fn touch(
    links: &mut Links,
    entries: &mut IndexMap<KeyText, Kept>,
    key: KeyText,
    row: Option<Row>,
) -> Result<bool, NoMemory>
    requires { IsKept entries.old.entries links.old.lists }
    ensures kept { IsKept entries.new.entries links.new.lists }
    ensures keys { OnOk result (linked_keys entries.new.entries links.new.lists
        ≡ keys_touched (linked_keys entries.old.entries links.old.lists) key row) }
    ensures touched { IfOk result (λ touched. touched
        ≡ is_touched (linked_keys entries.old.entries links.old.lists).keys key) }
    ensures err { OnErr result (linked_keys entries.new.entries links.new.lists
        ≡ linked_keys entries.old.entries links.old.lists) }
{
    match entries.get_index_of(&key) {
        Some(place) => Ok(renew(entries, place, row, true)),
        None => {
            let key = key.into_text();
            let touched = true;
            link(links, entries, 1, Queued { key, row, touched })?;
            Ok(false)
        }
    }
}

/// Adds a key of a snapshot, which is owed, to list 0, in which all keys are. A key that stands there gets the row.
pub fn owe(
    links: &mut Links,
    entries: &mut IndexMap<KeyText, Kept>,
    new: KeyedRow,
) -> Result<(), NoMemory>
    requires kept { IsKept entries.old.entries links.old.lists }
    requires first { get_or links.old.lists 1 [] ≡ [] }
    ensures kept { IsKept entries.new.entries links.new.lists }
    ensures ok { OnOk result (linked_keys entries.new.entries links.new.lists
        ≡ keys_owed (linked_keys entries.old.entries links.old.lists) new) }
{
    let KeyedRow { key, row } = new;
    let key = KeyText::of(key);
    let row = Some(row);
    match entries.get_index_of(&key) {
        Some(place) => {
            renew(entries, place, row, false);
            Ok(())
        }
        None => {
            let key = key.into_text();
            let touched = false;
            link(links, entries, 0, Queued { key, row, touched })?;
            Ok(())
        }
    }
}

/// The node of the first key: that of list 0, or else that of list 1.
pub fn first_node(links: &Links) -> Option<usize>
    requires { length links.now.lists ≡ 2 }
    ensures { result ≡ option_map (λ l. l.node) (slice_get (nodes_of links.now.lists) 0) }
{
    match links.first(0) {
        Some(node) => Some(node),
        None => links.first(1),
    }
}

/// The key of the entry at a place with its row, copied.
pub fn copied_entry(
    alloc: Global,
    entries: &IndexMap<KeyText, Kept>,
    place: usize,
) -> Result<Queued, NoMemory>
    requires { place < length entries.now.entries }
    ensures { IfOk result (λ copied. copied ≡ queued_of (entry_at entries.now.entries place)) }
{
    match entries.get_index(place) {
        None => unreachable!(),
        Some((key, kept)) => {
            let key = key.text().copy(alloc)?;
            let row = copied_row(alloc, &kept.row)?;
            Ok(Queued {
                key,
                row,
                touched: kept.touched,
            })
        }
    }
}

/// A copy of a row, where there is one.
pub fn copied_row(alloc: Global, row: &Option<Row>) -> Result<Option<Row>, NoMemory>
    ensures { IfOk result (λ copied. copied ≡ row.now) }
{
    match row {
        None => Ok(None),
        Some(row) => Ok(Some(row.copy(alloc)?)),
    }
}

/// The node of the entry at a place.
fn node_at(entries: &IndexMap<KeyText, Kept>, place: usize) -> usize
    requires { place < length entries.now.entries }
    ensures { result ≡ (entry_at entries.now.entries place).1.node }
{
    match entries.get_index(place) {
        None => unreachable!(),
        Some((_, kept)) => kept.node,
    }
}

/// Gives the node of the entry that took a place, where there is one, this place as its value.
fn settle(links: &mut Links, entries: &IndexMap<KeyText, Kept>, place: usize)
    requires { place < length entries.now.entries → IsLinked links.old (entry_at entries.now.entries place).1.node }
    ensures { links.new.lists ≡ settled place entries.now.entries links.old.lists }
{
    if place < entries.len() {
        let node = node_at(entries, place);
        links.set_value(node, place);
    }
}

/// Takes the first key out, whose node this is. The last entry takes the place of its own.
pub fn take(links: &mut Links, entries: &mut IndexMap<KeyText, Kept>, node: usize) -> Queued
    requires kept { IsKept entries.old.entries links.old.lists }
    requires first { option_map (λ l. l.node) (slice_get (nodes_of links.old.lists) 0) ≡ Some node }
    ensures kept { IsKept entries.new.entries links.new.lists }
    ensures first { slice_get (linked_keys entries.old.entries links.old.lists).keys 0 ≡ Some result }
    ensures rest { linked_keys entries.new.entries links.new.lists
        ≡ keys_turned (linked_keys entries.old.entries links.old.lists) }
{
    let place = links.unlink(node);
    links.are_apart();
    match entries.swap_remove_index(place) {
        None => unreachable!(),
        Some((key, kept)) => {
            settle(links, entries, place);
            links.are_apart();
            Queued {
                key: key.into_text(),
                row: kept.row,
                touched: kept.touched,
            }
        }
    }
}

/// Takes all nodes of a list out.
fn unlink_all(links: &mut Links, list: usize)
    requires { list < length links.old.lists }
    ensures empty { get_or links.new.lists list [] ≡ [] }
    ensures lists { length links.new.lists ≡ length links.old.lists }
    ensures others { (other : ℕ) → get_or links.old.lists other [] ≡ [] → get_or links.new.lists other [] ≡ [] }
{
    while let Some(node) = links.first(list) {
        links.unlink(node);
    }
}

/// Takes all keys out.
pub fn clear(links: &mut Links, entries: &mut IndexMap<KeyText, Kept>)
    requires { length links.old.lists ≡ 2 }
    ensures kept { IsKept entries.new.entries links.new.lists }
    ensures keys { linked_keys entries.new.entries links.new.lists ≡ no_keys }
{
    unlink_all(links, 0);
    unlink_all(links, 1);
    links.are_apart();
    entries.clear();
}
