//! Watches of several items.
ghost use Rattle.std.specs.Prelude.{◌≡◌, ◌≤◌, ◌<◌, [], None, Some, IfOk, IfSome, IfNone, OnOk, OnErr, IsTrue, IsFalse, length, take, slice_get};
ghost use mathlib.Core.List.{IsPrefix};
ghost use Rattle.ls_value.specs.Each.{Each};
ghost use Rattle.ls_told.specs.Seen.{Watched, SeesMore, FitsWatch, seen_of};
ghost use Rattle.ls_sight.specs.Sights.{NoneBefore, AreOneItems, IsOneItem, SeesOf, IsOneAt, AgreeAt, MeetsAt, MeetEach, FitsAt};

use ls_chron::Chron;
use ls_live::{PubPass, Watch};
use ls_register::{House, Made};
use ls_value::NoMemory;
use std::alloc::Global;

/// How many entries the history of an item has now, which is no fewer than were seen of it; `None` only where it isn't
/// watched. It takes no lock and no memory.
pub fn count_of<N: House>(watches: &mut Vec<Watch<N>>, item: u32) -> Option<u64>
    ensures same { watches.new.items ≡ watches.old.items }
    ensures count { IfSome result (λ n. length (seen_of watches.old.items item) ≤ n) }
    ensures none { IfNone result (NoneBefore watches.old.items (length watches.old.items) item) }
{
    let Some(place) = find_watch(watches, item) else {
        return None;
    };
    Some(watches[place].count())
}

/// A copy of each watch, in their order; `NoMemory` leaves the watches as they are.
pub fn copies<N: House>(
    alloc: Global,
    register: &Chron<Made>,
    watches: &mut Vec<Watch<N>>,
) -> Result<Vec<Watch<N>>, NoMemory>
    requires { register.now ≡ N.deed.register }
    ensures same { watches.new.items ≡ watches.old.items }
    ensures copies { IfOk result (λ copied. copied.items ≡ watches.old.items) }
{
    let mut copied = Vec::with_capacity(alloc, watches.len())?;
    add_copies(register, watches, &mut copied)?;
    Ok(copied)
}

/// Adds a copy of each watch past those that others have one for. After `NoMemory` the others are as before.
pub(crate) fn add_copies<N: House>(
    register: &Chron<Made>,
    watches: &mut Vec<Watch<N>>,
    others: &mut Vec<Watch<N>>,
) -> Result<(), NoMemory>
    requires { register.now ≡ N.deed.register }
    ensures same { watches.new.items ≡ watches.old.items }
    ensures all { OnOk result (others.old.items ≡ [] → others.new.items ≡ watches.old.items) }
    ensures more { SeesMore others.old.items others.new.items }
    ensures err { OnErr result (others.new.items ≡ others.old.items) }
{
    let count = others.len();
    match push_copies(register, watches, others) {
        Ok(()) => Ok(()),
        Err(cause) => {
            others.truncate(count);
            Err(cause)
        }
    }
}

/// Adds a copy of each watch past those that others have one for. After `NoMemory` some were added.
fn push_copies<N: House>(
    register: &Chron<Made>,
    watches: &mut Vec<Watch<N>>,
    others: &mut Vec<Watch<N>>,
) -> Result<(), NoMemory>
    requires { register.now ≡ N.deed.register }
    ensures same { watches.new.items ≡ watches.old.items }
    ensures all { OnOk result (others.old.items ≡ [] → others.new.items ≡ watches.old.items) }
    ensures more { SeesMore others.old.items others.new.items }
    ensures begins { take (length others.old.items) others.new.items ≡ others.old.items }
{
    for i in others.len()..watches.len() {
        let copy = copy_at(register, watches, i)?;
        others.push(copy)?;
    }
    Ok(())
}

/// A copy of the watch at a place.
fn copy_at<N: House>(
    register: &Chron<Made>,
    watches: &mut Vec<Watch<N>>,
    i: usize,
) -> Result<Watch<N>, NoMemory>
    requires register { register.now ≡ N.deed.register }
    requires within { i < length watches.old.items }
    ensures same { watches.new.items ≡ watches.old.items }
    ensures copy { IfOk result (λ w. slice_get watches.old.items i ≡ Some w) }
{
    let watch = &mut watches[i];
    watch.again(register)
}

/// Whether there are as many watches of both, each two of the same item.
pub(crate) fn are_one<N: House>(
    register: &Chron<Made>,
    watches: &mut Vec<Watch<N>>,
    others: &mut Vec<Watch<N>>,
) -> bool
    requires { register.now ≡ N.deed.register }
    ensures same { (watches.new.items ≡ watches.old.items) × (others.new.items ≡ others.old.items) }
    ensures one { IsTrue result → AreOneItems watches.old.items others.old.items }
    ensures not_one { IsFalse result → AreOneItems watches.old.items others.old.items → ⊥ }
{
    if watches.len() == others.len() {
        are_one_each(register, watches, others)
    } else {
        false
    }
}

/// Whether each two of as many watches are of the same item.
fn are_one_each<N: House>(
    register: &Chron<Made>,
    watches: &mut Vec<Watch<N>>,
    others: &mut Vec<Watch<N>>,
) -> bool
    requires register { register.now ≡ N.deed.register }
    requires count { length watches.old.items ≡ length others.old.items }
    ensures same { (watches.new.items ≡ watches.old.items) × (others.new.items ≡ others.old.items) }
    ensures one { IsTrue result → AreOneItems watches.old.items others.old.items }
    ensures not_one { IsFalse result → AreOneItems watches.old.items others.old.items → ⊥ }
{
    for i in 0..watches.len() {
        if is_one_at(register, watches, others, i) {
            continue;
        } else {
            return false;
        }
    }
    true
}

/// Whether the watches at a place are of the same item.
fn is_one_at<N: House>(
    register: &Chron<Made>,
    watches: &mut Vec<Watch<N>>,
    others: &mut Vec<Watch<N>>,
    i: usize,
) -> bool
    requires register { register.now ≡ N.deed.register }
    requires within { (i < length watches.old.items) × (i < length others.old.items) }
    ensures same { (watches.new.items ≡ watches.old.items) × (others.new.items ≡ others.old.items) }
    ensures one { IsTrue result → IsOneAt i watches.old.items others.old.items }
    ensures not_one { IsFalse result → IsOneAt i watches.old.items others.old.items → ⊥ }
{
    let watch = &mut watches[i];
    let other = &mut others[i];
    watch.is_that(register, other)
}

/// Each two watches of the same item have then seen what one of them had.
pub(crate) fn agree_all<N: House>(
    register: &Chron<Made>,
    watches: &mut Vec<Watch<N>>,
    others: &mut Vec<Watch<N>>,
)
    requires register { register.now ≡ N.deed.register }
    requires one { AreOneItems watches.old.items others.old.items }
    ensures agree { watches.new.items ≡ others.new.items }
    ensures mine { SeesMore watches.old.items watches.new.items }
    ensures theirs { SeesMore others.old.items others.new.items }
{
    for i in 0..watches.len() {
        agree_at(register, watches, others, i);
    }
}

/// The watches at a place, which are of the same item, have then seen what one of them had.
fn agree_at<N: House>(
    register: &Chron<Made>,
    watches: &mut Vec<Watch<N>>,
    others: &mut Vec<Watch<N>>,
    i: usize,
)
    requires register { register.now ≡ N.deed.register }
    requires within { (i < length watches.old.items) × (i < length others.old.items) }
    requires one { AreOneItems watches.old.items others.old.items }
    ensures { AgreeAt i watches.old.items others.old.items watches.new.items others.new.items }
{
    let watch = &mut watches[i];
    let other = &mut others[i];
    agree(register, watch, other);
}

/// Two watches of the same item have then seen what one of them had.
fn agree<N: House>(register: &Chron<Made>, watch: &mut Watch<N>, other: &mut Watch<N>)
    requires register { register.now ≡ N.deed.register }
    requires one { IsOneItem watch.old other.old }
    ensures agree { watch.new ≡ other.new }
    ensures mine { watch.new ≡ record watch.old { list = watch.new.list } }
    ensures theirs { other.new ≡ record other.old { list = other.new.list } }
    ensures begins { IsPrefix watch.old.list watch.new.list × IsPrefix other.old.list other.new.list }
{
    watch.follow(register, other);
    other.follow(register, watch);
}

/// Each watch of a pass's item has then seen what the pass has.
pub(crate) fn meet_all<N: House>(
    watches: &mut Vec<Watch<N>>,
    register: &Chron<Made>,
    pass: &mut PubPass<N>,
)
    requires { register.now ≡ N.deed.register }
    ensures same { pass.new ≡ pass.old }
    ensures more { SeesMore watches.old.items watches.new.items }
    ensures has { IfSome pass.old.place (λ p. SeesOf p.at pass.old.list watches.new.items) }
    ensures each { MeetEach pass.old watches.old.items watches.new.items }
{
    for i in 0..watches.len() {
        meet_at(watches, register, pass, i);
    }
}

/// The watch at a place, where it is of a pass's item, has then seen what the pass has.
fn meet_at<N: House>(
    watches: &mut Vec<Watch<N>>,
    register: &Chron<Made>,
    pass: &mut PubPass<N>,
    i: usize,
)
    requires register { register.now ≡ N.deed.register }
    requires within { i < length watches.old.items }
    ensures same { pass.new ≡ pass.old }
    ensures meets { MeetsAt i watches.old.items watches.new.items pass.old }
{
    let watch = &mut watches[i];
    watch.meet(register, pass);
}

/// What was seen by each watch is a history of its item, with texts in UTF-8.
pub(crate) fn all_fit<N: House>(watches: &Vec<Watch<N>>)
    ensures { Each (FitsWatch N.deed.config) watches.now.items }
{
    for i in 0..watches.len() {
        fits_at(watches, i);
    }
}

/// What was seen by the watch at a place is.
fn fits_at<N: House>(watches: &Vec<Watch<N>>, i: usize)
    requires { i < length watches.now.items }
    ensures { FitsAt N.deed.config i watches.now.items }
{
    let watch = &watches[i];
    watch.says();
}

/// Where the first watch of the item of a number stands, `None` where it isn't watched.
pub fn find_watch<N: House>(watches: &Vec<Watch<N>>, number: u32) -> Option<usize>
    ensures found { IfSome result (λ k. (w : Watched) × (slice_get watches.now.items k ≡ Some w) × (w.item ≡ number)
        × NoneBefore watches.now.items k number) }
    ensures none { result ≡ None → NoneBefore watches.now.items (length watches.now.items) number }
{
    for i in 0..watches.len() {
        if watches[i].item() == number {
            return Some(i);
        }
    }
    None
}

/// What was seen by a watch is a history of its item, with texts in UTF-8.
pub fn fits<N: House>(watch: &Watch<N>)
    ensures { FitsWatch N.deed.config watch.now }
{
    watch.says();
}
