//! Who calls a bell at the peer's bytes, and for whom no write waits.

use ls_bell::Bell;
use std::alloc::Global;
use std::sync::Arc;

/// A connection that may call a bell when there is something to read, and may keep what its peer has no room for.
pub trait Wakes {
    /// Has this bell called ([`Bell::call`]) from now on whenever bytes of the peer come, or the peer leaves; at once where
    /// some are there already. It takes the place of the bell that an earlier `wake_with` named. One call may stand for many
    /// bytes, so who was woken reads until nothing is there, and a bell may be called although there is nothing.
    ///
    /// Answers whether it will: if not, who waits for bytes has to look again and again. Nothing else of the connection
    /// changes.
    fn wake_with(&self, bell: &Arc<Bell, Global>) -> bool;

    /// Whether writes are to wait for room at the peer, as they do at first. Where they aren't, the connection may keep the
    /// bytes of a write for which there is no room, in memory that it takes then, and [`is_behind`](Wakes::is_behind). It
    /// writes them before what is put to it later, and tries to at each read; once writes are to wait, so does that.
    /// Nothing that the connection tells changes. One that keeps nothing waits anyway.
    fn wait_for_room(&self, _alloc: Global, _waits: bool) {}

    /// Whether it keeps bytes for which its peer had no room.
    fn is_behind(&self) -> bool {
        false
    }

    /// Writes what it keeps, as far as there is room at once, and answers how many bytes that was. `None` where the write
    /// failed, as the next read or write then does too. Nothing that the connection tells changes.
    fn catch_up(&self) -> Option<usize> {
        Some(0)
    }
}
