//! Which items' sessions are to be woken once a piece of the feed's bytes is at its end.

use ls_register::House;
use ls_shared::Shared;
use std::sync::Wait;

/// How many items may be kept.
const PLACES: usize = 64;

/// Items to which something was added since their bells were rung, each at the place of its number modulo their count.
#[derive(Drop)]
pub(crate) struct Unrung {
    items: [Option<u32>; PLACES],
}

impl Unrung {
    /// None.
    pub(crate) fn new() -> Unrung {
        Unrung {
            items: [None; PLACES],
        }
    }

    /// One more. The one whose place it takes is rung for.
    pub(crate) fn add<N: House, R: Wait>(&mut self, rt: &R, shared: &Shared<N>, item: u32) {
        let place = item as usize % PLACES;
        if let Some(before) = self.items[place] {
            if before != item {
                shared.ring(rt, before);
            }
        }
        self.items[place] = Some(item);
    }

    /// All are rung for.
    pub(crate) fn ring<N: House, R: Wait>(&mut self, rt: &R, shared: &Shared<N>) {
        for place in 0..PLACES {
            if let Some(item) = self.items[place] {
                shared.ring(rt, item);
                self.items[place] = None;
            }
        }
    }
}
