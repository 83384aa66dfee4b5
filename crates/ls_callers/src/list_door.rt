//! A door whose visitors come by a list, over whatever pipes.
ghost use Rattle.std.specs.Prelude.{◌≡◌};

use ls_bell::Bell;
use ls_door::{Door, Heard, Visit};
use ls_outside::Pipe;
use ls_wake::Wakes;
use std::alloc::Global;
use std::marker::Send;
use std::sync::Arc;
use std::vec::IntoIter;

/// A door whose calls of `accept` answer by a list, and past its end `Idle`. It listens on the ports that are asked for.
#[derive(Drop)]
pub struct ListDoor<C> {
    visits: IntoIter<Visit<C>>,
    port: u16,
    feed: u16,
    faults: u64,
    idles: u64,
}

impl<C> ListDoor<C> {
    /// A door with these visits.
    pub fn new(visits: Vec<Visit<C>>) -> ListDoor<C> {
        ListDoor {
            visits: visits.into_iter(),
            port: 0,
            feed: 0,
            faults: 0,
            idles: 0,
        }
    }
}

impl<C: Pipe + Wakes + Send + Drop + 'static> Door for ListDoor<C> {
    type Conn = C;

    ghost failures = { λ d. d.faults };

    ghost waits = { λ d. d.idles };

    ghost opened = { λ d. record { port = d.port; feed = d.feed } };

    fn faults(&self) -> u64 {
        self.faults
    }

    fn idles(&self) -> u64 {
        self.idles
    }

    fn ports(&self) -> (u16, u16) {
        (self.port, self.feed)
    }

    fn listen(&mut self, port: u16, feed: u16) -> Heard {
        self.port = port;
        self.feed = feed;
        Heard::Ready { port, feed }
    }

    fn accept(&mut self) -> Visit<C> {
        let answer = match self.visits.next() {
            Some(answer) => answer,
            None => Visit::Idle,
        };
        match &answer {
            Visit::Client(_) | Visit::Feed(_) => {}
            Visit::Idle => self.idles = self.idles.saturating_add(1),
            Visit::Failed => self.faults = self.faults.saturating_add(1),
        }
        answer
    }

    /// Nobody rings: who waits for visitors has to look again.
    fn wake_with(&self, _bell: &Arc<Bell, Global>) -> bool {
        false
    }
}
