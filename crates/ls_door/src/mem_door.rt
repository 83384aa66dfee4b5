//! Doors in memory.
ghost use Rattle.std.specs.Prelude.{◌≡◌};
ghost use Rattle.ls_door.specs.Doors.{Opens, HasHeardCause, HasVisitCause};
ghost use Rattle.ls_door.specs.Memory.{next_heard, next_visit, door_heard, door_visited};

use crate::door::{Door, Heard, Visit};
use ls_bell::Bell;
use ls_outside::{MemPipe, PlainPipe, PlainSink, PlainSource};
use std::alloc::Global;
use std::marker::Model;
use std::sync::Arc;
use std::vec::IntoIter;

/// A door in memory whose calls go by lists, for tests. Contracts see the calls to come, the ports and the two counts.
#[derive(Drop)]
pub struct MemDoor {
    listens: IntoIter<Heard>,
    visits: IntoIter<Visit<MemPipe>>,
    port: u16,
    feed: u16,
    faults: u64,
    idles: u64,
}

impl Model for MemDoor {
    ghost use Rattle.std.specs.Vec.Iter.{into_iter_items};
    ghost use Rattle.ls_door.specs.Memory.{DoorState};
    ghost use Rattle.ls_outside.specs.declared.pipe.MemPipe.{MemPipe as Connection};

    ghost Value = { DoorState Connection };

    ghost view = { λ d. record {
      listens = into_iter_items d.listens;
      visits = into_iter_items d.visits;
      ports = record { port = d.port; feed = d.feed };
      faults = d.faults;
      idles = d.idles;
    } };
}

impl MemDoor {
    /// A door whose calls of `listen` answer `listens`, the first call its first member, and whose calls of `accept`
    /// answer `visits`. Past the end of its list a `listen` is `Ready` with the ports that it is asked for, and an
    /// `accept` is `Idle`. It takes no memory.
    pub fn new(listens: Vec<Heard>, visits: Vec<Visit<MemPipe>>) -> MemDoor
        ensures { result ≡ record {
          listens = listens.items;
          visits = visits.items;
          ports = record { port = 0; feed = 0 };
          faults = 0;
          idles = 0;
        } }
    {
        MemDoor {
            listens: listens.into_iter(),
            visits: visits.into_iter(),
            port: 0,
            feed: 0,
            faults: 0,
            idles: 0,
        }
    }
}

impl Door for MemDoor {
    type Conn = MemPipe;

    ghost failures = { λ d. d.faults };

    ghost waits = { λ d. d.idles };

    ghost opened = { λ d. d.ports };

    fn faults(&self) -> u64 {
        self.faults
    }

    fn idles(&self) -> u64 {
        self.idles
    }

    fn ports(&self) -> (u16, u16) {
        (self.port, self.feed)
    }

    fn listen(&mut self, port: u16, feed: u16) -> Heard
        ensures ports { Opens self.old.ports self.new.ports result }
        ensures cause { HasHeardCause result self.old.faults self.new.faults }
        ensures waits { self.new.idles ≡ self.old.idles }
        ensures answer { result ≡ next_heard self.old.listens port feed }
        ensures after { self.new ≡ door_heard self.old result }
    {
        let answer = match self.listens.next() {
            Some(answer) => answer,
            None => Heard::Ready { port, feed },
        };
        match answer {
            Heard::Ready { port, feed } => {
                self.port = port;
                self.feed = feed;
            }
            Heard::Failed => self.faults = self.faults.saturating_add(1),
        }
        answer
    }

    fn accept(&mut self) -> Visit<MemPipe>
        ensures ports { self.new.ports ≡ self.old.ports }
        ensures cause { HasVisitCause result self.old.faults self.new.faults self.old.idles self.new.idles }
        ensures answer { result ≡ next_visit self.old.visits }
        ensures after { self.new ≡ door_visited self.old result }
    {
        let answer = match self.visits.next() {
            Some(answer) => answer,
            None => Visit::Idle,
        };
        match &answer {
            Visit::Client(_) | Visit::Feed(_) => {}
            Visit::Idle => self.idles = self.idles.saturating_add(1),
            Visit::Failed => self.faults = self.faults.saturating_add(1),
        }
        answer
    }

    /// Nobody rings: who waits for visitors has to look again.
    fn wake_with(&self, _bell: &Arc<Bell, Global>) -> bool {
        false
    }
}

/// A door in memory that never fails and always has a visitor: both its counts are always 0. It gives its feeds first,
/// then its clients, and past these one client after another that says nothing: its pipe is at its end.
#[derive(Drop)]
pub struct PlainDoor {
    alloc: Global,
    feeds: IntoIter<PlainPipe>,
    clients: IntoIter<PlainPipe>,
    port: u16,
    feed: u16,
}

impl PlainDoor {
    /// A door with these visitors. It takes no memory.
    pub fn new(alloc: Global, feeds: Vec<PlainPipe>, clients: Vec<PlainPipe>) -> PlainDoor {
        PlainDoor {
            alloc,
            feeds: feeds.into_iter(),
            clients: clients.into_iter(),
            port: 0,
            feed: 0,
        }
    }
}

impl Door for PlainDoor {
    type Conn = PlainPipe;

    ghost failures = { λ _. 0 };

    ghost waits = { λ _. 0 };

    ghost opened = { λ d. record { port = d.port; feed = d.feed } };

    fn faults(&self) -> u64 {
        0
    }

    fn idles(&self) -> u64 {
        0
    }

    fn ports(&self) -> (u16, u16) {
        (self.port, self.feed)
    }

    fn listen(&mut self, port: u16, feed: u16) -> Heard {
        self.port = port;
        self.feed = feed;
        Heard::Ready { port, feed }
    }

    fn accept(&mut self) -> Visit<PlainPipe> {
        if let Some(pipe) = self.feeds.next() {
            return Visit::Feed(pipe);
        }
        match self.clients.next() {
            Some(pipe) => Visit::Client(pipe),
            None => Visit::Client(PlainPipe {
                source: PlainSource::new(Vec::new(self.alloc), Vec::new(self.alloc)),
                sink: PlainSink::new(),
            }),
        }
    }

    /// Nobody rings: who waits for visitors has to look again.
    fn wake_with(&self, _bell: &Arc<Bell, Global>) -> bool {
        false
    }
}
