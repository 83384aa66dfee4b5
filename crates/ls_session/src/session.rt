//! What a session keeps, how it begins, and how it ends.
ghost use Rattle.std.specs.Prelude.{◌≡◌, ◌≤◌, ◌<◌, ◌⊎◌, ◌&&◌, ℕ, List, [], Option, length, map, true, false, is_some};
ghost use Rattle.std.specs.Prelude.{nat_lt, nat_le, IfOk, IfSome, option_map};
ghost use Rattle.std.specs.Option.{ForSome};
ghost use Rattle.ls_value.specs.declared.limits.TheConstants.{GREATEST_TICK};
ghost use Rattle.ls_record.specs.Lines.{text_at};
ghost use Rattle.ls_record.specs.Records.{live_at, opened, ended, is_alive, timed_out};
ghost use Rattle.ls_record.specs.Acting.{destroyed};
ghost use Rattle.ls_line.specs.declared.limits.TheConstants.{LONGEST_TEXT};
ghost use Rattle.ls_subs.specs.Standing.{ref_of};
ghost use Rattle.ls_session.specs.Record.{Record, begun_again, created, ended_by};
ghost use Rattle.ls_session.specs.Session.{StandsSession, current_of};

use crate::asking::Asking;
use ls_budget::Bandwidth;
use ls_event::Taken;
use ls_request::Create;
use ls_stream::{Life, Lines};
use ls_subs::{SlotRef, Subs};
use ls_value::NoMemory;
use std::alloc::Global;

/// The question what a slot has to tell next.
#[derive(Clone, Copy, Debug, PartialEq, Eq)]
pub struct Ask {
    /// The slot.
    pub slot: SlotRef,
    /// Whether the slot is due. Of one that isn't only whether something is pending is asked.
    pub due: bool,
}

/// What a slot has to tell.
#[derive(Drop)]
pub enum Reply {
    /// The next cut of a slot that is due.
    Taken(Taken),
    /// Nothing: nothing of the slot is pending.
    Nothing,
    /// Something of a slot that isn't due is pending.
    Waiting,
}

/// What a turn gives.
#[derive(Clone, Copy, Debug, PartialEq, Eq)]
pub enum Turn {
    /// A line, which is the current one.
    Send,
    /// The question what a slot has to tell, for [`Session::answer`].
    Ask(Ask),
    /// Nothing: no slot of the round has anything to tell.
    Idle,
    /// Nothing: no slot of the round that is due has anything to tell, and others have.
    NotDue {
        /// The least tick, in ms, at which one of these is due.
        at: u64,
    },
    /// Nothing: the session has ended for the cause of this code, and its client was told, or has no stream.
    Ended {
        /// The cause's number.
        code: u16,
    },
    /// Nothing: the session has a newer stream.
    Superseded {
        /// The epoch of that one.
        epoch: u64,
    },
    /// Nothing: no stream is bound.
    Unbound,
    /// Nothing: there is no number for a line.
    Spent,
}

/// What the loss of a stream comes to.
#[derive(Clone, Copy, Debug, PartialEq, Eq)]
pub enum Lost {
    /// It was bound, and now none is.
    Unbound,
    /// The session has a newer stream, of this epoch, and stays as it is.
    Superseded {
        /// The epoch of that one.
        epoch: u64,
    },
    /// No stream was bound.
    NotBound,
}

/// A session: its number, the lines of its streams, its subscriptions, the round of their slots, and its bandwidth. It
/// keeps the allocator that its constructor took. The ticks that its calls take are in ms, at most
/// [`GREATEST_TICK`](ls_value::GREATEST_TICK), and none is below the session's floor: the tick of its creation, or of
/// the last line that was numbered or given at a tick, the last bandwidth, or the last loss of a stream. A turn that
/// gives nothing and a new stream raise no floor.
#[derive(Drop)]
pub struct Session {
    pub(crate) alloc: Global,
    pub(crate) number: u64,
    pub(crate) lines: Lines,
    pub(crate) subs: Subs,
    pub(crate) asking: Asking,
    pub(crate) bandwidth: Bandwidth,
}

impl Session {
    /// A session of this number at a tick, in ms, of at most [`GREATEST_TICK`](ls_value::GREATEST_TICK), whose first
    /// stream is owed CONOK, SERVNAME and CONS. The texts of END are made now, so that the session ends without memory.
    pub fn new(alloc: Global, id: u64, create: &Create, now: u64) -> Result<Session, NoMemory>
        requires { ForSome create.now.bandwidth (λ limit. 0 < limit) }
        ensures { IfOk result (λ k. now ≤ GREATEST_TICK
            → StandsSession k (created id now
            (opened id create.now.keepalive create.now.bandwidth create.now.length))) }
    {
        let lines = Lines::new(alloc, id, create)?;
        let asking = Asking::new(alloc, now)?;
        Ok(Session {
            alloc,
            number: id,
            lines,
            subs: Subs::new(alloc),
            asking,
            bandwidth: Bandwidth::new(create.bandwidth, now),
        })
    }

    /// The line that the last turn gave, without CR LF, until the session ends or changes otherwise.
    pub fn current(&self) -> &[u8]
        ensures line { result.now ≡ current_of self.now }
        ensures short { (r : Record) → StandsSession self.now r → length result.now ≤ LONGEST_TEXT }
    {
        self.lines.current()
    }

    /// The session ends for the cause of a code, [`DESTROYED`](ls_stream::DESTROYED) or
    /// [`TIMED_OUT`](ls_stream::TIMED_OUT): its slots leave the round and are handed back, and the memory of its lines,
    /// its subscriptions and its round is given back. One that has ended stays as it is, and hands back none. No memory
    /// is taken.
    pub fn finish(&mut self, code: u16) -> Vec<SlotRef>
        requires { (code ≡ destroyed) ⊎ (code ≡ timed_out) }
        ensures alive { (r : Record) → StandsSession self.old r → is_alive r.session.life ≡ true
            → (result.items ≡ map ref_of r.session.board.round)
            × StandsSession self.new (begun_again (ended code r.session) r) }
        ensures ended { (r : Record) → StandsSession self.old r → is_alive r.session.life ≡ false
            → (result.items ≡ []) × StandsSession self.new r }
    {
        if self.is_alive() {
            self.lines.end(code);
            self.subs.clear();
            self.asking.finish(self.alloc)
        } else {
            Vec::new(self.alloc)
        }
    }

    /// The slot of a place, from 1, of a subscription: `None` exactly where no such subscription is live, or it has no
    /// such place. No memory is taken.
    pub fn find(&self, sub: u64, place: u64) -> Option<SlotRef>
        ensures { (r : Record) → StandsSession self.now r
            → result ≡ option_map ref_of (live_at sub place r.session.board.round) }
    {
        self.subs.find(sub, place)
    }

    /// The text of a numbered line that is kept: `None` exactly where the line was given up, or isn't numbered, or the
    /// session has ended.
    pub fn line(&self, n: u64) -> Option<&[u8]>
        ensures text { IfSome result (λ t. (r : Record) → StandsSession self.now r
            → t.now ≡ text_at r.session.board.lines n) }
        ensures kept { (r : Record) → StandsSession self.now r
            → is_some result
            ≡ (is_alive r.session.life && (nat_lt r.session.given_up n && nat_le n (length r.session.board.lines))) }
    {
        self.lines.line(n)
    }

    /// The session's number, which CONOK names.
    pub fn number(&self) -> u64
        ensures { (r : Record) → StandsSession self.now r → result ≡ r.number }
    {
        self.number
    }

    /// How many lines were given.
    pub fn sent(&self) -> u64
        ensures { (r : Record) → StandsSession self.now r → result ≡ r.session.sent }
    {
        self.lines.sent()
    }

    /// How many lines were numbered.
    pub fn last(&self) -> u64
        ensures { (r : Record) → StandsSession self.now r → result ≡ length r.session.board.lines }
    {
        self.lines.last()
    }

    /// How many streams it has had.
    pub fn epoch(&self) -> u64
        ensures { (r : Record) → StandsSession self.now r → result ≡ length r.session.streams }
    {
        self.lines.epoch()
    }

    /// The code of the cause for which it has ended: `None` exactly where it hasn't.
    pub fn ended(&self) -> Option<u16>
        ensures { (r : Record) → StandsSession self.now r → result ≡ ended_by r.session.life }
    {
        match self.lines.life() {
            Life::Alive => None,
            Life::Ending(code) => Some(code),
            Life::Ended(code) => Some(code),
        }
    }

    /// Whether it hasn't ended.
    pub fn is_alive(&self) -> bool
        ensures { (r : Record) → StandsSession self.now r → result ≡ is_alive r.session.life }
    {
        match self.lines.life() {
            Life::Alive => true,
            Life::Ending(_) => false,
            Life::Ended(_) => false,
        }
    }
}
