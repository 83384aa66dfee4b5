//! A session behind its lock.
ghost use Rattle.std.specs.Prelude.{◌≡◌, ◌≤◌, ◌<◌, ◌+◌, ◌∷◌, [], ℕ, None, Some, IfOk, IfSome, IsTrue, length, is_some, true, false};
ghost use Rattle.std.specs.Option.{ForSome};
ghost use Rattle.ls_value.specs.Each.{Each};
ghost use Rattle.ls_value.specs.declared.limits.TheConstants.{GREATEST_TICK};
ghost use Rattle.ls_register.specs.declared.told.Told.TheVariants as told_is;
ghost use Rattle.ls_told.specs.Heard.{heard, counts_as, CountsOn};
ghost use Rattle.ls_told.specs.Seen.{IsDeclared};
ghost use Rattle.ls_told.specs.Requests.{InTime};
ghost use Rattle.ls_record.specs.Records.{is_alive};
ghost use Rattle.ls_record.specs.declared.TheConstants.{MOST_UNBOUND};
ghost use Rattle.ls_joining.specs.Sights.{ShowsIt};
ghost use Rattle.ls_joining.specs.Lives.{Lives};
ghost use Rattle.ls_joining.specs.Leaving.{IsOverdue};

use ls_bell::Bell;
use ls_chron::Sign;
use ls_joining::{History, SessionParts, is_past};
use ls_record::MOST_UNBOUND;
use ls_register::{House, Place, Told};
use ls_request::Create;
use ls_session::Session;
use ls_value::NoMemory;
use std::alloc::Global;
use std::marker::Model;
use std::sync::Arc;

/// A session with its history, what it has seen of its items, and its seats on them. Contracts see its number, its place
/// in the register, its history with its table, and its watches. It stands for a record of which the history tells, and
/// which is lawful on what was seen of the items.
#[derive(Drop)]
pub struct LiveSession<N: House> {
    pub(crate) parts: Box<SessionParts<N>>,
}

impl<N: House> Model for LiveSession<N> {
    ghost use Rattle.std.specs.Prelude.{◌≡◌, IfSome};
    ghost use Rattle.ls_joining.specs.Speaking.{Speaking};

    ghost Value = { Speaking };

    ghost use Rattle.ls_joining.specs.Sights.{ShowsIt};
    ghost use Rattle.ls_joining.specs.Lives.{Lives};

    ghost view = { λ s. record {
      number = s.parts.value.number;
      place = s.parts.value.place;
      table = s.parts.value.history.table;
      lines = s.parts.value.history.list;
      watches = s.parts.value.watches.items;
    } };

    ghost invariant = { λ s.
        Lives N.deed.config s.parts.value.number s.parts.value.history.list s.parts.value.watches.items s.parts.value.subs.items s.parts.value.session
        × IfSome s.parts.value.place (λ p. ShowsIt p s.parts.value.number s.parts.value.history.table) };
}

impl<N: House> LiveSession<N> {
    /// A new session of this number at a tick, in ms, of at most [`GREATEST_TICK`](ls_value::GREATEST_TICK), whose first
    /// stream is bound. It has no place in the register yet.
    pub fn open(
        alloc: Global,
        number: u64,
        create: &Create,
        now: u64,
        bell: Arc<Bell, Global>,
    ) -> Result<LiveSession<N>, NoMemory>
        requires tick { now ≤ GREATEST_TICK }
        requires limit { ForSome create.now.bandwidth (λ limit. 0 < limit) }
        requires items { Each IsDeclared N.deed.config }
        ensures number { IfOk result (λ s. s.number ≡ number) }
        ensures place { IfOk result (λ s. s.place ≡ None) }
        ensures lines { IfOk result (λ s. s.lines ≡ told_is.Rate create.now.bandwidth now
            ∷ told_is.Bound 1 0 false create.now.keepalive create.now.length ∷ []) }
        ensures watches { IfOk result (λ s. s.watches ≡ []) }
    {
        let session = Session::new(alloc, number, create, now)?;
        let mut history = History::start(alloc)?;
        let rate = Told::Rate {
            rate: create.bandwidth,
            tick: now,
        };
        let bound = Told::Bound {
            epoch: 1,
            from: 0,
            counted: false,
            keepalive: create.keepalive,
            length: create.length,
        };
        history.tell(&rate);
        history.tell(&bound);
        let parts = SessionParts {
            alloc,
            number,
            session,
            history,
            place: None,
            watches: Vec::new(alloc),
            subs: Vec::new(alloc),
            bell,
        };
        Ok(LiveSession {
            parts: Box::new(alloc, parts)?,
        })
    }

    /// The table of its history, which contracts see. It takes no memory.
    pub fn sign(&mut self) -> Sign<Told>
        ensures { (result ≡ self.old.table) × (self.new ≡ self.old) }
    {
        self.parts.history.sign()
    }

    /// The session at its place in the register.
    pub fn at(self, place: Place<N>) -> LiveSession<N>
        requires { ShowsIt place self.number self.table }
        ensures { result ≡ record self { place = Some place } }
    {
        let LiveSession { mut parts } = self;
        parts.place = Some(place);
        LiveSession { parts }
    }

    /// The session in parts, for which it stands for a record.
    pub fn into_parts(self) -> Box<SessionParts<N>>
        ensures number { result.value.number ≡ self.number }
        ensures place { result.value.place ≡ self.place }
        ensures history { (result.value.history.table ≡ self.table) × (result.value.history.list ≡ self.lines) }
        ensures watches { result.value.watches.items ≡ self.watches }
        ensures lives { Lives N.deed.config self.number self.lines self.watches result.value.subs.items result.value.session }
        ensures shows { IfSome self.place (λ p. ShowsIt p self.number self.table) }
    {
        let LiveSession { parts } = self;
        parts
    }

    /// The session of parts that stand for a record.
    pub fn of_parts(parts: Box<SessionParts<N>>) -> LiveSession<N>
        requires lives { Lives N.deed.config parts.value.number parts.value.history.list parts.value.watches.items parts.value.subs.items parts.value.session }
        requires shows { IfSome parts.value.place (λ p. ShowsIt p parts.value.number parts.value.history.table) }
        ensures { result ≡ record {
          number = parts.value.number;
          place = parts.value.place;
          table = parts.value.history.table;
          lines = parts.value.history.list;
          watches = parts.value.watches.items;
        } }
    {
        LiveSession { parts }
    }

    /// Its number.
    pub fn number(&self) -> u64
        ensures { result ≡ self.now.number }
    {
        self.parts.number
    }

    /// The bell that is rung where there may be something to give.
    pub fn bell(&self) -> &Bell {
        &self.parts.bell
    }

    /// Whether it has a place in the register.
    pub fn is_placed(&self) -> bool
        ensures { result ≡ is_some self.now.place }
    {
        self.parts.place.is_some()
    }

    /// The tick, in ms, since which no stream is bound: `None` exactly where one is.
    pub fn since(&self) -> Option<u64>
        ensures { result ≡ (heard self.now.number self.now.lines).unbound }
    {
        self.parts.session.since()
    }

    /// How many streams it has had: the epoch of the newest one.
    pub fn epoch(&self) -> u64
        ensures { result ≡ length (heard self.now.number self.now.lines).streams }
    {
        self.parts.session.epoch()
    }

    /// Whether it hasn't ended.
    pub fn is_alive(&self) -> bool
        ensures { result ≡ is_alive (heard self.now.number self.now.lines).life }
    {
        self.parts.session.is_alive()
    }

    /// Whether it hasn't ended and is without a stream for [`MOST_UNBOUND`](ls_record::MOST_UNBOUND) ms at a tick or
    /// longer. A tick below those of the entries counts as the greatest of them.
    pub fn is_overdue(&self, now: u64) -> bool
        requires { now ≤ GREATEST_TICK }
        ensures overdue { IsTrue result → IsOverdue (counts_as now self.now.lines) (heard self.now.number self.now.lines) }
        ensures in_time { result ≡ false → is_alive (heard self.now.number self.now.lines).life ≡ true
            → InTime (counts_as now self.now.lines) (heard self.now.number self.now.lines) }
    {
        let tick = self.parts.history.tick(now);
        let since = self.parts.session.since();
        self.parts.session.is_alive() && is_late(since, tick)
    }

    /// Its streams have epochs that count on from 1.
    pub fn says(&self)
        ensures { CountsOn 0 self.now.lines }
    {
        let _ = &self.parts;
    }

    /// How many entries its history has.
    pub fn entries(&self) -> u64
        ensures { result ≡ length self.now.lines }
    {
        self.parts.history.count()
    }

    /// How many items it watches.
    pub fn watched(&self) -> usize
        ensures { result ≡ length self.now.watches }
    {
        self.parts.watches.len()
    }
}

/// Whether no stream is bound since so long before a tick that the session is to end.
fn is_late(since: Option<u64>, tick: u64) -> bool
    ensures late { IsTrue result → (s : ℕ) × (since ≡ Some s) × (s + MOST_UNBOUND ≤ tick) }
    ensures in_time { result ≡ false → ForSome since (λ s. tick < s + MOST_UNBOUND) }
{
    match since {
        None => false,
        Some(since) => is_past(since, MOST_UNBOUND, tick),
    }
}
