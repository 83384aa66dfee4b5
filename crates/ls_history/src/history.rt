//! A session's history, and what its entries say so far.
ghost use Rattle.std.specs.Prelude.{◌≡◌, ◌≤◌, ◌<◌, ◌+◌, ◌^◌, ◌++◌, ◌∷◌, [], ℕ, List, Some, None, IfOk, IsTrue, IsFalse, IsSome, false, length};
ghost use Rattle.std.specs.Prelude.{option_map};
ghost use mathlib.Core.List.{IsPrefix};
ghost use Rattle.ls_value.specs.declared.limits.TheConstants.{GREATEST_TICK};
ghost use Rattle.ls_line.specs.declared.limits.TheConstants.{LONGEST_TEXT};
ghost use Rattle.ls_register.specs.declared.told.Told.{Told as Entry};
ghost use Rattle.ls_register.specs.declared.told.Told.TheVariants as told_is;
ghost use Rattle.ls_register.specs.declared.told.Numbered.{Numbered as LineTold};
ghost use Rattle.ls_told.specs.Heard.{tick_or, keepalive_or, rebind_or, counts_as, keepalive_of, has_rebind, last_given};
ghost use Rattle.ls_told.specs.Requests.{is_spent};
ghost use Rattle.ls_told.specs.Turns.{IsSilent, SpokeInTime};
ghost use Rattle.ls_history.specs.Counting.{Counts, GivenIs, line_given};

use ls_chron::{Chron, Reader, Sign, Writer};
use ls_line::LineBuf;
use ls_register::{Begun, Numbered, Told};
use ls_turns::SlotRef;
use ls_value::{GREATEST_NUMBER, NoMemory};
use std::alloc::Global;
use std::marker::Model;

/// A line that was given: the stream's epoch and the tick, in ms.
#[derive(Clone, Copy)]
pub(crate) struct Given {
    pub(crate) epoch: u64,
    pub(crate) tick: u64,
}

/// What the entries of a history say: how many there are, the greatest tick, the keep-alive of the newest stream in ms,
/// the line that was given last, and whether the newest stream is to be left by LOOP.
#[derive(Clone, Copy)]
pub(crate) struct Counters {
    pub(crate) entries: u64,
    pub(crate) latest: u64,
    pub(crate) keepalive: u32,
    pub(crate) given: Option<Given>,
    pub(crate) forced: bool,
}

/// A cut of a slot: the slot, its cursor before and after it, and the number of the event at which its row stands. Where no
/// cut made a line, there is no slot, and the numbers are 0.
#[derive(Clone, Copy)]
pub struct CutOf {
    pub slot: Option<SlotRef>,
    pub before: u64,
    pub upto: u64,
    pub at: u64,
}

/// A session's history with its writer. Contracts see its table and its entries. It has room for the longest line, in
/// which the texts of entries stand while they are appended.
#[derive(Drop)]
pub struct History {
    chron: Chron<Told>,
    writer: Writer<Told>,
    counters: Counters,
    text: Option<LineBuf>,
}

impl Model for History {
    ghost use Rattle.std.specs.Prelude.{◌≡◌, IsSome};
    ghost use Rattle.ls_chron.specs.Seen.{Seen};
    ghost use Rattle.ls_register.specs.declared.told.Told.{Told as Entry};
    ghost use Rattle.ls_history.specs.Counting.{Counts};

    ghost Value = { Seen Entry };

    ghost view = { λ h. record { table = h.chron; list = h.writer.list } };

    ghost invariant = { λ h. (h.writer.table ≡ h.chron) × Counts h.counters h.writer.list × IsSome h.text };
}

impl History {
    /// An empty history. After `NoMemory` there is none.
    pub fn start(alloc: Global) -> Result<History, NoMemory>
        ensures { IfOk result (λ h. h.list ≡ []) }
    {
        let (chron, writer) = Chron::start(alloc)?;
        let text = LineBuf::new(alloc)?;
        Ok(History {
            chron,
            writer,
            counters: no_entries(),
            text: Some(text),
        })
    }

    /// Its table, which contracts see.
    pub fn sign(&mut self) -> Sign<Told>
        ensures { (result ≡ self.old.table) × (self.new ≡ self.old) }
    {
        self.chron.note(&mut self.writer).sign()
    }

    /// How many entries it has.
    pub fn count(&self) -> u64
        ensures { result ≡ length self.now.list }
    {
        self.counters.entries
    }

    /// Whether it is spent: it has [`GREATEST_NUMBER`](ls_value::GREATEST_NUMBER) entries or more.
    pub fn is_spent(&self) -> bool
        ensures { result ≡ is_spent self.now.list }
    {
        self.counters.entries >= GREATEST_NUMBER
    }

    /// The tick, in ms, as which another one counts: no less than those of the entries.
    pub fn tick(&self, now: u64) -> u64
        requires { now ≤ GREATEST_TICK }
        ensures tick { result ≡ counts_as now self.now.list }
        ensures most { result ≤ GREATEST_TICK }
    {
        now.max(self.counters.latest)
    }

    /// The keep-alive of the newest stream, in ms.
    pub fn keepalive(&self) -> u32
        ensures { result ≡ keepalive_of self.now.list }
    {
        self.counters.keepalive
    }

    /// Whether the newest stream is to be left by LOOP.
    pub fn is_forced(&self) -> bool
        ensures { result ≡ has_rebind self.now.list }
    {
        self.counters.forced
    }

    /// Whether the line that was given last is of this epoch, and was given its keep-alive before a tick, in ms, or earlier
    /// (TLCP 2.1, PROBE).
    pub fn is_silent(&self, epoch: u64, tick: u64) -> bool
        ensures silent { IsTrue result → IsSilent epoch tick self.now.list }
        ensures spoke { IsFalse result → SpokeInTime epoch tick self.now.list }
    {
        match self.counters.given {
            None => false,
            Some(last) => is_silent(last, self.counters.keepalive, epoch, tick),
        }
    }

    /// A reader that has all of it.
    pub fn note(&mut self) -> Reader<Told>
        ensures { (result ≡ self.old) × (self.new ≡ self.old) }
    {
        self.chron.note(&mut self.writer)
    }

    /// A reader of it then has all of it. It takes no memory.
    pub fn show(&mut self, reader: &mut Reader<Told>)
        requires { reader.old.table ≡ self.old.table }
        ensures same { self.new ≡ self.old }
        ensures beginning { IsPrefix reader.old.list self.old.list }
        ensures reader { reader.new ≡ self.old }
    {
        self.chron.whole(&mut self.writer, reader);
    }

    /// Has an entry more. Its tick, in ms, if it has one, is at most [`GREATEST_TICK`](ls_value::GREATEST_TICK). It takes no
    /// memory.
    pub fn tell(&mut self, told: &Told)
        requires room { length self.old.list < 2 ^ 61 }
        requires tick { tick_or 0 told.now ≤ GREATEST_TICK }
        ensures { self.new ≡ record self.old { list = self.old.list ++ told.now ∷ [] } }
    {
        let History {
            chron,
            writer,
            counters,
            text: _,
        } = self;
        add(chron, writer, counters, told);
    }

    /// Tells that a text was given on the stream of an epoch at a tick, in ms. It takes no memory.
    pub fn tell_given(&mut self, epoch: u64, given: &[u8], tick: u64)
        requires room { length self.old.list < 2 ^ 61 }
        requires short { length given.now ≤ LONGEST_TEXT }
        requires tick { tick ≤ GREATEST_TICK }
        ensures { self.new ≡ record self.old { list = self.old.list ++ told_is.Gave epoch given.now tick ∷ [] } }
    {
        let History {
            chron,
            writer,
            counters,
            text,
        } = self;
        add_given(chron, writer, counters, text, epoch, given, tick);
    }

    /// Tells that a line was numbered at a tick, in ms, by a cut of a slot or without one ([`no_cut`]). It takes no memory.
    pub fn tell_numbered(&mut self, line: &[u8], cut: CutOf, tick: u64)
        requires room { length self.old.list < 2 ^ 61 }
        requires short { length line.now ≤ LONGEST_TEXT }
        requires tick { tick ≤ GREATEST_TICK }
        ensures { self.new ≡ record self.old {
          list = self.old.list ++ told_is.Numbered (record {
            text = line.now;
            slot = cut.slot;
            before = cut.before;
            upto = cut.upto;
            at = cut.at;
            begun = None;
            tick = tick;
          }) ∷ [];
        } }
    {
        let History {
            chron,
            writer,
            counters,
            text,
        } = self;
        add_numbered(chron, writer, counters, text, line, cut, None, tick);
    }

    /// Tells that the line with which a subscription begins was numbered at a tick, in ms, and with what it does. It takes
    /// no memory.
    pub fn tell_begun(&mut self, line: &[u8], begun: Begun, tick: u64)
        requires room { length self.old.list < 2 ^ 61 }
        requires short { length line.now ≤ LONGEST_TEXT }
        requires tick { tick ≤ GREATEST_TICK }
        ensures { self.new ≡ record self.old {
          list = self.old.list ++ told_is.Numbered (record {
            text = line.now;
            slot = None;
            before = 0;
            upto = 0;
            at = 0;
            begun = Some begun;
            tick = tick;
          }) ∷ [];
        } }
    {
        let History {
            chron,
            writer,
            counters,
            text,
        } = self;
        let cut = CutOf {
            slot: None,
            before: 0,
            upto: 0,
            at: 0,
        };
        add_numbered(chron, writer, counters, text, line, cut, Some(begun), tick);
    }
}

/// No cut: no slot, and numbers of 0.
pub fn no_cut() -> CutOf
    ensures { result ≡ record { slot = None; before = 0; upto = 0; at = 0 } }
{
    CutOf {
        slot: None,
        before: 0,
        upto: 0,
        at: 0,
    }
}

/// What no entries say.
fn no_entries() -> Counters
    ensures { Counts result [] }
{
    Counters {
        entries: 0,
        latest: 0,
        keepalive: 0,
        given: None,
        forced: false,
    }
}

/// Appends an entry, and counts it.
fn add(chron: &Chron<Told>, writer: &mut Writer<Told>, counters: &mut Counters, told: &Told)
    requires of { writer.old.table ≡ chron.now }
    requires room { length writer.old.list < 2 ^ 61 }
    requires counted { Counts counters.old writer.old.list }
    requires tick { tick_or 0 told.now ≤ GREATEST_TICK }
    ensures table { writer.new.table ≡ writer.old.table }
    ensures list { writer.new.list ≡ writer.old.list ++ told.now ∷ [] }
    ensures counted { Counts counters.new writer.new.list }
{
    let Ok(_) = chron.append(writer, told) else {
        unreachable!()
    };
    *counters = counted(*counters, told);
}

/// What entries say with one more.
fn counted(counters: Counters, told: &Told) -> Counters
    requires room { counters.entries < 2 ^ 61 }
    ensures { (es : List Entry) → tick_or 0 told.now ≤ GREATEST_TICK → Counts counters es
        → Counts result (es ++ told.now ∷ []) }
{
    Counters {
        entries: counters.entries + 1,
        latest: latest_by(counters.latest, told),
        keepalive: keepalive_by(counters.keepalive, told),
        given: given_by(counters.given, told),
        forced: forced_by(counters.forced, told),
    }
}

/// The greatest tick with one entry more.
fn latest_by(latest: u64, told: &Told) -> u64
    ensures { result ≡ tick_or latest told.now }
{
    match told {
        Told::Numbered(line) => latest.max(line.tick),
        Told::Gave { tick, .. } => latest.max(*tick),
        Told::Bound { .. } => latest,
        Told::Rate { tick, .. } => latest.max(*tick),
        Told::Rebind => latest,
        Told::Unbound { tick } => latest.max(*tick),
        Told::Ended { tick, .. } => latest.max(*tick),
    }
}

/// The newest stream's keep-alive with one entry more.
fn keepalive_by(keepalive: u32, told: &Told) -> u32
    ensures { result ≡ keepalive_or keepalive told.now }
{
    match told {
        Told::Bound { keepalive, .. } => *keepalive,
        _ => keepalive,
    }
}

/// The line that was given last with one entry more.
fn given_by(given: Option<Given>, told: &Told) -> Option<Given>
    ensures given { (es : List Entry) → GivenIs given es → GivenIs result (es ++ told.now ∷ []) }
    ensures last { (es : List Entry) → option_map line_given given ≡ last_given es
        → option_map line_given result ≡ last_given (es ++ told.now ∷ []) }
{
    match told {
        Told::Gave { epoch, tick, .. } => Some(Given {
            epoch: *epoch,
            tick: *tick,
        }),
        _ => given,
    }
}

/// Whether the newest stream is to be left by LOOP with one entry more.
fn forced_by(forced: bool, told: &Told) -> bool
    ensures { result ≡ rebind_or forced told.now }
{
    match told {
        Told::Bound { .. } => false,
        Told::Rebind => true,
        _ => forced,
    }
}

/// Whether a line of this epoch was given a keep-alive before a tick or earlier.
fn is_silent(last: Given, keepalive: u32, epoch: u64, tick: u64) -> bool
    ensures silent { (es : List Entry) → IsTrue result → GivenIs (Some last) es → keepalive ≡ keepalive_of es
        → IsSilent epoch tick es }
    ensures spoke { (es : List Entry) → IsFalse result → Some (line_given last) ≡ last_given es
        → keepalive ≡ keepalive_of es → SpokeInTime epoch tick es }
{
    if last.epoch == epoch {
        is_past(last.tick, keepalive as u64, tick)
    } else {
        false
    }
}

/// Whether so many ms have passed at a tick since another one, both in ms.
pub fn is_past(since: u64, ms: u64, tick: u64) -> bool
    ensures past { IsTrue result → since + ms ≤ tick }
    ensures not_past { result ≡ false → tick < since + ms }
{
    if since <= tick {
        tick - since >= ms
    } else {
        false
    }
}

/// Appends that a text was given, in the room for it.
fn add_given(
    chron: &Chron<Told>,
    writer: &mut Writer<Told>,
    counters: &mut Counters,
    room: &mut Option<LineBuf>,
    epoch: u64,
    given: &[u8],
    tick: u64,
)
    requires of { writer.old.table ≡ chron.now }
    requires room { length writer.old.list < 2 ^ 61 }
    requires counted { Counts counters.old writer.old.list }
    requires short { length given.now ≤ LONGEST_TEXT }
    requires tick { tick ≤ GREATEST_TICK }
    requires text { IsSome room.old }
    ensures table { writer.new.table ≡ writer.old.table }
    ensures list { writer.new.list ≡ writer.old.list ++ told_is.Gave epoch given.now tick ∷ [] }
    ensures counted { Counts counters.new writer.new.list }
    ensures text { IsSome room.new }
{
    let Some(mut text) = room.take() else {
        unreachable!()
    };
    text.fill(given);
    let told = Told::Gave { epoch, text, tick };
    add(chron, writer, counters, &told);
    *room = text_of(told);
}

/// Appends that a line was numbered, in the room for its text.
fn add_numbered(
    chron: &Chron<Told>,
    writer: &mut Writer<Told>,
    counters: &mut Counters,
    room: &mut Option<LineBuf>,
    line: &[u8],
    cut: CutOf,
    begun: Option<Begun>,
    tick: u64,
)
    requires of { writer.old.table ≡ chron.now }
    requires room { length writer.old.list < 2 ^ 61 }
    requires counted { Counts counters.old writer.old.list }
    requires short { length line.now ≤ LONGEST_TEXT }
    requires tick { tick ≤ GREATEST_TICK }
    requires text { IsSome room.old }
    ensures table { writer.new.table ≡ writer.old.table }
    ensures list { writer.new.list ≡ writer.old.list ++ told_is.Numbered (record {
      text = line.now;
      slot = cut.slot;
      before = cut.before;
      upto = cut.upto;
      at = cut.at;
      begun = begun;
      tick = tick;
    }) ∷ [] }
    ensures counted { Counts counters.new writer.new.list }
    ensures text { IsSome room.new }
{
    let Some(mut text) = room.take() else {
        unreachable!()
    };
    text.fill(line);
    let told = Told::Numbered(Numbered {
        text,
        slot: cut.slot,
        before: cut.before,
        upto: cut.upto,
        at: cut.at,
        begun,
        tick,
    });
    add(chron, writer, counters, &told);
    *room = text_of(told);
}

/// The room of an entry's text, if it has one.
fn text_of(told: Told) -> Option<LineBuf>
    ensures gave { (epoch tick : ℕ) (text : List ℕ) → told ≡ told_is.Gave epoch text tick → IsSome result }
    ensures numbered { (line : LineTold) → told ≡ told_is.Numbered line → IsSome result }
{
    match told {
        Told::Numbered(line) => Some(text_in(line)),
        Told::Gave { text, .. } => Some(text),
        Told::Bound { .. } => None,
        Told::Rate { .. } => None,
        Told::Rebind => None,
        Told::Unbound { .. } => None,
        Told::Ended { .. } => None,
    }
}

/// The room of a numbered line's text.
fn text_in(line: Numbered) -> LineBuf {
    let Numbered { text, .. } = line;
    text
}
